//! The types of keys that a map takes. Each key of such a type has a number of its own.
ghost use Rattle.std.specs.Prelude.{◌≡◌, ℕ, ◌^◌, ◌<◌, ◌==◌};

mod narrow;
mod wide;

/// A type of keys. Each key has a number below `2 ^ 64` that no other key has.
///
/// A slot is chosen by the low bits of the number: two keys share a slot if and only if their
/// numbers are equal modulo the capacity. Keys with equal low bits therefore share slots, and each
/// call that looks for one of them is slow: addresses, ids shifted left, times in round units,
/// pairs packed as `a << 32 | b`. Number such keys so that their low bits differ: divide by the
/// unit, or use `row * WIDTH + column`.
///
/// A `u8`, `u16`, `u32`, `u64` or `usize` is its own number. So is an `i32` or `i64` that isn't
/// negative; a negative one has the number that is `2 ^ 64` more.
///
/// ```text
/// // A type of yours becomes a type of keys by implementing this trait, as `Article` of the crate
/// // `cells` does. A file that has these lines begins with
/// // `ghost use Rattle.std.specs.Prelude.{◌^◌, ◌<◌, refl};` and
/// // `ghost use Rattle.std.proofs.Common.{ap};`.
/// #[derive(Clone, Copy, PartialEq, Eq)]
/// struct Article {
///     number: u32,
/// }
///
/// impl IntKey for Article {
///     ghost is_valid = { λ article. article.number < 2 ^ 32 };
///
///     ghost number_of = { λ article. article.number };
///
///     ghost number_injective = { λ x y x_is_valid y_is_valid equal.
///         ap (λ number. record x { number = number }) equal };
///
///     ghost eq_agrees = { λ x y x_is_valid y_is_valid. refl };
///
///     fn number(&self) -> u64 {
///         self.number as u64
///     }
/// }
///
/// let map = IntMap::from_array(alloc, [(Article { number: 21 }, 'a')])?;
/// map.get(Article { number: 21 })    // Some('a')
/// ```
pub trait IntKey: Copy + Eq {
    /// What holds of each value of the type, such as its range.
    ghost is_valid: { Self → Type 0 };

    /// The number of a key.
    ghost number_of: { Self → ℕ };

    /// The number of this key.
    fn number(&self) -> u64
        ensures value { result ≡ number_of self.now }
        ensures key { is_valid self.now }
        ensures fits { number_of self.now < 2 ^ 64 };

    /// Two keys with equal numbers are one and the same key.
    ghost number_injective: { (x y : Self)
        → is_valid x → is_valid y → number_of x ≡ number_of y → x ≡ y };

    /// `==` returns whether two keys have equal numbers.
    ghost eq_agrees: { (x y : Self) → is_valid x → is_valid y
        → Self.eq x y ≡ (number_of x == number_of y) };
}

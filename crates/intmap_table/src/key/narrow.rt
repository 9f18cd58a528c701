//! Integers of fewer than 64 bits as keys.
ghost use Rattle.std.specs.Prelude.{◌^◌, ◌<◌, refl};

use super::IntKey;

/// A `u8` is its own number.
impl IntKey for u8 {
    ghost is_valid = { λ key. key < 2 ^ 8 };

    ghost number_of = { λ key. key };

    ghost number_injective = { λ x y x_is_valid y_is_valid equal. equal };

    ghost eq_agrees = { λ x y x_is_valid y_is_valid. refl };

    #[inline(always)]
    fn number(&self) -> u64 {
        *self as u64
    }
}

/// A `u16` is its own number.
impl IntKey for u16 {
    ghost is_valid = { λ key. key < 2 ^ 16 };

    ghost number_of = { λ key. key };

    ghost number_injective = { λ x y x_is_valid y_is_valid equal. equal };

    ghost eq_agrees = { λ x y x_is_valid y_is_valid. refl };

    #[inline(always)]
    fn number(&self) -> u64 {
        *self as u64
    }
}

/// A `u32` is its own number.
impl IntKey for u32 {
    ghost is_valid = { λ key. key < 2 ^ 32 };

    ghost number_of = { λ key. key };

    ghost number_injective = { λ x y x_is_valid y_is_valid equal. equal };

    ghost eq_agrees = { λ x y x_is_valid y_is_valid. refl };

    #[inline(always)]
    fn number(&self) -> u64 {
        *self as u64
    }
}

/// An `i32` that isn't negative is its own number. A negative one has the number `2 ^ 64` more:
/// `-1` has 18446744073709551615, which is `-1i32 as u64` in Rust.
impl IntKey for i32 {
    ghost use Rattle.std.specs.Prelude.{FitsSigned};
    ghost use Rattle.std.specs.Int.{w32};
    ghost use Rattle.std.proofs.Common.{arith};
    ghost use Rattle.std.proofs.lemmas.Int.{ints};
    ghost use Rattle.std.proofs.lemmas.Bool.Decides.{nat_tests};
    ghost use Rattle.intmap_table.specs.Keys.{number_of_signed};

    ghost is_valid = { FitsSigned w32 };

    ghost number_of = { number_of_signed };

    ghost number_injective = { λ x y x_is_valid y_is_valid equal. Prim.grind (arith, ints) };

    ghost eq_agrees = { λ x y x_is_valid y_is_valid. Prim.grind (arith, ints, nat_tests) };

    #[inline(always)]
    fn number(&self) -> u64 {
        i64::from(*self).cast_unsigned()
    }
}

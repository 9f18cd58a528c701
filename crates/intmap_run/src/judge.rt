//! What a run shows of values, and which pairs stay.
ghost use Rattle.std.specs.Prelude.{◌≡◌, Bool};

/// Looks at values, and says which pairs stay.
///
/// A run returns a value only when the value leaves the map. Of the values that stay it shows what
/// a judge sees: a copy, a number, a text, or nothing at all. The example of [`run`](crate::run)
/// has a judge that sees each number as itself, and keeps all.
pub trait Judge<K, V> {
    /// What is seen of a value.
    type Seen: Drop;

    /// What `look` may return for a value: anything within this relation.
    ghost sees: { Self → V → Self.Seen → Type 0 };

    /// What `keep` returns for a key and its value.
    ghost keeps: { Self → K → V → Bool };

    /// What is seen of the value. `Get` calls it if the key is present, `Walk` and `Values` for
    /// each pair in turn.
    fn look(&self, value: &V) -> Self::Seen
        ensures { sees self.now value.now result };

    /// Whether the pair stays. `Retain` calls it once for each pair, in the order of the walk.
    fn keep(&self, key: K, value: &V) -> bool
        ensures { result ≡ keeps self.now key value.now };
}

//! A value as the table stores it. No method but these reads it.
use std::alloc::AllocError;
use std::marker::Model;

/// A value that a table stores. Contracts see it as the value.
#[derive(Drop)]
pub struct Kept<V> {
    value: V,
}

impl<V> Model for Kept<V> {
    ghost Value = { V };

    ghost view = { λ kept. kept.value };
}

impl<V> Kept<V> {
    ghost use Rattle.std.specs.Prelude.{◌≡◌};
    ghost use Rattle.std.specs.Borrow.{sem};
    ghost use Rattle.intmap_table.specs.Lending.{kept_lends};

    /// The value, to be stored.
    #[inline(always)]
    pub fn new(value: V) -> Kept<V>
        ensures { result ≡ value }
    {
        Kept { value }
    }

    /// The value.
    #[inline(always)]
    pub fn get(&self) -> &V
        ensures { result.now ≡ self.now }
    {
        &self.value
    }

    /// A mutable reference to the value.
    #[inline(always)]
    pub fn get_mut(&mut self) -> &mut V
        ensures* writes_back { sem 𝓛 (kept_lends V.row self.entry result) }
        ensures value { result.now ≡ self.old }
    {
        &mut self.value
    }

    /// The value, no longer stored.
    #[inline(always)]
    pub fn into_value(self) -> V
        ensures { result ≡ self }
    {
        self.value
    }
}

impl<V: Clone> Clone for Kept<V> {
    ghost is_clone = { V.is_clone };

    ghost is_infallible = { V.is_infallible };

    fn clone(&self) -> Result<Kept<V>, AllocError> {
        let value = self.value.clone()?;
        Ok(Kept { value })
    }
}

//! Stored keys. They are compared by one method, and that method counts the comparison.
ghost use Rattle.std.specs.Prelude.{◌≡◌, ◌+◌, ◌^◌, ◌<◌, ◌==◌};

use crate::key::IntKey;
use crate::steps::Steps;
use std::marker::Model;

/// A stored key. It has no `==`, and its field is private: [`Stored::matches`] returns whether it
/// is the sought key, and counts one step. [`Stored::key`] is for walks and closures, which hand
/// keys out, and for the numbers of slots. A search of a slot can't call it.
#[derive(Drop)]
pub struct Stored<K: IntKey> {
    key: K,
}

// Invariant: the key is valid.
impl<K: IntKey> Model for Stored<K> {
    ghost Value = { K };

    ghost view = { λ stored. stored.key };

    ghost invariant = { λ stored. K.is_valid stored.key };
}

/// A key that is looked for, with its number, which is asked for once.
#[derive(Drop)]
pub struct Sought<K: IntKey> {
    key: K,
    number: u64,
}

// Invariant: the key is valid, and the number is its own.
impl<K: IntKey> Model for Sought<K> {
    ghost use Rattle.std.specs.Prelude.{◌≡◌};

    ghost Value = { K };

    ghost view = { λ sought. sought.key };

    ghost invariant = { λ sought. K.is_valid sought.key
        × (sought.number ≡ K.number_of sought.key) };
}

impl<K: IntKey> Sought<K> {
    /// The key, once its number is known.
    #[inline(always)]
    pub fn new(key: K) -> Sought<K>
        ensures value { result ≡ key }
        ensures known { K.is_valid key }
    {
        Sought {
            key,
            number: key.number(),
        }
    }

    /// The key.
    #[inline(always)]
    pub fn key(&self) -> K
        ensures value { result ≡ self.now }
        ensures known { K.is_valid self.now }
    {
        self.key
    }

    /// A copy of the key, with the number that is known.
    #[inline(always)]
    pub fn copied(&self) -> Sought<K>
        ensures { result ≡ self.now }
    {
        Sought {
            key: self.key,
            number: self.number,
        }
    }

    /// Its number.
    #[inline(always)]
    pub(crate) fn number(&self) -> u64
        ensures value { result ≡ K.number_of self.now }
        ensures fits { K.number_of self.now < 2 ^ 64 }
        ensures known { K.is_valid self.now }
    {
        self.number
    }
}

impl<K: IntKey> Stored<K> {
    /// Stores a key that was looked for.
    #[inline(always)]
    pub(crate) fn new(key: Sought<K>) -> Stored<K>
        ensures value { result ≡ key }
        ensures known { K.is_valid key }
    {
        Stored { key: key.key }
    }

    /// A copy of the stored key. It counts no step, since nothing is compared.
    #[inline(always)]
    pub(crate) fn copied(&self) -> Stored<K>
        ensures value { result ≡ self.now }
    {
        Stored { key: self.key }
    }

    /// Whether this is the sought key. It counts one step.
    #[inline(always)]
    pub(crate) fn matches(&self, key: &Sought<K>, steps: &mut Steps) -> bool
        ensures same { result ≡ (K.number_of self.now == K.number_of key.now) }
        ensures counted { steps.new ≡ steps.old + 1 }
    {
        steps.tick();
        self.key.number() == key.number
    }

    /// The key, to be returned or to compute its slot.
    #[inline(always)]
    pub(in crate::table) fn key(&self) -> &K
        ensures value { result.now ≡ self.now }
        ensures known { K.is_valid self.now }
    {
        &self.key
    }
}

//! The iterators over two sets. As they go, they look up the members of one in the other.
ghost use Rattle.std.specs.Iterator.{YieldsFirstBy, item_count};

use crate::set::IntSet;
use crate::set::iter::Keys;
use intmap::IntKey;
use std::alloc::{Allocator, Global};
use std::marker::Model;

/// The members of one set that are absent from another, by reference, made by
/// [`IntSet::difference`](crate::IntSet::difference). Contracts see it as the list of those that
/// are left.
#[derive(Drop)]
pub struct Difference<'a, K: IntKey, A: Allocator + Copy = Global> {
    pub(crate) keys: Keys<'a, K, (), A>,
    pub(crate) other: &'a IntSet<K, A>,
}

impl<'a, K: IntKey, A: Allocator + Copy> Model for Difference<'a, K, A> {
    ghost use Rattle.std.specs.Prelude.{List};
    ghost use Rattle.intmap_set.specs.Combined.{difference_of};

    ghost Value = { List K };

    ghost view = { λ it. difference_of K.number_of it.keys it.other.now.walk };
}

impl<'a, K: IntKey, A: Allocator + Copy> Iterator for Difference<'a, K, A> {
    type Item = &'a K;

    ghost next_gives = { YieldsFirstBy (λ key. key.now) (λ rest. rest) };

    ghost remaining = { item_count (λ rest. rest) };

    fn next(&mut self) -> Option<&'a K> {
        while let Some(key) = self.keys.next() {
            if !self.other.contains(*key) {
                return Some(key);
            }
        }
        None
    }
}

/// The members that two sets have, by reference, made by
/// [`IntSet::intersection`](crate::IntSet::intersection). Contracts see it as the list of those
/// that are left.
#[derive(Drop)]
pub struct Intersection<'a, K: IntKey, A: Allocator + Copy = Global> {
    pub(crate) keys: Keys<'a, K, (), A>,
    pub(crate) other: &'a IntSet<K, A>,
}

impl<'a, K: IntKey, A: Allocator + Copy> Model for Intersection<'a, K, A> {
    ghost use Rattle.std.specs.Prelude.{List};
    ghost use Rattle.intmap_set.specs.Combined.{common_of};

    ghost Value = { List K };

    ghost view = { λ it. common_of K.number_of it.keys it.other.now.walk };
}

impl<'a, K: IntKey, A: Allocator + Copy> Iterator for Intersection<'a, K, A> {
    type Item = &'a K;

    ghost next_gives = { YieldsFirstBy (λ key. key.now) (λ rest. rest) };

    ghost remaining = { item_count (λ rest. rest) };

    fn next(&mut self) -> Option<&'a K> {
        while let Some(key) = self.keys.next() {
            if self.other.contains(*key) {
                return Some(key);
            }
        }
        None
    }
}

/// The members of either set by reference, made by [`IntSet::union`](crate::IntSet::union).
/// Contracts see it as the list of those that are left.
#[derive(Drop)]
pub struct Union<'a, K: IntKey, A: Allocator + Copy = Global> {
    pub(crate) first: Keys<'a, K, (), A>,
    pub(crate) second: Difference<'a, K, A>,
}

impl<'a, K: IntKey, A: Allocator + Copy> Model for Union<'a, K, A> {
    ghost use Rattle.std.specs.Prelude.{List, ◌++◌};

    ghost Value = { List K };

    ghost view = { λ it. it.first ++ it.second };
}

impl<'a, K: IntKey, A: Allocator + Copy> Iterator for Union<'a, K, A> {
    type Item = &'a K;

    ghost next_gives = { YieldsFirstBy (λ key. key.now) (λ rest. rest) };

    ghost remaining = { item_count (λ rest. rest) };

    fn next(&mut self) -> Option<&'a K> {
        if let Some(key) = self.first.next() {
            return Some(key);
        }
        self.second.next()
    }
}

/// The members that exactly one of two sets has, by reference, made by
/// [`IntSet::symmetric_difference`](crate::IntSet::symmetric_difference). Contracts see it as the
/// list of those that are left.
#[derive(Drop)]
pub struct SymmetricDifference<'a, K: IntKey, A: Allocator + Copy = Global> {
    pub(crate) first: Difference<'a, K, A>,
    pub(crate) second: Difference<'a, K, A>,
}

impl<'a, K: IntKey, A: Allocator + Copy> Model for SymmetricDifference<'a, K, A> {
    ghost use Rattle.std.specs.Prelude.{List, ◌++◌};

    ghost Value = { List K };

    ghost view = { λ it. it.first ++ it.second };
}

impl<'a, K: IntKey, A: Allocator + Copy> Iterator for SymmetricDifference<'a, K, A> {
    type Item = &'a K;

    ghost next_gives = { YieldsFirstBy (λ key. key.now) (λ rest. rest) };

    ghost remaining = { item_count (λ rest. rest) };

    fn next(&mut self) -> Option<&'a K> {
        if let Some(key) = self.first.next() {
            return Some(key);
        }
        self.second.next()
    }
}

//! One bit for each index.
ghost use Rattle.std.specs.Prelude.{◌≡◌, ℕ, List, Bool, ◌+◌, ◌*◌, ◌/◌, ◌^◌, ◌<◌, ◌≤◌, true, false, length, replicate, slice_set, IfOk, IfSome, IfNone, ⊤};
ghost use Rattle.std.specs.Iterator.{YieldsFirstBy, item_count};
ghost use Rattle.intmap_table.specs.Tables.Bits.{marked, marked_indices, IsNextMark, IsWordFrom, IsWordOf};

use std::alloc::{AllocError, Allocator};
use std::marker::Model;

/// The number of bits of a word.
pub(crate) const BITS: usize = 64;

/// One bit for each index: whether it is marked.
#[derive(Drop)]
pub(crate) struct Bits<A: Allocator> {
    words: Vec<u64, A>,
}

// Invariant: there are at most 2^63 bits.
impl<A: Allocator> Model for Bits<A> {
    ghost use Rattle.std.specs.Prelude.{List, Bool, ◌*◌, ◌^◌, ◌≤◌, length};
    ghost use Rattle.intmap_table.specs.Tables.Bits.{marks_of};

    ghost Value = { List Bool };

    ghost view = { λ bits. marks_of bits.words.items };

    ghost invariant = { λ bits. 64 * length bits.words.items ≤ 2 ^ 63 };
}

/// The marks of one word that a walk hasn't passed yet, and the place of this word. The walk reads
/// the next word only once this one has no mark left.
#[derive(Drop)]
pub(crate) struct MarksLeft {
    pub(crate) at: usize,
    pub(crate) word: u64,
}

impl<A: Allocator> Bits<A> {
    /// The word that has the bit of an index.
    #[inline(always)]
    pub(crate) fn word(&self, index: usize) -> u64
        requires { index < length self.now }
        ensures { IsWordOf self.now index result }
    {
        self.words[index / BITS]
    }

    /// Replaces the word that has the bit of an index. The bits of other words stay.
    #[inline(always)]
    pub(crate) fn set_word(&mut self, index: usize, word: u64)
        requires { index < length self.old }
        ensures word { IsWordOf self.new index word }
        ensures others { (j : ℕ) → (j / 64 ≡ index / 64 → ⊥)
            → marked self.new j ≡ marked self.old j }
        ensures len { length self.new ≡ length self.old }
    {
        self.words[index / BITS] = word;
    }

    /// Marks an index, whose word was read before. No other index changes.
    #[inline(always)]
    pub(crate) fn set_in(&mut self, word: u64, index: usize)
        requires within { index < length self.old }
        requires word { IsWordOf self.old index word }
        ensures { self.new ≡ slice_set self.old index true }
    {
        self.words[index / BITS] = word | 1 << (index % BITS);
    }

    /// Clears the mark of an index, whose word was read before. No other index changes.
    #[inline(always)]
    pub(crate) fn clear_in(&mut self, word: u64, index: usize)
        requires within { index < length self.old }
        requires word { IsWordOf self.old index word }
        ensures { self.new ≡ slice_set self.old index false }
    {
        self.words[index / BITS] = word & !(1 << (index % BITS));
    }

    /// Marks an index. No other index changes.
    #[inline(always)]
    pub(crate) fn set(&mut self, index: usize)
        requires { index < length self.old }
        ensures { self.new ≡ slice_set self.old index true }
    {
        self.set_in(self.word(index), index);
    }

    /// Clears the mark of an index. No other index changes.
    #[inline(always)]
    pub(crate) fn clear(&mut self, index: usize)
        requires { index < length self.old }
        ensures { self.new ≡ slice_set self.old index false }
    {
        self.clear_in(self.word(index), index);
    }

    /// Clears all marks.
    pub(crate) fn clear_all(&mut self)
        ensures { self.new ≡ replicate (length self.old) false }
    {
        self.words.as_mut_slice().fill(0);
    }

    /// The number of marked indices.
    pub(crate) fn count(&self) -> usize
        ensures { result ≡ length (marked_indices self.now) }
    {
        let mut marked = 0;
        for word in &self.words {
            marked += word.count_ones() as usize;
        }
        marked
    }

    /// The marked indices, in ascending order.
    #[inline(always)]
    pub(crate) fn iter(&self) -> Indices<'_>
        ensures { result ≡ marked_indices self.now }
    {
        match self.words.split_first() {
            Some((word, words)) => Indices {
                word: *word,
                base: 0,
                words,
            },
            None => Indices {
                word: 0,
                base: 0,
                words: &[],
            },
        }
    }

    /// The marks from an index on that stand in the word of this index.
    #[inline(always)]
    pub(crate) fn marks_from(&self, from: usize) -> MarksLeft
        ensures { IsWordFrom (marked self.now) from result.at result.word }
    {
        let at = from / BITS;
        if at >= self.words.len() {
            return MarksLeft { at, word: 0 };
        }
        let word = self.words[at] & (u64::MAX << (from % BITS));
        MarksLeft { at, word }
    }

    /// The first marked index from `_from` on. Before the call `left` has the marks of its word
    /// from `_from` on, and afterwards those behind the returned index. Only the contract reads
    /// `_from`.
    #[inline(always)]
    pub(crate) fn next_in(&self, left: &mut MarksLeft, _from: usize) -> Option<usize>
        requires { IsWordFrom (marked self.now) _from left.old.at left.old.word }
        ensures some { IfSome result (IsNextMark self.now _from) }
        ensures left { IfSome result (λ i.
            IsWordFrom (marked self.now) (i + 1) left.new.at left.new.word) }
        ensures none { IfNone result ((j : ℕ) → _from ≤ j → marked self.now j ≡ false) }
        ensures stays { IfNone result
            (IsWordFrom (marked self.now) _from left.new.at left.new.word) }
    {
        while left.word == 0 {
            let at = left.at + 1;
            if at >= self.words.len() {
                return None;
            }
            left.word = self.words[at];
            left.at = at;
        }
        let index = left.at * BITS + left.word.trailing_zeros() as usize;
        left.word &= left.word - 1;
        Some(index)
    }
}

impl<A: Allocator + Copy> Bits<A> {
    /// Bits for `indices` indices, rounded up to whole words. No index is marked. It allocates
    /// these words alone.
    pub(crate) fn new(alloc: A, indices: usize) -> Result<Bits<A>, AllocError>
        requires { indices ≤ 2 ^ 63 }
        ensures { IfOk result (λ bits. bits ≡ replicate (64 * ((indices + 63) / 64)) false) }
    {
        let words = vec![in alloc; 0u64; indices.div_ceil(BITS)]?;
        Ok(Bits { words })
    }

    /// A copy of the marks. It allocates the same number of words.
    pub(crate) fn clone(&self) -> Result<Bits<A>, AllocError>
        ensures { IfOk result (λ bits. bits ≡ self.now) }
    {
        let words = Vec::from_slice(*self.words.allocator(), &self.words)?;
        Ok(Bits { words })
    }
}

/// The marked indices that are left: those of the current word, whose first index is the base, and
/// those of the words behind it.
#[derive(Drop)]
pub(crate) struct Indices<'a> {
    word: u64,
    base: usize,
    words: &'a [u64],
}

// Invariant: the words that are left begin at most at bit 2^63.
impl<'a> Model for Indices<'a> {
    ghost use Rattle.std.specs.Prelude.{List, ℕ, ◌∷◌, ◌+◌, ◌*◌, ◌^◌, ◌≤◌, length};
    ghost use Rattle.intmap_table.specs.Tables.Bits.{indices_from};

    ghost Value = { List ℕ };

    ghost view = { λ it. indices_from it.base (it.word ∷ it.words.now) };

    ghost invariant = { λ it. it.base + 64 * length it.words.now ≤ 2 ^ 63 };
}

impl<'a> Clone for Indices<'a> {
    ghost is_clone = { λ it made. made ≡ it };

    ghost is_infallible = { λ _. ⊤ };

    fn clone(&self) -> Result<Indices<'a>, AllocError> {
        Ok(Indices {
            word: self.word,
            base: self.base,
            words: self.words,
        })
    }
}

impl<'a> Iterator for Indices<'a> {
    type Item = usize;

    ghost next_gives = { YieldsFirstBy (λ index. index) (λ rest. rest) };

    ghost remaining = { item_count (λ rest. rest) };

    #[inline(always)]
    fn next(&mut self) -> Option<usize> {
        loop {
            if self.word != 0 {
                let index = self.base + self.word.trailing_zeros() as usize;
                self.word &= self.word - 1;
                return Some(index);
            }
            let Some((word, words)) = self.words.split_first() else {
                return None;
            };
            self.word = *word;
            self.words = words;
            self.base += BITS;
        }
    }
}

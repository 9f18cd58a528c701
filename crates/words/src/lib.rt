//! Words with ids: an interner of texts, over a map from hashes to ids.
//!
//! `rt try --test` in this folder runs its test, `rt test` proves it first, and `rt lib` proves the
//! library.
#![tactic(auto)]

ghost use Rattle.std.specs.Prelude.{◌≡◌, IfOk, IfSome, IsTrue, Some, option_map, slice_get, string_bytes};

use intmap::{Cause, IntMap};
use std::alloc::{AllocError, Global};

/// Words with ids, which are handed out from 0 up: each word is at the place of its id. Words of
/// one hash share a list of ids.
#[derive(Drop)]
pub struct Words {
    words: Vec<String>,
    ids: IntMap<u64, Vec<usize>>,
}

impl Words {
    /// No words. It fails if an allocation fails.
    pub fn new(alloc: Global) -> Result<Words, Cause> {
        Ok(Words {
            words: Vec::new(alloc),
            ids: IntMap::new(alloc)?,
        })
    }

    /// The id of the word: the one that it has, or otherwise the next.
    ///
    /// It fails if there is no memory.
    pub fn id_of(&mut self, alloc: Global, word: &str) -> Result<usize, Cause>
        ensures word { IfOk result (λ id.
            option_map string_bytes (slice_get self.new.words.items id) ≡ Some word.now) }
    {
        let hash = hash_of(word);
        if let Some(id) = self.find(hash, word) {
            return Ok(id);
        }
        let id = self.words.len();
        let word = String::from_str(alloc, word)?;
        let ids = self.ids.entry(hash).or_default()?;
        ids.push(id).map_err(AllocError::from)?;
        self.words.push(word).map_err(AllocError::from)?;
        Ok(id)
    }

    /// The word of the id, if the id was handed out.
    pub fn word_of(&self, id: usize) -> Option<&str> {
        Some(self.words.get(id)?.as_str())
    }

    /// The id of a word of this hash, if it has one.
    fn find(&self, hash: u64, word: &str) -> Option<usize>
        ensures { IfSome result (λ id.
            option_map string_bytes (slice_get self.now.words.items id) ≡ Some word.now) }
    {
        for id in self.ids.get(hash)? {
            if self.is_at(*id, word) {
                return Some(*id);
            }
        }
        None
    }

    /// Whether this is the word of the id.
    fn is_at(&self, id: usize, word: &str) -> bool
        ensures { IsTrue result
            → option_map string_bytes (slice_get self.now.words.items id) ≡ Some word.now }
    {
        let Some(known) = self.words.get(id) else {
            return false;
        };
        known.as_str() == word
    }
}

/// The hash of a word. Words of one hash are compared, so any number serves.
fn hash_of(word: &str) -> u64 {
    let mut hash = 0xcbf2_9ce4_8422_2325u64;
    for byte in word.bytes() {
        hash = (hash ^ byte as u64).wrapping_mul(0x100_0000_01b3);
    }
    hash
}

#[cfg(test)]
mod tests {
    use super::*;
    use std::test::Fail;

    #[test]
    fn a_word_keeps_its_id(rt: HostRuntime) -> Result<(), Fail> {
        let mut words = Words::new(rt.alloc())?;
        for (word, id) in [("pear", 0), ("fig", 1), ("pear", 0)] {
            assert_eq!(rt; words.id_of(rt.alloc(), word)?, id, "{word}");
        }
        assert_eq!(rt; words.word_of(1), Some("fig"));
        Ok(())
    }
}

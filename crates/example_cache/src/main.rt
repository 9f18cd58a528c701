//! A cache of two texts, which evicts the text that was not read or written for the longest time.
//! It reads the lines `put KEY TEXT`, `get KEY` and `forget KEY`, and prints what each did.
//!
//! Run it by `rt try <stdin` in this folder, or by `rt run <stdin`, which proves it first.
#![tactic(auto)]

ghost use Rattle.std.specs.Prelude.{◌≡◌, None, option_map};
ghost use Rattle.intmap.specs.Bindings.{value_of};

use anyhow::{Result, bail};
use intmap::IntMap;
use std::alloc::Global;

/// A text, with the time at which it was last used.
#[derive(Debug, Drop)]
struct Cached {
    text: String,
    used: u64,
}

/// Texts by key, at most `limit` of them.
#[derive(Drop)]
struct Cache {
    limit: usize,
    time: u64,
    texts: IntMap<u64, Cached>,
}

impl Cache {
    /// A cache for `limit` texts, with none in it.
    fn new(alloc: Global, limit: usize) -> Result<Cache> {
        Ok(Cache {
            limit,
            time: 0,
            texts: IntMap::with_room_for(alloc, limit)?,
        })
    }

    /// The text of the key, which counts as used now.
    fn get(&mut self, key: u64) -> Option<&str> {
        self.time = self.time.saturating_add(1);
        let cached = self.texts.get_mut(key)?;
        cached.used = self.time;
        Some(cached.text.as_str())
    }

    /// Gives the key a text. If a new key finds the cache full, the key that was unused for the
    /// longest time is removed first, and returned.
    fn put(&mut self, key: u64, text: String) -> Result<Option<u64>> {
        self.time = self.time.saturating_add(1);
        let used = self.time;
        let mut evicted = None;
        if !self.texts.contains_key(key) && self.texts.len() >= self.limit {
            evicted = self.oldest();
        }
        if let Some(oldest) = evicted {
            self.texts.remove(oldest);
        }
        self.texts.insert(key, Cached { text, used })?;
        Ok(evicted)
    }

    /// The key that was unused for the longest time.
    fn oldest(&self) -> Option<u64> {
        let oldest = self.texts.iter().min_by_key(|(_, cached)| cached.used);
        oldest.map(|(key, _)| *key)
    }

    /// Removes the key, and returns its text.
    ///
    /// Proved: the text is that of the key, and the key is absent then.
    fn forget(&mut self, key: u64) -> Option<String>
        ensures text { result ≡ option_map (λ cached. cached.text)
            (value_of (λ key. key) self.old.texts.walk key) }
        ensures absent { value_of (λ key. key) self.new.texts.walk key ≡ None }
    {
        Some(self.texts.remove(key)?.text)
    }
}

/// What a line asks for.
enum Command<'a> {
    Put(u64, &'a str),
    Get(u64),
    Forget(u64),
}

/// The command that a line spells.
fn command_of(line: &str) -> Option<Command<'_>> {
    let (name, rest) = line.split_once(' ')?;
    match name {
        "put" => {
            let (key, text) = rest.split_once(' ')?;
            Some(Command::Put(key.parse().ok()?, text))
        }
        "get" => Some(Command::Get(rest.parse().ok()?)),
        "forget" => Some(Command::Forget(rest.parse().ok()?)),
        _ => None,
    }
}

fn main(rt: HostRuntime) -> Result<()> {
    let mut cache = Cache::new(rt.alloc(), 2)?;
    for (i, line) in rt.lines(rt.alloc()).enumerate() {
        let line = line?;
        let Some(command) = command_of(line.as_str()) else {
            bail!(
                "line {}: not `put KEY TEXT`, `get KEY` or `forget KEY`",
                i + 1
            );
        };
        match command {
            Command::Put(key, text) => {
                match cache.put(key, String::from_str(rt.alloc(), text)?)? {
                    Some(evicted) => println!(rt; "put {key}, evicted {evicted}")?,
                    None => println!(rt; "put {key}")?,
                }
            }
            Command::Get(key) => match cache.get(key) {
                Some(text) => println!(rt; "{key} has {text}")?,
                None => println!(rt; "{key} is absent")?,
            },
            Command::Forget(key) => match cache.forget(key) {
                Some(text) => println!(rt; "forgot {text}")?,
                None => println!(rt; "{key} is absent")?,
            },
        }
    }
    Ok(())
}

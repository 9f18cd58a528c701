//! Texts by number, from a source for the kit's `HashMap<u64, String>`. In the bodies only three
//! things were changed: the types, the places of `?`, and keys, which are passed by value here.
//!
//! A call that returns a `Result` fails if there is no memory or the map would be too large, except
//! `first_length`, which never fails.
ghost use Rattle.std.specs.Prelude.{◌≡◌, IfOk, OnOk, Some, unwrap_or, string_len};
ghost use Rattle.std.specs.Map.{keys_of, values_of};
ghost use Rattle.std.specs.String.{string_bytes};
ghost use Rattle.intmap.specs.Bindings.{value_of, Updates};
ghost use Rattle.std.specs.Option.{option_map};

use intmap::entry::Entry;
use intmap::{Cause, IntMap};
use std::alloc::Global;

/// Texts by number.
pub type Texts = IntMap<u64, String>;

/// The numbers 0 and 1 with their texts.
pub fn first_two(alloc: Global, zero: String, one: String) -> Result<Texts, Cause> {
    IntMap::from_array(alloc, [(0, zero), (1, one)])
}

/// A copy of the word.
fn copy_of(alloc: Global, word: &str) -> Result<String, Cause>
    ensures { IfOk result (λ text. string_bytes text ≡ word.now) }
{
    Ok(String::from_str(alloc, word)?)
}

/// The length of the number's text. If the number has none, it gets the given one first.
pub fn length_or(texts: &mut Texts, number: u64, text: String) -> Result<usize, Cause>
    ensures len { IfOk result (λ len. len
        ≡ string_len (unwrap_or (value_of (λ key. key) texts.old.walk number) text)) }
    ensures updates { OnOk result (Updates (λ key. key) texts.old.walk texts.new.walk number
        (Some (unwrap_or (value_of (λ key. key) texts.old.walk number) text))) }
{
    Ok(texts.entry(number).or_insert_with(|| text)?.len())
}

/// The same with one text for even numbers, and one for odd ones.
pub fn length_by_parity(
    texts: &mut Texts,
    number: u64,
    even: String,
    odd: String,
) -> Result<usize, Cause> {
    let text = texts
        .entry(number)
        .or_insert_with_key(|number| if number % 2 == 0 { even } else { odd })?;
    Ok(text.len())
}

/// The same with a copy of the word, which is made only if the number has no text.
pub fn length_or_copy(
    texts: &mut Texts,
    alloc: Global,
    number: u64,
    word: &str,
) -> Result<usize, Cause> {
    let text = texts
        .entry(number)
        .or_try_insert_with(|| copy_of(alloc, word))?;
    Ok(text.len())
}

/// Puts the word behind the number's text. If the number has no text, it gets an empty one first.
pub fn append(texts: &mut Texts, number: u64, word: &str) -> Result<(), Cause> {
    texts.entry(number).or_default()?.push_str(word)?;
    Ok(())
}

/// Sets the text of the number, and returns its length.
pub fn set(texts: &mut Texts, number: u64, text: String) -> Result<usize, Cause>
    ensures len { IfOk result (λ len. len ≡ string_len text) }
    ensures updates { OnOk result (Updates (λ key. key) texts.old.walk texts.new.walk number
        (Some text)) }
{
    let entry = texts.entry(number).insert_entry(text)?;
    Ok(entry.get().len())
}

/// If the number has a text, removes and returns the number with its text. Otherwise gives it the
/// text. Its contract says what is returned, and nothing of the map.
pub fn toggle(texts: &mut Texts, number: u64, text: String) -> Result<Option<(u64, String)>, Cause>
    ensures { IfOk result (λ taken. taken
        ≡ option_map (λ text. (number, text)) (value_of (λ key. key) texts.old.walk number)) }
{
    match texts.entry(number) {
        Entry::Occupied(entry) => Ok(Some(entry.remove_entry())),
        Entry::Vacant(entry) => {
            entry.insert_entry(text)?;
            Ok(None)
        }
    }
}

/// Removes the empty texts, and returns how many they were.
pub fn drop_empty(texts: &mut Texts) -> usize {
    texts.extract_if(|_, text| text.is_empty()).count()
}

/// The numbers alone.
pub fn numbers(alloc: Global, texts: Texts) -> Result<Vec<u64>, Cause>
    ensures { IfOk result (λ numbers. numbers.items ≡ keys_of texts.walk) }
{
    Ok(texts.into_keys().collect(alloc)?)
}

/// The texts alone.
pub fn texts_alone(alloc: Global, texts: Texts) -> Result<Vec<String>, Cause>
    ensures { IfOk result (λ alone. alone.items ≡ values_of texts.walk) }
{
    Ok(texts.into_values().collect(alloc)?)
}

/// The first pair, the first number and the first text, each by a clone that goes ahead of its
/// iterator. If the three agree, it returns the length of that text.
pub fn first_length(texts: &Texts) -> Result<Option<usize>, Cause> {
    let pairs = texts.iter();
    let numbers = texts.keys();
    let values = texts.values();
    let Some((first, text)) = pairs.clone()?.next() else {
        return Ok(None);
    };
    if numbers.clone()?.next() == Some(first) && values.clone()?.next() == Some(text) {
        return Ok(Some(text.len()));
    }
    Ok(None)
}

/// The pairs, the numbers and the texts as text.
pub fn listing(alloc: Global, texts: &Texts) -> Result<String, Cause> {
    let pairs = texts.iter();
    let numbers = texts.keys();
    let values = texts.values();
    Ok(format!(in alloc; "{pairs:?} {numbers:?} {values:?}")?)
}

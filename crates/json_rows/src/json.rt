//! The calls on JSON. Each row stands alone.

use intmap::{IntMap, JsonCause};
use serde_json::Value;
use std::alloc::{AllocError, Global};

/// A line for each row with another answer than it names, and how many rows there are.
pub fn report(alloc: Global, rows: &str) -> Result<String, AllocError> {
    let mut text = String::new(alloc);
    let mut count = 0u64;
    let mut differing = 0u64;
    for line in rows.lines() {
        let Some((call, wanted)) = line.split_once(" -> ") else {
            continue;
        };
        count = count.wrapping_add(1);
        let answer = answer_of(alloc, call)?;
        if answer.as_str() != wanted {
            differing = differing.wrapping_add(1);
            writeln!(text, "DIFFERS: {line}: the answer is {answer}")?;
        }
    }
    writeln!(text, "{count} rows in all, of which {differing} differ")?;
    Ok(text)
}

// the result of a call
fn answer_of(alloc: Global, call: &str) -> Result<String, AllocError> {
    if let Some(text) = call.strip_prefix("write ") {
        return answer_to_write(alloc, text);
    }
    match call.strip_prefix("members ") {
        Some(count) => answer_to_members(alloc, count.parse::<u64>().unwrap_or(0)),
        None => answer_to_read(alloc, call),
    }
}

// The answers of rows. A call that fails for want of memory is made once more. The answer then has
// the results of both calls, and between them whether what the call reads is as it was.

// the map that is read from a text, with its slots, its keys and the text that is written of it,
// or why there is none
fn answer_to_read(alloc: Global, text: &str) -> Result<String, AllocError> {
    let Some(value) = parse(alloc, text)? else {
        return String::from_str(alloc, "no JSON");
    };
    let before = value.clone()?;
    match IntMap::from_json(alloc, &value) {
        Err(JsonCause::Memory) => {
            let kept = kept_text(value == before);
            let again = read_text(alloc, IntMap::from_json(alloc, &value))?;
            format!(in alloc; "Memory of from_json with its value {kept}, then {again}")
        }
        answer => read_text(alloc, answer),
    }
}

// what is written of a map that the members of an object were inserted into, floats too
fn answer_to_write(alloc: Global, text: &str) -> Result<String, AllocError> {
    let Some(Value::Object(members)) = parse(alloc, text)? else {
        return String::from_str(alloc, "no object");
    };
    let Ok(mut map) = IntMap::new(alloc) else {
        return Err(AllocError);
    };
    for (text, value) in members.iter() {
        let Ok(key) = text.as_str().parse::<u64>() else {
            return String::from_str(alloc, "no number");
        };
        if map.insert(key, value.clone()?).is_err() {
            return Err(AllocError);
        }
    }
    answer_of_to_json(alloc, &map)
}

// the value that a text stands for, if it is JSON
fn parse(alloc: Global, text: &str) -> Result<Option<Value>, AllocError> {
    match Value::from_str(alloc, text) {
        Ok(value) => Ok(Some(value)),
        Err(error) if error.is_memory() => Err(AllocError),
        Err(_) => Ok(None),
    }
}

// the slots, the keys in the order of the walk and the text of a map that was read, or why there is
// none
fn read_text(
    alloc: Global,
    answer: Result<IntMap<u64, Value>, JsonCause>,
) -> Result<String, AllocError> {
    let map = match answer {
        Ok(map) => map,
        Err(cause) => return cause_text(alloc, cause),
    };
    let slots = map.capacity();
    let mut text = format!(in alloc; "{slots} slots, keys")?;
    for key in map.keys() {
        write!(text, " {key}")?;
    }
    let written = answer_of_to_json(alloc, &map)?;
    write!(text, ", {written}")?;
    Ok(text)
}

// the text of the object that is written of a map, or why there is none
fn answer_of_to_json(alloc: Global, map: &IntMap<u64, Value>) -> Result<String, AllocError> {
    let before = state_text(alloc, map)?;
    match map.to_json() {
        Err(JsonCause::Memory) => {
            let kept = kept_text(state_text(alloc, map)? == before);
            let again = written_text(alloc, map.to_json())?;
            format!(in alloc; "Memory of to_json with its map {kept}, then {again}")
        }
        answer => written_text(alloc, answer),
    }
}

// the text of an object that was written, or why there is none
fn written_text(alloc: Global, answer: Result<Value, JsonCause>) -> Result<String, AllocError> {
    match answer {
        Ok(value) => value.to_string(alloc),
        Err(cause) => cause_text(alloc, cause),
    }
}

// all that can be seen of a map
fn state_text(alloc: Global, map: &IntMap<u64, Value>) -> Result<String, AllocError> {
    let slots = map.capacity();
    let factor = map.get_load_factor();
    format!(in alloc; "{slots} slots, load factor {factor}, {map:?}")
}

// whether a call left what it reads, in words
fn kept_text(is_kept: bool) -> &'static str {
    if is_kept { "as before" } else { "CHANGED" }
}

// the name of a cause
fn cause_text(alloc: Global, cause: JsonCause) -> Result<String, AllocError> {
    format!(in alloc; "{cause:?}")
}

// Objects that are made from the number of their members, read and written.

/// How much each key is more than the one before. The first is 0.
const STEP: u64 = 7;

/// The value of the first member. Each is one more than the one before.
const FIRST_VALUE: u64 = 1_000_000_000_000;

// reads an object of `count` members, and says what the map is like, and whether the same object is
// written again, or why there is no map
fn answer_to_members(alloc: Global, count: u64) -> Result<String, AllocError> {
    let text = object_text(alloc, count)?;
    let Some(object) = parse(alloc, text.as_str())? else {
        return String::from_str(alloc, "no JSON");
    };
    match IntMap::from_json(alloc, &object) {
        Ok(map) => both_ways(alloc, &map, &object),
        Err(cause) => cause_text(alloc, cause),
    }
}

// the text of an object of `count` members
fn object_text(alloc: Global, count: u64) -> Result<String, AllocError> {
    let mut text = String::from_str(alloc, "{")?;
    for place in 0..count {
        let between = if place == 0 { "" } else { "," };
        let key = place.wrapping_mul(STEP);
        let value = FIRST_VALUE.wrapping_add(place);
        write!(text, "{between}\"{key}\":{value}")?;
    }
    text.push_str("}")?;
    Ok(text)
}

// the slots, the pairs and their sum, and whether what is written of the map is the object that it
// was read from, or why nothing is
fn both_ways(
    alloc: Global,
    map: &IntMap<u64, Value>,
    object: &Value,
) -> Result<String, AllocError> {
    let slots = map.capacity();
    let pairs = map.len();
    let sum = sum_of(map);
    let written = match map.to_json() {
        Ok(value) => comparison_text(alloc, value == *object)?,
        Err(cause) => cause_text(alloc, cause)?,
    };
    format!(in alloc; "{slots} slots, {pairs} pairs, sum {sum}, {written}")
}

// a sum that depends on the order of the pairs: each key, and then its value, is added to 31 times
// what there is
fn sum_of(map: &IntMap<u64, Value>) -> u64 {
    let mut sum = 0u64;
    for (key, value) in map {
        let value = value.as_u64().unwrap_or(0);
        sum = sum.wrapping_mul(31).wrapping_add(*key);
        sum = sum.wrapping_mul(31).wrapping_add(value);
    }
    sum
}

// whether the object that was read is written again, in words
fn comparison_text(alloc: Global, is_same: bool) -> Result<String, AllocError> {
    String::from_str(
        alloc,
        if is_same {
            "written as read"
        } else {
            "written otherwise"
        },
    )
}

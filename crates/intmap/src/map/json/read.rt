//! A map from a JSON object.
ghost use Rattle.std.specs.Prelude.{◌≡◌, ◌↔◌, ◌^◌, ◌<◌, ◌≤◌, length, IfOk, IfErr, IsErrOf, IsNone, IsSomeAnd, IsTrue, ℕ};
ghost use Rattle.serde_json.specs.Events.{members_len};
ghost use Rattle.serde_json.specs.Find.{as_object};
ghost use Rattle.serde_json.specs.View.{view, members_view};
ghost use Rattle.serde_json.specs.Written.{members_have_float};
ghost use Rattle.intmap.specs.Json.{HasKeyTexts, Shows, ShowsBindings, AreRead, AreTooMany, MayRefuseToRead, IsKeyText};
ghost use Rattle.intmap.specs.Map.{IsMap};

use crate::decimal::key_of;
use crate::map::IntMap;
use crate::map::json::{JsonCause, holds_float};
use serde_json::{Map, Value};
use std::alloc::Global;

impl IntMap<u64, Value> {
    /// A map from the number of each member's key to a clone of the member's value. It is made by
    /// [`with_capacity`](IntMap::with_capacity) of the number of members, and then
    /// [`insert`](IntMap::insert) of each member in turn, in the byte order of the keys. The JSON
    /// value stays as it is.
    ///
    /// Each key must be the canonical text of a number of at most 2^64 - 1: decimal digits with no
    /// sign and no leading zero.
    ///
    /// It fails with [`JsonCause::NotAnObject`] if and only if the JSON value isn't an object;
    /// otherwise with [`JsonCause::BadKey`] if and only if a key isn't canonical; otherwise with
    /// [`JsonCause::HoldsFloat`] if and only if a member's value holds, at any depth, a number that
    /// is neither a `u64` nor an `i64`. These are checked in this order, without allocating. After
    /// that it fails if `with_capacity` or an insertion does, with the same cause, or if a clone
    /// does, with [`JsonCause::Memory`]. What was made until then is dropped.
    ///
    /// Each key is read twice, and each part of each value is checked once and cloned once. The
    /// rest is the cost of the insertions. The check and the clone go as deep as the value, and so
    /// does dropping it: only the stack bounds how deep a value may be.
    ///
    /// ```text
    /// let value = Value::from_str(alloc, r#"{"0":0,"1":1,"2":2,"3":3}"#)?;
    /// let map = IntMap::from_json(alloc, &value)?;
    /// map.keys()        // [0, 2, 1, 3]
    /// map.capacity()    // 8
    /// IntMap::from_json(alloc, &Value::from_str(alloc, r#"{"05":null}"#)?)    // Err(BadKey)
    /// IntMap::from_json(alloc, &Value::from_str(alloc, r#"{"+5":1.5}"#)?)     // Err(BadKey)
    /// IntMap::from_json(alloc, &Value::from_str(alloc, r#"{"5":1.5}"#)?)      // Err(HoldsFloat)
    /// IntMap::from_json(alloc, &Value::from_str(alloc, "[5]")?)               // Err(NotAnObject)
    /// ```
    pub fn from_json(alloc: Global, value: &Value) -> Result<IntMap<u64, Value>, JsonCause>
        // what is made
        ensures reads { IfOk result
            (λ made. IsSomeAnd (as_object (view value.now)) (λ ms. AreRead ms made)) }
        ensures len { IfOk result (λ made. IsSomeAnd (as_object (view value.now))
            (λ ms. length made.walk ≡ members_len ms)) }
        ensures shows { IfOk result (λ made. Shows (view value.now) made.walk) }
        ensures valid { IfOk result (IsMap (λ key. key) (λ key. key < 2 ^ 64)) }

        // when it fails
        ensures not_an_object { IsErrOf result JsonCause.NotAnObject
            ↔ IsNone (as_object (view value.now)) }
        ensures bad_key { IsErrOf result JsonCause.BadKey
            ↔ IsSomeAnd (as_object (view value.now)) (λ ms. ¬ HasKeyTexts ms) }
        ensures holds_float { IsErrOf result JsonCause.HoldsFloat
            ↔ IsSomeAnd (as_object (view value.now))
            (λ ms. HasKeyTexts ms × IsTrue (members_have_float ms)) }
        ensures too_large { IsErrOf result JsonCause.TooLarge
            → IsSomeAnd (as_object (view value.now)) AreTooMany }
        ensures memory { IsErrOf result JsonCause.Memory
            → IsSomeAnd (as_object (view value.now)) (λ ms. members_len ms ≤ 2 ^ 63) }
    {
        let Some(members) = value.as_object() else {
            return Err(JsonCause::NotAnObject);
        };
        if !have_key_texts(members) {
            return Err(JsonCause::BadKey);
        }
        if holds_float(value) {
            return Err(JsonCause::HoldsFloat);
        }
        IntMap::of_members(alloc, members)
    }

    /// A map of the members of an object whose keys are texts of numbers.
    fn of_members(
        alloc: Global,
        members: &Map<String, Value>,
    ) -> Result<IntMap<u64, Value>, JsonCause>
        requires texts { HasKeyTexts (members_view members.now.entries) }
        ensures reads { IfOk result (AreRead (members_view members.now.entries)) }
        ensures len { IfOk result
            (λ made. length made.walk ≡ members_len (members_view members.now.entries)) }
        ensures shows { IfOk result
            (λ made. ShowsBindings (members_view members.now.entries) made.walk) }
        ensures valid { IfOk result (IsMap (λ key. key) (λ key. key < 2 ^ 64)) }
        ensures refused { IfErr result (MayRefuseToRead (members_view members.now.entries)) }
    {
        let mut map = IntMap::with_capacity(alloc, members.len())?;
        for (text, value) in members.iter() {
            let key = known_key(text.as_str());
            drop(map.insert(key, value.clone()?)?);
        }
        Ok(map)
    }
}

/// Whether the key of each member is the text of a number.
fn have_key_texts(members: &Map<String, Value>) -> bool
    ensures value { IsTrue result ↔ HasKeyTexts (members_view members.now.entries) }
{
    for (text, _) in members.iter() {
        if key_of(text.as_str()).is_none() {
            return false;
        }
    }
    true
}

/// The number whose decimal text this is. The caller knows that the text is one.
fn known_key(text: &str) -> u64
    requires printed { (k : ℕ) × IsKeyText text.now k }
    ensures value { IsKeyText text.now result }
{
    key_of(text).unwrap_or(0)
}

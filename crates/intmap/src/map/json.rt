//! Maps and JSON objects.
ghost use Rattle.std.specs.Prelude.{◌≡◌, ◌⊎◌, ◌↔◌, ◌^◌, ◌<◌, IfOk, IfErr, OnOk, IsErrOf, IsTrue};
ghost use Rattle.intmap.specs.Json.{json_cause, Shows, ShowsBindings, holds_a_float};
ghost use Rattle.std.specs.Fmt.{decimal};
ghost use Rattle.serde_json.specs.Data.{put};
ghost use Rattle.serde_json.specs.View.{view, members_view};
ghost use Rattle.intmap.specs.Map.{IsMap};
ghost use Rattle.serde_json.specs.Written.{has_float};

mod read;

use crate::map::IntMap;
use crate::refusal::{Cause, Refused};
use serde_json::{Map, Value};
use std::alloc::{AllocError, Global};
use std::error::Error;
use std::fmt;

/// Why a map could not be written as JSON, or read from it.
#[derive(Clone, Copy, PartialEq, Eq, Debug)]
pub enum JsonCause {
    /// An allocation failed.
    Memory,
    /// Only in reading: there are more than 2^63 members, or an insertion needs more than 2^63
    /// slots.
    TooLarge,
    /// Only in reading: the JSON value isn't an object.
    NotAnObject,
    /// Only in reading: the key of a member isn't the canonical text of a number below 2^64.
    BadKey,
    /// A value holds, at any depth, a number that is neither a `u64` nor an `i64`.
    HoldsFloat,
}

impl fmt::Display for JsonCause {
    fn fmt<W: fmt::Write>(&self, f: &mut fmt::Formatter<W>) -> fmt::Result {
        match self {
            JsonCause::Memory => write!(f, "out of memory"),
            JsonCause::TooLarge => write!(f, "too large"),
            JsonCause::NotAnObject => write!(f, "not an object"),
            JsonCause::BadKey => write!(f, "a key is not a number below 2^64 in decimal"),
            JsonCause::HoldsFloat => write!(f, "a value holds a float"),
        }
    }
}

impl Error for JsonCause {}

/// The cause of a failed call on a map.
impl From<Cause> for JsonCause {
    ghost from_gives = { λ cause json. json ≡ json_cause cause };

    fn from(cause: Cause) -> JsonCause {
        match cause {
            Cause::Memory => JsonCause::Memory,
            Cause::TooLarge => JsonCause::TooLarge,
        }
    }
}

/// The cause alone. With `?`, a caller that returns a `JsonCause` drops the value.
impl<V: Drop> From<Refused<V>> for JsonCause {
    ghost from_gives = { λ refused json. json ≡ json_cause refused.cause };

    fn from(refused: Refused<V>) -> JsonCause {
        JsonCause::from(refused.cause)
    }
}

/// A failed allocation.
impl From<AllocError> for JsonCause {
    ghost use Rattle.intmap.specs.declared.map.json.JsonCause.{JsonCause};

    ghost from_gives = { λ _ json. json ≡ JsonCause.Memory };

    fn from(_: AllocError) -> JsonCause {
        JsonCause::Memory
    }
}

impl IntMap<u64, Value> {
    /// A JSON object with a member for each pair. The member's key is the canonical text of the
    /// pair's key, in decimal with no sign and no leading zero, and its value is a clone of the
    /// pair's value. The map stays as it is.
    ///
    /// It fails with [`JsonCause::HoldsFloat`] if and only if a value holds, at any depth, a number
    /// that is neither a `u64` nor an `i64`. This is checked first, without allocating. Otherwise
    /// it fails only with [`JsonCause::Memory`], if an allocation for a text, for a clone or for
    /// the object fails. What was made until then is dropped.
    ///
    /// Each part of each value is checked once and cloned once. Both go as deep as the value, and
    /// so does dropping it: only the stack bounds how deep a value may be.
    ///
    /// ```text
    /// let mut map = IntMap::new(alloc)?;
    /// map.insert(10, Value::Null)?;
    /// map.insert(5, Value::Bool(true))?;
    /// map.to_json()?.to_string(alloc)?    // "{\"10\":null,\"5\":true}"
    /// map.insert(1, Value::from_str(alloc, r#"{"a":[1.5]}"#)?)?;
    /// map.to_json()                       // Err(HoldsFloat)
    /// ```
    pub fn to_json(&self) -> Result<Value, JsonCause>
        ensures shows { IfOk result (λ tree. Shows (view tree) self.now.walk) }
        ensures holds_float { IsErrOf result JsonCause.HoldsFloat
            ↔ IsTrue (holds_a_float self.now.walk) }
        ensures memory { IfErr result
            (λ cause. (cause ≡ JsonCause.HoldsFloat) ⊎ (cause ≡ JsonCause.Memory)) }
        ensures valid { IsMap (λ key. key) (λ key. key < 2 ^ 64) self.now }
    {
        self.known();
        if self.holds_float() {
            return Err(JsonCause::HoldsFloat);
        }
        match self.members() {
            Ok(members) => Ok(Value::Object(members)),
            Err(_) => Err(JsonCause::Memory),
        }
    }

    /// Whether a value holds a float, at any depth.
    fn holds_float(&self) -> bool
        ensures value { result ≡ holds_a_float self.now.walk }
    {
        for (_, value) in self {
            if holds_float(value) {
                return true;
            }
        }
        false
    }

    /// The members of the object.
    fn members(&self) -> Result<Map<String, Value>, AllocError>
        ensures shows { IfOk result
            (λ members. ShowsBindings (members_view members.entries) self.now.walk) }
    {
        self.known();
        let alloc = self.table.allocator();
        let mut members = Map::new(alloc);
        for (key, value) in self {
            put_member(alloc, &mut members, *key, value)?;
        }
        Ok(members)
    }
}

/// Sets the member at the text of the key to a clone of the value.
fn put_member(
    alloc: Global,
    members: &mut Map<String, Value>,
    key: u64,
    value: &Value,
) -> Result<(), AllocError>
    ensures value { OnOk result (members_view members.new.entries
        ≡ put (decimal key) (view value.now) (members_view members.old.entries)) }
{
    let text = key.to_string(alloc)?;
    drop(members.insert(text, value.clone()?)?);
    Ok(())
}

/// Whether some number in the JSON value, at any depth, is neither a `u64` nor an `i64`. It goes as
/// deep as the value, and looks at each part of it once, up to the first such number.
pub(crate) fn holds_float(value: &Value) -> bool
    ensures { result ≡ has_float (view value.now) }
{
    match value {
        Value::Null | Value::Bool(_) | Value::String(_) => false,
        Value::Number(number) => number.is_f64(),
        Value::Array(items) => {
            for item in items {
                if holds_float(item) {
                    return true;
                }
            }
            false
        }
        Value::Object(members) => {
            for member in members.values() {
                if holds_float(member) {
                    return true;
                }
            }
            false
        }
    }
}

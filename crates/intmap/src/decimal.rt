//! Numbers as decimal text.
ghost use Rattle.std.specs.Prelude.{◌≡◌, ◌↔◌, length, IsTrue, ◌≢◌, ℕ, IfSome, IfNone, slice_index};
ghost use Rattle.intmap.specs.Json.{IsKeyText};

/// The number below 2^64 whose decimal text this is, or `None` if there is none: digits with no
/// sign and no leading zero. [`from_json`](crate::IntMap::from_json) reads the keys of an object
/// this way. It allocates nothing and never fails.
///
/// ```text
/// key_of("18446744073709551615")    // Some(18446744073709551615)
/// key_of("05")                      // None
/// key_of("+5")                      // None
/// key_of("")                        // None
/// key_of(" 5")                      // None
/// ```
pub fn key_of(text: &str) -> Option<u64>
    ensures some { IfSome result (IsKeyText text.now) }
    ensures none { IfNone result ((k : ℕ) → ¬ IsKeyText text.now k) }
{
    if !begins_as_printed(text.as_bytes()) {
        return None;
    }
    text.parse::<u64>().ok()
}

/// Whether the text doesn't begin with a plus, and begins with a zero only if it is that zero
/// alone.
fn begins_as_printed(bytes: &[u8]) -> bool
    ensures { IsTrue result
        ↔ (slice_index bytes.now 0 ≢ 43) × (slice_index bytes.now 0 ≡ 48 → length bytes.now ≡ 1) }
{
    match bytes {
        [] | [b'0'] => true,
        [first, ..] => *first != b'+' && *first != b'0',
    }
}

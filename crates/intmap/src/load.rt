//! Whether a table has too few slots for its pairs, and how many slots it needs.
ghost use Rattle.std.specs.Prelude.{◌≡◌, ◌+◌, ◌^◌, ◌<◌, ◌&&◌, ◌||◌, not, nat_lt, IfSome, IfNone, IsTrue};
ghost use Rattle.intmap_table.specs.Classes.{IsCapacity};
ghost use Rattle.intmap.specs.Growth.{IsWanted, IsThreshold, is_due, NeedsTooMuch};

/// The greatest number of slots.
pub(crate) const GREATEST_CAPACITY: usize = 9223372036854775808;

/// The least capacity, among `capacity` and its doublings, in which `len` pairs meet the load
/// factor `factor`, in thousandths. It is `None` if no capacity up to 2^63 is enough.
pub(crate) fn wanted_capacity(len: usize, capacity: usize, factor: usize) -> Option<usize>
    requires { IsCapacity capacity }
    ensures wanted { IfSome result (IsWanted capacity len factor) }
    ensures capacity { IfSome result (λ slots. IsCapacity slots) }
    ensures none { IfNone result (NeedsTooMuch (IsWanted capacity len factor)) }
{
    let need = len as u128 * 1000;
    let each = factor as u128 + 1;
    let mut slots = capacity;
    while need >= each * slots as u128 {
        if slots == GREATEST_CAPACITY {
            return None;
        }
        slots *= 2;
    }
    Some(slots)
}

/// The greatest number of pairs, at most `usize::MAX`, that meets the load factor in `capacity`
/// slots.
pub(crate) fn threshold_of(capacity: usize, factor: usize) -> usize
    requires { IsCapacity capacity }
    ensures { IsThreshold capacity factor result }
{
    let most = ((factor as u128 + 1) * capacity as u128 - 1) / 1000;
    if most > usize::MAX as u128 {
        usize::MAX
    } else {
        most as usize
    }
}

/// Whether a map of `len` pairs takes one more in its slots: the greater length isn't above the
/// threshold, or the load isn't checked at it.
#[inline(always)]
pub(crate) fn takes_one_more(len: usize, threshold: usize) -> bool
    ensures value { result ≡ (nat_lt len threshold
        || (nat_lt (len + 1) (2 ^ 64) && not (is_due (len + 1)))) }
    ensures fits { IsTrue result → len + 1 < 2 ^ 64 }
{
    // the test that most insertions need comes first
    len < threshold || len != usize::MAX && (len + 1) & 4 != 4
}

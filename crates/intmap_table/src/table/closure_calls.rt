//! Single calls of a closure: at a pair, with its key, which no search of a slot can read, or at a
//! stored value.
ghost use Rattle.std.specs.Prelude.{◌≡◌};
ghost use Rattle.intmap_table.specs.Picking.{PicksAt};
ghost use Rattle.intmap_table.specs.Retaining.{KeepsAt, TakesPair};
ghost use Rattle.intmap_table.specs.Writes.{TakesPairMut, WritesAt};

use crate::kept::Kept;
use crate::key::IntKey;
use crate::table::stored::Stored;

/// Whether the closure returns true for a pair.
#[inline(always)]
pub(crate) fn keeps_pair<K: IntKey, V, F: FnMut(K, &V) -> bool>(
    pair: &(Stored<K>, Kept<V>),
    f: &mut F,
) -> bool
    requires { TakesPair F.FnMut f.old pair.now }
    ensures { KeepsAt F.FnMut f.old pair.now result f.new }
{
    f(*pair.0.key(), pair.1.get())
}

/// Whether the closure picks a pair. It may write the value.
#[inline(always)]
pub(crate) fn picks_pair<K: IntKey, V, F: FnMut(K, &mut V) -> bool>(
    pair: &mut (Stored<K>, Kept<V>),
    f: &mut F,
) -> bool
    requires { TakesPairMut F.FnMut f.old pair.old }
    ensures { PicksAt F.FnMut f.old pair.old result f.new pair.new }
{
    f(*pair.0.key(), pair.1.get_mut())
}

/// Calls the closure at a pair, with a mutable reference to its value.
#[inline(always)]
pub(crate) fn write_pair<K: IntKey, V, F: FnMut(K, &mut V)>(
    pair: &mut (Stored<K>, Kept<V>),
    f: &mut F,
)
    requires { TakesPairMut F.FnMut f.old pair.old }
    ensures key { pair.new.0 ≡ pair.old.0 }
    ensures value { WritesAt F.FnMut f.old pair.old pair.new.1 f.new }
{
    f(*pair.0.key(), pair.1.get_mut());
}

/// Hands a stored value to the closure. A value that the closure returns as its error is stored
/// again.
#[inline(always)]
pub(crate) fn hand_value<V, R, F: FnOnce(V) -> Result<R, V>>(
    value: Kept<V>,
    f: F,
) -> Result<R, Kept<V>>
    requires { F.pre f value }
    ensures { F.post f value result }
{
    match f(value.into_value()) {
        Ok(handed) => Ok(handed),
        Err(back) => Err(Kept::new(back)),
    }
}

//! Sparse vectors: the product of two, whether two have the same values, and values that are set
//! behind a reservation.
ghost use Rattle.std.specs.Prelude.{◌≡◌, ◌↔◌, ◌+◌, All, IfSome, IsTrue, OnErr, OnOk};
ghost use Rattle.intmap.specs.Room.{HasRoom};
ghost use Rattle.intmap_sparse.specs.Vectors.{HaveSameValues, SetsValue, as_map, product, value_at};

use intmap::Cause;
use intmap_sparse::{SparseVec, laws};
use std::alloc::Allocator;

/// The product of two vectors, asked of the second one.
pub fn product_by_second<A: Allocator + Copy>(
    first: &SparseVec<A>,
    second: &SparseVec<A>,
) -> Option<i128>
    ensures { IfSome result (λ sum. sum ≡ product first.now.walk second.now.walk) }
{
    laws::products_agree();
    second.dot(first)
}

/// Whether two vectors have the same value at each place.
pub fn are_the_same<A: Allocator + Copy>(first: &SparseVec<A>, second: &SparseVec<A>) -> bool
    ensures { IsTrue result ↔ HaveSameValues first.now.walk second.now.walk }
{
    laws::equal_vectors_have_the_same_values();
    *first == *second
}

// Values that are set behind a reservation. None of the calls fails, whatever the places are.

/// Sets the value at each of the places.
///
/// It fails only if the room for the places can't be made. The vector then stays as it was.
pub fn set_each<A: Allocator + Copy>(
    vector: &mut SparseVec<A>,
    places: &[u64],
    value: i64,
) -> Result<(), Cause>
    ensures set { OnOk result (All (λ place. value_at vector.new.walk place ≡ value) places.now) }
    ensures err { OnErr result (vector.new ≡ vector.old) }
{
    vector.reserve_insertions(places.len())?;
    for at in 0..places.len() {
        set_reserved(vector, places[at], value, places.len() - at - 1);
    }
    Ok(())
}

/// Sets the value at a place of a vector that has room for it and `left` more. It never fails, and
/// leaves room for these.
fn set_reserved<A: Allocator + Copy>(vector: &mut SparseVec<A>, place: u64, value: i64, left: usize)
    requires { HasRoom (λ key. key) (as_map vector.old) (left + 1) }
    ensures sets { SetsValue vector.old.walk vector.new.walk place value }
    ensures room { HasRoom (λ key. key) (as_map vector.new) left }
{
    laws::insertions_leave_room();
    match vector.set(place, value) {
        Ok(_old) => (),
        Err(_cause) => unreachable!(),
    }
}

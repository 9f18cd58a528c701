//! Laws for callers, each as the contract of a function that does nothing.
//!
//! A call such as `laws::products_agree();` adds its law to the proof of the function that contains
//! the call.
ghost use Rattle.std.specs.Prelude.{◌≡◌, ◌↔◌, ◌+◌, ◌≤◌, ℕ, ℤ, pos, List, IsTrue};
ghost use Rattle.intmap.specs.Room.{HasRoom};
ghost use Rattle.intmap_sparse.specs.Vectors.{Vector, HaveSameValues, IsAssignment, IsSparseVec, as_map, product, vectors_equal};

/// The product of two vectors is the same in either order.
pub fn products_agree()
    ensures { (V W : List (ℕ × ℤ)) → product V W ≡ product W V }
{}

/// Two vectors are equal if and only if they have the same value at every place.
pub fn equal_vectors_have_the_same_values()
    ensures { (v w : Vector) → IsTrue (vectors_equal v w) ↔ HaveSameValues v.walk w.walk }
{}

/// A value that is set in a vector with room for `n + 1` places leaves room for `n`. A 0 that is set
/// leaves the room. Room for some places is room for fewer.
pub fn insertions_leave_room()
    ensures assigned { (v w : Vector) (place : ℕ) (z : ℤ) (n : ℕ) → IsSparseVec v
        → HasRoom (λ key. key) (as_map v) (n + 1) → IsAssignment v place z w
        → HasRoom (λ key. key) (as_map w) n }
    ensures fewer { (v : Vector) (n fewer : ℕ) → IsSparseVec v
        → HasRoom (λ key. key) (as_map v) n → fewer ≤ n → HasRoom (λ key. key) (as_map v) fewer }
    ensures removed { (v w : Vector) (place : ℕ) (n : ℕ) → IsSparseVec v
        → HasRoom (λ key. key) (as_map v) n → IsAssignment v place (pos 0) w
        → HasRoom (λ key. key) (as_map w) n }
{}

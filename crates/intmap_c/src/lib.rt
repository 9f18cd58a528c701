//! The map from 64-bit keys to 64-bit values as a library for C. `bindings/c/intmap.h` declares it.
//!
//! C holds a map as one word, which is null if there is no map, and then stands for an empty one. A
//! call that changes the map takes the word as a [`Handle`](handle::Handle), takes the map out of
//! it, and puts the map back. A call that only reads takes it as a [`Word`](lent::Word), and any
//! number of these may run at once while the map is lent. [`intmap_place`](place::intmap_place)
//! takes a `Word` too, and gives the address of a value, which C may write.
#![tactic(auto)]

mod answer;
mod figures;
mod handle;
mod keep;
mod lent;
mod make;
mod pairs;
mod place;
mod read;
mod unboxed;
mod version;
mod walk;

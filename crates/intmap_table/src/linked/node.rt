//! One node, which is a place for a pair, and links. A slot is a node, and so is what a pool has.
ghost use Rattle.std.specs.Prelude.{◌≡◌, ◌+◌, ◌*◌, ◌/◌, ◌%◌, ◌^◌, ◌<◌, ℕ, IfSome, IfNone};
ghost use Rattle.intmap_table.specs.Tables.Nodes.{Free, Held, empty, is_empty};
ghost use Rattle.intmap_table.specs.Picking.{PicksAt};
ghost use Rattle.intmap_table.specs.Writes.{TakesPairMut, WritesAt};

use crate::kept::Kept;
use crate::key::IntKey;
use crate::table::closure_calls::{picks_pair, write_pair};
use crate::table::stored::Stored;
use std::marker::Model;
use std::mem;

/// The greatest number of nodes: 65535 * 2^32. A link that is no smaller leads nowhere. Its greater
/// part alone shows this, since it is 65535.
pub(crate) const NODE_LIMIT: usize = 281470681743360;

/// The link of a pair that is the last one of its slot, and of the last free node: 2^48 - 1.
pub(crate) const NOWHERE: usize = 281474976710655;

/// The number of links that have the same greater part: 2^32.
const LOW_LINKS: usize = 4294967296;

/// The link that two parts make.
#[inline(always)]
pub(crate) fn link_of(high: u16, low: u32) -> usize
    ensures value { result ≡ high * 4294967296 + low }
    ensures fits { result < 2 ^ 48 }
{
    high as usize * LOW_LINKS + low as usize
}

/// The greater part of a link.
#[inline(always)]
pub(crate) fn high_part(link: usize) -> u16
    requires { link < 2 ^ 48 }
    ensures { result ≡ link / 4294967296 }
{
    (link / LOW_LINKS) as u16
}

/// The lesser part of a link.
#[inline(always)]
pub(crate) fn low_part(link: usize) -> u32
    ensures { result ≡ link % 4294967296 }
{
    (link % LOW_LINKS) as u32
}

/// What is in a node. A link is parted in two, so that a node with a pair of two words takes three.
#[derive(Drop)]
enum NodeForm<P> {
    Free(u16, u32),
    Held(u16, u32, P),
}

/// A place for a pair. A slot is one, with the first of its pairs, and a pool has more, with those
/// behind the first ones. One that holds a pair has the link to the node behind it. In a pool one
/// that holds none has the link to the next such node; in a slot nobody reads that link.
#[derive(Drop)]
pub(crate) struct Node<P> {
    form: NodeForm<P>,
}

// Invariant: none is needed. One must stand here, or the kit doesn't follow a reference into the
// pair.
impl<P> Model for Node<P> {
    ghost use Rattle.std.specs.Prelude.{⊤};
    ghost use Rattle.intmap_table.specs.Tables.Nodes.{Node, node_of};

    ghost Value = { Node P };

    ghost view = { λ n. node_of n.form };

    ghost invariant = { λ _. ⊤ };
}

impl<P> Node<P> {
    /// A node without a pair, as a slot is made.
    #[inline(always)]
    pub(crate) fn empty() -> Node<P>
        ensures { result ≡ empty }
    {
        Node {
            form: NodeForm::Free(0, 0),
        }
    }

    /// A node with a pair, and the link to the node behind it.
    #[inline(always)]
    pub(crate) fn held(link: usize, pair: P) -> Node<P>
        requires { link < 2 ^ 48 }
        ensures { result ≡ Held link pair }
    {
        Node {
            form: NodeForm::Held(high_part(link), low_part(link), pair),
        }
    }

    /// Whether it holds no pair.
    #[inline(always)]
    pub(crate) fn is_empty(&self) -> bool
        ensures { result ≡ is_empty self.now }
    {
        match &self.form {
            NodeForm::Free(_, _) => true,
            NodeForm::Held(_, _, _) => false,
        }
    }

    /// The link and the pair, if the node holds one.
    #[inline(always)]
    pub(crate) fn get(&self) -> Option<(usize, &P)>
        ensures some { IfSome result (λ r. self.now ≡ Held r.0 r.1.now) }
        ensures fits { IfSome result (λ r. r.0 < 2 ^ 48) }
        ensures none { IfNone result ((l : ℕ) × (self.now ≡ Free l)) }
    {
        match &self.form {
            NodeForm::Held(high, low, pair) => Some((link_of(*high, *low), pair)),
            NodeForm::Free(_, _) => None,
        }
    }

    /// The link to the next free node, if the node holds no pair.
    #[inline(always)]
    pub(crate) fn next_free(&self) -> Option<usize>
        ensures some { IfSome result (λ l. self.now ≡ Free l) }
        ensures fits { IfSome result (λ l. l < 2 ^ 48) }
        ensures none { IfNone result ((l : ℕ) × (p : P) × (self.now ≡ Held l p)) }
    {
        match &self.form {
            NodeForm::Free(high, low) => Some(link_of(*high, *low)),
            NodeForm::Held(_, _, _) => None,
        }
    }

    /// Gives a node that holds a pair another link.
    #[inline(always)]
    pub(crate) fn set_link(&mut self, link: usize)
        requires fits { link < 2 ^ 48 }
        requires held { (l : ℕ) × (p : P) × (self.old ≡ Held l p) }
        ensures { (l : ℕ) × (p : P) × (self.old ≡ Held l p) × (self.new ≡ Held link p) }
    {
        match &mut self.form {
            NodeForm::Held(high, low, _) => {
                *high = high_part(link);
                *low = low_part(link);
            }
            NodeForm::Free(_, _) => unreachable!(),
        }
    }

    /// Puts a pair into the place of another, and returns that one.
    #[inline(always)]
    pub(crate) fn replace(&mut self, pair: P) -> P
        requires { (l : ℕ) × (p : P) × (self.old ≡ Held l p) }
        ensures { (l : ℕ) × (self.old ≡ Held l result) × (self.new ≡ Held l pair) }
    {
        match &mut self.form {
            NodeForm::Held(_, _, held) => mem::replace(held, pair),
            NodeForm::Free(_, _) => unreachable!(),
        }
    }

    /// Puts a pair with a link into a node that is free.
    #[inline(always)]
    pub(crate) fn fill(&mut self, link: usize, pair: P)
        requires fits { link < 2 ^ 48 }
        requires free { (l : ℕ) × (self.old ≡ Free l) }
        ensures { self.new ≡ Held link pair }
    {
        let form = NodeForm::Held(high_part(link), low_part(link), pair);
        match mem::replace(&mut self.form, form) {
            NodeForm::Free(_, _) => {}
            NodeForm::Held(_, _, _) => unreachable!(),
        }
    }

    /// Removes the pair of a node, which then is free and has the link to the next free node.
    #[inline(always)]
    pub(crate) fn release(&mut self, free: usize) -> P
        requires fits { free < 2 ^ 48 }
        requires held { (l : ℕ) × (p : P) × (self.old ≡ Held l p) }
        ensures pair { (l : ℕ) × (self.old ≡ Held l result) }
        ensures node { self.new ≡ Free free }
    {
        let form = NodeForm::Free(high_part(free), low_part(free));
        match mem::replace(&mut self.form, form) {
            NodeForm::Held(_, _, pair) => pair,
            NodeForm::Free(_, _) => unreachable!(),
        }
    }

    /// Removes the pair of a slot and the link with it, and returns both.
    #[inline(always)]
    pub(crate) fn take(&mut self) -> (usize, P)
        requires { (l : ℕ) × (p : P) × (self.old ≡ Held l p) }
        ensures value { self.old ≡ Held result.0 result.1 }
        ensures node { self.new ≡ empty }
    {
        match mem::replace(&mut self.form, NodeForm::Free(0, 0)) {
            NodeForm::Held(high, low, pair) => (link_of(high, low), pair),
            NodeForm::Free(_, _) => unreachable!(),
        }
    }
}

impl<K: IntKey, X> Node<(Stored<K>, X)> {
    ghost use Rattle.std.specs.Borrow.{sem};
    ghost use Rattle.intmap_table.specs.Lending.{node_lends};

    /// A mutable reference to the value of the pair.
    #[inline(always)]
    pub(crate) fn value_mut(&mut self) -> &mut X
        requires { (l : ℕ) × (p : K × X) × (self.old ≡ Held l p) }
        ensures* writes_back { sem 𝓛 (node_lends K.row X.row K.IntKey.own K.PartialEq
            self.entry result) }
        ensures value { (l : ℕ) × (p : K × X) × (self.old ≡ Held l p) × (result.now ≡ p.1) }
    {
        match &mut self.form {
            NodeForm::Held(_, _, pair) => &mut pair.1,
            NodeForm::Free(_, _) => unreachable!(),
        }
    }
}

impl<K: IntKey, V> Node<(Stored<K>, Kept<V>)> {
    /// Calls the closure at the pair of a node that holds one, with a mutable reference to its
    /// value.
    #[inline(always)]
    pub(crate) fn write<F: FnMut(K, &mut V)>(&mut self, f: &mut F)
        requires { (l : ℕ) × (p : K × V) × (self.old ≡ Held l p) × TakesPairMut F.FnMut f.old p }
        ensures { (l : ℕ) × (p : K × V) × (w : V) × (self.old ≡ Held l p)
            × (self.new ≡ Held l (p.0, w)) × WritesAt F.FnMut f.old p w f.new }
    {
        match &mut self.form {
            NodeForm::Held(_, _, pair) => write_pair(pair, f),
            NodeForm::Free(_, _) => unreachable!(),
        }
    }

    /// Whether the closure picks the pair of a node that holds one. It may write the value.
    #[inline(always)]
    pub(crate) fn pick<F: FnMut(K, &mut V) -> bool>(&mut self, f: &mut F) -> bool
        requires { (l : ℕ) × (p : K × V) × (self.old ≡ Held l p) × TakesPairMut F.FnMut f.old p }
        ensures { (l : ℕ) × (p : K × V) × (q : K × V) × (self.old ≡ Held l p)
            × (self.new ≡ Held l q) × PicksAt F.FnMut f.old p result f.new q }
    {
        match &mut self.form {
            NodeForm::Held(_, _, pair) => picks_pair(pair, f),
            NodeForm::Free(_, _) => unreachable!(),
        }
    }
}

//! The nodes of all slots, of which those without a pair are used first.
ghost use Rattle.std.specs.Prelude.{◌≡◌, ◌+◌, ◌^◌, ◌<◌, ◌≤◌, [], ℕ, length, IfOk, IfErr, IfSome, IfNone, IsOk, OnErr, OnOk};
ghost use Rattle.intmap_table.specs.Tables.Nodes.{Held, node_at, node_limit, IsAdded, IsChanged, IsReleased};
ghost use Rattle.intmap_table.specs.Picking.{PicksAt};
ghost use Rattle.intmap_table.specs.Writes.{TakesPairMut, WritesAt};

use crate::kept::Kept;
use crate::key::IntKey;
use crate::linked::node::{NODE_LIMIT, NOWHERE, Node};
use crate::table::stored::Stored;
use std::alloc::{AllocError, Allocator};
use std::marker::Model;

/// Nodes, and a list of those without a pair. Contracts see what each has, how many hold a pair,
/// and how many pairs there is memory for in all. A call that needs more than `NODE_LIMIT` nodes
/// fails as if an allocation failed.
#[derive(Drop)]
pub(crate) struct Pool<P, A: Allocator> {
    nodes: Vec<Node<P>, A>,
    free: usize,
    spare: usize,
}

// Invariant: there are at most `NODE_LIMIT` nodes. From `free` on, links lead through `spare` free
// nodes, and then nowhere.
impl<P, A: Allocator> Model for Pool<P, A> {
    ghost use Rattle.std.specs.Prelude.{◌+◌, ◌-◌, length, min, vec_capacity};
    ghost use Rattle.intmap_table.specs.Tables.Nodes.{Pool, IsPool, node_limit};

    ghost Value = { Pool P };

    ghost view = { λ p. record {
      nodes = p.nodes.items;
      held = length p.nodes.items - p.spare;
      total = length p.nodes.items
          + (min (vec_capacity p.nodes) node_limit - length p.nodes.items);
    } };

    ghost invariant = { λ p. IsPool p.nodes.items p.free p.spare };
}

impl<P, A: Allocator> Pool<P, A> {
    /// How many nodes hold a pair.
    pub(crate) fn held(&self) -> usize
        ensures held { result ≡ self.now.held }
        ensures limit { result ≤ node_limit }
    {
        self.nodes.len() - self.spare
    }

    /// The link and the pair of a node, if it is there and holds one.
    #[inline(always)]
    pub(crate) fn get(&self, at: usize) -> Option<(usize, &P)>
        ensures some { IfSome result (λ r. node_at self.now.nodes at ≡ Held r.0 r.1.now) }
        ensures fits { IfSome result (λ r. r.0 < 2 ^ 48) }
        ensures none { IfNone result
            ((n : ℕ) (p : P) → node_at self.now.nodes at ≡ Held n p → ⊥) }
    {
        if at >= self.nodes.len() {
            return None;
        }
        self.nodes[at].get()
    }

    /// The link of a node that holds a pair.
    #[inline(always)]
    pub(crate) fn link(&self, at: usize) -> usize
        requires { (n : ℕ) × (p : P) × (node_at self.now.nodes at ≡ Held n p) }
        ensures link { (p : P) × (node_at self.now.nodes at ≡ Held result p) }
        ensures fits { result < 2 ^ 48 }
    {
        match self.nodes[at].get() {
            Some((link, _)) => link,
            None => unreachable!(),
        }
    }

    /// The pair of a node that holds one.
    #[inline(always)]
    pub(crate) fn pair(&self, at: usize) -> &P
        requires { (n : ℕ) × (p : P) × (node_at self.now.nodes at ≡ Held n p) }
        ensures { (n : ℕ) × (node_at self.now.nodes at ≡ Held n result.now) }
    {
        match self.nodes[at].get() {
            Some((_, pair)) => pair,
            None => unreachable!(),
        }
    }

    /// Gives a node that holds a pair another link.
    #[inline(always)]
    pub(crate) fn set_link(&mut self, at: usize, link: usize)
        requires fits { link < 2 ^ 48 }
        requires held { (n : ℕ) × (p : P) × (node_at self.old.nodes at ≡ Held n p) }
        ensures { (n : ℕ) × (p : P) × (node_at self.old.nodes at ≡ Held n p)
            × IsChanged self.old at link p self.new }
    {
        self.nodes[at].set_link(link);
    }

    /// Puts a pair into the place of a node's pair, and returns the old one.
    #[inline(always)]
    pub(crate) fn replace(&mut self, at: usize, pair: P) -> P
        requires { (n : ℕ) × (p : P) × (node_at self.old.nodes at ≡ Held n p) }
        ensures { (n : ℕ) × (node_at self.old.nodes at ≡ Held n result)
            × IsChanged self.old at n pair self.new }
    {
        self.nodes[at].replace(pair)
    }

    /// Removes the pair of a node, which is used again before any other one that is free.
    #[inline(always)]
    pub(crate) fn release(&mut self, at: usize) -> P
        requires { (n : ℕ) × (p : P) × (node_at self.old.nodes at ≡ Held n p) }
        ensures { IsReleased self.old at result self.new }
    {
        let pair = self.nodes[at].release(self.free);
        self.free = at;
        self.spare += 1;
        pair
    }

    /// Puts a pair with a link into a node that is free, or into a new one, and returns which. If
    /// an allocation fails, it returns the pair.
    #[inline(always)]
    pub(crate) fn add(&mut self, link: usize, pair: P) -> Result<usize, P>
        requires { link < 2 ^ 48 }
        ensures ok { IfOk result (λ at. IsAdded self.old at link pair self.new) }
        ensures fits { IfOk result (λ at. at < node_limit) }
        ensures err { OnErr result (self.new ≡ self.old) }
        ensures pair_returned { IfErr result (λ returned. returned ≡ pair) }
        ensures succeeds { self.old.held < self.old.total → IsOk result }
    {
        if self.spare == 0 {
            return self.add_new(link, pair);
        }
        let at = self.free;
        let Some(next) = self.nodes[at].next_free() else {
            unreachable!();
        };
        self.free = next;
        self.spare -= 1;
        self.nodes[at].fill(link, pair);
        Ok(at)
    }

    /// Puts a pair with a link into a new node behind the others, none of which may be free, and
    /// returns which. If an allocation fails, it returns the pair.
    pub(crate) fn add_new(&mut self, link: usize, pair: P) -> Result<usize, P>
        requires fits { link < 2 ^ 48 }
        requires none { self.old.held ≡ length self.old.nodes }
        ensures at { IfOk result (λ at. at ≡ self.old.held) }
        ensures len { OnOk result (length self.new.nodes ≡ length self.old.nodes + 1) }
        ensures ok { IfOk result (λ at. IsAdded self.old at link pair self.new) }
        ensures fits { IfOk result (λ at. at < node_limit) }
        ensures err { OnErr result (self.new ≡ self.old) }
        ensures pair_returned { IfErr result (λ returned. returned ≡ pair) }
        ensures succeeds { self.old.held < self.old.total → IsOk result }
    {
        let at = self.nodes.len();
        if at == NODE_LIMIT || self.nodes.reserve(1).is_err() {
            return Err(pair);
        }
        self.nodes.push_reserved(Node::held(link, pair));
        Ok(at)
    }

    /// Drops all pairs, and keeps the memory of the nodes.
    pub(crate) fn clear(&mut self)
    where
        P: Drop,
        ensures held { self.new.held ≡ 0 }
        ensures total { self.new.total ≡ self.old.total }
    {
        self.nodes.truncate(0);
        self.free = NOWHERE;
        self.spare = 0;
    }

    /// Makes room for `additional` more pairs. If an allocation fails, nothing changes.
    pub(crate) fn reserve(&mut self, additional: usize) -> Result<(), AllocError>
        ensures nodes { self.new.nodes ≡ self.old.nodes }
        ensures held { self.new.held ≡ self.old.held }
        ensures room { OnOk result (self.new.held + additional ≤ self.new.total) }
        ensures some { OnErr result (0 < additional) }
        ensures none { OnErr result (self.old.total < self.old.held + additional) }
        ensures total { self.old.total ≤ self.new.total }
        ensures err { OnErr result (self.new ≡ self.old) }
    {
        if additional <= self.spare {
            return Ok(());
        }
        let new = additional - self.spare;
        if new > NODE_LIMIT - self.nodes.len() {
            return Err(AllocError);
        }
        self.nodes.reserve_exact(new)
    }

    /// A pool without a node, which has room for `room` pairs.
    pub(crate) fn with_room(alloc: A, room: usize) -> Result<Pool<P, A>, AllocError>
        ensures nodes { IfOk result (λ made. made.nodes ≡ []) }
        ensures held { IfOk result (λ made. made.held ≡ 0) }
        ensures total { IfOk result (λ made. made.total ≡ room) }
    {
        if room > NODE_LIMIT {
            return Err(AllocError);
        }
        let nodes = Vec::with_capacity(alloc, room)?;
        Ok(Pool {
            nodes,
            free: NOWHERE,
            spare: 0,
        })
    }
}

impl<K: IntKey, X, A: Allocator> Pool<(Stored<K>, X), A> {
    ghost use Rattle.std.specs.Borrow.{sem};
    ghost use Rattle.intmap_table.specs.Lending.{pool_lends};

    /// A mutable reference to the value of the pair of a node that holds one.
    #[inline(always)]
    pub(crate) fn value_mut(&mut self, at: usize) -> &mut X
        requires { (n : ℕ) × (p : K × X) × (node_at self.old.nodes at ≡ Held n p) }
        ensures* writes_back { sem 𝓛 (pool_lends K.row X.row A.row K.IntKey.own K.PartialEq
            A.Allocator self.entry at result) }
        ensures value { (n : ℕ) × (p : K × X) × (node_at self.old.nodes at ≡ Held n p)
            × (result.now ≡ p.1) }
    {
        self.nodes[at].value_mut()
    }
}

impl<K: IntKey, V, A: Allocator> Pool<(Stored<K>, Kept<V>), A> {
    /// Calls the closure at the pair of a node that holds one, with a mutable reference to its
    /// value.
    #[inline(always)]
    pub(crate) fn write<F: FnMut(K, &mut V)>(&mut self, at: usize, f: &mut F)
        requires { (n : ℕ) × (p : K × V) × (node_at self.old.nodes at ≡ Held n p)
            × TakesPairMut F.FnMut f.old p }
        ensures { (n : ℕ) × (p : K × V) × (w : V) × (node_at self.old.nodes at ≡ Held n p)
            × IsChanged self.old at n (p.0, w) self.new × WritesAt F.FnMut f.old p w f.new }
    {
        self.nodes[at].write(f);
    }

    /// Whether the closure picks the pair of a node that holds one. It may write the value.
    #[inline(always)]
    pub(crate) fn pick<F: FnMut(K, &mut V) -> bool>(&mut self, at: usize, f: &mut F) -> bool
        requires { (n : ℕ) × (p : K × V) × (node_at self.old.nodes at ≡ Held n p)
            × TakesPairMut F.FnMut f.old p }
        ensures { (n : ℕ) × (p : K × V) × (q : K × V) × (node_at self.old.nodes at ≡ Held n p)
            × IsChanged self.old at n q self.new × PicksAt F.FnMut f.old p result f.new q }
    {
        self.nodes[at].pick(f)
    }
}

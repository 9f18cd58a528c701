//! Growth turns a chain round before its pairs move: the last one moves first, and each is put
//! before those that were behind it.
ghost use Rattle.std.specs.Prelude.{◌≡◌, ◌^◌, ◌<◌, reverse};
ghost use Rattle.intmap_table.specs.Tables.Nodes.{chain_of, IsChain, IsChainSet};

use crate::linked::node::{NODE_LIMIT, NOWHERE};
use crate::linked::pool::Pool;
use std::alloc::Allocator;

/// Turns the chain of a link round: the new link leads through the same pairs, the last one first.
/// Each node of the chain gets another link, once.
pub(crate) fn turn<P, A: Allocator>(pool: &mut Pool<P, A>, link: usize) -> usize
    requires { IsChain pool.old.nodes link }
    ensures chain { IsChainSet pool.old link (reverse (chain_of pool.old.nodes link))
        pool.new result }
    ensures fits { result < 2 ^ 48 }
    ensures total { pool.new.total ≡ pool.old.total }
{
    let mut turned = NOWHERE;
    let mut left = link;
    while left < NODE_LIMIT {
        let next = pool.link(left);
        pool.set_link(left, turned);
        turned = left;
        left = next;
    }
    turned
}

//! Slots whose further pairs lie in the nodes of one vector, which links join.

pub(crate) mod chain;
pub(crate) mod closures;
pub(crate) mod keep;
pub(crate) mod node;
pub(crate) mod pool;
pub(crate) mod row;
pub(crate) mod turn;

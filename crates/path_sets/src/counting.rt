//! How many inner nodes the diagram of one point has, whose nodes test one bit each.

pub(crate) mod bit_node;
pub(crate) mod bit_nodes;
pub(crate) mod inner;
pub(crate) mod one_bit;

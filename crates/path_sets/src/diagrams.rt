//! The set that keeps decision diagrams: the diagrams, the masks that are gathered for them, and how these go in.

pub(crate) mod batch;
pub(crate) mod batches;
pub(crate) mod diagram_edges;
pub(crate) mod diagrams;
pub(crate) mod gathered_key;
pub(crate) mod insertion;
pub(crate) mod merging;
pub(crate) mod newest;
pub(crate) mod quad;
pub(crate) mod quads;
pub(crate) mod roots;
pub(crate) mod union;

//! Sets of path edges: the triples of an entry valuation, a point of a procedure and a valuation at that point, for
//! one procedure of a sequential program (path edges after Ball and Rajamani 2000).
//!
//! A set grows and never shrinks: the tabulation of a procedure inserts each path edge as it is found, and works on it
//! once, when `insert` returns that it is new.
#![tactic(auto)]

mod counting;
mod diagrams;
mod edge_limit;
mod kept_nodes;
mod laws;
mod ordered_edges;
mod path_set;
mod points;

pub use diagrams::diagram_edges::DiagramEdges;
pub use edge_limit::{EdgeLimit, MOST_EDGES};
pub use laws::{
    equal_sets_have_one_number, members_have_one_count, the_least_valuations_make_a_chain,
};
pub use ordered_edges::OrderedEdges;
pub use path_set::PathSet;
pub use points::halves::Halves;
pub use points::mask::add_point;

//! How many path edges a table may hold.

ghost use Rattle.std.specs.Prelude.{◌≡◌, ◌≤◌, IfSome, IsSome, ◌↔◌};
ghost use Rattle.path_sets.specs.Limits.{most_edges};

/// The greatest limit; `specs/Limits.antt` has it for contracts.
pub const MOST_EDGES: u32 = 16_777_216;

/// How many path edges the table of one procedure may hold: from 1 to `MOST_EDGES`.
#[derive(Clone, Copy)]
pub struct EdgeLimit {
    edges: u32,
    ghost some: { 1 ≤ edges },
    ghost few: { edges ≤ most_edges },
}

impl EdgeLimit {
    ghost use Rattle.path_sets.specs.EdgeLimits.{most_of};

    /// The limit of this many edges; `None` if the number is 0 or more than `MOST_EDGES`.
    pub fn new(edges: u32) -> Option<EdgeLimit>
        ensures some { IsSome result ↔ (1 ≤ edges) × (edges ≤ most_edges) }
        ensures edges { IfSome result (λ limit. most_of limit ≡ edges) }
    {
        if 1 <= edges && edges <= MOST_EDGES {
            Some(EdgeLimit { edges })
        } else {
            None
        }
    }

    /// How many edges.
    pub fn edges(self) -> u32
        ensures edges { result ≡ most_of self }
        ensures range { (1 ≤ result) × (result ≤ most_edges) }
    {
        self.edges
    }
}

//! Laws on workers.
ghost use Rattle.std.specs.Prelude.{◌≡◌, ◌<◌, ℕ, length};
ghost use Rattle.atomic_table.specs.Seated.{TableId};
ghost use Rattle.flow_graph.specs.declared.graph.Graphs.{Graphs};
ghost use Rattle.flow_graph.specs.Drawn.{graphs_of};
ghost use Rattle.path_sets.specs.declared.edge_limit.EdgeLimit.{EdgeLimit};
ghost use Rattle.summaries.specs.Together.{opening};
ghost use Rattle.switchboard.specs.Sights.{opened, fresh_sight};
ghost use Rattle.procedure_worker.specs.Works.{begun, IsFresh};

use std::alloc::Allocator;

/// A pass of a board of flow graphs, opened by the starter's message, is one that the worker with its number may
/// begin with.
pub fn a_new_pass_is_fresh<G: Allocator>()
    ensures { (graphs : Graphs G) (board : TableId) (budget boxes number : ℕ) (limit : EdgeLimit)
        → boxes ≡ length (graphs_of graphs) → number < boxes
        → IsFresh (begun graphs number limit board)
        (fresh_sight board budget (opened graphs boxes 0 opening.due) number) }
{}

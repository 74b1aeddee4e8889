//! Laws on what a table holds.

ghost use Rattle.std.specs.Prelude.{◌≡◌, ◌<◌, ℕ, Some, None, List, length};
ghost use Rattle.language.specs.Step.{Program};
ghost use Rattle.language.specs.Lists.{Member};
ghost use Rattle.path_sets.specs.Triples.{Triple};
ghost use Rattle.flow_graph.specs.Numbers.{NumberedMessage, AreNumbersOfEdge};
ghost use Rattle.flow_graph.specs.declared.graph.Graph.{Graph};
ghost use Rattle.summaries.specs.declared.found.Found.{Found};
ghost use Rattle.flow_graph.specs.declared.graph.Graphs.{Graphs};
ghost use Rattle.flow_graph.specs.Drawn.{graphs_of};
ghost use Rattle.summaries.specs.declared.due.Caller.TheVariants.{Starter};
ghost use Rattle.summaries.specs.declared.due.Due.{Due};
ghost use Rattle.summaries.specs.declared.due.Due.TheVariants.{Entry};
ghost use Rattle.summaries.specs.Fitting.{FitsIn, IsDueFor};
ghost use Rattle.summaries.specs.Mails.{AddressedMail};
ghost use Rattle.summaries.specs.declared.table.Table.{Table};
ghost use Rattle.summaries.specs.declared.table_fault.TableFault.TheVariants.{EdgeLimit};
ghost use Rattle.summaries.specs.Dues.{due_of};
ghost use Rattle.summaries.specs.Found.{IsGrounded, IsSaturated, IsWorkedOff, IsExact};
ghost use Rattle.summaries.specs.Tables.{limit_of, kept_edges, answers_of, failure, IsAnswer};
ghost use Rattle.summaries.specs.Tabulated.{HasMoreEdges};
ghost use Rattle.summaries.specs.Together.{IsTableOf};

use path_sets::PathSet;
use std::alloc::Allocator;

/// If nothing is pending, the edges are what is reached by the messages taken, and the messages given are what is
/// sent.
pub fn a_quiet_table_has_what_is_reached<A: Allocator, G: Allocator>()
    ensures { (graph : Graph G) (q : ℕ) (f : Found A) (edges : List Triple)
        → IsGrounded graph q f edges
        → IsSaturated graph q f edges (λ t. ⊥) → IsWorkedOff f → IsExact graph q f edges }
{}

/// The table of a procedure that has taken only messages which are due for it keeps only path edges of the procedure,
/// and answers only messages which are due for their receivers. It fails for its limit only if there are more path
/// edges.
pub fn a_table_keeps_path_edges_and_answers_what_is_due<G: Allocator, A: Allocator, S: PathSet<A>>()
    ensures edges { (p : Program) (q : ℕ) (t : Table G A S) → IsTableOf S.members p q t
        → (x : Triple) → Member x (kept_edges S.members t)
        → AreNumbersOfEdge p q x.entry x.point x.values }
    ensures answer { (p : Program) (q : ℕ) (old t : Table G A S) (to : ℕ) (d : Due)
        → IsTableOf S.members p q t → IsAnswer old t to d → IsDueFor p to d }
    ensures answered { (p : Program) (q : ℕ) (t : Table G A S) (x : AddressedMail)
        → IsTableOf S.members p q t → failure t ≡ None → Member x (answers_of t)
        → IsDueFor p x.to x.due }
    ensures limit { (p : Program) (q : ℕ) (t : Table G A S) → IsTableOf S.members p q t
        → failure t ≡ Some EdgeLimit → HasMoreEdges p q (limit_of t) }
{}

/// The starter's message, by which procedure 0 is entered with every value 0, fits the mailbox of procedure 0.
pub fn the_opening_fits_the_first_mailbox<G: Allocator>()
    ensures { (graphs : Graphs G) → 0 < length (graphs_of graphs)
        → FitsIn graphs 0 (Entry Starter 0) }
{}

/// Each message is that of exactly one message by numbers. So `FitsIn`, which speaks of every message by numbers that a
/// message is of, holds for none for want of one.
pub fn each_message_has_its_numbers()
    ensures some { (d : Due) → (k : NumberedMessage) × (due_of k ≡ d) }
    ensures one { (j k : NumberedMessage) → due_of j ≡ due_of k → j ≡ k }
{}

//! Laws: what flow graphs reach, send, take and leave by numbers is what their procedures do.

ghost use Rattle.std.specs.Prelude.{◌≡◌, ◌↔◌, ◌<◌, ℕ, ◌+◌, ◌^◌, List, Some, length, map, slice_get};
ghost use Rattle.std.specs.Prelude.{true};
ghost use Rattle.language.specs.Rest.{Code};
ghost use Rattle.language.specs.Step.{Routine, Program, frame_size, body_of};
ghost use Rattle.language.specs.Sequential.{in_text_order, Valuation, Caller, Message, IsDue};
ghost use Rattle.language.specs.Sequential.{SomeBad};
ghost use Rattle.language.specs.Flow.{IsRestOf};
ghost use Rattle.language.specs.Lists.{Member};
ghost use Rattle.language.specs.Messages.{Reached, Owes, EdgeTo, IsValuationOf, IsMessageTo};
ghost use Rattle.language.specs.Messages.{ArgumentsFit};
ghost use Rattle.flow_graph.specs.Nodes.{point_at};
ghost use Rattle.flow_graph.specs.Flows.{code};
ghost use Rattle.flow_graph.specs.Graphs.{IsGraph, IsInTextOrder};
ghost use Rattle.flow_graph.specs.Numbers.{Among, AllAre, NumberedMessage, numbered_entry};
ghost use Rattle.flow_graph.specs.Numbers.{by_numbers, IsNumberOf, GraphReaches, Sends};
ghost use Rattle.flow_graph.specs.Numbers.{AreNumbersOf, IsNumberOfValuation, AreNumbersOfEdge};
ghost use Rattle.flow_graph.specs.Numbers.{Leaves, HasTaken, TookAllDue, IsNumberOfEntry};
ghost use Rattle.flow_graph.specs.Numbers.{AreNumbersOfPair};
ghost use Rattle.flow_graph.specs.Triples.{HoldStarts, HoldFlows, HoldReturns, AreReached};
ghost use Rattle.flow_graph.specs.Triples.{HoldAsks, HoldTells, AreSent};
ghost use Rattle.flow_graph.specs.declared.graph.Graph.{Graph};
ghost use Rattle.flow_graph.specs.Drawn.{flows_of};
ghost use Rattle.flow_graph.specs.Bits.{bit_of};
ghost use Rattle.flow_graph.specs.declared.exit.Exit.{Exit};

use std::alloc::Allocator;

/// By the same messages, a graph reaches by numbers what its procedure reaches.
pub fn a_graph_reaches_what_its_procedure_reaches<A: Allocator>()
    ensures { (p : Program) (q : ℕ) (graph : Graph A) (ms : List Message) → ArgumentsFit p
        → IsGraph p q graph
        → AllAre (IsMessageTo p q) ms → (a n v : ℕ)
        → GraphReaches graph (Among (map by_numbers ms)) a n v ↔ AreNumbersOf
        (Reached p q (Among ms)) a n v }
{}

/// By the same messages, a graph sends by numbers what its procedure owes.
pub fn a_graph_sends_what_its_procedure_owes<A: Allocator>()
    ensures { (p : Program) (q : ℕ) (graph : Graph A) (ms : List Message) → ArgumentsFit p
        → IsInTextOrder p
        → IsGraph p q graph → AllAre (IsMessageTo p q) ms → (s : ℕ) (k : NumberedMessage)
        → Sends graph q (Among (map by_numbers ms)) s k ↔ IsNumberOf (Owes p q (Among ms) s) k }
{}

/// By messages that are due, a graph reaches only path edges.
pub fn by_due_messages_a_graph_reaches_path_edges<A: Allocator>()
    ensures { (p : Program) (q : ℕ) (graph : Graph A) (ks : List NumberedMessage) → ArgumentsFit p
        → IsGraph p q graph
        → AllAre (IsNumberOf (IsDue p q)) ks → (a n v : ℕ)
        → GraphReaches graph (Among ks) a n v → AreNumbersOf (EdgeTo p q) a n v }
{}

/// By messages that are due, a graph sends only messages that are due.
pub fn by_due_messages_a_graph_sends_due_messages<A: Allocator>()
    ensures { (p : Program) (q : ℕ) (graph : Graph A) (ks : List NumberedMessage) → ArgumentsFit p
        → IsInTextOrder p
        → IsGraph p q graph → AllAre (IsNumberOf (IsDue p q)) ks → (s : ℕ) (k : NumberedMessage)
        → Sends graph q (Among ks) s k → IsNumberOf (IsDue p s) k }
{}

/// By messages of the widths of its procedure, a graph reaches only points that it has, with numbers of the procedure's
/// valuations.
pub fn what_a_graph_reaches_has_its_widths<A: Allocator>()
    ensures { (p : Program) (q : ℕ) (graph : Graph A) (ks : List NumberedMessage) → ArgumentsFit p
        → IsGraph p q graph
        → AllAre (IsNumberOf (IsMessageTo p q)) ks → (a n v : ℕ)
        → GraphReaches graph (Among ks) a n v
        → (n < length (flows_of graph)) × IsNumberOfValuation p q a × IsNumberOfValuation p q v }
{}

/// By messages of the widths of its procedure, a graph sends only messages of the widths of their receivers.
pub fn what_a_graph_sends_has_its_widths<A: Allocator>()
    ensures { (p : Program) (q : ℕ) (graph : Graph A) (ks : List NumberedMessage) → ArgumentsFit p
        → IsInTextOrder p
        → IsGraph p q graph → AllAre (IsNumberOf (IsMessageTo p q)) ks
        → (s : ℕ) (k : NumberedMessage)
        → Sends graph q (Among ks) s k → IsNumberOf (IsMessageTo p s) k }
{}

/// By more messages, a graph reaches what it reached, and sends what it sent.
pub fn more_messages_lead_a_graph_further<A: Allocator>()
    ensures { (q : ℕ) (graph : Graph A) (ks js : List NumberedMessage) → AllAre (Among js) ks
        → ((a n v : ℕ) → GraphReaches graph (Among ks) a n v → GraphReaches graph (Among js) a n v)
        × ((s : ℕ) (k : NumberedMessage) → Sends graph q (Among ks) s k
        → Sends graph q (Among js) s k) }
{}

/// What a graph reaches from the number of an entry has an entry with this number.
pub fn what_a_graph_reaches_has_an_entry<A: Allocator>()
    ensures { (graph : Graph A) (ks : List NumberedMessage) (a n v : ℕ)
        → GraphReaches graph (Among ks) a n v
        → (from : Caller) × Member (numbered_entry from a) ks }
{}

/// Triples that hold the starts, and follow the flows and the returns, hold all that a graph reaches.
pub fn triples_that_follow_hold_what_is_reached<A: Allocator>()
    ensures { (graph : Graph A) (ks : List NumberedMessage) (ts : List (ℕ × ℕ × ℕ))
        → HoldStarts graph ks ts
        → HoldFlows graph ts → HoldReturns graph ks ts → (a n v : ℕ)
        → GraphReaches graph (Among ks) a n v → Member (a, n, v) ts }
{}

/// Triples of all that a graph reaches, and of nothing else, hold the starts and follow the flows and the returns.
pub fn triples_of_all_that_is_reached_follow<A: Allocator>()
    ensures { (graph : Graph A) (ks : List NumberedMessage) (ts : List (ℕ × ℕ × ℕ))
        → AreReached graph ks ts
        → HoldStarts graph ks ts × HoldFlows graph ts × HoldReturns graph ks ts }
{}

/// Messages that, besides, hold what such triples ask and tell, hold all that a graph sends.
pub fn messages_that_follow_hold_what_is_sent<A: Allocator>()
    ensures { (q : ℕ) (graph : Graph A) (ks : List NumberedMessage) (ts : List (ℕ × ℕ × ℕ))
        (sent : List (ℕ × NumberedMessage)) → HoldStarts graph ks ts → HoldFlows graph ts
        → HoldReturns graph ks ts
        → HoldAsks graph q ts sent → HoldTells graph q ks ts sent → (s : ℕ) (k : NumberedMessage)
        → Sends graph q (Among ks) s k → Member (s, k) sent }
{}

/// Beside triples of all that a graph reaches, the messages that it sends, and no others, hold what they ask and tell.
pub fn messages_of_all_that_is_sent_follow<A: Allocator>()
    ensures { (q : ℕ) (graph : Graph A) (ks : List NumberedMessage) (ts : List (ℕ × ℕ × ℕ))
        (sent : List (ℕ × NumberedMessage)) → AreReached graph ks ts → AreSent graph q ks sent
        → HoldAsks graph q ts sent × HoldTells graph q ks ts sent }
{}

/// A number determines its valuation, of a procedure's.
pub fn a_number_tells_its_valuation()
    ensures { (p : Program) (q : ℕ) (v w : Valuation) → IsValuationOf p q v → IsValuationOf p q w
        → code v ≡ code w → v ≡ w }
{}

/// Numbers determine their message, of those of the widths of a procedure's.
pub fn numbers_tell_their_message()
    ensures { (p : Program) (q : ℕ) (m n : Message) → IsMessageTo p q m → IsMessageTo p q n
        → by_numbers m ≡ by_numbers n → m ≡ n }
{}

/// A message of the right widths is due if and only if its numbers are those of one that is.
pub fn its_numbers_tell_that_a_message_is_due()
    ensures { (p : Program) (q : ℕ) (m : Message) → ArgumentsFit p → IsMessageTo p q m
        → IsNumberOf (IsDue p q) (by_numbers m) ↔ IsDue p q m }
{}

/// There is a path edge between valuations of a procedure if and only if their numbers, and its point's, are those
/// of one.
pub fn its_numbers_tell_a_path_edge()
    ensures { (p : Program) (q : ℕ) (x y : Valuation) (r : Code) → ArgumentsFit p → IsInTextOrder p
        → IsValuationOf p q x → IsValuationOf p q y → IsRestOf (body_of (slice_get p.routines q)) r
        → AreNumbersOf (EdgeTo p q) (code x) (point_at r) (code y) ↔ EdgeTo p q x y r }
{}

/// In a program that is marked in text order, the number of a point determines what is left to run.
pub fn the_number_of_a_point_tells_its_rest()
    ensures { (p : Program) (q : ℕ) (r s : Code) → IsInTextOrder p
        → IsRestOf (body_of (slice_get p.routines q)) r
        → IsRestOf (body_of (slice_get p.routines q)) s → point_at r ≡ point_at s → r ≡ s }
{}

/// Marked in text order, the bodies of a program are marked from 1 on.
pub fn marked_programs_are_in_text_order()
    ensures { (p : Program) → IsInTextOrder (in_text_order p) }
{}

/// The number of a procedure's valuation has as many bits as there are globals and values of a frame.
pub fn the_number_of_a_valuation_has_its_width()
    ensures { (p : Program) (q : ℕ) (routine : Routine) (n : ℕ)
        → slice_get p.routines q ≡ Some routine
        → IsNumberOfValuation p q n → n < 2 ^ (p.globals + frame_size routine) }
{}

/// The numbers of a path edge are those of its valuations and its point.
pub fn the_numbers_of_a_path_edge_have_its_point()
    ensures { (p : Program) (q a n v : ℕ)
        → AreNumbersOf (EdgeTo p q) a n v ↔ AreNumbersOfEdge p q a n v }
{}

/// If the opening message and each message sent are taken, and none that is not due, those due are taken, and the
/// path edges are reached and nothing else.
pub fn what_graphs_send_and_take_is_what_is_due<A: Allocator>()
    ensures { (p : Program) (graphs : List (Graph A)) (takes : List (List NumberedMessage))
        → TookAllDue p graphs takes
        → (q : ℕ) → ((k : NumberedMessage) → HasTaken takes q k ↔ IsNumberOf (IsDue p q) k)
        × ((graph : Graph A) → slice_get graphs q ≡ Some graph → (a n v : ℕ)
        → GraphReaches graph (HasTaken takes q) a n v ↔ AreNumbersOf (EdgeTo p q) a n v) }
{}

/// The entries then taken have the numbers of the valuations with which procedures are entered.
pub fn the_entries_taken_are_those_entered<A: Allocator>()
    ensures { (p : Program) (graphs : List (Graph A)) (takes : List (List NumberedMessage))
        → TookAllDue p graphs takes
        → (q a : ℕ)
        → ((from : Caller) × HasTaken takes q (numbered_entry from a)) ↔ IsNumberOfEntry p q a }
{}

/// What each graph then leaves has the numbers of its procedure's pairs.
pub fn what_graphs_leave_are_the_pairs<A: Allocator>()
    ensures { (p : Program) (graphs : List (Graph A)) (takes : List (List NumberedMessage))
        → TookAllDue p graphs takes
        → IsInTextOrder p → (q : ℕ) (graph : Graph A) → slice_get graphs q ≡ Some graph
        → (a : ℕ) (b : Exit)
        → Leaves graph (HasTaken takes q) a b ↔ AreNumbersOfPair p q a b }
{}

/// Some pair of the first procedure then has a global of 1 if and only if its graph is left with this bit 1.
pub fn a_bad_pair_is_left_by_its_graph<A: Allocator>()
    ensures { (p : Program) (graphs : List (Graph A)) (takes : List (List NumberedMessage))
        → TookAllDue p graphs takes
        → IsInTextOrder p → (graph : Graph A) → slice_get graphs 0 ≡ Some graph → (bad : ℕ)
        → SomeBad p bad ↔
        ((a : ℕ) × (b : Exit) × Leaves graph (HasTaken takes 0) a b
        × (bit_of b.globals bad ≡ true)) }
{}

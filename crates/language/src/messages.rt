//! Laws on what a procedure reaches and owes by the messages that it has.
ghost use Rattle.std.specs.Prelude.{◌≡◌, ◌↔◌, ℕ, List, Bool, Option, Some, slice_get};
ghost use Rattle.language.specs.Tree.{done};
ghost use Rattle.language.specs.Rest.{Code};
ghost use Rattle.language.specs.Step.{Routine, Program, result_of, body_of};
ghost use Rattle.language.specs.Sequential.{point_of, Valuation, Edge, Exit, Pair, Caller, Message};
ghost use Rattle.language.specs.Sequential.{entry, IsDue};
ghost use Rattle.language.specs.Flow.{IsRestOf};
ghost use Rattle.language.specs.Lists.{Member};
ghost use Rattle.language.specs.Messages.{Reached, Owes, AreDue, HasOpening, HasOwed, EdgeTo};
ghost use Rattle.language.specs.Messages.{IsValuationOf, IsMessageTo, ArgumentsFit};
ghost use Rattle.language.specs.Messages.{IsTakenBy};

/// By messages that are due, only path edges are reached.
pub fn by_due_messages_only_path_edges_are_reached()
    ensures { (p : Program) (q : ℕ) (ms : List Message) (a v : Valuation) (r : Code)
        → AreDue p q (λ m. Member m ms)
        → Reached p q (λ m. Member m ms) a v r → EdgeTo p q a v r }
{}

/// By messages that are due, only messages that are due are owed.
pub fn by_due_messages_only_due_messages_are_owed()
    ensures { (p : Program) (q s : ℕ) (ms : List Message) (m : Message)
        → AreDue p q (λ k. Member k ms)
        → Owes p q (λ k. Member k ms) s m → IsDue p s m }
{}

/// If the opening message and each message owed are taken, all that is due is taken, and each path edge is reached.
pub fn closed_messages_hold_all_that_is_due()
    ensures { (p : Program) (takes : List (List Message)) → HasOpening p (IsTakenBy takes)
        → HasOwed p (IsTakenBy takes)
        → ((q : ℕ) (m : Message) → IsDue p q m → IsTakenBy takes q m)
        × ((q : ℕ) (a v : Valuation) (r : Code) → EdgeTo p q a v r
        → Reached p q (IsTakenBy takes q) a v r) }
{}

/// If, moreover, no message is taken that is not due, those due are taken and no others, and the path edges are
/// reached and nothing else.
pub fn closed_messages_are_those_due()
    ensures { (p : Program) (takes : List (List Message)) → HasOpening p (IsTakenBy takes)
        → HasOwed p (IsTakenBy takes)
        → ((q : ℕ) → AreDue p q (IsTakenBy takes q)) → (q : ℕ)
        → ((m : Message) → IsTakenBy takes q m ↔ IsDue p q m)
        × ((a v : Valuation) (r : Code)
        → Reached p q (IsTakenBy takes q) a v r ↔ EdgeTo p q a v r) }
{}

/// A path edge at a point is one with something left to run at that point.
pub fn a_path_edge_has_a_rest_at_its_point()
    ensures { (p : Program) (q : ℕ) (a v : Valuation) (point : Option ℕ)
        → Edge p q a point v ↔ ((r : Code) × (point ≡ point_of r) × EdgeTo p q a v r) }
{}

/// A pair is a path edge with nothing left to run, and its result is that of the frame there.
pub fn a_pair_has_nothing_left_to_run()
    ensures { (p : Program) (q : ℕ) (a : Valuation) (b : Exit)
        → Pair p q a b ↔
        ((l : List Bool) × (b.result ≡ result_of (slice_get p.routines q) l)
        × EdgeTo p q a (record { globals = b.globals; places = l }) done) }
{}

/// What is reached from a valuation has an entry with that valuation.
pub fn what_is_reached_has_an_entry()
    ensures { (p : Program) (q : ℕ) (ms : List Message) (a v : Valuation) (r : Code)
        → Reached p q (λ m. Member m ms) a v r
        → (from : Caller) × Member (entry from a) ms }
{}

/// By more messages what was reached is reached, and what was owed is owed.
pub fn more_messages_reach_and_owe_more()
    ensures { (p : Program) (q : ℕ) (ms ns : List Message)
        → ((m : Message) → Member m ms → Member m ns)
        → ((a v : Valuation) (r : Code) → Reached p q (λ m. Member m ms) a v r
        → Reached p q (λ m. Member m ns) a v r)
        × ((s : ℕ) (m : Message) → Owes p q (λ k. Member k ms) s m
        → Owes p q (λ k. Member k ns) s m) }
{}

/// What is left to run where something is reached can be left to run of the procedure's body.
pub fn what_is_reached_stands_in_its_body()
    ensures { (p : Program) (q : ℕ) (ms : List Message) (a v : Valuation) (r : Code)
        → Reached p q (λ m. Member m ms) a v r
        → IsRestOf (body_of (slice_get p.routines q)) r }
{}

/// If a message is due, there is a procedure.
pub fn a_message_is_due_where_a_procedure_is()
    ensures { (p : Program) (q : ℕ) (m : Message) → IsDue p q m
        → (routine : Routine) × (slice_get p.routines q ≡ Some routine) }
{}

/// If each call has a place for each argument, the messages due have the widths of their procedures.
pub fn due_messages_have_their_widths()
    ensures { (p : Program) (q : ℕ) (m : Message) → ArgumentsFit p → IsDue p q m
        → IsMessageTo p q m }
{}

/// By messages of the right widths, what is reached has the widths of the procedure.
pub fn what_is_reached_has_its_widths()
    ensures { (p : Program) (q : ℕ) (ms : List Message) (a v : Valuation) (r : Code)
        → ((m : Message) → Member m ms → IsMessageTo p q m)
        → Reached p q (λ m. Member m ms) a v r → IsValuationOf p q a × IsValuationOf p q v }
{}

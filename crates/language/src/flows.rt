//! Laws on what is left to run in a procedure, on its points, and on the steps inside one call.
ghost use Rattle.std.specs.Prelude.{◌≡◌, ◌↔◌, ◌⊎◌, ◌∷◌, [], ℕ, suc, length, List, Bool, Some, map};
ghost use Rattle.std.specs.Prelude.{slice_get};
ghost use Rattle.language.specs.Tree.{Mark, RightSide, Expression, Simple, done, one, choose, loop};
ghost use Rattle.language.specs.Value.{Place};
ghost use Rattle.language.specs.Rest.{Label, Code, called_by};
ghost use Rattle.language.specs.Step.{Routine, Program, Frame, frame, waiting, State, state, Step};
ghost use Rattle.language.specs.Step.{body_of};
ghost use Rattle.language.specs.Sequential.{numbered, numbers, statements, point_of, Valuation};
ghost use Rattle.language.specs.Sequential.{Reaches};
ghost use Rattle.language.specs.Flow.{rests, IsRestOf, Flow, FlowsTo, ReturnsTo, EntersTo};
ghost use Rattle.language.specs.Lists.{Member};

/// In a block that is marked in text order, what is left from its statements on has their numbers as points, in order.
pub fn rests_have_their_points_in_text_order()
    ensures { (n : ℕ) (b k : Code)
        → map point_of (rests (numbered n b) k) ≡ map Some (numbers n (statements b)) }
{}

/// In a body that is marked in text order, a point determines what is left to run.
pub fn a_point_tells_its_rest()
    ensures { (n : ℕ) (b r r' : Code) → IsRestOf (numbered n b) r → IsRestOf (numbered n b) r'
        → point_of r ≡ point_of r' → r ≡ r' }
{}

/// In a body that is marked in text order, the rest at a place of the list is the one whose point is one more.
pub fn rests_stand_at_their_points()
    ensures { (b r : Code) (i : ℕ) → (slice_get (rests (numbered 1 b) done) i ≡ Some r)
        ↔ (IsRestOf (numbered 1 b) r × (point_of r ≡ Some (suc i))) }
{}

/// A block has as many rests as statements.
pub fn each_statement_has_one_rest()
    ensures { (b k : Code) → length (rests b k) ≡ statements b }
{}

/// What is left from a statement in a loop's body on comes back to the loop, and from one in a branch to what follows.
pub fn rests_go_on_behind_what_holds_them()
    ensures { (m : Mark Label) (c : RightSide Place) (s s' u : Simple Place ℕ Label)
        → (rests (loop m c (one m s done) (one m s' done)) done
        ≡ loop m c (one m s done) (one m s' done)
        ∷ one m s (loop m c (one m s done) (one m s' done)) ∷ one m s' done ∷ [])
        × (rests (choose m c (one m s done) (one m s' done) (one m u done)) done
        ≡ choose m c (one m s done) (one m s' done) (one m u done)
        ∷ one m s (one m u done) ∷ one m s' (one m u done) ∷ one m u done ∷ []) }
{}

/// A flow leads from what can be left to run of a body to what can be left to run of it.
pub fn a_flow_stays_in_its_body()
    ensures { (p : Program) (q : ℕ) (routine : Routine) (v v' : Valuation) (r r' : Code)
        → slice_get p.routines q ≡ Some routine
        → IsRestOf routine.body r → Flow p q v r v' r' → IsRestOf routine.body r' }
{}

/// A flow is the same step over whatever callers wait below.
pub fn callers_do_not_matter_to_a_flow()
    ensures { (p : Program) (q : ℕ) (v v' : Valuation) (r r' : Code) (fs : List Frame)
        → Flow p q v r v' r' ↔ Step p (state v.globals (frame q v.places r ∷ fs))
        (state v'.globals (frame q v'.places r' ∷ fs)) }
{}

/// No flow enters a procedure.
pub fn a_call_has_no_flow()
    ensures { (p : Program) (q n : ℕ) (v v' : Valuation) (es : List (Expression Place))
        (r r' : Code)
        → called_by r ≡ Some (n, es) → Flow p q v r v' r' → ⊥ }
{}

/// No flow leads from the exit.
pub fn the_exit_has_no_flow()
    ensures { (p : Program) (q : ℕ) (v v' : Valuation) (r' : Code) → Flow p q v done v' r' → ⊥ }
{}

/// Each step of a top frame is a flow, a return or the entering of a procedure.
pub fn a_step_flows_or_returns_or_enters()
    ensures { (p : Program) (q : ℕ) (v : Valuation) (r : Code) (callers : List Frame) (s : State)
        → Step p (state v.globals (frame q v.places r ∷ callers)) s
        ↔ (FlowsTo p q v r callers s ⊎ (ReturnsTo p q v r callers s ⊎ EntersTo p q v r callers s)) }
{}

/// In a sequential run, what is left in each frame, also in one that waits, can be left to run of its procedure's body.
pub fn each_frame_stands_in_its_body()
    ensures { (p : Program) (g : List Bool) (stack : List Frame) (q : ℕ) (l : List Bool) (r : Code)
        → Reaches p (state g stack)
        → (Member (frame q l r) stack → IsRestOf (body_of (slice_get p.routines q)) r)
        × ((x : Place) → Member (waiting q l x r) stack
        → IsRestOf (body_of (slice_get p.routines q)) r) }
{}

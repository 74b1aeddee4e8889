//! Laws that pin each kind of step: what a step of the top frame leads to, by its first statement.
ghost use Rattle.std.specs.Prelude.{◌≡◌, ◌↔◌, ◌⊎◌, ℕ, List, Bool, true, false, [], ◌∷◌, ◌++◌, ◌-◌};
ghost use Rattle.std.specs.Prelude.{◌≤◌, Option, Some, length, slice_get};
ghost use Rattle.language.specs.Tree.{RightSide, Expression, Mark, any, assign, assume, call};
ghost use Rattle.language.specs.Tree.{call_for, choose, done, goto, leave_with};
ghost use Rattle.language.specs.Tree.{leave, loop, one, skip};
ghost use Rattle.language.specs.Value.{Place, IsValue, bit, global, value_of, values_of};
ghost use Rattle.language.specs.Value.{written_globals, written_locals};
ghost use Rattle.language.specs.Rest.{Label, Code, join, rest_from};
ghost use Rattle.language.specs.Step.{Routine, Program, Frame, frame, waiting, State, state, zeros};
ghost use Rattle.language.specs.Step.{fresh, with_result, Step, frame_size};
ghost use Rattle.language.specs.Step.{result_of, given_back};

/// A frame with nothing left to run is removed, and its result with it.
pub fn a_finished_frame_goes()
    ensures { (p : Program) (g l : List Bool) (c : ℕ) (fs : List Frame) (u : State)
        → Step p (state g (frame c l done ∷ fs)) u
        ↔ (given_back (result_of (slice_get p.routines c) l) g fs ≡ u) }
{}

/// A `skip` continues and changes nothing.
pub fn a_skip_goes_on()
    ensures { (p : Program) (g l : List Bool) (c : ℕ) (m : Mark Label) (t : Code) (fs : List Frame)
        (u : State)
        → Step p (state g (frame c l (one m skip t) ∷ fs)) u ↔ (state g (frame c l t ∷ fs) ≡ u) }
{}

/// An assume has a step if and only if 1 is a value of its right side, and that step leads to what follows
/// it.
pub fn an_assume_steps_where_1_is_a_value()
    ensures { (p : Program) (g l : List Bool) (c : ℕ) (m : Mark Label) (r : RightSide Place)
        (t : Code)
        (fs : List Frame) (u : State)
        → Step p (state g (frame c l (one m (assume r) t) ∷ fs)) u
        ↔ (IsValue g l r true × (state g (frame c l t ∷ fs) ≡ u)) }
{}

/// An `if` goes to its first branch if 1 is a value and to its second if 0 is, and then on.
pub fn an_if_goes_into_a_branch()
    ensures { (p : Program) (g l : List Bool) (c : ℕ) (m : Mark Label) (r : RightSide Place)
        (a b t : Code)
        (fs : List Frame) (u : State)
        → Step p (state g (frame c l (choose m r a b t) ∷ fs)) u
        ↔ ((IsValue g l r true × (state g (frame c l (join a t) ∷ fs) ≡ u))
        ⊎ (IsValue g l r false × (state g (frame c l (join b t) ∷ fs) ≡ u))) }
{}

/// A loop goes to its body and then to itself if 1 is a value, and on if 0 is.
pub fn a_loop_goes_into_its_body_or_on()
    ensures { (p : Program) (g l : List Bool) (c : ℕ) (m : Mark Label) (r : RightSide Place)
        (a t : Code)
        (fs : List Frame) (u : State)
        → Step p (state g (frame c l (loop m r a t) ∷ fs)) u
        ↔ ((IsValue g l r true × (state g (frame c l (join a (loop m r a t)) ∷ fs) ≡ u))
        ⊎ (IsValue g l r false × (state g (frame c l t ∷ fs) ≡ u))) }
{}

/// A return leaves nothing to run in its frame.
pub fn a_return_leaves_nothing_to_run()
    ensures { (p : Program) (g l : List Bool) (c : ℕ) (m : Mark Label) (t : Code) (fs : List Frame)
        (u : State)
        → Step p (state g (frame c l (one m leave t) ∷ fs)) u ↔
        (state g (frame c l done ∷ fs) ≡ u) }
{}

/// A goto leads to the rest from its label on in the body of the frame's procedure.
pub fn a_goto_leads_to_its_label()
    ensures { (p : Program) (g l : List Bool) (c : ℕ) (m : Mark Label) (x : Label)
        (routine : Routine) (rest t : Code)
        (fs : List Frame) (u : State)
        → slice_get p.routines c ≡ Some routine → rest_from x routine.body done ≡ Some rest
        → Step p (state g (frame c l (one m (goto x) t) ∷ fs)) u ↔
        (state g (frame c l rest ∷ fs) ≡ u) }
{}

/// A call enters the whole body of its procedure, with the arguments first and 0 in every other place, and the caller
/// keeps what follows.
pub fn a_call_enters_with_its_arguments()
    ensures { (p : Program) (g l : List Bool) (c q : ℕ) (m : Mark Label)
        (es : List (Expression Place))
        (routine : Routine) (t : Code) (fs : List Frame) (u : State)
        → slice_get p.routines q ≡ Some routine
        → Step p (state g (frame c l (one m (call q es) t) ∷ fs)) u
        ↔
        (state g
        (frame q
        (values_of g l es ++ zeros (frame_size routine - length (values_of g l es))) routine.body
        ∷ frame c l t ∷ fs) ≡ u) }
{}

/// A return of a value leaves nothing to run in its frame, and the value is the frame's result.
pub fn a_return_of_a_value_keeps_it()
    ensures { (p : Program) (g l : List Bool) (c : ℕ) (m : Mark Label) (e : Expression Place)
        (t : Code) (fs : List Frame) (u : State)
        → Step p (state g (frame c l (one m (leave_with e) t) ∷ fs)) u
        ↔ (state g (frame c (with_result (slice_get p.routines c) l (value_of g l e)) done ∷ fs)
        ≡ u) }
{}

/// The result of a new frame is 0, and then the value that was returned last.
pub fn a_result_is_0_until_a_value_is_returned()
    ensures { (routine : Routine) (l : List Bool) (v : Bool)
        → (length l ≤ routine.places
        → result_of (Some routine) (fresh (frame_size routine) l) ≡ false)
        × (routine.gives ≡ true → length l ≡ frame_size routine
        → result_of (Some routine) (with_result (Some routine) l v) ≡ v) }
{}

/// A call for a value enters its procedure as a call does, and the caller waits.
pub fn a_call_for_a_value_waits()
    ensures { (p : Program) (g l : List Bool) (c q : ℕ) (m : Mark Label) (x : Place)
        (es : List (Expression Place))
        (routine : Routine) (t : Code) (fs : List Frame) (u : State)
        → slice_get p.routines q ≡ Some routine
        → Step p (state g (frame c l (one m (call_for x q es) t) ∷ fs)) u
        ↔
        (state g
        (frame q
        (values_of g l es ++ zeros (frame_size routine - length (values_of g l es))) routine.body
        ∷ waiting c l x t ∷ fs) ≡ u) }
{}

/// The step that removes a finished frame writes its result to the variable of a caller that waits, and the caller
/// continues.
pub fn a_finished_frame_gives_its_result()
    ensures { (p : Program) (g l k : List Bool) (c d : ℕ) (x : Place) (routine : Routine) (t : Code)
        (fs : List Frame) (u : State)
        → slice_get p.routines c ≡ Some routine → routine.gives ≡ true
        → Step p (state g (frame c l done ∷ waiting d k x t ∷ fs)) u
        ↔ (state (written_globals (x ∷ []) (bit l routine.places ∷ []) g)
        (frame d (written_locals (x ∷ []) (bit l routine.places ∷ []) k) t ∷ fs) ≡ u) }
{}

/// A caller that waits for no value, and a thread's first frame, drop the result.
pub fn a_result_may_be_dropped()
    ensures { (p : Program) (g l k : List Bool) (c d : ℕ) (t : Code) (fs : List Frame) (u : State)
        → (Step p (state g (frame c l done ∷ frame d k t ∷ fs)) u
        ↔ (state g (frame d k t ∷ fs) ≡ u))
        × (Step p (state g (frame c l done ∷ [])) u ↔ (state g [] ≡ u)) }
{}

/// A `?` has both values.
pub fn a_question_mark_has_both_values()
    ensures { (g l : List Bool) (v : Bool) → IsValue g l any v }
{}

/// x := ? gives a global either value, and no other step.
pub fn a_target_of_a_question_mark_gets_either_value()
    ensures { (p : Program) (a : Bool) (l : List Bool) (c : ℕ) (m : Mark Label) (t : Code)
        (fs : List Frame) (u : State)
        → Step p (state (a ∷ []) (frame c l (one m (assign (global 0 ∷ []) (any ∷ [])) t) ∷ fs)) u
        ↔
        ((state (true ∷ []) (frame c l t ∷ fs) ≡ u) ⊎ (state (false ∷ []) (frame c l t ∷ fs) ≡ u)) }
{}

//! Laws on single steps, and on what names stand for.
ghost use Rattle.std.specs.Prelude.{◌≡◌, ◌↔◌, ℕ, List, Bool, true, false, [], ◌∷◌, Some};
ghost use Rattle.std.specs.Prelude.{option_map};
ghost use Rattle.language.specs.Tree.{RightSide, Mark, value, var, assign, assert, one, loop, done};
ghost use Rattle.language.specs.Value.{Place, IsValue, global};
ghost use Rattle.language.specs.Rest.{Label, Code, join, has_label, rest_from};
ghost use Rattle.language.specs.Step.{Program, Frame, frame, State, state, Step, Fails};
ghost use Rattle.language.specs.Resolve.{meaning_of};
ghost use Rattle.language.specs.Examples.{hiding_tree, hiding_program};

/// A thread whose stack is empty has no step.
pub fn an_empty_stack_has_no_step()
    ensures { (p : Program) (g : List Bool) (t : State) → Step p (state g []) t → ⊥ }
{}

/// An assert has a step if and only if 1 is a value of its right side, and that step leads to what follows
/// it.
pub fn an_assert_steps_where_1_is_a_value()
    ensures { (p : Program) (g l : List Bool) (c : ℕ) (m : Mark Label) (r : RightSide Place)
        (t : Code)
        (fs : List Frame) (u : State)
        → Step p (state g (frame c l (one m (assert r) t) ∷ fs)) u
        ↔ (IsValue g l r true × (state g (frame c l t ∷ fs) ≡ u)) }
{}

/// An assert fails if and only if 0 is a value of its right side.
pub fn an_assert_fails_where_0_is_a_value()
    ensures { (g l : List Bool) (c : ℕ) (m : Mark Label) (r : RightSide Place) (t : Code)
        (fs : List Frame)
        → Fails (state g (frame c l (one m (assert r) t) ∷ fs)) ↔ IsValue g l r false }
{}

/// An assert for which 0 and 1 are values fails, and also has the step to what follows it.
pub fn an_assert_with_both_values_fails_and_goes_on()
    ensures { (p : Program) (g l : List Bool) (c : ℕ) (m : Mark Label) (r : RightSide Place)
        (t : Code)
        (fs : List Frame)
        → IsValue g l r false → IsValue g l r true
        → Fails (state g (frame c l (one m (assert r) t) ∷ fs))
        × Step p (state g (frame c l (one m (assert r) t) ∷ fs)) (state g (frame c l t ∷ fs)) }
{}

/// If 1 is a value, a loop has the step to its body and then the loop again.
pub fn a_loop_comes_back_behind_its_body()
    ensures { (p : Program) (g l : List Bool) (c : ℕ) (m : Mark Label) (r : RightSide Place)
        (a t : Code)
        (fs : List Frame)
        → IsValue g l r true → Step p (state g (frame c l (loop m r a t) ∷ fs))
        (state g (frame c l (join a (loop m r a t)) ∷ fs)) }
{}

/// Joining no statements before or after others leaves the others.
pub fn joining_to_nothing_changes_nothing()
    ensures { (a : Code) → (join done a ≡ a) × (join a done ≡ a) }
{}

/// What comes after a block comes after each rest that a label in it has.
pub fn what_follows_a_block_follows_its_rests()
    ensures { (x : Label) (b k : Code)
        → rest_from x b k ≡ option_map (λ rest. join rest k) (rest_from x b done) }
{}

/// The rest from a label in a loop's body is what is left of the body, and then the loop again.
pub fn a_label_in_a_loop_leads_back_to_the_loop()
    ensures { (x : Label) (m : Mark Label) (r : RightSide Place) (a t k rest : Code)
        → has_label x m ≡ false
        → rest_from x a done ≡ Some rest
        → rest_from x (loop m r a t) k ≡ Some (join rest (loop m r a (join t k))) }
{}

/// x, y := y, x swaps two globals: all right sides are computed before any target is written.
pub fn a_swap_computes_before_it_writes()
    ensures { (p : Program) (a b : Bool) (l : List Bool) (c : ℕ) (m : Mark Label) (t : Code)
        (fs : List Frame)
        (u : State)
        → Step p (state (a ∷ b ∷ []) (frame c l (one m (assign (global 0 ∷ global 1 ∷ [])
        (value (var (global 1)) ∷ value (var (global 0)) ∷ [])) t) ∷ fs)) u
        ↔ (state (b ∷ a ∷ []) (frame c l t ∷ fs) ≡ u) }
{}

/// A name that is a local and a global stands for the local.
pub fn a_local_hides_a_global()
    ensures { meaning_of hiding_tree ≡ hiding_program }
{}

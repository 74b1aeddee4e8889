//! Laws on whole runs: what more rounds change, and the verdicts of small programs.
ghost use Rattle.std.specs.Prelude.{◌≡◌, ◌≤◌, ℕ, []};
ghost use Rattle.language.specs.Step.{Program};
ghost use Rattle.language.specs.Rounds.{Unsafe};
ghost use Rattle.language.specs.Examples.{writer_then_reader, reader_then_writer};
ghost use Rattle.language.specs.Examples.{spinner_then_failure, checked_write, run_once, run_twice};
ghost use Rattle.language.specs.Examples.{passed_values, handshake, return_and_write, late_value};

/// What is unsafe within some rounds is unsafe within more.
pub fn more_rounds_reach_more()
    ensures { (p : Program) (j k : ℕ) → j ≤ k → Unsafe p j → Unsafe p k }
{}

/// A program without threads is never unsafe.
pub fn no_threads_never_fail()
    ensures { (p : Program) (k : ℕ) → p.threads ≡ [] → Unsafe p k → ⊥ }
{}

/// If the writer comes before the reader, one round suffices.
pub fn a_writer_before_the_reader_needs_one_round()
    ensures { Unsafe writer_then_reader 1 }
{}

/// If the reader comes before the writer, it takes a second round.
pub fn a_reader_before_the_writer_needs_two_rounds()
    ensures { (Unsafe reader_then_writer 1 → ⊥) × Unsafe reader_then_writer 2 }
{}

/// A thread that never ends does not keep another from failing.
pub fn a_spinning_thread_keeps_no_failure_away()
    ensures { Unsafe spinner_then_failure 1 }
{}

/// An assert of what the one thread has just written holds within any number of rounds.
pub fn a_checked_write_is_never_unsafe()
    ensures { (k : ℕ) → Unsafe checked_write k → ⊥ }
{}

/// A thread that asserts what it has not written yet does not fail, but two such threads fail in the first
/// round.
pub fn a_second_thread_of_one_procedure_fails()
    ensures { ((k : ℕ) → Unsafe run_once k → ⊥) × Unsafe run_twice 1 }
{}

/// A call writes the value that it was passed: of two calls the write of the second lasts.
pub fn the_value_passed_last_lasts()
    ensures { (k : ℕ) → Unsafe passed_values k → ⊥ }
{}

/// The value that a call gives is written to the variable that the call names.
pub fn a_value_given_is_written()
    ensures { (k : ℕ) → Unsafe return_and_write k → ⊥ }
{}

/// Between the end of a call and the write of its value other threads may run: what a call gives in one round may be
/// written in the next.
pub fn a_value_may_be_written_late()
    ensures { (Unsafe late_value 1 → ⊥) × Unsafe late_value 2 }
{}

/// If two threads wait for each other in turn, it takes a round for each turn: three.
pub fn a_handshake_needs_three_rounds()
    ensures { (Unsafe handshake 2 → ⊥) × Unsafe handshake 3 }
{}

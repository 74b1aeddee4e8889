//! A row: a board of two mailboxes, and the calls of its passes.
ghost use Rattle.std.specs.Prelude.{◌≡◌, ◌≤◌, IfOk};
ghost use Rattle.analysis_tests.specs.Boards.{IsRow};

use crate::boards::calls::{Act, Answer, Name, Step};
use crate::boards::case::Case;
use crate::boards::letters::{Letter, Letters};
use crate::boards::one_call::call;
use std::alloc::AllocError;
use std::sync::Wait;
use switchboard::{Board, Job};

/// The passes of a board of two mailboxes, with the jobs that they have, and what the first told the second.
pub(crate) struct Row<P, T> {
    pub(crate) zero: P,
    pub(crate) one: P,
    pub(crate) told: Option<T>,
    pub(crate) j0: Option<Job>,
    pub(crate) j1: Option<Job>,
    pub(crate) j2: Option<Job>,
}

/// The steps after the opening: those of the worked row, and one more take of each pass.
static STEPS: [Step; 16] = [
    Step::Call(Name::J0, Act::Take),
    Step::Call(Name::J0, Act::Post(1)),
    Step::Call(Name::J0, Act::Post(2)),
    Step::Tell,
    Step::Learn,
    Step::Call(Name::J1, Act::Take),
    Step::Call(Name::J2, Act::Take),
    Step::Call(Name::J1, Act::Take),
    Step::Call(Name::J1, Act::Done),
    Step::Call(Name::J2, Act::Done),
    Step::Call(Name::J1, Act::Take),
    Step::Call(Name::J0, Act::Done),
    Step::Call(Name::J0, Act::Take),
    Step::Call(Name::J1, Act::Take),
    Step::Call(Name::J0, Act::Take),
    Step::Call(Name::J1, Act::Take),
];

/// A board of two mailboxes, on which nothing but the opening post was made, and its passes.
pub(crate) fn open<B: Letters + Drop>(
    alloc: B::Heap,
    budget: u64,
) -> Result<(B, Row<B::Pass, B::Told>), AllocError>
where
    B::Heap: Clone,
    B::Pass: Drop,
    requires { (2 ≤ budget) × (budget ≤ 1000) }
    ensures { IfOk result
        (λ r. (B.mailboxes r.0 ≡ 2) × IsRow B.sight B.account (B.identity r.0) r.1) }
{
    let (board, mut passes) = B::open_with_budget(alloc, &(), 2, 0, Letter(0), budget)?;
    let Some(one) = passes.pop() else {
        unreachable!()
    };
    let Some(zero) = passes.pop() else {
        unreachable!()
    };
    Ok((
        board,
        Row {
            zero,
            one,
            told: None,
            j0: None,
            j1: None,
            j2: None,
        },
    ))
}

/// Makes a call with the job of this name.
fn call_of<R: Wait, B: Letters>(
    rt: &R,
    board: &B,
    row: &mut Row<B::Pass, B::Told>,
    name: Name,
    act: Act,
) -> Answer
    requires { IsRow B.sight B.account (B.identity board.now) row.old }
    ensures { IsRow B.sight B.account (B.identity board.now) row.new }
{
    match name {
        Name::J0 => call(rt, board, &mut row.zero, &mut row.j0, act),
        Name::J1 => call(rt, board, &mut row.one, &mut row.j1, act),
        Name::J2 => call(rt, board, &mut row.one, &mut row.j2, act),
    }
}

/// Makes a step of the row.
fn make<R: Wait, B: Letters>(
    rt: &R,
    board: &B,
    row: &mut Row<B::Pass, B::Told>,
    step: Step,
) -> Answer
where
    B::Told: Drop,
    requires { IsRow B.sight B.account (B.identity board.now) row.old }
    ensures { IsRow B.sight B.account (B.identity board.now) row.new }
{
    match step {
        Step::Call(name, act) => call_of(rt, board, row, name, act),
        Step::Tell => {
            row.told = Some(Board::tell(board, &mut row.zero));
            Answer::Nothing
        }
        Step::Learn => {
            if let Some(told) = row.told.take() {
                Board::learn(board, &mut row.one, told);
            }
            Answer::Nothing
        }
    }
}

/// Makes the abort of the case, and forgets the answers before it.
fn abort<R: Wait, B: Letters>(
    rt: &R,
    board: &B,
    row: &mut Row<B::Pass, B::Told>,
    case: &Case,
    out: &mut String,
)
    requires { IsRow B.sight B.account (B.identity board.now) row.old }
    ensures { IsRow B.sight B.account (B.identity board.now) row.new }
{
    out.clear();
    call_of(rt, board, row, case.name, case.act);
    if case.twice {
        call_of(rt, board, row, case.name, Act::AbortAlone);
    }
}

/// Appends an answer to the others.
fn write_answer(out: &mut String, step: Step, answer: Answer) -> Result<(), AllocError> {
    if matches!(answer, Answer::Nothing) {
        return Ok(());
    }
    let lead = if out.is_empty() { "" } else { "; " };
    write!(out, "{lead}{step}: {answer}")
}

/// Makes all steps, and the abort of the case where it says; writes the answers after that.
pub(crate) fn play<R: Wait, B: Letters>(
    rt: &R,
    board: &B,
    row: &mut Row<B::Pass, B::Told>,
    case: &Case,
    out: &mut String,
) -> Result<(), AllocError>
where
    B::Told: Drop,
    requires { IsRow B.sight B.account (B.identity board.now) row.old }
    ensures { IsRow B.sight B.account (B.identity board.now) row.new }
{
    for (number, step) in STEPS.iter().enumerate() {
        if number == case.after {
            abort(rt, board, row, case, out);
        }
        let answer = make(rt, board, row, *step);
        write_answer(out, *step, answer)?;
    }
    Ok(())
}

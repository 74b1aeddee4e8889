//! One call of a pass, with one of its jobs, if it is there.
ghost use Rattle.std.specs.Prelude.{◌≡◌, ◌≢◌, ◌<◌, Some};
ghost use Rattle.post_ledger.specs.Orders.{HasJob};
ghost use Rattle.analysis_tests.specs.Boards.{Has, LeavesJob, Spends};

use crate::boards::calls::{Act, Answer};
use crate::boards::letters::{Letter, Letters};
use std::mem;
use std::sync::Wait;
use switchboard::{Board, Cause, Job, Taken};
use ticket_lock::Spent;

/// Completes the message of the job, if it is there; if the calls are used up, an abort spends it.
pub(crate) fn spend<R: Wait, B: Letters>(rt: &R, board: &B, pass: &mut B::Pass, job: Option<Job>)
    requires board { (B.sight pass.old).board ≡ B.identity board.now }
    requires job { Has (B.sight pass.old) job }
    ensures { Spends (B.sight pass.old) (B.sight pass.new) job }
{
    let Some(job) = job else {
        return;
    };
    match Board::done(board, rt, pass, job) {
        Ok(()) => {}
        Err((back, Spent)) => Board::abort(board, rt, pass, Some(back), Cause::Spent),
    }
}

/// Puts a job in the place of another, whose message is then completed.
fn put<R: Wait, B: Letters>(
    rt: &R,
    board: &B,
    pass: &mut B::Pass,
    place: &mut Option<Job>,
    job: Job,
)
    requires board { (B.sight pass.old).board ≡ B.identity board.now }
    requires place { Has (B.sight pass.old) place.old }
    requires job { HasJob (B.sight pass.old).number job (B.sight pass.old).seen.order
        × (place.old ≢ Some job) }
    ensures place { place.new ≡ Some job }
    ensures spends { Spends (B.sight pass.old) (B.sight pass.new) place.old }
{
    let old = mem::replace(place, Some(job));
    spend(rt, board, pass, old);
}

fn take<R: Wait, B: Letters>(rt: &R, board: &B, pass: &mut B::Pass, job: &mut Option<Job>) -> Answer
    requires board { (B.sight pass.old).board ≡ B.identity board.now }
    requires job { Has (B.sight pass.old) job.old }
    ensures { LeavesJob (B.sight pass.old) (B.sight pass.new) job.old job.new }
{
    match Board::take(board, rt, pass) {
        Ok(Taken::Message(new, letter)) => {
            put(rt, board, pass, job, new);
            Answer::Message(letter)
        }
        Ok(Taken::Empty) => Answer::Empty,
        Ok(Taken::Closed) => Answer::Closed,
        Ok(Taken::Aborted) => Answer::Aborted,
        Err(Spent) => Answer::Spent,
    }
}

fn post<R: Wait, B: Letters>(
    rt: &R,
    board: &B,
    pass: &mut B::Pass,
    job: &Option<Job>,
    message: u8,
) -> Answer
    requires board { (B.sight pass.old).board ≡ B.identity board.now }
    requires boxes { 1 < (B.sight pass.old).seen.boxes }
    requires job { Has (B.sight pass.old) job.now }
    ensures { LeavesJob (B.sight pass.old) (B.sight pass.new) job.now job.now }
{
    let Some(job) = job else {
        return Answer::Nothing;
    };
    match Board::post(board, rt, pass, job, 1, Letter(message)) {
        Ok(()) => Answer::Ok,
        Err(fault) => Answer::Refused(fault),
    }
}

fn done<R: Wait, B: Letters>(
    rt: &R,
    board: &B,
    pass: &mut B::Pass,
    place: &mut Option<Job>,
) -> Answer
    requires board { (B.sight pass.old).board ≡ B.identity board.now }
    requires job { Has (B.sight pass.old) place.old }
    ensures { LeavesJob (B.sight pass.old) (B.sight pass.new) place.old place.new }
{
    let Some(job) = place.take() else {
        return Answer::Nothing;
    };
    match Board::done(board, rt, pass, job) {
        Ok(()) => Answer::Ok,
        Err((back, Spent)) => {
            put(rt, board, pass, place, back);
            Answer::JobBack
        }
    }
}

fn abort<R: Wait, B: Letters>(rt: &R, board: &B, pass: &mut B::Pass, job: &mut Option<Job>)
    requires board { (B.sight pass.old).board ≡ B.identity board.now }
    requires job { Has (B.sight pass.old) job.old }
    ensures { LeavesJob (B.sight pass.old) (B.sight pass.new) job.old job.new }
{
    let job = job.take();
    Board::abort(board, rt, pass, job, Cause::Memory);
}

/// Makes a call with a job of the pass, if it is there.
pub(crate) fn call<R: Wait, B: Letters>(
    rt: &R,
    board: &B,
    pass: &mut B::Pass,
    job: &mut Option<Job>,
    act: Act,
) -> Answer
    requires board { (B.sight pass.old).board ≡ B.identity board.now }
    requires boxes { 1 < (B.sight pass.old).seen.boxes }
    requires job { Has (B.sight pass.old) job.old }
    ensures { LeavesJob (B.sight pass.old) (B.sight pass.new) job.old job.new }
{
    match act {
        Act::Take => take(rt, board, pass, job),
        Act::Post(message) => post(rt, board, pass, job, message),
        Act::Done => done(rt, board, pass, job),
        Act::Abort => {
            abort(rt, board, pass, job);
            Answer::Nothing
        }
        Act::AbortAlone => {
            Board::abort(board, rt, pass, None, Cause::NoWorker);
            Answer::Nothing
        }
    }
}

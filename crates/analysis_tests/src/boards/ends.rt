//! What is left of a board at the end of a row.
ghost use Rattle.std.specs.Prelude.{◌≡◌};
ghost use Rattle.analysis_tests.specs.Boards.{IsRow};

use crate::boards::letters::{Letter, Letters};
use crate::boards::one_call::spend;
use crate::boards::row::Row;
use post_ledger::{Event, Ledger, Mailbox};
use std::alloc::{AllocError, Allocator};
use std::sync::Wait;
use switchboard::Board;

/// The ledger of the board, once the jobs that are left are spent.
pub(crate) fn settle<R: Wait, B: Letters + Drop>(
    rt: &R,
    alloc: B::Heap,
    board: B,
    row: Row<B::Pass, B::Told>,
) -> Result<Ledger<Letter, B::Heap>, AllocError>
where
    B::Pass: Drop,
    B::Told: Drop,
    requires boxes { B.mailboxes board ≡ 2 }
    requires row { IsRow B.sight B.account (B.identity board) row }
{
    let Row {
        mut zero,
        mut one,
        told: _,
        j0,
        j1,
        j2,
    } = row;
    spend(rt, &board, &mut zero, j0);
    spend(rt, &board, &mut one, j1);
    spend(rt, &board, &mut one, j2);
    let mut passes = Vec::with_capacity(alloc, 2)?;
    passes.push_reserved(zero);
    passes.push_reserved(one);
    Ok(Board::into_ledger(board, &mut passes))
}

/// How many Posts, Takes and Dones the histories have.
fn counts<A: Allocator>(histories: &[Mailbox<Letter, A>]) -> (u64, u64, u64) {
    let mut posts = 0u64;
    let mut takes = 0u64;
    let mut dones = 0u64;
    for mailbox in histories {
        for number in 0..mailbox.len() {
            match mailbox.event(number) {
                Some(Event::Post { .. }) => posts = posts.wrapping_add(1),
                Some(Event::Take { .. }) => takes = takes.wrapping_add(1),
                Some(Event::Done { .. }) => dones = dones.wrapping_add(1),
                None => {}
            }
        }
    }
    (posts, takes, dones)
}

/// Writes how many of each event there are, and whether the board is closed.
pub(crate) fn write_counts<A: Allocator>(
    out: &mut String,
    ledger: &Ledger<Letter, A>,
) -> Result<(), AllocError> {
    let (posts, takes, dones) = counts(ledger.histories.as_slice());
    let closed = if ledger.closed {
        "closed"
    } else {
        "not closed"
    };
    write!(
        out,
        "\nPosts {posts}, Takes {takes}, Dones {dones}; {closed}"
    )
}

//! The calls of a row, and what they return.
use crate::boards::letters::Letter;
use std::fmt;
use switchboard::PostFault;

/// A job of the row, which is named after its message. The first is one of pass 0, the others are of pass 1.
#[derive(Clone, Copy)]
pub(crate) enum Name {
    J0,
    J1,
    J2,
}

/// A call of the pass whose job is named.
#[derive(Clone, Copy)]
pub(crate) enum Act {
    /// Takes a message; its job gets the name.
    Take,
    /// Posts a message with this number to mailbox 1, under the job.
    Post(u8),
    /// Completes the message of the job.
    Done,
    /// Aborts the board, and spends the job.
    Abort,
    /// Aborts the board, and keeps the job.
    AbortAlone,
}

/// A step of the row.
#[derive(Clone, Copy)]
pub(crate) enum Step {
    Call(Name, Act),
    /// Pass 0 tells what it has seen.
    Tell,
    /// Pass 1 learns it.
    Learn,
}

/// What a step returns.
#[derive(Clone, Copy)]
pub(crate) enum Answer {
    /// The step returns nothing, or was not made since there is no such job.
    Nothing,
    Ok,
    Message(Letter),
    Empty,
    Closed,
    Aborted,
    Spent,
    /// The post was refused.
    Refused(PostFault<Letter>),
    /// The calls are used up, and the job came back.
    JobBack,
}

impl fmt::Display for Name {
    fn fmt<W: fmt::Write>(&self, f: &mut fmt::Formatter<W>) -> fmt::Result {
        f.write_str(match self {
            Name::J0 => "J0",
            Name::J1 => "J1",
            Name::J2 => "J2",
        })
    }
}

impl fmt::Display for Step {
    fn fmt<W: fmt::Write>(&self, f: &mut fmt::Formatter<W>) -> fmt::Result {
        match *self {
            Step::Call(Name::J0, Act::Take) => f.write_str("0 takes"),
            Step::Call(_, Act::Take) => f.write_str("1 takes"),
            Step::Call(_, Act::Post(message)) => write!(f, "post m{message}"),
            Step::Call(name, Act::Done) => write!(f, "done {name}"),
            Step::Call(_, Act::Abort | Act::AbortAlone) => f.write_str("abort"),
            Step::Tell => f.write_str("tell"),
            Step::Learn => f.write_str("learn"),
        }
    }
}

impl fmt::Display for Answer {
    fn fmt<W: fmt::Write>(&self, f: &mut fmt::Formatter<W>) -> fmt::Result {
        match *self {
            Answer::Nothing => Ok(()),
            Answer::Ok => f.write_str("Ok"),
            Answer::Message(Letter(message)) => write!(f, "m{message}"),
            Answer::Empty => f.write_str("Empty"),
            Answer::Closed => f.write_str("Closed"),
            Answer::Aborted => f.write_str("Aborted"),
            Answer::Spent => f.write_str("Spent"),
            Answer::Refused(PostFault::Spent(Letter(back))) => write!(f, "Spent, m{back} back"),
            Answer::Refused(PostFault::Memory(Letter(back))) => write!(f, "Memory, m{back} back"),
            Answer::Refused(PostFault::Aborted(Letter(back))) => write!(f, "Aborted, m{back} back"),
            Answer::JobBack => f.write_str("Spent, the job back"),
        }
    }
}

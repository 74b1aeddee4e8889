//! Why words give no order.
ghost use Rattle.clap.specs.Words.{kind_of};
ghost use Rattle.arguments.specs.Faults.{IsOfKind};

use clap::Error;
use clap::error::ErrorKind;
use std::alloc::Global;

/// Why the words give no order. The texts are those of `clap`, or written as it writes them.
#[derive(Drop)]
pub enum LineFault {
    /// Help or the version was asked for: its text.
    Help(String),
    /// The words are refused: the reason.
    Refused(String),
    /// An allocation was refused.
    Memory,
}

/// The fault for an error of `clap`, with a hint behind its text.
pub fn fault_of(alloc: Global, error: &Error, hint: &str) -> LineFault
    ensures { IsOfKind (kind_of error.now) result }
{
    let kind = error.kind();
    if kind == ErrorKind::OutOfMemory {
        return LineFault::Memory;
    }
    let help = !error.use_stderr();
    match format!(in alloc; "{error}{hint}") {
        Ok(text) if help => LineFault::Help(text),
        Ok(text) => LineFault::Refused(text),
        Err(_) => LineFault::Memory,
    }
}

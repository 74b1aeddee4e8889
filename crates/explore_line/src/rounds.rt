//! What the value of `--rounds` means.
ghost use Rattle.std.specs.Prelude.{ℕ, MatchOption};
ghost use Rattle.explore_line.specs.Line.{IsNumberFrom1, IsRefusedOrMemory, ReadsAs};

use arguments::LineFault;
use exploration::Rounds;
use std::alloc::Global;

/// The number that the text reads as, if that is one from 1 to 4,294,967,295.
fn number_of(text: &str) -> Option<u32>
    ensures { MatchOption result ((n : ℕ) → ¬ IsNumberFrom1 text.now n) (IsNumberFrom1 text.now) }
{
    match text.parse::<u32>() {
        Ok(number) if number >= 1 => Some(number),
        _ => None,
    }
}

/// The rounds that the text reads as: all of them, or at most some number.
pub(crate) fn rounds_of(text: &str) -> Option<Rounds>
    ensures { MatchOption result ((rounds : Rounds) → ¬ ReadsAs text.now rounds)
        (ReadsAs text.now) }
{
    if text == "all" {
        return Some(Rounds::All);
    }
    let number = number_of(text)?;
    Some(Rounds::AtMost(number))
}

/// The fault for a text that reads as no rounds, written as `clap` writes that of another option.
pub(crate) fn no_rounds(alloc: Global, text: &str) -> LineFault
    ensures { IsRefusedOrMemory result }
{
    let why = format!(in alloc;
        "error: invalid value '{text}' for '--rounds <K>': 1 to 4294967295, or all\n\nFor more information, try '--help'.\n"
    );
    match why {
        Ok(why) => LineFault::Refused(why),
        Err(_) => LineFault::Memory,
    }
}

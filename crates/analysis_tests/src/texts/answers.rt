//! The answer to each command.
ghost use Rattle.std.specs.Prelude.{ℕ, ◌<◌, ◌≤◌, length};
ghost use Rattle.std.specs.List.{slice_index};

use crate::texts::page::Page;
use crate::texts::refused::swept;
use crate::texts::row::{in_one_line, unescaped};
use crate::texts::show::{show_bodies, show_program, show_tokens};
use cases::{Sweep, Swept};
use std::alloc::{AllocError, Allocator};
use syntax::{ReadFault, print, read};
use tokens::{CutFault, Token, as_ascii, cut, is_too_deep};
use trees::Program;

/// The most bytes of a text.
const LIMIT: usize = 65536;

fn say<A: Allocator>(page: &mut Page<A>, holds: bool) {
    page.put(if holds { "true" } else { "false" });
}

// `cut`: the tokens. `deep`: whether they nest too deep. `same`: whether the first two are of one kind. `operator`:
// whether the first is an operator.
fn ask_tokens<A: Allocator>(page: &mut Page<A>, command: &str, tokens: &[Token<'_>]) {
    match (command, tokens) {
        ("cut", _) => show_tokens(page, tokens),
        ("deep", _) => say(page, is_too_deep(tokens)),
        ("same", [first, second, ..]) => say(page, first.kind.is(second.kind)),
        ("operator", [first, ..]) => say(page, first.kind.is_operator()),
        _ => page.put("no such command, or too few tokens"),
    }
}

// Whether a text is refused by this fault.
fn is_refused_by<A: Allocator>(alloc: A, text: &str, fault: &CutFault) -> bool
    requires ascii { (i : ℕ) → slice_index text.now i < 128 }
    requires within { length text.now ≤ 65536 }
{
    match cut(alloc, text) {
        Ok(_) => false,
        Err(again) => again == *fault,
    }
}

// Asks the command of the text's tokens, or returns why it has none. `faults`: whether the text is refused twice by
// equal faults.
fn ask_text<A: Allocator + Copy>(alloc: A, page: &mut Page<A>, command: &str, bytes: &[u8]) {
    let Some(text) = as_ascii(bytes) else {
        return page.put("not ascii");
    };
    if text.len() > LIMIT {
        return page.put("too long");
    }
    match cut(alloc, text) {
        Ok(tokens) => ask_tokens(page, command, &tokens),
        Err(fault) if command == "faults" => say(page, is_refused_by(alloc, text, &fault)),
        Err(fault) => page.put_shown(&fault),
    }
}

// What is shown of a program: its tree, the statements of its procedures, or what is printed for it.
#[derive(Clone, Copy)]
enum View {
    Tree,
    Bodies,
    Printed,
}

fn show<A: Allocator + Copy>(alloc: A, page: &mut Page<A>, view: View, program: &Program<A>) {
    match view {
        View::Tree => show_program(page, program),
        View::Bodies => show_bodies(page, &program.procs),
        View::Printed => page.put_text(print(alloc, program)),
    }
}

// What is shown of the program of a text, or the words of the text's fault.
fn show_text<A: Allocator + Copy>(alloc: A, page: &mut Page<A>, view: View, bytes: &[u8]) {
    match read(alloc, bytes) {
        Ok(program) => show(alloc, page, view, &program),
        Err(fault) => page.put_shown(&fault),
    }
}

// A text whose one procedure asserts the expression.
fn asserting<A: Allocator>(alloc: A, expression: &str) -> Result<String<A>, AllocError> {
    format!(in alloc; "t() begin assert({expression}); end thread t;")
}

// The statements of a text whose one procedure asserts the expression.
fn show_asserted<A: Allocator + Copy>(alloc: A, page: &mut Page<A>, expression: &str) {
    match asserting(alloc, expression) {
        Ok(text) => show_text(alloc, page, View::Bodies, text.as_bytes()),
        Err(none) => page.put_text(Err(none)),
    }
}

// The number of the fault, and 0 for a text that is read.
fn number_of_fault<A: Allocator + Copy>(alloc: A, bytes: &[u8]) -> u32 {
    match read(alloc, bytes) {
        Ok(_) => 0,
        Err(ReadFault::TooLong) => 1,
        Err(ReadFault::NotAscii) => 2,
        Err(ReadFault::Syntax(_)) => 3,
        Err(ReadFault::TooDeep) => 4,
        Err(ReadFault::Memory) => 5,
    }
}

// The lengths of the fronts of a text that are read. A front that is not read must be refused for its syntax, at a
// place in it.
fn show_fronts<A: Allocator + Copy>(alloc: A, page: &mut Page<A>, bytes: &[u8]) {
    for length in 0..=bytes.len() {
        show_front(alloc, page, &bytes[..length]);
    }
}

fn show_front<A: Allocator + Copy>(alloc: A, page: &mut Page<A>, bytes: &[u8]) {
    let length = bytes.len();
    match read(alloc, bytes) {
        Ok(_) => page.put_shown(&length),
        Err(ReadFault::Syntax(at)) if at as usize <= length => return,
        Err(fault) => {
            page.put_shown(&length);
            page.put(": ");
            page.put_shown(&fault);
        }
    }
    page.put(" ");
}

// What is printed for a text, if it is printed the same or memory is lacking in each run of the sweep.
fn refused<A: Allocator + Copy>(
    alloc: A,
    sweep: Sweep,
    bytes: &[u8],
) -> Result<String<A>, AllocError> {
    let mut page = Page::new(alloc);
    show_text(alloc, &mut page, View::Printed, bytes);
    let wanted = page.text()?;
    match swept(alloc, sweep, bytes, wanted.as_str()) {
        Swept::Kept(_) => Ok(wanted),
        swept => format!(in alloc; "{swept:?}"),
    }
}

// Puts the answer on the page.
fn put_answer<A: Allocator + Copy>(
    alloc: A,
    page: &mut Page<A>,
    command: &str,
    spelled: &str,
    bytes: &[u8],
) {
    match command {
        "read" => show_text(alloc, page, View::Tree, bytes),
        "assert" => show_asserted(alloc, page, spelled),
        "print" => show_text(alloc, page, View::Printed, bytes),
        "fronts" => show_fronts(alloc, page, bytes),
        "fault" => page.put_shown(&number_of_fault(alloc, bytes)),
        "length" => page.put_shown(&bytes.len()),
        _ => ask_text(alloc, page, command, bytes),
    }
}

// Puts the answer to a command and the spelling of a text on the page. A sweep is there for the command `print` alone.
fn put_case<A: Allocator + Copy>(
    alloc: A,
    page: &mut Page<A>,
    sweep: Option<Sweep>,
    command: &str,
    spelled: &str,
) {
    match (sweep, unescaped(alloc, spelled)) {
        (_, Err(none)) => page.put_text(Err(none)),
        (None, Ok(bytes)) => put_answer(alloc, page, command, spelled, bytes.as_slice()),
        (Some(sweep), Ok(bytes)) => page.put_text(refused(alloc, sweep, bytes.as_slice())),
    }
}

/// The answer to a case, in one line.
pub fn answer<A: Allocator + Copy>(
    alloc: A,
    sweep: Option<Sweep>,
    command: &str,
    spelled: &str,
) -> Result<String<A>, AllocError> {
    let mut page = Page::new(alloc);
    put_case(alloc, &mut page, sweep, command, spelled);
    in_one_line(alloc, page.text()?.as_str())
}

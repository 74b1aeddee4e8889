//! The answer to a case: a word, and a text with what the word asks for before it.
//!
//! What an answer needs is allocated by `alloc`, and its words by `host`.

use resolved::Sequential;
use round_rewrite::{Rounds, rewrite};
use scopes::{Checked, check};
use std::alloc::{AllocError, Allocator, Global};
use std::fmt::Display;
use syntax::{print, read};
use trees::{Proc, Program, Thread};

/// A word or a text; an error if memory is refused.
type Answer = Result<String, AllocError>;

/// What is asked of a text, and what allocates for the answer.
#[derive(Clone, Copy)]
struct Question<'a, A: Allocator + Copy> {
    host: Global,
    alloc: A,
    word: &'a str,
    /// For how many rounds the text is rewritten.
    count: u8,
    /// The line that is looked for in what is printed.
    line: &'a str,
}

/// A fault in its own words, or whether something holds.
fn shown<T: Display>(host: Global, value: &T) -> Answer {
    format!(in host; "{value}")
}

/// Whether a line occurs in a text.
fn has_line(text: &str, line: &str) -> bool {
    for each in text.split('\n') {
        if each == line {
            return true;
        }
    }
    false
}

/// Appends the widths of a sequential program's procedures to a line, each with a comma after it.
fn put_widths<A: Allocator>(
    line: &mut String,
    sequential: &Sequential<A>,
) -> Result<(), AllocError> {
    for procedure in 0..32u8 {
        if (procedure as usize) < sequential.program().procs.len() {
            let width = sequential.width(procedure);
            write!(line, "{width},")?;
        }
    }
    Ok(())
}

/// `widths`: the widths of the procedures in order.
fn widths<A: Allocator>(host: Global, sequential: &Sequential<A>) -> Answer {
    let mut line = String::new(host);
    put_widths(&mut line, sequential)?;
    Ok(line)
}

/// What is printed, if it is printed the same once it is read again.
fn printed_again<A: Allocator + Copy>(question: Question<'_, A>, printed: &str) -> Answer {
    let program = match read(question.alloc, printed.as_bytes()) {
        Ok(program) => program,
        Err(fault) => return shown(question.host, &fault),
    };
    match print(question.alloc, &program) {
        Ok(again) if again.as_str() == printed => String::from_str(question.host, printed),
        Ok(_) => String::from_str(question.host, "printed otherwise once it is read"),
        Err(AllocError) => String::from_str(question.host, "memory"),
    }
}

/// `rewrite` and `holds`: the rewriting as it is printed, and whether the line occurs in it.
fn of_printed<A: Allocator + Copy>(question: Question<'_, A>, program: &Program<A>) -> Answer {
    match print(question.alloc, program) {
        Ok(text) if question.word == "holds" => {
            shown(question.host, &has_line(text.as_str(), question.line))
        }
        Ok(text) => printed_again(question, text.as_str()),
        Err(AllocError) => String::from_str(question.host, "memory"),
    }
}

/// What is asked of a rewriting. `fits`: that there is one.
fn of_sequential<A: Allocator + Copy>(
    question: Question<'_, A>,
    sequential: &Sequential<A>,
) -> Answer {
    match question.word {
        "fits" => String::from_str(question.host, "rewritten"),
        "widths" => widths(question.host, sequential),
        _ => of_printed(question, sequential.program()),
    }
}

/// What is asked of a checked program's rewriting.
fn rewritten<A: Allocator + Copy>(question: Question<'_, A>, checked: &Checked<A>) -> Answer {
    let Some(rounds) = Rounds::new(question.count) else {
        return String::from_str(question.host, "none");
    };
    match rewrite(&question.alloc, checked, rounds) {
        Ok(sequential) => of_sequential(question, &sequential),
        Err(fault) => shown(question.host, &fault),
    }
}

/// Appends the names of procedures to a line.
fn put_procedures<A: Allocator>(line: &mut String, procs: &[Proc<A>]) -> Result<(), AllocError> {
    for proc in procs {
        let name = proc.name.text.as_str();
        write!(line, ", procedure {name}")?;
    }
    Ok(())
}

/// Appends the offsets of thread lines to a line.
fn put_threads<A: Allocator>(line: &mut String, threads: &[Thread<A>]) -> Result<(), AllocError> {
    for thread in threads {
        let at = thread.at;
        write!(line, ", thread at {at}")?;
    }
    Ok(())
}

/// `parts`: how many globals a program has, the names of its procedures and the offsets of its thread lines.
fn parts<A: Allocator>(host: Global, program: &Program<A>) -> Answer {
    let globals = program.globals.len();
    let mut line = format!(in host; "globals {globals}")?;
    put_procedures(&mut line, &program.procs)?;
    put_threads(&mut line, &program.threads)?;
    Ok(line)
}

/// What is asked of a checked program. `check`: that no fault stands in it.
fn of_checked<A: Allocator + Copy>(question: Question<'_, A>, checked: &Checked<A>) -> Answer {
    match question.word {
        "check" => String::from_str(question.host, "checked"),
        "parts" => parts(question.host, checked.program()),
        _ => rewritten(question, checked),
    }
}

/// What is asked of a program; its fault in its own words.
fn of_program<A: Allocator + Copy>(question: Question<'_, A>, program: Program<A>) -> Answer {
    match check(question.alloc, program) {
        Ok(checked) => of_checked(question, &checked),
        Err(fault) => shown(question.host, &fault),
    }
}

/// What is asked of a text; its fault in its own words.
fn of_text<A: Allocator + Copy>(question: Question<'_, A>, text: &str) -> Answer {
    match read(question.alloc, text.as_bytes()) {
        Ok(program) => of_program(question, program),
        Err(fault) => shown(question.host, &fault),
    }
}

/// A number of rounds and the text after it: `COUNT TEXT`.
fn numbered(rest: &str) -> Option<(u8, &str)> {
    let (number, text) = rest.split_once(' ').unwrap_or((rest, ""));
    Some((number.parse::<u8>().ok()?, text))
}

/// The question of a word, and the text that it is asked of: `COUNT TEXT`, for `holds` `COUNT LINE :: TEXT`, for
/// `check` and `parts` a text alone.
fn asked<'a, A: Allocator + Copy>(
    host: Global,
    alloc: A,
    word: &'a str,
    rest: &'a str,
) -> Option<(Question<'a, A>, &'a str)> {
    let (count, text) = match word {
        "check" | "parts" => (0, rest),
        "rewrite" | "holds" | "fits" | "widths" => numbered(rest)?,
        _ => return None,
    };
    let (line, text) = match word {
        "holds" => text.split_once(" :: ")?,
        _ => ("", text),
    };
    Some((
        Question {
            host,
            alloc,
            word,
            count,
            line,
        },
        text,
    ))
}

/// Whether there is such a number of rounds.
fn rounds(rest: &str) -> &'static str {
    match numbered(rest) {
        Some((count, _)) if Rounds::new(count).is_some() => "some",
        Some(_) => "none",
        None => "no such case",
    }
}

/// The answer to a case.
pub fn words<A: Allocator + Copy>(host: Global, alloc: A, word: &str, rest: &str) -> Answer {
    if word == "rounds" {
        return String::from_str(host, rounds(rest));
    }
    match asked(host, alloc, word, rest) {
        Some((question, text)) => of_text(question, text),
        None => String::from_str(host, "no such case"),
    }
}

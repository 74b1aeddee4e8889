//! For programs of rows: each line of the standard input is a case, and is printed again with its result.
#![tactic(auto)]

mod sweep;

use std::alloc::{AllocError, Global};
use std::io::{self, BufRead, BufReader};
pub use sweep::{Outcome, Sweep, Swept, sweep_before, sweep_of};

/// Whether a line is no case: it is empty, or begins with `#`.
fn is_heading(line: &str) -> bool {
    line.is_empty() || line.starts_with('#')
}

/// Prints each line of the standard input, and lets `answer` print the result if the line is a case.
pub fn each_line<F: FnMut(&str) -> io::Result<()>>(
    rt: &HostRuntime,
    mut answer: F,
) -> io::Result<()>
    requires { (f : _) (x : _) → F.pre f x }
{
    let input = BufReader::new(rt.alloc(), rt.reader())?;
    for line in input.lines(rt.alloc()) {
        let line = line?;
        println!(rt; "{line}")?;
        if !is_heading(line.as_str()) {
            answer(line.as_str())?;
        }
    }
    Ok(())
}

/// Prints each line of the standard input, and what `answer` writes for it if it is a case.
pub fn each_case<F: FnMut(&str, &mut String) -> Result<(), AllocError>>(
    rt: &HostRuntime,
    mut answer: F,
) -> io::Result<()>
    requires { (f : _) (x : _) (y : _) → F.pre f x y }
{
    each_line(rt, |line: &str| {
        let mut out = String::new(rt.alloc());
        let answered = answer(line, &mut out);
        print_written(rt, answered, out.as_str())
    })
}

/// Prints what was written for a case, without the blanks at its end, or that memory was lacking.
pub fn print_written<R: Print>(
    rt: &R,
    answered: Result<(), AllocError>,
    written: &str,
) -> io::Result<()> {
    match written.trim_end() {
        _ if answered.is_err() => rt.print("no memory\n"),
        "" => Ok(()),
        text => println!(rt; "{text}"),
    }
}

/// What is written before `: ` in a line, and the case behind it; for a line without one, nothing and the line.
pub fn prefix_of(line: &str) -> (&str, &str) {
    line.split_once(": ").unwrap_or(("", line))
}

/// The words of a line after a given first one.
pub fn words_behind(alloc: Global, first: &str, line: &str) -> Result<Vec<String>, AllocError> {
    let mut words = Vec::new(alloc);
    words.push(String::from_str(alloc, first)?)?;
    for word in line.split_whitespace() {
        words.push(String::from_str(alloc, word)?)?;
    }
    Ok(words)
}

/// The first of several numbers separated by points, and the rest; 0 if there is none.
pub fn first(text: &str) -> (u64, &str) {
    number_before('.', text)
}

/// The first of several numbers separated by blanks, and what follows it; 0 if there is none.
pub fn first_word(text: &str) -> (u64, &str) {
    number_before(' ', text)
}

/// The number before a separator, and what follows it; 0 if there is none.
fn number_before(separator: char, text: &str) -> (u64, &str) {
    let (number, others) = text.split_once(separator).unwrap_or((text, ""));
    (number.parse::<u64>().unwrap_or(0), others)
}

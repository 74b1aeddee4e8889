//! Answers to questions on flow graphs. A question is a word and numbers: valuations in binary digits after `0b`,
//! others in decimal.

use flow_graph::{Call, Exit, Flow, Graph, Graphs};
use language::{Point, Word};
use std::alloc::Allocator;
use std::fmt::Write;

/// How many choices of a flow are made at most.
const MOST_CHOICES: u8 = 8;

/// A number in decimal digits, or in binary ones after `0b`.
fn number(word: &str) -> Option<Word> {
    match word.strip_prefix("0b") {
        Some(bits) => Word::from_str_radix(bits, 2).ok(),
        None => word.parse().ok(),
    }
}

/// The graph of a procedure, if there is one.
fn graph_of<A: Allocator>(graphs: &Graphs<A>, procedure: Word) -> Option<&Graph<A>> {
    let procedure = u8::try_from(procedure).ok()?;
    if (procedure as usize) < graphs.len() {
        Some(graphs.graph(procedure))
    } else {
        None
    }
}

/// What leads on from a point, if there is one.
fn flow_of<A: Allocator>(graph: &Graph<A>, point: Point) -> Option<&Flow<A>> {
    if point < graph.points() {
        Some(graph.flow(point))
    } else {
        None
    }
}

/// The same for a point with this number.
fn flow_numbered<A: Allocator>(graph: &Graph<A>, point: Word) -> Option<&Flow<A>> {
    flow_of(graph, usize::try_from(point).ok()?)
}

/// Appends a number to the others.
fn put_number<B: Allocator>(out: &mut String<B>, number: usize) -> Option<()> {
    write!(out, " {number}").ok()
}

/// Appends the binary digits of a valuation to the others.
fn put_bits<B: Allocator>(out: &mut String<B>, values: Word) -> Option<()> {
    write!(out, " {values:b}").ok()
}

/// Appends a point and a valuation to the others.
fn put_pair<B: Allocator>(out: &mut String<B>, pair: (Point, Word)) -> Option<()> {
    let (point, values) = pair;
    write!(out, " {point}:{values:b}").ok()
}

/// Appends the globals and the result that a call leaves to the others.
fn put_left<B: Allocator>(out: &mut String<B>, left: Exit) -> Option<()> {
    let globals = left.globals;
    let result = u8::from(left.result);
    write!(out, " {globals:b}:{result}").ok()
}

/// Where the run continues with one choice, from each of the valuations.
fn steps<A: Allocator, B: Allocator>(
    flow: &Flow<A>,
    choice: Word,
    valuations: &[Word],
    out: &mut String<B>,
) -> Option<()> {
    for values in valuations {
        match flow.next(*values, choice) {
            Some(pair) => put_pair(out, pair)?,
            None => out.push_str(" none").ok()?,
        }
    }
    Some(())
}

/// The number of the last choice, and where the run continues by each, of which no more than `MOST_CHOICES` are
/// made.
fn nexts<A: Allocator, B: Allocator>(
    flow: &Flow<A>,
    values: Word,
    out: &mut String<B>,
) -> Option<()> {
    let last = flow.last();
    write!(out, " {last}").ok()?;
    for choice in 0..MOST_CHOICES {
        let choice = choice as Word;
        if choice <= last {
            steps(flow, choice, &[values], out)?;
        }
    }
    Some(())
}

/// Appends the pairs to which a pair leads to others, if they are new.
fn spread<A: Allocator, B: Allocator>(
    graph: &Graph<A>,
    point: Point,
    values: Word,
    pairs: &mut Vec<(Point, Word), B>,
) -> Option<()> {
    let flow = flow_of(graph, point)?;
    let last = flow.last();
    for choice in 0..MOST_CHOICES {
        let choice = choice as Word;
        if choice <= last
            && let Some(next) = flow.next(values, choice)
            && !pairs.contains(&next)
        {
            pairs.push(next).ok()?;
        }
    }
    Some(())
}

/// The points and valuations that are reached from one entry inside the call, in order.
fn reached<A: Allocator, B: Allocator>(
    alloc: B,
    graph: &Graph<A>,
    entry: Word,
) -> Option<Vec<(Point, Word), B>> {
    let mut pairs = Vec::new(alloc);
    pairs.push((graph.start(), entry)).ok()?;
    for at in 0..200usize {
        if at < pairs.len() {
            let (point, values) = pairs[at];
            spread(graph, point, values, &mut pairs)?;
        }
    }
    pairs.sort().ok()?;
    Some(pairs)
}

/// Appends pairs to the others.
fn put_pairs<B: Allocator>(out: &mut String<B>, pairs: &[(Point, Word)]) -> Option<()> {
    for pair in pairs {
        put_pair(out, *pair)?;
    }
    Some(())
}

/// The pairs reached, written.
fn reaches<A: Allocator, B: Allocator + Copy>(
    alloc: B,
    graph: &Graph<A>,
    entry: Word,
    out: &mut String<B>,
) -> Option<()> {
    let pairs = reached(alloc, graph, entry)?;
    put_pairs(out, pairs.as_slice())
}

/// The procedure that is called, the point of the return, and the entry from each of the valuations.
fn calls<A: Allocator, B: Allocator>(
    call: &Call<A>,
    valuations: &[Word],
    out: &mut String<B>,
) -> Option<()> {
    put_number(out, usize::from(call.callee()))?;
    put_number(out, call.back())?;
    for values in valuations {
        put_bits(out, call.entry(*values))?;
    }
    Some(())
}

/// What kind of flow leads on from a point.
fn kind<A: Allocator>(flow: &Flow<A>) -> &'static str {
    match flow {
        Flow::Assign(_, _) => " assign",
        Flow::Test(_, _, _) => " test",
        Flow::Assume(_, _) => " assume",
        Flow::Call(_) => " call",
        Flow::Return => " return",
    }
}

/// What a call leaves: these globals, and a result.
fn left(globals: Word, given: Word) -> Exit {
    Exit {
        globals,
        result: given == 1,
    }
}

/// The answer of a point's flow to a question: a word and numbers.
fn of_flow<A: Allocator, B: Allocator>(
    flow: &Flow<A>,
    question: (&str, &[Word]),
    out: &mut String<B>,
) -> Option<()> {
    match question {
        ("kind", _) => out.push_str(kind(flow)).ok(),
        ("steps", [choice, valuations @ ..]) => steps(flow, *choice, valuations, out),
        ("nexts", [values, ..]) => nexts(flow, *values, out),
        ("call", valuations) => match flow {
            Flow::Call(call) => calls(call, valuations, out),
            _ => None,
        },
        ("resumed", [values, globals, result, ..]) => match flow {
            Flow::Call(call) => put_bits(out, call.resumed(*values, left(*globals, *result))),
            _ => None,
        },
        _ => None,
    }
}

/// What the graph leaves of each of the valuations.
fn leaves<A: Allocator, B: Allocator>(
    graph: &Graph<A>,
    valuations: &[Word],
    out: &mut String<B>,
) -> Option<()> {
    for values in valuations {
        put_left(out, graph.left(*values))?;
    }
    Some(())
}

/// The first point of a graph, and how many it has.
fn size<A: Allocator, B: Allocator>(graph: &Graph<A>, out: &mut String<B>) -> Option<()> {
    put_number(out, graph.start())?;
    put_number(out, graph.points())
}

/// The answer of a procedure's graph to a question: a word and numbers.
fn of_graph<A: Allocator, B: Allocator + Copy>(
    alloc: B,
    graph: &Graph<A>,
    question: (&str, &[Word]),
    out: &mut String<B>,
) -> Option<()> {
    match question {
        ("size", _) => size(graph, out),
        ("reached", [entry, ..]) => reaches(alloc, graph, *entry, out),
        ("left", valuations) => leaves(graph, valuations, out),
        (word, [point, rest @ ..]) => of_flow(flow_numbered(graph, *point)?, (word, rest), out),
        _ => None,
    }
}

/// The numbers of a question, appended to others.
fn push_numbers<B: Allocator>(numbers: &mut Vec<Word, B>, words: &str) -> Option<()> {
    for digits in words.split_whitespace() {
        numbers.push(number(digits)?).ok()?;
    }
    Some(())
}

/// Puts the answer to a question, which begins with its first word, on the line.
fn put_answer<A: Allocator, B: Allocator + Copy>(
    alloc: B,
    graphs: &Graphs<A>,
    question: (&str, &[Word]),
    out: &mut String<B>,
) -> Option<()> {
    let (word, numbers) = question;
    let (procedure, rest) = numbers.split_first()?;
    out.push_str(word).ok()?;
    if word == "procedures" {
        put_number(out, graphs.len())
    } else {
        of_graph(alloc, graph_of(graphs, *procedure)?, (word, rest), out)
    }
}

/// The answer to a question.
pub(crate) fn answer<A: Allocator, B: Allocator + Copy>(
    alloc: B,
    graphs: &Graphs<A>,
    question: &str,
) -> Option<String<B>> {
    let (word, rest) = question.split_once(" ")?;
    let mut numbers = Vec::new(alloc);
    push_numbers(&mut numbers, rest)?;
    let mut out = String::new(alloc);
    put_answer(alloc, graphs, (word, numbers.as_slice()), &mut out)?;
    Some(out)
}

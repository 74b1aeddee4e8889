//! What is said about a fault of scopes, after the name at its place.

ghost use Rattle.std.specs.Prelude.{◌≡◌, ◌++◌, ◌≤◌, IfOk, List, OnOk, bytes_eq, drop, length, min};
ghost use Rattle.std.specs.Prelude.{take, ℕ};
ghost use Rattle.std.specs.List.{prefix_len};
ghost use Rattle.std.specs.String.{string_bytes};
ghost use Rattle.fault_details.specs.Details as told;

use crate::counting::{argument_count, count, items, side_count, statement_count};
use crate::seeking::{Sought, comes_first, seek};
use crate::visible::{globals, like_variable};
use checked::ScopeFault;
use diagnostics::{push_name, push_place};
use hints::{Brackets, Group, front_to, known_tokens, last_kind, without_last};
use std::alloc::{AllocError, Allocator};
use tokens::{Kind, Token};

/// What is said of a name that is declared again.
const DECLARED: &str = " is declared a second time; the first is at ";

/// What is said of a target that is assigned again.
const ASSIGNED: &str = " is assigned twice by one statement; the first is at ";

/// What is said of a label that is defined again.
const LABELS: &str = " labels a second statement; the first is at ";

/// What is said of a label that is not there.
const NO_LABEL: &str = " is no label of this procedure\n";

/// What is said of a thread line that names no procedure.
const NO_PROCEDURE: &str = " is no procedure\n";

/// What is said of a name that only the rewriting may write.
const RESERVED: &str = " has two underscores in a row, which only the rewriting may write\n";

/// What is said of a name that is not declared.
const UNDECLARED: &str = " is not declared\n";

/// What is said of it if a name that is declared is like it; that name comes between.
const LIKE: &str = " is not declared; did you mean ";

const LIKE_END: &str = "?\n";

/// What is said of a constant of other languages.
const CONSTANT: &str = " is not declared; the constants are `0` and `1`\n";

/// What is said of counts: the numbers, and the ending of a plural, come between.
const TAKES: &str = " takes ";

const ARGUMENT: &str = " argument";

const AND: &str = ", and ";

const GIVEN: &str = " given\n";

const NONE_FOR_THREADS: &str = ", and the procedure of a thread takes none\n";

const TARGET: &str = " target";

const RIGHT_SIDE: &str = " right side";

/// What is said of a limit: its number and what it limits, and how many there are, come between.
const PAST: &str = " is past the limit of ";

const HAS: &str = ": the text has ";

const THREADS: &str = "threads";

const PROCEDURES: &str = "procedures";

const STATEMENTS: &str = "statements";

/// How many threads, procedures and statements a text has at most.
const MOST_THREADS: usize = 8;

const MOST_PROCEDURES: usize = 31;

const MOST_STATEMENTS: usize = 1000;

/// The text of the first token.
fn first_text<'a>(tokens: &'a [Token<'a>]) -> &'a [u8]
    ensures { result.now ≡ told.first_text tokens.now }
{
    match tokens.first() {
        Some(token) => token.text.as_bytes(),
        None => &[],
    }
}

/// Writes these words, and then the place of the first token, if there is one.
fn push_first<A: Allocator>(
    words: &mut String<A>,
    said: &str,
    text: &[u8],
    tokens: &[Token<'_>],
) -> Result<(), AllocError>
    ensures { OnOk result (told.TellsFirst said.now text.now tokens.now
        (string_bytes words.old) (string_bytes words.new)) }
{
    push(words, said)?;
    match tokens.first() {
        Some(token) => push_place(words, text, token.at as usize),
        None => Ok(()),
    }
}

/// The last token that begins a phrase.
fn phrase_head(before: &[Token<'_>]) -> Option<Kind>
    ensures { result ≡ told.phrase_head before.now }
{
    last_kind(front_to(before, Brackets::Parens, Group::Head))
}

/// The tokens after the last one that begins a phrase.
fn phrase<'a, 't>(before: &'a [Token<'t>]) -> &'a [Token<'t>]
    ensures { result.now ≡ told.phrase before.now }
{
    let front = front_to(before, Brackets::Parens, Group::Head);
    &before[front.len().min(before.len())..]
}

/// Whether the tokens end outside of bodies.
fn is_outside(before: &[Token<'_>]) -> bool
    ensures { result ≡ told.is_outside before.now }
{
    front_to(before, Brackets::Blocks, Group::Section).is_empty()
}

/// Whether the phrase begins with a token of this kind.
fn is_headed(kind: Kind, before: &[Token<'_>]) -> bool
    ensures { result ≡ told.is_headed kind before.now }
{
    match phrase_head(before) {
        Some(other) => other.is(kind),
        None => false,
    }
}

/// The tokens from the formals of a procedure on, in whose declarations these tokens end.
fn formals_on<'a>(before: &'a [Token<'a>]) -> &'a [Token<'a>]
    ensures { result.now ≡ told.formals_on before.now }
{
    let begun = front_to(before, Brackets::Blocks, Group::Only(Kind::Begin));
    let listed = without_last(without_last(begun));
    let paren = front_to(listed, Brackets::Parens, Group::Only(Kind::Open));
    &before[paren.len().min(before.len())..]
}

/// The tokens from the first declaration of a name on, or from the first target of that name; `tokens` are all.
fn first_name<'a>(tokens: &'a [Token<'a>], before: &'a [Token<'a>], word: &[u8]) -> &'a [Token<'a>]
    ensures { result.now ≡ told.first_name tokens.now before.now word.now }
{
    if is_outside(before) {
        if is_headed(Kind::Decl, before) {
            seek(Sought::Name, word, before)
        } else if is_headed(Kind::Open, before) {
            seek(Sought::Name, word, phrase(before))
        } else {
            seek(Sought::Procedure, word, tokens)
        }
    } else if is_headed(Kind::Decl, before) {
        seek(Sought::Name, word, formals_on(before))
    } else {
        seek(Sought::Name, word, phrase(before))
    }
}

/// What is said of a name that occurs again.
fn twice(before: &[Token<'_>]) -> &'static str
    ensures { result.now ≡ told.twice before.now }
{
    if is_outside(before) || is_headed(Kind::Decl, before) {
        DECLARED
    } else {
        ASSIGNED
    }
}

/// The ending of a plural.
fn plural(number: usize) -> &'static str
    ensures { result.now ≡ told.plural number }
{
    if number == 1 { "" } else { "s" }
}

/// The verb for a number of things.
fn verb(number: usize) -> &'static str
    ensures { result.now ≡ told.verb number }
{
    if number == 1 { "is" } else { "are" }
}

/// Writes how many arguments a procedure takes, and how many are given.
fn push_given<A: Allocator>(
    words: &mut String<A>,
    takes: usize,
    given: usize,
) -> Result<(), AllocError>
    ensures { OnOk result
        (string_bytes words.new ≡ string_bytes words.old ++ told.given takes given) }
{
    let s = plural(takes);
    let are = verb(given);
    write!(
        words,
        "{TAKES}{takes}{ARGUMENT}{s}{AND}{given} {are}{GIVEN}"
    )
}

/// Writes how many targets and right sides there are.
fn push_sides<A: Allocator>(
    words: &mut String<A>,
    targets: usize,
    sides: usize,
) -> Result<(), AllocError>
    ensures { OnOk result
        (string_bytes words.new ≡ string_bytes words.old ++ told.sided targets sides) }
{
    let s = plural(targets);
    let t = plural(sides);
    write!(words, ": {targets}{TARGET}{s}, {sides}{RIGHT_SIDE}{t}\n")
}

/// Writes which counts differ, from the name on.
fn push_counts<A: Allocator>(
    words: &mut String<A>,
    tokens: &[Token<'_>],
    after: &[Token<'_>],
    word: &[u8],
) -> Result<(), AllocError>
    ensures { OnOk result
        (string_bytes words.new
        ≡ string_bytes words.old ++ told.counts tokens.now after.now word.now) }
{
    if is_call(after) {
        let takes = argument_count(seek(Sought::Procedure, word, tokens));
        push_given(words, takes, argument_count(after))
    } else {
        push_sides(words, items(after), side_count(after))
    }
}

/// Whether `(` comes after the first token.
fn is_call(after: &[Token<'_>]) -> bool
    ensures { result ≡ told.is_call after.now }
{
    match after.split_first() {
        Some((_, rest)) => comes_first(Kind::Open, rest),
        None => false,
    }
}

/// Writes why a procedure with formals starts no thread.
fn push_takes<A: Allocator>(words: &mut String<A>, takes: usize) -> Result<(), AllocError>
    ensures { OnOk result
        (string_bytes words.new ≡ string_bytes words.old ++ told.takes_some takes) }
{
    let s = plural(takes);
    write!(words, "{TAKES}{takes}{ARGUMENT}{s}{NONE_FOR_THREADS}")
}

/// Writes words.
fn push<A: Allocator>(words: &mut String<A>, said: &str) -> Result<(), AllocError>
    ensures { OnOk result (string_bytes words.new ≡ string_bytes words.old ++ said.now) }
{
    words.push_str(said)
}

/// Writes why a procedure starts no thread.
fn push_thread<A: Allocator>(
    words: &mut String<A>,
    tokens: &[Token<'_>],
    word: &[u8],
) -> Result<(), AllocError>
    ensures { OnOk result
        (string_bytes words.new ≡ string_bytes words.old ++ told.thread tokens.now word.now) }
{
    let named = seek(Sought::Procedure, word, tokens);
    if named.is_empty() {
        return push(words, NO_PROCEDURE);
    }
    push_takes(words, argument_count(named))
}

/// Whether the last token is of this kind.
fn is_last(kind: Kind, before: &[Token<'_>]) -> bool
    ensures { result ≡ told.is_last kind before.now }
{
    match last_kind(before) {
        Some(other) => other.is(kind),
        None => false,
    }
}

/// The tokens after the last `begin`.
fn body<'a, 't>(before: &'a [Token<'t>]) -> &'a [Token<'t>]
    ensures { result.now ≡ told.body before.now }
{
    let begun = front_to(before, Brackets::Parens, Group::Only(Kind::Begin));
    &before[begun.len().min(before.len())..]
}

/// Writes which limit is passed, and by how many.
fn push_limit<A: Allocator>(
    words: &mut String<A>,
    most: usize,
    what: &str,
    many: usize,
) -> Result<(), AllocError>
    ensures { OnOk result
        (string_bytes words.new ≡ string_bytes words.old ++ told.limit most what.now many) }
{
    write!(words, "{PAST}{most} {what}{HAS}{many}\n")
}

/// Writes which limit of a text is passed where these tokens begin.
fn push_too_many<A: Allocator>(
    words: &mut String<A>,
    tokens: &[Token<'_>],
    before: &[Token<'_>],
    after: &[Token<'_>],
) -> Result<(), AllocError>
    ensures { OnOk result (string_bytes words.new
        ≡ string_bytes words.old ++ told.too_many tokens.now before.now after.now) }
{
    if comes_first(Kind::Thread, after) {
        push_limit(words, MOST_THREADS, THREADS, count(Kind::Thread, tokens))
    } else if is_outside(before) {
        push_limit(words, MOST_PROCEDURES, PROCEDURES, count(Kind::End, tokens))
    } else {
        push_limit(words, MOST_STATEMENTS, STATEMENTS, statement_count(tokens))
    }
}

/// Whether a word has this spelling.
fn is(word: &[u8], spelled: &str) -> bool
    ensures { result ≡ bytes_eq word.now spelled.now }
{
    word == spelled.as_bytes()
}

/// Whether a word is a constant in other languages.
fn is_constant(word: &[u8]) -> bool
    ensures { result ≡ told.is_constant word.now }
{
    is(word, "true") || is(word, "false") || is(word, "T") || is(word, "F")
}

/// Writes the name that may be meant.
fn push_meant<A: Allocator>(words: &mut String<A>, name: &[u8]) -> Result<(), AllocError>
    ensures { OnOk result
        (string_bytes words.new ≡ string_bytes words.old ++ told.meant name.now) }
{
    push_name(words, name)?;
    push(words, LIKE_END)
}

/// Writes that a name is not declared, and which one is like it, if one is.
fn push_unknown<A: Allocator>(
    words: &mut String<A>,
    like: Option<Token<'_>>,
) -> Result<(), AllocError>
    ensures { OnOk result
        (string_bytes words.new ≡ string_bytes words.old ++ told.unknown like.entry) }
{
    match like {
        Some(token) => {
            push(words, LIKE)?;
            push_meant(words, token.text.as_bytes())
        }
        None => push(words, UNDECLARED),
    }
}

/// The first name like a word that would be declared in its place: a procedure if the word is called, else a variable.
fn like<'a>(
    tokens: &'a [Token<'a>],
    before: &'a [Token<'a>],
    after: &[Token<'_>],
    word: &[u8],
) -> Option<Token<'a>>
    ensures { result ≡ told.like tokens.now before.now after.now word.now }
{
    if is_call(after) {
        seek(Sought::Like, word, tokens).first().copied()
    } else {
        like_variable(tokens, before, word)
    }
}

/// Writes what is said of a name that is not declared.
fn push_undeclared<A: Allocator>(
    words: &mut String<A>,
    tokens: &[Token<'_>],
    before: &[Token<'_>],
    after: &[Token<'_>],
    word: &[u8],
) -> Result<(), AllocError>
    ensures { OnOk result (string_bytes words.new
        ≡ string_bytes words.old ++ told.undeclared tokens.now before.now after.now word.now) }
{
    if is_constant(word) {
        push(words, CONSTANT)
    } else {
        push_unknown(words, like(tokens, before, after, word))
    }
}

/// Writes what is said of a label.
fn push_label<A: Allocator>(
    words: &mut String<A>,
    text: &[u8],
    before: &[Token<'_>],
    word: &[u8],
) -> Result<(), AllocError>
    ensures { OnOk result (told.TellsLabel text.now before.now word.now
        (string_bytes words.old) (string_bytes words.new)) }
{
    if is_last(Kind::Goto, before) {
        return push(words, NO_LABEL);
    }
    push_first(words, LABELS, text, seek(Sought::Label, word, body(before)))?;
    push(words, "\n")
}

/// Writes what is said of a name that occurs again.
fn push_twice<A: Allocator>(
    words: &mut String<A>,
    text: &[u8],
    tokens: &[Token<'_>],
    before: &[Token<'_>],
    word: &[u8],
) -> Result<(), AllocError>
    ensures { OnOk result (told.TellsTwice text.now tokens.now before.now word.now
        (string_bytes words.old) (string_bytes words.new)) }
{
    push_first(words, twice(before), text, first_name(tokens, before, word))?;
    push(words, "\n")
}

/// Writes what is said of a fault, between the tokens before its place and those from it on.
fn push_fault<A: Allocator>(
    words: &mut String<A>,
    text: &[u8],
    tokens: &[Token<'_>],
    before: &[Token<'_>],
    after: &[Token<'_>],
    fault: &ScopeFault,
) -> Result<(), AllocError>
    ensures { OnOk result (told.TellsFault text.now tokens.now before.now after.now fault.now
        (string_bytes words.old) (string_bytes words.new)) }
{
    let word = first_text(after);
    match fault {
        ScopeFault::Undeclared(_) => push_undeclared(words, tokens, before, after, word),
        ScopeFault::DeclaredTwice(_) => push_twice(words, text, tokens, before, word),
        ScopeFault::WrongCount(_) => push_counts(words, tokens, after, word),
        ScopeFault::BadThread(_) => push_thread(words, tokens, word),
        ScopeFault::BadLabel(_) => push_label(words, text, before, word),
        ScopeFault::Reserved(_) => push(words, RESERVED),
        ScopeFault::TooMany(_) => push_too_many(words, tokens, before, after),
        ScopeFault::Memory => Ok(()),
    }
}

/// How many tokens come before an offset.
fn before_offset(at: u32, tokens: &[Token<'_>]) -> usize
    ensures value { result ≡ told.before_offset at tokens.now }
    ensures few { result ≤ length tokens.now }
{
    tokens.iter().take_while(|token| token.at < at).count()
}

/// What is said of a fault of the text of these tokens.
fn said<A: Allocator>(
    alloc: A,
    text: &[u8],
    tokens: &[Token<'_>],
    fault: &ScopeFault,
) -> Result<String<A>, AllocError>
    ensures { IfOk result
        (λ words. told.IsSaid text.now tokens.now fault.now (string_bytes words)) }
{
    let index = before_offset(fault.offset(), tokens);
    let mut words = String::new(alloc);
    push_fault(
        &mut words,
        text,
        tokens,
        &tokens[..index],
        &tokens[index..],
        fault,
    )?;
    Ok(words)
}

/// What is said of a fault of scopes after the name at its place, and a line feed: which of its cases it is, the counts
/// that differ, and the line and the column of the other one. It is empty if the text is not one of the language's
/// tokens. The memory is taken from `alloc`.
pub fn words_of<A: Allocator + Copy>(
    alloc: A,
    text: &[u8],
    fault: &ScopeFault,
) -> Result<String<A>, AllocError>
    ensures { IfOk result (λ words. told.Says text.now fault.now (string_bytes words)) }
{
    match known_tokens(alloc, text) {
        Ok(Some(tokens)) => said(alloc, text, tokens.as_slice(), fault),
        Ok(None) => Ok(String::new(alloc)),
        Err(_) => Err(AllocError),
    }
}

/// How many thread lines a text has; 0 if it is not one of the language's tokens. The memory is taken from `alloc`.
pub fn threads_in<A: Allocator>(alloc: A, text: &[u8]) -> Result<usize, AllocError>
    ensures { IfOk result (λ n. told.CountsThreads text.now n) }
{
    match known_tokens(alloc, text) {
        Ok(Some(tokens)) => Ok(count(Kind::Thread, tokens.as_slice())),
        Ok(None) => Ok(0),
        Err(_) => Err(AllocError),
    }
}

/// How many globals a text declares; 0 if it is not one of the language's tokens. The memory is taken from `alloc`.
pub fn globals_in<A: Allocator>(alloc: A, text: &[u8]) -> Result<usize, AllocError>
    ensures { IfOk result (λ n. told.CountsGlobals text.now n) }
{
    match known_tokens(alloc, text) {
        Ok(Some(tokens)) => Ok(count(Kind::Id, globals(tokens.as_slice()))),
        Ok(None) => Ok(0),
        Err(_) => Err(AllocError),
    }
}

//! What the words of the command line ask for.
ghost use Rattle.std.specs.Prelude.{◌≡◌, false, map, IfErr, IfOk, MatchOption};
ghost use Rattle.std.specs.String.{string_bytes};
ghost use Rattle.clap.specs.Words.{found_of, rows_of, rule_of};
ghost use Rattle.arguments.specs.Rules as rules;
ghost use Rattle.explore_line.specs.Line as line;

use crate::asked::Order;
use crate::help::EXPLORE;
use crate::rounds::{no_rounds, rounds_of};
use arguments::{LineFault, VERSION, fault_of, file, option, stats};
use clap::builder::ValueParser;
use clap::{Arg, ArgMatches, Command, value_parser};
use exploration::WorkLimit;
use std::alloc::{AllocError, Global};

/// The option `--rounds`: its text, which `rounds_of` reads.
fn rounds<'a>(alloc: Global) -> Arg<'a>
    ensures rule { rule_of result ≡ line.rounds }
    ensures local { result.global ≡ false }
{
    let help = "How many rounds are explored: 1 to 4294967295, or all";
    option(alloc, "rounds", "K", help, ValueParser::string()).default_value("all")
}

/// The option `--limit`.
fn limit<'a>(alloc: Global) -> Arg<'a>
    ensures rule { rule_of result ≡ line.limit }
    ensures local { result.global ≡ false }
{
    let help = "How much is found and met at most: 1 to 4294967295";
    let parser = value_parser!(u32).range(1..=4_294_967_295);
    option(alloc, "limit", "N", help, parser).default_value("40000000")
}

/// The command line without arguments.
fn bare_line<'a>(alloc: Global) -> Command<'a>
    ensures { rules.IsBuilt line.bare result }
{
    Command::new(alloc, "bebopk-explore")
        .about("Answers whether some run fails an assert, turn by turn")
        .version(VERSION)
        .after_help(EXPLORE)
}

/// The command line with the options that have a value.
fn with_values<'a>(alloc: Global) -> Result<Command<'a>, AllocError>
    ensures { IfOk result (rules.IsBuilt line.with_values) }
{
    bare_line(alloc).arg(rounds(alloc))?.arg(limit(alloc))
}

/// The command line of bebopk-explore.
fn command<'a>(alloc: Global) -> Result<Command<'a>, AllocError>
    ensures { IfOk result (rules.IsBuilt line.bebopk_explore) }
{
    let help = "Also counts turns, heads, tuples and nodes";
    with_values(alloc)?
        .arg(stats(alloc, help))?
        .arg(file(alloc))
}

/// What was found for the arguments.
#[derive(Clone, Copy)]
struct Values<'a> {
    /// The text for `--rounds`.
    rounds: &'a str,
    /// How much is found and met at most.
    limit: WorkLimit,
    /// Whether `--stats` was given.
    stats: bool,
    /// The path of the file.
    path: &'a str,
}

/// What the matches have for the arguments, if they have something for each.
fn values_of<'a>(matches: &ArgMatches<'a>) -> Option<Values<'a>>
    ensures { let rows = rows_of (found_of matches.now) in
        MatchOption result (¬ line.HasAll rows)
        (λ v. line.Has rows v.rounds.now v.limit v.stats v.path.now) }
{
    let rounds = matches.get_str("rounds")?;
    let most = matches.get_one::<u32>("limit")?;
    let limit = WorkLimit::new(most)?;
    let stats = matches.get_one::<bool>("stats")?;
    let path = matches.get_str("file")?;
    Some(Values {
        rounds,
        limit,
        stats,
        path,
    })
}

/// The order and the file that the command line gives for the words, the program's own name first, or the reason why it
/// gives none.
pub fn order(alloc: Global, words: &[String]) -> Result<(Order, String), LineFault>
    ensures asks { IfOk result
        (λ o. line.AskFor (map string_bytes words.now) o.0 (string_bytes o.1)) }
    ensures refuses { IfErr result (λ why. line.RefusesWords (map string_bytes words.now) why) }
{
    let Ok(command) = command(alloc) else {
        return Err(LineFault::Memory);
    };
    let matches = match command.try_get_matches_from(words) {
        Ok(matches) => matches,
        Err(error) => return Err(fault_of(alloc, &error, "")),
    };
    let Some(values) = values_of(&matches) else {
        unreachable!();
    };
    let Some(rounds) = rounds_of(values.rounds) else {
        return Err(no_rounds(alloc, values.rounds));
    };
    let order = Order {
        rounds,
        limit: values.limit,
        stats: values.stats,
    };
    match String::from_str(alloc, values.path) {
        Ok(path) => Ok((order, path)),
        Err(_) => Err(LineFault::Memory),
    }
}

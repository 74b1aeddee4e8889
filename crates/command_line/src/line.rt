//! What the words of the command line ask for.
ghost use Rattle.std.specs.Prelude.{◌≡◌, codes, false, map, IfErr, IfOk, MatchOption};
ghost use Rattle.std.specs.String.{string_bytes};
ghost use Rattle.clap.specs.Words.{Text, app_of, new_app, rule_of, subcommand_rows_of};
ghost use Rattle.clap.specs.Words.{with_subcommand};
ghost use Rattle.arguments.specs.Rules as rules;
ghost use Rattle.command_line.specs.Line as line;

use crate::help::{BEBOPK, CHECK, SEQUENTIAL, STATS};
use arguments::{LineFault, VERSION, fault_of, file, option, stats};
use clap::error::ErrorKind;
use clap::{Arg, ArgMatches, Command, value_parser};
use orders::Order;
use path_sets::{EdgeLimit, MOST_EDGES};
use round_rewrite::{MOST_ROUNDS, Rounds};
use std::alloc::{AllocError, Global};

/// The option `--rounds`.
fn rounds<'a>(alloc: Global) -> Arg<'a>
    ensures rule { rule_of result ≡ line.rounds }
    ensures local { result.global ≡ false }
{
    let parser = value_parser!(u8).range(1..=MOST_ROUNDS as i64);
    option(alloc, "rounds", "K", "How many rounds: 1 to 8", parser)
}

/// The option `--edges`.
fn edges<'a>(alloc: Global) -> Arg<'a>
    ensures rule { rule_of result ≡ line.edges }
    ensures local { result.global ≡ false }
{
    let help = "How many path edges a procedure may have: 1 to 16777216";
    let parser = value_parser!(u32).range(1..=MOST_EDGES as i64);
    option(alloc, "edges", "N", help, parser).default_value("1000000")
}

/// The command `check`, without arguments.
fn bare_check<'a>(alloc: Global) -> Command<'a>
    ensures { rules.IsBuilt (new_app (codes "check")) result }
{
    Command::new(alloc, "check")
        .about("Answers whether some run of at most K rounds fails an assert")
        .after_help(CHECK)
}

/// The command `check` with the options that take a number.
fn check_by_numbers<'a>(alloc: Global) -> Result<Command<'a>, AllocError>
    ensures { IfOk result (rules.IsBuilt line.check_by_numbers) }
{
    bare_check(alloc)
        .arg(rounds(alloc).default_value("2"))?
        .arg(edges(alloc))
}

/// The command `check`.
fn check<'a>(alloc: Global) -> Result<Command<'a>, AllocError>
    ensures { IfOk result (rules.IsBuilt line.check) }
{
    check_by_numbers(alloc)?
        .arg(stats(alloc, STATS))?
        .arg(file(alloc))
}

/// The command `sequential`.
fn sequential<'a>(alloc: Global) -> Result<Command<'a>, AllocError>
    ensures { IfOk result (rules.IsBuilt line.sequential) }
{
    Command::new(alloc, "sequential")
        .about("Prints the sequential program that K rounds are rewritten to")
        .after_help(SEQUENTIAL)
        .arg(rounds(alloc).required(true))?
        .arg(file(alloc))
}

/// The command line of bebopk, without commands.
fn bare_line<'a>(alloc: Global) -> Command<'a>
    ensures { app_of result ≡ line.bare }
{
    Command::new(alloc, "bebopk")
        .about("Checks concurrent Boolean programs")
        .version(VERSION)
        .after_help(BEBOPK)
        .subcommand_required(true)
}

/// The command line with the command `check`.
fn with_check<'a>(alloc: Global) -> Result<Command<'a>, AllocError>
    ensures { IfOk result (λ c. app_of c ≡ with_subcommand line.bare line.check.top) }
{
    let check = check(alloc)?;
    bare_line(alloc).subcommand(check)
}

/// The command line of bebopk.
fn command<'a>(alloc: Global) -> Result<Command<'a>, AllocError>
    ensures { IfOk result (λ c. app_of c ≡ line.bebopk) }
{
    let sequential = sequential(alloc)?;
    with_check(alloc)?.subcommand(sequential)
}

/// What helps if a word in the place of the command is no command, as the name of a file.
const NO_COMMAND: &str = "hint: a file is checked by `bebopk check FILE`\n";

/// What helps after an error of this kind, if something does.
fn help_after(kind: ErrorKind) -> &'static str {
    if kind == ErrorKind::InvalidSubcommand {
        NO_COMMAND
    } else {
        ""
    }
}

/// The order of the command with this name, with these numbers, and with or without `--stats`, if there is one.
fn order_of(name: &str, rounds: u8, edges: Option<u32>, stats: Option<bool>) -> Option<Order>
    ensures { MatchOption result
        ((order : Order) → ¬ line.IsNamed name.now rounds edges stats order)
        (line.IsNamed name.now rounds edges stats) }
{
    let rounds = Rounds::new(rounds)?;
    match name {
        "check" => {
            let edges = EdgeLimit::new(edges?)?;
            let stats = stats?;
            Some(Order::Check {
                rounds,
                edges,
                stats,
            })
        }
        "sequential" => Some(Order::Sequential { rounds }),
        _ => None,
    }
}

/// The order and the file that the matches give, if they give an order.
fn asked<'a>(matches: &ArgMatches<'a>) -> Option<(Order, &'a str)>
    ensures { let found = subcommand_rows_of matches.now in
        MatchOption result ((order : Order) (path : Text) → ¬ line.GivesOrder found order path)
        (λ o. line.GivesOrder found o.0 o.1.now) }
{
    let (name, found) = matches.subcommand()?;
    let rounds = found.get_one::<u8>("rounds")?;
    let file = found.get_str("file")?;
    let edges = found.get_one::<u32>("edges");
    let stats = found.get_one::<bool>("stats");
    let order = order_of(name, rounds, edges, stats)?;
    Some((order, file))
}

/// The order and the file that the command line gives for the words, the program's own name first, or the reason why it
/// gives none.
pub fn order(alloc: Global, words: &[String]) -> Result<(Order, String), LineFault>
    ensures asks { IfOk result
        (λ o. line.AskFor (map string_bytes words.now) o.0 (string_bytes o.1)) }
    ensures refuses { IfErr result (λ why. line.RefusesWords (map string_bytes words.now) why) }
{
    let Ok(command) = command(alloc) else {
        return Err(LineFault::Memory);
    };
    let matches = match command.try_get_matches_from(words) {
        Ok(matches) => matches,
        Err(error) => return Err(fault_of(alloc, &error, help_after(error.kind()))),
    };
    let Some((order, path)) = asked(&matches) else {
        unreachable!();
    };
    match String::from_str(alloc, path) {
        Ok(path) => Ok((order, path)),
        Err(_) => Err(LineFault::Memory),
    }
}

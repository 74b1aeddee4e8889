//! The arguments that each command line has, and the version.
ghost use Rattle.std.specs.Prelude.{◌≡◌, false};
ghost use Rattle.clap.specs.Words.{rule_of};
ghost use Rattle.arguments.specs.Rules as rules;

use clap::builder::ValueParser;
use clap::{Arg, ArgAction};
use std::alloc::Global;

/// What `--version` prints after the name: the version, and on a second line the logic that the proofs are in.
pub const VERSION: &str = "0.1.0\nlogic dac8208d650f15bf";

/// The argument FILE.
pub fn file<'a>(alloc: Global) -> Arg<'a>
    ensures rule { rule_of result ≡ rules.file }
    ensures local { result.global ≡ false }
{
    Arg::new(alloc, "file")
        .value_name("FILE")
        .help("The text of a program")
        .required(true)
}

/// An option with one value, which this parser reads. Help has `value` for it, and the line `help`.
pub fn option<'a>(
    alloc: Global,
    name: &'a str,
    value: &'a str,
    help: &'a str,
    parser: ValueParser<'a>,
) -> Arg<'a>
    ensures rule { rule_of result ≡ rules.option_by parser.entry name.entry.now }
    ensures local { result.global ≡ false }
{
    Arg::new(alloc, name)
        .long(name)
        .value_name(value)
        .help(help)
        .value_parser(parser)
}

/// The option `--stats`, with this line in the help.
pub fn stats<'a>(alloc: Global, help: &'a str) -> Arg<'a>
    ensures rule { rule_of result ≡ rules.stats }
    ensures local { result.global ≡ false }
{
    Arg::new(alloc, "stats")
        .long("stats")
        .action(ArgAction::SetTrue)
        .help(help)
}

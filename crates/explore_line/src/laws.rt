//! The law of the command line.

ghost use Rattle.std.specs.Prelude.{◌≡◌, ◌⊎◌, List, []};
ghost use Rattle.clap.specs.Words.{Text, fault_of};
ghost use Rattle.explore_line.specs.Line.{AskFor, NamesNoRounds, bebopk_explore};
ghost use Rattle.explore_line.specs.declared.asked.Order.{Order};

/// Any words that the command line accepts ask for an order on a file, or name no rounds.
pub fn what_is_taken_is_an_order()
    ensures { (words : List Text) → fault_of bebopk_explore words ≡ []
        → ((order : Order) × (path : Text) × AskFor words order path) ⊎ NamesNoRounds words }
{}

//! The law of the command line.

ghost use Rattle.std.specs.Prelude.{◌≡◌, List, []};
ghost use Rattle.clap.specs.Words.{Text, fault_of};
ghost use Rattle.command_line.specs.Line.{AskFor, bebopk};
ghost use Rattle.orders.specs.declared.order.Order.{Order};

/// Any words that the command line accepts ask for an order on a file.
pub fn what_is_taken_is_an_order()
    ensures { (words : List Text) → fault_of bebopk words ≡ []
        → (order : Order) × (path : Text) × AskFor words order path }
{}

//! The tables, in the order in which they are looked at.

ghost use Rattle.std.specs.Prelude.{◌≡◌, map, option_map};
ghost use Rattle.hints.specs.Place.{surroundings_of};
ghost use Rattle.hints.specs.Row.{row_of};
ghost use Rattle.hints.specs.Tables as told;

use crate::blocks::{BEGINNINGS, BODIES, BRANCHES, CALLS, CONDITIONS, EMPTY, SIMPLE, TARGETS};
use crate::choosing::first_row;
use crate::expressions::{BEGUN, LISTS, OPERANDS};
use crate::outside::{DECLARATIONS, ENDS, HEADS, THREADS};
use crate::place::Spot;
use crate::row::Row;
use crate::signs::{BRACKETS, COMMENTS, OPERATORS};
use crate::words::{ACTIONS, CAPITALS, CHOICES, NAMED_OPERATORS, TYPES};

/// A table of rows, of which few have many: the time for a proof that a table is read grows faster than its rows.
#[derive(Clone, Copy)]
enum Table {
    /// Numbers and comments.
    Comments,
    /// Operators that are signs.
    Operators,
    /// Blocks, arrays, texts and names.
    Brackets,
    /// Operators that are words, after an operand of an expression.
    NamedOperators,
    /// Keywords in capitals.
    Capitals,
    /// Words of declarations.
    Types,
    /// Words of choices and loops.
    Choices,
    /// Words of other statements.
    Actions,
    /// The beginning of a text, and declarations.
    Declarations,
    /// Thread lines.
    Threads,
    /// Procedures up to their `begin`.
    Heads,
    /// What comes after a procedure.
    Ends,
    /// What stands at the beginning of a block, or after a statement.
    Beginnings,
    /// A block without a statement.
    Empty,
    /// The branches of an `if`.
    Branches,
    /// The body of a `while`, and of a procedure.
    Bodies,
    /// Labels, `skip`, `goto` and `return`.
    Simple,
    /// Conditions.
    Conditions,
    /// Targets.
    Targets,
    /// Calls.
    Calls,
    /// After an operator, a `:=` or a `(`.
    Begun,
    /// After a `,` or a `?`.
    Lists,
    /// After an operand.
    Operands,
}

/// All tables, in the order in which they are looked at.
const TABLES: &[Table] = &[
    Table::Comments,
    Table::Operators,
    Table::Brackets,
    Table::NamedOperators,
    Table::Capitals,
    Table::Types,
    Table::Choices,
    Table::Actions,
    Table::Declarations,
    Table::Threads,
    Table::Heads,
    Table::Ends,
    Table::Beginnings,
    Table::Empty,
    Table::Branches,
    Table::Bodies,
    Table::Simple,
    Table::Conditions,
    Table::Targets,
    Table::Calls,
    Table::Begun,
    Table::Lists,
    Table::Operands,
];

/// The rows of a table.
#[tactic(auto, unfolding(crate::specs::Tables::rows))]
fn rows(table: Table) -> &'static [Row]
    ensures { map row_of result.now ≡ told.rows table }
{
    match table {
        Table::Comments => COMMENTS,
        Table::Operators => OPERATORS,
        Table::Brackets => BRACKETS,
        Table::NamedOperators => NAMED_OPERATORS,
        Table::Capitals => CAPITALS,
        Table::Types => TYPES,
        Table::Choices => CHOICES,
        Table::Actions => ACTIONS,
        Table::Declarations => DECLARATIONS,
        Table::Threads => THREADS,
        Table::Heads => HEADS,
        Table::Ends => ENDS,
        Table::Beginnings => BEGINNINGS,
        Table::Empty => EMPTY,
        Table::Branches => BRANCHES,
        Table::Bodies => BODIES,
        Table::Simple => SIMPLE,
        Table::Conditions => CONDITIONS,
        Table::Targets => TARGETS,
        Table::Calls => CALLS,
        Table::Begun => BEGUN,
        Table::Lists => LISTS,
        Table::Operands => OPERANDS,
    }
}

/// The first row that fits, in the order of these tables.
#[tactic(auto, unfolding(crate::specs::Tables::row_among))]
fn first_among(tables: &[Table], place: &Spot<'_>) -> Option<Row>
    ensures { option_map row_of result
        ≡ told.row_among (surroundings_of place.now) tables.now }
{
    for table in tables {
        if let Some(row) = first_row(rows(*table), place) {
            return Some(row);
        }
    }
    None
}

/// The first row that fits, in the order of all tables.
pub fn row_for(place: &Spot<'_>) -> Option<Row>
    ensures { option_map row_of result ≡ told.row_for (surroundings_of place.now) }
{
    first_among(TABLES, place)
}

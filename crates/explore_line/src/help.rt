//! The end of the help: what the replies and statuses mean, the limits, and an example.

/// The end of the help of `bebopk-explore`.
pub(crate) const EXPLORE: &str = "\
Replies and statuses:
  safe                0  no run of the rounds asked for fails an assert
  unsafe              1  some run of them does
  refused: ..         2  the text, the file or the command line is at fault
  no verdict: limit   3  more than N was found and met: standard error says how many rounds are safe
  no verdict: memory  3  memory ran out
Help and the version are printed with status 0. Status 3 is also that of a reply that could not be
written. Standard error says where and why a text is refused.

In a round each thread has a turn, in the order of the text. With `all` the search ends when no
further round can lead to anything new; some programs have no such round, and reach the limit.

With --stats a verdict is followed by a line:
  rounds R settled yes|no turns T heads H tuples U nodes D
R is the least number of rounds of which a run fails, or else how many were explored. It is
settled if no run of any number of rounds fails. T turns were made, which found H heads; U tuples
were met, and their sets of stacks have D nodes.

Limits: a text has at most 65536 bytes, 31 procedures, 8 threads and 1000 statements, and a
procedure at most 128 places, the globals among them.

Example: bebopk-explore --rounds 2 examples/driver_two_rounds.bp";

//! The end of the help: what the replies and statuses mean, the limits, and an example.

/// The line of `--stats` in the help of `check`.
pub(crate) const STATS: &str = "Also counts what was found of each procedure";

/// The end of the help of `bebopk`.
pub(crate) const BEBOPK: &str = "\
Statuses:
  0  safe, or the sequential program, help or the version was printed
  1  unsafe
  2  the text, the file or the command line is refused
  3  no verdict: the limit was passed, memory or threads ran out, or the reply could not be written
Standard output has only the reply; standard error says where and why a text is refused.

Example: bebopk check --rounds 2 examples/driver_two_rounds.bp";

/// The end of the help of `check`.
pub(crate) const CHECK: &str = "\
Replies and statuses:
  safe                    0  no run of at most K rounds fails an assert
  unsafe                  1  some run of at most K rounds does
  refused: ..             2  the text, the file or the command line is at fault
  no verdict: edge limit  3  some procedure has more than N path edges: try a greater N
  no verdict: memory      3  memory ran out
  no verdict: no worker   3  the system refused a thread: each procedure has one
  no verdict: spent       3  a worker used up its 2^56 - 1 calls
Standard error says where and why a text is refused.

One round is enough for one thread. A check is smaller with fewer rounds, fewer bits for a
counter, locals in place of globals, or one property at a time.

With --stats a verdict is followed by a line for each procedure of the sequential program:
  NAME entries E pairs P taken T
E valuations enter it, it has P pairs of an entry and what is left then, and T messages
are due for it. main__ is the first; the others are those of the text in order.

Limits: a text has at most 65536 bytes, 31 procedures, 8 threads and 1000 statements.
In the sequential program for K rounds, which has 2K - 1 places for each global and 4 more
(5 from five rounds on), globals, formals, locals, temporaries and the result of a procedure
are at most 128.

Example: bebopk check --rounds 2 examples/driver_two_rounds.bp";

/// The end of the help of `sequential`.
pub(crate) const SEQUENTIAL: &str = "\
Replies and statuses:
  the sequential program  0
  refused: ..             2  the text, the file or the command line is at fault
  no verdict: memory      3  memory ran out
Standard error says where and why a text is refused.

Limits: as for check (bebopk check --help).

Example: bebopk sequential --rounds 2 examples/driver_two_rounds.bp";

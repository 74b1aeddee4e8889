//! The summaries of a program's rewriting by one thread.
ghost use Rattle.std.specs.Prelude.{◌≡◌, ◌≢◌, ◌⊎◌, ◌↔◌, ℕ, codes, Err, IfErr, IfOk};
ghost use Rattle.language.specs.Resolve.{number_of};
ghost use Rattle.language.specs.Sequential.{SomeBad, sequential_of};
ghost use Rattle.language.specs.Step.{Program};
ghost use Rattle.resolved.specs.Programs.{sequential_tree};
ghost use Rattle.round_rewrite.specs.Programs.{count_of};
ghost use Rattle.checked.specs.Programs.{checked_tree};
ghost use Rattle.path_sets.specs.EdgeLimits.{most_of};
ghost use Rattle.summaries.specs.Tabulated.{AreSummaries, HasMoreEdges, SomePairBad};
ghost use Rattle.gather.specs.Reports.{IsNoReport, IsTabulated};

use checked::Checked;
use flow_graph::graphs;
use path_sets::PathSet;
use resolved::Sequential;
use round_rewrite::{RewriteFault, Rounds, rewrite};
use std::alloc::Allocator;
use summaries::{EdgeLimit, NoVerdict, Summaries, tabulate};

/// The summaries of a sequential program, by its flow graphs.
fn by_graphs<S: PathSet<A>, A: Allocator + Copy>(
    alloc: A,
    sequential: &Sequential<A>,
    limit: EdgeLimit,
) -> Result<Summaries<A>, NoVerdict>
    ghost program: { Program }
    requires { program ≡ sequential_of (sequential_tree sequential.now) }
    ensures summaries { IfOk result (λ s. AreSummaries program s) }
    ensures bad { IfOk result (λ s. SomePairBad s
        ↔ SomeBad program (number_of (codes "bad__") (sequential_tree sequential.now).globals)) }
    ensures few { IfOk result (λ s. (q : ℕ) → ¬ HasMoreEdges program q (most_of limit)) }
    ensures limit { (q : ℕ) → result ≡ Err (NoVerdict.EdgeLimit q)
        → HasMoreEdges program q (most_of limit) }
    ensures cause { IfErr result
        (λ e. (e ≡ NoVerdict.Memory) ⊎ ((q : ℕ) × (e ≡ NoVerdict.EdgeLimit q))) }
{
    let graphs = graphs(&alloc, sequential)?;
    tabulate::<A, A, S>(alloc, &graphs, limit)
}

/// The summaries of a checked program's rewriting for K rounds, tabulated by one thread and without a board: some pair
/// of `main__` is bad (`Summaries::bad`) if and only if some run of at most K rounds fails an assert. The path edges
/// are kept in sets of the type `S`. `TooWide` and `EdgeLimit` are returned as by `check_rounds`, and `NoWorker` and
/// `Spent` never.
pub fn tabulate_rounds<S, A, N>(
    alloc: A,
    program: &Checked<N>,
    rounds: Rounds,
    limit: EdgeLimit,
) -> Result<Summaries<A>, NoVerdict>
where
    S: PathSet<A>,
    A: Allocator + Copy,
    N: Allocator,
    ensures tabulated { IfOk result
        (IsTabulated (checked_tree program.now) (count_of rounds) (most_of limit)) }
    ensures none { IfErr result
        (IsNoReport (checked_tree program.now) (count_of rounds) (most_of limit)) }
    ensures alone { IfErr result (λ e. (e ≢ NoVerdict.NoWorker) × (e ≢ NoVerdict.Spent)) }
{
    let sequential = match rewrite(&alloc, program, rounds) {
        Ok(sequential) => sequential,
        Err(RewriteFault::TooWide) => return Err(NoVerdict::TooWide),
        Err(RewriteFault::Memory) => return Err(NoVerdict::Memory),
    };
    by_graphs::<S, A>(alloc, &sequential, limit)
}

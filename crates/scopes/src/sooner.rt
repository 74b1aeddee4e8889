//! Which of two faults is returned.

ghost use Rattle.std.specs.Prelude.{◌≡◌};
ghost use Rattle.scopes.specs.First.{sooner_of};

use checked::ScopeFault;

/// The fault with the lesser offset of two optional faults; if the offsets are equal, the first.
#[tactic(auto, using(crate::proofs::Found::lesser_steps))]
pub(crate) fn sooner(a: Option<ScopeFault>, b: Option<ScopeFault>) -> Option<ScopeFault>
    ensures { result ≡ sooner_of a b }
{
    match (a, b) {
        (None, b) => b,
        (Some(f), None) => Some(f),
        (Some(f), Some(g)) => {
            if f.offset() <= g.offset() {
                Some(f)
            } else {
                Some(g)
            }
        }
    }
}

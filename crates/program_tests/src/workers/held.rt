//! What a case does to the workers.

use crate::workers::exact::InTurn;
use crate::workers::gates::{Late, Meeting, Noting};
use crate::workers::refusing::Refusing;
use gather::Hire;
use procedure_worker::Gate;

/// The gate of the workers, and whether each may have a thread. It is one type for all cases, so that the workers are
/// compiled only once for each pair of board and set.
#[derive(Drop)]
pub enum Held {
    /// Nothing is done.
    Open,
    Late(Late),
    Meeting(Meeting),
    Noting(Noting),
    Refusing(Refusing),
    InTurn(InTurn),
}

impl Held {
    /// Whether all calls came that the case waits for; `false` for a case that waits for none.
    pub fn came(&self) -> bool {
        match self {
            Held::Meeting(gate) => gate.was_held(),
            Held::Noting(gate) => gate.has_all(),
            _ => false,
        }
    }

    /// How many lanes were asked for where one is refused; 0 elsewhere.
    pub fn asked(&self) -> u64 {
        match self {
            Held::Refusing(hire) => hire.asked(),
            _ => 0,
        }
    }

    /// Whether only lanes before the refused one worked, after the named call; `true` where none is refused.
    pub fn is_well(&self) -> bool {
        match self {
            Held::Refusing(hire) => hire.is_well(),
            _ => true,
        }
    }
}

impl Gate for Held {
    fn taken(&self, lane: u8, count: u64) {
        match self {
            Held::Open => {}
            Held::Late(gate) => gate.taken(lane, count),
            Held::Meeting(gate) => gate.taken(lane, count),
            Held::Noting(gate) => gate.taken(lane, count),
            Held::Refusing(gate) => gate.taken(lane, count),
            Held::InTurn(gate) => gate.taken(lane, count),
        }
    }

    fn posted(&self, lane: u8, count: u64) {
        match self {
            Held::Open => {}
            Held::Late(gate) => gate.posted(lane, count),
            Held::Meeting(gate) => gate.posted(lane, count),
            Held::Noting(gate) => gate.posted(lane, count),
            Held::Refusing(gate) => gate.posted(lane, count),
            Held::InTurn(gate) => gate.posted(lane, count),
        }
    }
}

impl Hire for Held {
    fn may(&self, lane: u8) -> bool {
        match self {
            Held::Refusing(hire) => hire.may(lane),
            Held::InTurn(hire) => hire.may(lane),
            _ => true,
        }
    }
}

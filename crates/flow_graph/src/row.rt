//! Rows: the values of some bits as a number, in which each has its slot.

ghost use Rattle.std.specs.Prelude.{◌≡◌, ◌≤◌, length};
ghost use Rattle.flow_graph.specs.Tables.{most_inputs, slot, known_bit};

/// The slot of a bit among others: their number, if it is not one of them.
pub(crate) fn slot_of(bits: &[u8], bit: u8) -> usize
    ensures { result ≡ slot bit bits.now }
{
    let mut at: usize = 0;
    for other in bits {
        if bit == *other {
            return at;
        }
        at += 1;
    }
    at
}

/// Bits whose values are known: those of a row.
#[derive(Drop)]
pub(crate) struct KnownBits<'b> {
    pub(crate) bits: &'b [u8],
    pub(crate) row: u64,
}

impl<'b> KnownBits<'b> {
    /// The value of a bit; `None` if it is not known.
    pub(crate) fn value(&self, bit: u8) -> Option<bool>
        requires { length self.now.bits.now ≤ most_inputs }
        ensures { result ≡ known_bit self.now.bits.now self.now.row bit }
    {
        let slot = slot_of(self.bits, bit);
        if slot < self.bits.len() {
            Some(self.row >> slot & 1 == 1)
        } else {
            None
        }
    }
}

//! The bits of a row, read from a valuation: neighbours are read together.

ghost use Rattle.std.specs.Prelude.{◌≡◌, ◌<◌, ◌≤◌, ◌+◌, ◌++◌, ◌∷◌, [], length, map};
ghost use Rattle.language.specs.Words.{word_bits};
ghost use Rattle.flow_graph.specs.Bits.{bit_of, coded};
ghost use Rattle.flow_graph.specs.Tables.{most_inputs, is_input, AreBits};
ghost use Rattle.flow_graph.specs.Windows.{seen, IsWindow, AreWindows, AreWindows-prop};

use crate::bit::{HALF, half};
use arrayvec::ArrayVec;
use language::Word;

/// The most inputs of a table, and so the most windows: one for each; `specs/Tables.antt` has the number for contracts.
pub(crate) const MOST_INPUTS: usize = 10;

/// Neighbouring bits in one half of a valuation.
#[derive(Clone, Copy, Default, Drop)]
pub(crate) struct Window {
    pub(crate) first: u8,
    pub(crate) count: u8,
    /// By how much the half is rotated to the right, so that the bits are at their places in the row.
    pub(crate) rotation: u8,
    /// 1 at these places, 0 elsewhere.
    pub(crate) mask: u16,
}

/// The bits of a row, the lowest first.
#[derive(Drop)]
pub(crate) struct Windows {
    pub(crate) items: ArrayVec<Window, MOST_INPUTS>,
    pub(crate) ghost laid: { AreWindows 0 items.items } by { AreWindows-prop 0 items.items },
}

impl Window {
    /// A window on one bit, after others of a row.
    fn new(bit: u8, front: usize) -> Self
        requires few { front < most_inputs }
        requires place { bit < word_bits }
        ensures window { IsWindow front result }
        ensures bit { (result.first ≡ bit) × (result.count ≡ 1) }
    {
        Window {
            first: bit,
            count: 1,
            rotation: (bit % HALF + HALF - front as u8) % HALF,
            mask: 1 << front,
        }
    }
}

/// Adds a bit to a row: to the last window if it is the next of its half.
fn add(items: &mut ArrayVec<Window, MOST_INPUTS>, bit: u8, front: usize)
    requires laid { AreWindows 0 items.old.items }
    requires front { front ≡ length (seen items.old.items) }
    requires room { front < most_inputs }
    requires few { length items.old.items ≤ front }
    requires place { bit < word_bits }
    ensures laid { AreWindows 0 items.new.items }
    ensures seen { seen items.new.items ≡ seen items.old.items ++ bit ∷ [] }
    ensures few { length items.new.items ≤ front + 1 }
{
    match items.pop() {
        Some(last) if last.first + last.count == bit && bit % HALF != 0 => items.push(Window {
            count: last.count + 1,
            mask: last.mask + (1 << front),
            ..last
        }),
        Some(last) => {
            items.push(last);
            items.push(Window::new(bit, front));
        }
        None => items.push(Window::new(bit, front)),
    }
}

impl Windows {
    /// Windows on these bits.
    pub(crate) fn new(bits: &[u8]) -> Self
        requires few { length bits.now ≤ most_inputs }
        requires places { AreBits bits.now }
        ensures { seen result.items.items ≡ bits.now }
    {
        let mut items = ArrayVec::new();
        let mut front: usize = 0;
        for bit in bits {
            add(&mut items, *bit, front);
            front += 1;
        }
        Windows { items }
    }

    /// Whether a bit is one of these.
    pub(crate) fn has(&self, bit: u8) -> bool
        ensures { result ≡ is_input bit (seen self.now.items.items) }
    {
        for window in self.items.as_slice() {
            if window.first <= bit && bit - window.first < window.count {
                return true;
            }
        }
        false
    }

    /// The row of these bits in a valuation: the value of the first is its lowest bit.
    #[inline(always)]
    pub(crate) fn row(&self, values: Word) -> u64
        ensures { result ≡ coded (map (bit_of values) (seen self.now.items.items)) }
    {
        let mut row: u64 = 0;
        for window in self.items.as_slice() {
            let half = half(values, window.first).rotate_right(window.rotation as u32);
            row += half & window.mask as u64;
        }
        row
    }
}

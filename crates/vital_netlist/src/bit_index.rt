//! Bits among ordered ones, found by where those of their port or signal begin.

ghost use Rattle.std.specs.Prelude.{◌≡◌, position, IfSome, Some};
ghost use Rattle.vital_netlist.specs.Bits.{is_same};
ghost use Rattle.vital_netlist.specs.Orders.{AreOrdered};

use crate::bit::Bit;
use crate::bit_search::number_among;
use std::alloc::{AllocError, Global};
use std::cmp::Ordering;

/// Where the bits of each port and signal begin among ordered bits. It is made once for them. What is found among bits does not depend on
/// it, but how soon does: at once where all bits of the port or signal are among them and this is their index.
#[derive(Drop)]
pub struct BitIndex {
    /// For each instance where its ports and signals stand in `starts`.
    objects: Vec<usize>,
    /// For each port and signal of each instance how many bits stand before its own.
    starts: Vec<usize>,
}

/// Puts a value at the end until one stands at a place.
fn lengthen(list: &mut Vec<usize>, place: usize, value: usize) -> Result<(), AllocError> {
    for _ in list.len()..place.saturating_add(1) {
        list.push(value)?;
    }
    Ok(())
}

/// A number, if it is that of a bit among ordered bits.
fn if_number_of(bits: &[Bit], number: usize, bit: &Bit) -> Option<usize>
    requires { AreOrdered bits.now }
    ensures { IfSome result (λ n. position (is_same bit.now) bits.now ≡ Some n) }
{
    match bits.get(number)?.compare(bit) {
        Ordering::Equal => Some(number),
        Ordering::Less | Ordering::Greater => None,
    }
}

impl BitIndex {
    /// The index of ordered bits. It takes time and memory in proportion to them, and to the ports and signals before them in their
    /// instances.
    pub fn new(alloc: Global, bits: &[Bit]) -> Result<BitIndex, AllocError> {
        let mut index = BitIndex {
            objects: Vec::new(alloc),
            starts: Vec::new(alloc),
        };
        for (number, bit) in bits.iter().enumerate() {
            index.put(bit, number)?;
        }
        Ok(index)
    }

    /// Puts the bit of a number, before which all others were put that stand before it.
    fn put(&mut self, bit: &Bit, number: usize) -> Result<(), AllocError> {
        lengthen(&mut self.objects, bit.instance, self.starts.len())?;
        match self.objects.get(bit.instance) {
            Some(first) => lengthen(&mut self.starts, first.saturating_add(bit.object), number),
            None => Ok(()),
        }
    }

    /// How many bits stand before those of the port or signal of a bit, as far as the index knows.
    fn start(&self, bit: &Bit) -> Option<usize> {
        let first = self.objects.get(bit.instance)?;
        self.starts.get(first.saturating_add(bit.object)).copied()
    }

    /// The number of a bit among ordered bits, if it is where the index has it.
    fn number_indexed(&self, bits: &[Bit], bit: &Bit) -> Option<usize>
        requires { AreOrdered bits.now }
        ensures { IfSome result (λ n. position (is_same bit.now) bits.now ≡ Some n) }
    {
        let start = self.start(bit)?;
        let place = bit.offset.below(bits.len().saturating_sub(start))?;
        if_number_of(bits, start + place, bit)
    }

    /// The number of a bit among ordered bits, if it is one of them. It takes time in proportion to the digits of their number where not all
    /// bits of its port or signal are among them, or this is not their index, and else none that depends on them.
    pub fn number_among(&self, bits: &[Bit], bit: &Bit) -> Option<usize>
        requires { AreOrdered bits.now }
        ensures { result ≡ position (is_same bit.now) bits.now }
    {
        match self.number_indexed(bits, bit) {
            Some(number) => Some(number),
            None => number_among(bits, bit),
        }
    }
}

//! Bits among ordered ones.

ghost use Rattle.std.specs.Prelude.{◌≡◌, position};
ghost use Rattle.vital_netlist.specs.Bits.{is_same};
ghost use Rattle.vital_netlist.specs.Orders.{AreOrdered};

use crate::bit::Bit;

/// The number of a bit among ordered bits, if it is one of them. It takes time in proportion to the digits of their number.
pub fn number_among(bits: &[Bit], bit: &Bit) -> Option<usize>
    requires { AreOrdered bits.now }
    ensures { result ≡ position (is_same bit.now) bits.now }
{
    bits.binary_search_by(|other| other.compare(bit)).ok()
}

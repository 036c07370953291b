//! The signals of a design.

ghost use Rattle.std.specs.Prelude.{◌≡◌, ◌≤◌, ◌∷◌, ◌++◌, [], length, map, position, IfErr, IfOk, OnOk};
ghost use Rattle.vital_connections.specs.Runs.{bits_of_run, bits_of_runs};
ghost use Rattle.vital_netlist.specs.Bits.{bit as bit', is_same};
ghost use Rattle.vital_netlist.specs.Nets as spec;
ghost use Rattle.vital_netlist.specs.Put as put';
ghost use Rattle.vital_netlist.specs.declared.signals.SignalsError.TheVariants.{NoMemory};

use crate::bit::Bit;
use crate::bit_index::BitIndex;
use crate::netlist::Netlist;
use std::alloc::{AllocError, AllocFailed, Global};
use std::marker::Model;
use vital_base::Place;
use vital_connections::Run;

/// The greatest number of signals of a design.
const MOST_SIGNALS: usize = 65_536;

/// Why there are no signals.
#[derive(Clone, Copy, PartialEq, Eq)]
pub enum SignalsError {
    /// There are more than 65,536. The place is that of the identifier of the port or signal that has the first one too many.
    TooMany(Place),
    NoMemory,
}

impl From<AllocError> for SignalsError {
    ghost from_gives = { λ _ e. e ≡ NoMemory };

    fn from(_error: AllocError) -> SignalsError {
        SignalsError::NoMemory
    }
}

impl<T: Drop> From<AllocFailed<T>> for SignalsError {
    ghost from_gives = { λ _ e. e ≡ NoMemory };

    fn from(_error: AllocFailed<T>) -> SignalsError {
        SignalsError::NoMemory
    }
}

/// Puts a bit at the end, if there is room.
fn put(netlist: &Netlist<'_>, bits: &mut Vec<Bit>, bit: Bit) -> Result<(), SignalsError>
    requires { length bits.old.items ≤ spec.most_signals }
    ensures put { OnOk result (bits.new.items ≡ bits.old.items ++ bit ∷ []) }
    ensures room { OnOk result (length bits.new.items ≤ spec.most_signals) }
    ensures told { IfErr result (λ e. put'.IsTold netlist.now.files netlist.now.instances (bits.old.items ++ bit ∷ []) e) }
{
    if bits.len() < MOST_SIGNALS {
        bits.push(bit)?;
        return Ok(());
    }
    match netlist.object(&bit) {
        Some(object) => Err(SignalsError::TooMany(object.place)),
        None => Err(SignalsError::NoMemory),
    }
}

/// Puts bits of an instance that stand side by side.
fn put_run(
    alloc: Global,
    netlist: &Netlist<'_>,
    bits: &mut Vec<Bit>,
    instance: usize,
    run: &Run,
) -> Result<(), SignalsError>
    requires { length bits.old.items ≤ spec.most_signals }
    ensures put { OnOk result (bits.new.items ≡ bits.old.items ++ map (bit' instance) (bits_of_run run.now)) }
    ensures room { OnOk result (length bits.new.items ≤ spec.most_signals) }
    ensures told { IfErr result (λ e. put'.IsTold netlist.now.files netlist.now.instances (bits.old.items ++ map (bit' instance) (bits_of_run run.now)) e) }
{
    let object = run.object;
    let mut offset = run.first.copy(alloc)?;
    while offset.is_less(&run.end) {
        let next = offset.successor(alloc)?;
        let bit = Bit {
            instance,
            object,
            offset,
        };
        put(netlist, bits, bit)?;
        offset = next;
    }
    Ok(())
}

/// Puts bits of an instance.
fn put_runs(
    alloc: Global,
    netlist: &Netlist<'_>,
    bits: &mut Vec<Bit>,
    instance: usize,
    runs: &[Run],
) -> Result<(), SignalsError>
    requires { length bits.old.items ≤ spec.most_signals }
    ensures put { OnOk result (bits.new.items ≡ bits.old.items ++ map (bit' instance) (bits_of_runs runs.now)) }
    ensures room { OnOk result (length bits.new.items ≤ spec.most_signals) }
    ensures told { IfErr result (λ e. put'.IsTold netlist.now.files netlist.now.instances (bits.old.items ++ map (bit' instance) (bits_of_runs runs.now)) e) }
{
    for run in runs {
        put_run(alloc, netlist, bits, instance, run)?;
    }
    Ok(())
}

/// Puts the bits of an instance that are signals of their own: those of its ports, and then those of its signals.
fn put_instance(
    alloc: Global,
    netlist: &Netlist<'_>,
    bits: &mut Vec<Bit>,
    instance: usize,
) -> Result<(), SignalsError>
    requires { length bits.old.items ≤ spec.most_signals }
    ensures put { OnOk result (bits.new.items ≡ bits.old.items ++ put'.own_of_number netlist.now.files netlist.now.instances instance) }
    ensures room { OnOk result (length bits.new.items ≤ spec.most_signals) }
    ensures told { IfErr result (λ e. put'.IsTold netlist.now.files netlist.now.instances (bits.old.items ++ put'.own_of_number netlist.now.files netlist.now.instances instance) e) }
{
    let ports = netlist.own_port_bits(instance);
    let signals = netlist.signal_bits(instance);
    put_runs(alloc, netlist, bits, instance, ports)?;
    put_runs(alloc, netlist, bits, instance, signals)
}

/// The bits that are their own nets, or the place of the first one too many.
fn bits_of(alloc: Global, netlist: &Netlist<'_>) -> Result<Vec<Bit>, SignalsError>
    ensures all { IfOk result (λ bits. bits.items ≡ spec.signals netlist.now.files netlist.now.instances) }
    ensures room { IfOk result (λ bits. length bits.items ≤ spec.most_signals) }
    ensures told { IfErr result (λ e. put'.IsTold netlist.now.files netlist.now.instances (spec.signals netlist.now.files netlist.now.instances) e) }
{
    let mut bits = Vec::new(alloc);
    for instance in 0..netlist.instances().len() {
        put_instance(alloc, netlist, &mut bits, instance)?;
    }
    Ok(bits)
}

/// The signals of a design: the bits that are their own nets, by instances, ports and signals, and from left to right. Contracts see them as
/// the list of these bits.
#[derive(Drop)]
pub struct Signals {
    bits: Vec<Bit>,
    index: BitIndex,
}

impl Model for Signals {
    ghost use Rattle.std.specs.Prelude.{List};
    ghost use Rattle.vital_netlist.specs.Orders.{AreOrdered};
    ghost use Rattle.vital_netlist.specs.declared.bit.Bit.{Bit as Bit'};

    ghost Value = { List Bit' };

    ghost view = { λ s. s.bits.items };

    ghost invariant = { λ s. AreOrdered s.bits.items };
}

impl Signals {
    /// The signals of a design, or the place of the first one too many. It takes time in proportion to the instances and signals.
    pub fn new(alloc: Global, netlist: &Netlist<'_>) -> Result<Signals, SignalsError>
        ensures { spec.AreSignals netlist.now.files netlist.now.instances result }
    {
        let bits = bits_of(alloc, netlist)?;
        let index = BitIndex::new(alloc, &bits)?;
        Ok(Signals { bits, index })
    }

    /// The bits, in order.
    pub fn bits(&self) -> &[Bit]
        ensures { result.now ≡ self.now }
    {
        &self.bits
    }

    /// The number of the signal that a bit is, if it is its own net. Where not all bits of its port or signal are, it takes time in proportion
    /// to the digits of the number of signals.
    fn number_of_own(&self, bit: &Bit) -> Option<usize>
        ensures { result ≡ position (is_same bit.now) self.now }
    {
        self.index.number_among(&self.bits, bit)
    }

    /// The number of the signal of a bit. It takes time in proportion to the labels on the path of the instance of the bit, and where not
    /// all bits of the port or signal of its net are nets to the digits of the number of signals.
    pub fn number(
        &self,
        alloc: Global,
        netlist: &Netlist<'_>,
        bit: Bit,
    ) -> Result<Option<usize>, AllocError>
        requires { self.now ≡ spec.signals netlist.now.files netlist.now.instances }
        ensures { IfOk result (λ n. n ≡ spec.signal_number netlist.now.files netlist.now.instances bit) }
    {
        let net = netlist.net(alloc, bit)?;
        Ok(self.number_of_own(&net))
    }
}

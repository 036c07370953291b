//! The instances of a design with what their bits are associated with.

ghost use Rattle.std.specs.Prelude.{◌≡◌, ◌<◌, ◌+◌, ◌-◌, ℕ, [], filter, map, IfOk, IfSome};
ghost use Rattle.std.specs.List.{slice_get};
ghost use Rattle.std.specs.Option.{option_and_then, option_copied, option_map, option_map_or};
ghost use Rattle.vital_connections.specs.Objects.{lent};
ghost use Rattle.vital_connections.specs.Runs.{bits_of_runs};
ghost use Rattle.vital_connections.specs.Spans.{behind, seen};
ghost use Rattle.vital_instances.specs.Designs.{AreEntered};
ghost use Rattle.vital_netlist.specs.Bits.{bit as bit', object_of};
ghost use Rattle.vital_netlist.specs.Netlists as kept;
ghost use Rattle.vital_netlist.specs.Nets as spec;
ghost use Rattle.vital_netlist.specs.DesignObjects as objects;

use crate::bit::Bit;
use crate::connection_table::{connections_of, kept_of, position_of};
use crate::design_parts::DesignParts;
use crate::unit::{Unit, no_objects};
use crate::unit_table::{unit_of, units_of};
use std::alloc::{AllocError, Global};
use std::marker::Model;
use vital_connections::{Connected, Connections, Object, Run, Span, associations_are_apart};
use vital_instances::{Instance, Position, instances_are_good};
use vital_library::Library;
use vital_logic::Level;
use vital_naturals::Natural;

/// The instances of a design with their units, and what the bits of their ports are associated with. What instances of one unit have in common
/// is kept once. Contracts see it as the files of the library and the instances.
#[derive(Drop)]
pub struct Netlist<'a> {
    library: &'a Library,
    /// In preorder.
    instances: &'a [Instance],
    /// One for each entity of the library, if it has an instance.
    units: Vec<Option<Unit<'a>>>,
    /// For each entity what the bits of the ports of the instances in it are associated with.
    connections: Vec<Vec<Connections>>,
}

impl<'a> Model for Netlist<'a> {
    ghost use Rattle.std.specs.Prelude.{map};
    ghost use Rattle.std.specs.Coded.{codes};
    ghost use Rattle.vital_instances.specs.contracts.instance.Instance as instance;
    ghost use Rattle.vital_netlist.specs.Cells.{Netlist as Netlist'};
    ghost use Rattle.vital_netlist.specs.Netlists.{IsNetlist};
    ghost use Rattle.vital_nodes.specs.contracts.unit.Units as of_files;

    ghost Value = { Netlist' };

    ghost coded = { Prim.hlevel (codes, of_files.the_row.coded, instance.the_row.coded) };

    ghost view = { λ n. record { files = n.library.now; instances = n.instances.now } };

    ghost invariant = { λ n. IsNetlist n.library.now n.instances.now n.units.items (map (λ c. c.items) n.connections.items) };
}

/// The number that stands as far behind another first number as a number stands behind a first one.
fn bit_behind(
    alloc: Global,
    bit: &Natural,
    first: &Natural,
    other_first: &Natural,
) -> Result<Natural, AllocError>
    ensures { IfOk result (λ n. n ≡ other_first.now + (bit.now - first.now)) }
{
    let distance = bit.minus(alloc, first)?;
    other_first.plus(alloc, &distance)
}

/// The bit that a bit of a span of an instance at a position is associated with, if it is with one.
fn bit_in(
    alloc: Global,
    position: Position,
    span: &Span,
    offset: &Natural,
) -> Result<Option<Bit>, AllocError>
    ensures { IfOk result (λ above. above ≡ spec.bit_in (Some position) (behind (offset.now - span.now.first) (seen span.now.connected))) }
{
    match &span.connected {
        Connected::Bits(object, first) => Ok(Some(Bit {
            instance: position.parent,
            object: *object,
            offset: bit_behind(alloc, offset, &span.first, first)?,
        })),
        _ => Ok(None),
    }
}

/// The level that the bits of a span are associated with, if they are with one.
fn level_of(span: &Span) -> Option<Level>
    ensures { (n : ℕ) → result ≡ spec.level_in (behind n (seen span.now.connected)) }
{
    match span.connected {
        Connected::Level(level) => Some(level),
        _ => None,
    }
}

/// The ports and then the signals of a unit, if there is one.
fn objects_of<'b, 'a>(unit: Option<&'b Unit<'a>>) -> &'b [Object<'a>]
    ensures { result.now ≡ option_map_or (λ u. u.objects.items) (option_copied unit.entry) [] }
{
    let Some(unit) = unit else {
        return no_objects();
    };
    unit.objects.as_slice()
}

/// The port or signal of a number among these.
fn object_in<'a>(objects: &[Object<'a>], number: usize) -> Option<Object<'a>>
    ensures { option_map lent result ≡ slice_get (map lent objects.now) number }
{
    objects.get(number).copied()
}

impl<'a> Netlist<'a> {
    /// The instances of a design with their units. It takes time in proportion to the instances and to the text of their units.
    pub fn new(alloc: Global, parts: &DesignParts<'a>) -> Result<Netlist<'a>, AllocError>
        requires net_units { parts.now.net_units.now ≡ parts.now.library.now }
        requires entered { AreEntered parts.now.library.now parts.now.instances.now }
        requires cells { parts.now.cells.now ≡ record { files = parts.now.library.now; instances = parts.now.instances.now } }
        ensures { IfOk result (λ n. n ≡ record { files = parts.now.library.now; instances = parts.now.instances.now }) }
    {
        instances_are_good();
        associations_are_apart();
        let units = units_of(alloc, parts)?;
        let connections = connections_of(alloc, parts, &units)?;
        Ok(Netlist {
            library: parts.library,
            instances: parts.instances,
            units,
            connections,
        })
    }

    /// The instances, in preorder.
    pub fn instances(&self) -> &'a [Instance]
        ensures { result.now ≡ self.now.instances }
    {
        self.instances
    }

    /// The unit of the instance of a number.
    fn unit(&self, instance: usize) -> Option<&Unit<'a>>
        ensures { kept.IsUnitOf self.now.files (slice_get self.now.instances instance) (option_copied result) }
    {
        unit_of(self.instances, &self.units, instance)
    }

    /// The name of the unit of the instance of a number.
    pub fn name(&self, instance: usize) -> &'a [u8]
        ensures { result.now ≡ option_map_or (λ i. objects.name_at self.now.files i.entity) (slice_get self.now.instances instance) [] }
    {
        let Some(unit) = self.unit(instance) else {
            return &[];
        };
        unit.name
    }

    /// The ports and then the signals of the instance of a number.
    pub fn objects(&self, instance: usize) -> &[Object<'a>]
        ensures { map lent result.now ≡ option_map_or (λ i. objects.objects_at self.now.files i.entity) (slice_get self.now.instances instance) [] }
    {
        objects_of(self.unit(instance))
    }

    /// The numbers of the ports and signals that the statements of the instance of a number drive, in order.
    pub fn driven(&self, instance: usize) -> &[usize]
        ensures { result.now ≡ option_map_or (λ i. objects.driven_at self.now.files i.entity) (slice_get self.now.instances instance) [] }
    {
        let Some(unit) = self.unit(instance) else {
            return &[];
        };
        &unit.driven
    }

    /// The port or signal that a bit is of.
    pub fn object(&self, bit: &Bit) -> Option<Object<'a>>
        ensures { option_map lent result ≡ object_of self.now.files self.now.instances bit.now }
    {
        object_in(self.objects(bit.instance), bit.object)
    }

    /// What the ports of the instance of a number are associated with. Those of the top are associated with nothing.
    fn connections(&self, instance: usize) -> Option<&Connections>
        ensures { kept.IsKeptOf self.now.files self.now.instances instance (option_copied result) }
    {
        kept_of(self.instances, &self.connections, instance)
    }

    /// The span in which a bit is, if it is associated.
    fn span(&self, bit: &Bit) -> Option<&Span>
        ensures { option_map (λ s. behind (bit.now.offset - s.now.first) (seen s.now.connected)) result ≡ spec.connection_of self.now.files self.now.instances bit.now }
    {
        match self.connections(bit.instance) {
            Some(connections) => connections.span(bit.object, &bit.offset),
            None => None,
        }
    }

    /// The bit of the instance above that a bit is associated with, if it is with one.
    #[tactic(auto, using(crate::proofs::NetLemmas::above_alone, crate::proofs::NetLemmas::above_none, crate::proofs::NetLemmas::above_some))]
    fn actual_bit(&self, alloc: Global, bit: &Bit) -> Result<Option<Bit>, AllocError>
        ensures { IfOk result (λ above. above ≡ spec.bit_above self.now.files self.now.instances bit.now) }
    {
        let Some(position) = position_of(self.instances, bit.instance) else {
            return Ok(None);
        };
        match self.span(bit) {
            Some(span) => bit_in(alloc, position, span, &bit.offset),
            None => Ok(None),
        }
    }

    /// The same: it stands in an earlier instance, and has the net of the bit.
    fn bit_above(&self, alloc: Global, bit: &Bit) -> Result<Option<Bit>, AllocError>
        ensures before { IfOk result (λ above. IfSome above (λ a. a.instance < bit.now.instance)) }
        ensures net { IfOk result (λ above. spec.net self.now.files self.now.instances bit.now ≡ option_map_or (spec.net self.now.files self.now.instances) above bit.now) }
    {
        let _ = &self.library;
        self.actual_bit(alloc, bit)
    }

    /// The net of a bit, from formal to actual: the bit of the outermost port or signal. It takes time in proportion to the labels on the
    /// path of the instance of the bit.
    pub fn net(&self, alloc: Global, bit: Bit) -> Result<Bit, AllocError>
        ensures { IfOk result (λ net. net ≡ spec.net self.now.files self.now.instances bit) }
    {
        let mut net = bit;
        while let Some(above) = self.bit_above(alloc, &net)? {
            net = above;
        }
        Ok(net)
    }

    /// The level that a bit is tied to, if it is.
    pub fn tied(&self, bit: &Bit) -> Option<Level>
        ensures { result ≡ spec.tied self.now.files self.now.instances bit.now }
    {
        match self.span(bit) {
            Some(span) => level_of(span),
            None => None,
        }
    }

    /// All bits of the ports of an instance.
    fn port_bits(&self, instance: usize) -> &[Run]
        ensures { bits_of_runs result.now ≡ option_map_or (λ i. objects.port_bits self.now.files i.entity) (slice_get self.now.instances instance) [] }
    {
        let Some(unit) = self.unit(instance) else {
            return &[];
        };
        &unit.port_bits
    }

    /// The bits of the ports of an instance that are signals of their own. All those of the top are.
    pub(crate) fn own_port_bits(&self, instance: usize) -> &[Run]
        ensures { bits_of_runs result.now ≡ spec.own_port_bits self.now.files self.now.instances instance }
    {
        let Some(connections) = self.connections(instance) else {
            return self.port_bits(instance);
        };
        connections.own()
    }

    /// The bits of the signals of an instance.
    pub(crate) fn signal_bits(&self, instance: usize) -> &[Run]
        ensures bits { bits_of_runs result.now ≡ option_map_or (λ i. objects.signal_bits self.now.files i.entity) (slice_get self.now.instances instance) [] }
        ensures own { filter (λ b. spec.is_own self.now.files self.now.instances (bit' instance b)) (bits_of_runs result.now) ≡ bits_of_runs result.now }
    {
        let _ = &self.library;
        let Some(unit) = self.unit(instance) else {
            return &[];
        };
        &unit.signal_bits
    }
}

//! The ports of an entity as the formals of its instances.

ghost use Rattle.std.specs.Prelude.{◌≡◌, IfOk, map};
ghost use Rattle.std.specs.Option.{option_map};
ghost use Rattle.vital_associations.specs.Formals as spec;
ghost use Rattle.vital_level0.specs.Ports.{mode_at};
ghost use Rattle.vital_structure.specs.Shapes.{lent, lent_part, shape_of_port as shape_of_port'};

use std::alloc::{AllocError, Global};
use std::marker::Model;
use vital_level0::PortIndex;
use vital_names::LibraryNames;
use vital_nodes::{Entity, Iface, Mode, Reference, Suffix};
use vital_structure::{Part, Shape, part_behind, shape_of_port};

/// The ports of an entity, which are found by their names. It is made once for an entity. Contracts see it as the list of the ports.
#[derive(Drop)]
pub struct Formals<'a> {
    ports: &'a [Iface],
    index: PortIndex<'a>,
    /// What each port is.
    shapes: Vec<Shape<'a>>,
}

impl<'a> Model for Formals<'a> {
    ghost use Rattle.std.specs.Prelude.{◌≡◌, List, map};
    ghost use Rattle.vital_nodes.specs.declared.decl.Iface.{Iface};
    ghost use Rattle.vital_nodes.specs.contracts.decl.Iface as iface;
    ghost use Rattle.vital_structure.specs.Shapes.{lent, shape_of_port};
    ghost use Rattle.std.specs.Coded.{codes};

    ghost Value = { List Iface };

    ghost coded = { Prim.hlevel (codes, iface.the_row.coded) };

    ghost view = { λ formals. formals.ports.now };

    ghost invariant = { λ formals. (formals.index ≡ formals.ports.now) × (map lent formals.shapes.items ≡ map shape_of_port formals.ports.now) };
}

impl<'a> Formals<'a> {
    /// The ports of an entity. It takes time and memory in proportion to them.
    pub fn new(
        alloc: Global,
        library: &LibraryNames<'_>,
        entity: &'a Entity,
    ) -> Result<Formals<'a>, AllocError>
        ensures { IfOk result (λ formals. formals ≡ entity.now.ports) }
    {
        let ports = entity.ports.as_slice();
        Ok(Formals {
            ports,
            index: PortIndex::new(alloc, entity)?,
            shapes: shapes_of(alloc, library, ports)?,
        })
    }

    /// The ports, in order.
    pub fn ports(&self) -> &'a [Iface]
        ensures { result.now ≡ self.now }
    {
        self.ports
    }

    /// What a port is. A number past the ports counts as one bit.
    pub fn shape(&self, number: usize) -> Shape<'a>
        ensures { lent result ≡ spec.shape_at self.now number }
    {
        match self.shapes.get(number) {
            Some(shape) => *shape,
            None => Shape::Scalar,
        }
    }

    /// The mode of a port.
    pub fn mode(&self, number: usize) -> Option<Mode>
        ensures { result ≡ mode_at self.now number }
    {
        self.index.mode(number)
    }

    /// The port that a name names, alone or with one index or one slice in its range: its number, and the part.
    pub fn named(&self, name: &'a Reference) -> Option<(usize, Part<'a>)>
        ensures { option_map (λ f. (f.0, lent_part f.1)) result ≡ spec.formal_named self.now name.now }
    {
        let number = self.index.number(name.identifier.name.as_slice())?;
        let part = part_in(self.shape(number), name.suffixes.as_slice())?;
        Some((number, part))
    }
}

/// What each of some ports is.
fn shapes_of<'a>(
    alloc: Global,
    library: &LibraryNames<'_>,
    ports: &'a [Iface],
) -> Result<Vec<Shape<'a>>, AllocError>
    ensures { IfOk result (λ shapes. map lent shapes.items ≡ map shape_of_port' ports.now) }
{
    let mut shapes = Vec::with_capacity(alloc, ports.len())?;
    for port in ports {
        shapes.push(shape_of_port(library, port))?;
    }
    Ok(shapes)
}

/// The part that stands behind an identifier, if it is in the range.
pub fn part_in<'a>(shape: Shape<'_>, suffixes: &'a [Suffix]) -> Option<Part<'a>>
    ensures { option_map lent_part result ≡ spec.part_in (lent shape.entry) suffixes.now }
{
    match part_behind(suffixes) {
        Some(part) if shape.has_part(part) => Some(part),
        _ => None,
    }
}

//! The cells of a design.

ghost use Rattle.std.specs.Prelude.{◌≡◌, ℕ, [], length, slice_get, Some, All, IfOk};
ghost use Rattle.std.specs.Option.{option_copied};
ghost use Rattle.vital_as_read.specs.Libraries.{IsFromText};
ghost use Rattle.vital_netlist.specs.Cells as spec;
ghost use Rattle.vital_instances.specs.declared.instance.Instance.{Instance as Instance'};
ghost use Rattle.vital_instances.specs.Designs.{AreEntered};
ghost use Rattle.vital_instances.specs.Units.{Unit, unit_at};

use crate::found::Found;
use std::alloc::{AllocError, Global};
use std::marker::Model;
use vital_instances::{Instance, instances_are_good};
use vital_library::Library;
use vital_typed_cells::{Checked, PackageLevels, TypedPackages, levels_of_packages};

/// The cells of a design, each once however many instances it has, by their first instances. They are made once for a design. Contracts see
/// them as the files of the library and the instances.
#[derive(Drop)]
pub struct Cells<'a> {
    library: &'a Library,
    instances: &'a [Instance],
    found: Found,
}

impl<'a> Model for Cells<'a> {
    ghost use Rattle.std.specs.Coded.{codes};
    ghost use Rattle.vital_netlist.specs.Cells.{HasCells, Netlist};
    ghost use Rattle.vital_instances.specs.contracts.instance.Instance as instance;
    ghost use Rattle.vital_nodes.specs.contracts.unit.Units as units;

    ghost Value = { Netlist };

    ghost coded = { Prim.hlevel (codes, units.the_row.coded, instance.the_row.coded) };

    ghost view = { λ c. record { files = c.library.now; instances = c.instances.now } };

    ghost invariant = { λ c. HasCells c.library.now c.instances.now c.found.cells.items c.found.numbers.items };
}

/// The cells of instances.
fn found_in(
    alloc: Global,
    library: &Library,
    packages: &TypedPackages<'_>,
    instances: &[Instance],
) -> Result<Found, AllocError>
    requires packages { packages.now ≡ library.now }
    requires read { All IsFromText library.now }
    requires entered { AreEntered library.now instances.now }
    ensures { IfOk result (λ found. spec.HasCells library.now instances.now found.cells.items found.numbers.items) }
{
    instances_are_good();
    let mut found = Found::new(alloc, library)?;
    for instance in instances {
        found.put_instance(alloc, library, packages, instance)?;
    }
    Ok(found)
}

impl<'a> Cells<'a> {
    /// The cells of these instances, each of which has no fault. It takes time in proportion to the instances and to the text of the cells.
    pub fn new(
        alloc: Global,
        library: &'a Library,
        packages: &TypedPackages<'_>,
        instances: &'a [Instance],
    ) -> Result<Cells<'a>, AllocError>
        requires packages { packages.now ≡ library.now }
        requires read { All IsFromText library.now }
        requires entered { AreEntered library.now instances.now }
        ensures { IfOk result (λ cells. cells ≡ record { files = library.now; instances = instances.now }) }
    {
        let found = found_in(alloc, library, packages, instances)?;
        Ok(Cells {
            library,
            instances,
            found,
        })
    }

    /// All of them, in order.
    pub fn all(&self) -> &[Checked]
        ensures { result.now ≡ spec.cells self.now.files self.now.instances }
    {
        &self.found.cells
    }

    /// The number of the cell that an entity is, if it is one of these.
    pub fn number(&self, entity: u32) -> Option<usize>
        ensures { result ≡ spec.number_of_entity self.now.files self.now.instances entity }
    {
        match self.found.numbers.get(entity as usize) {
            Some(number) => *number,
            None => None,
        }
    }

    /// The cell of the number of an entity.
    fn cell_numbered(&self, entity: u32) -> Option<&Checked>
        ensures { option_copied result ≡ spec.cell_of_entity self.now.files self.now.instances entity }
    {
        match self.number(entity) {
            Some(number) => self.all().get(number),
            None => None,
        }
    }

    /// The cell that an entity is, if it is one of these.
    pub fn of_entity(&self, entity: u32) -> Option<&Checked>
        ensures cell { option_copied result ≡ spec.cell_of_entity self.now.files self.now.instances entity }
        ensures unit { (n : ℕ) (i : Instance') (u : Unit) → slice_get self.now.instances n ≡ Some i → i.entity ≡ entity → unit_at self.now.files entity ≡ Some u → option_copied result ≡ spec.cell_as self.now.files u u.role }
    {
        self.cell_numbered(entity)
    }

    /// What the constants of packages are worth as levels, which are the same for all of them; those of no constant, if there is no cell. It
    /// takes time in proportion to the constants.
    pub fn package_levels(&self, alloc: Global) -> Result<PackageLevels<'_>, AllocError>
        ensures all { IfOk result (λ levels. All (λ c. c.packages ≡ levels) (spec.cells self.now.files self.now.instances)) }
        ensures none { IfOk result (λ levels. length (spec.cells self.now.files self.now.instances) ≡ 0 → levels ≡ []) }
    {
        match self.all().first() {
            Some(cell) => levels_of_packages(alloc, cell.cell().packages.get().as_slice()),
            None => levels_of_packages(alloc, &[]),
        }
    }
}

//! Cells as they are found, one instance after another.

ghost use Rattle.std.specs.Prelude.{◌≡◌, ◌<◌, [], ◌∷◌, ◌++◌, is_some, length, replicate, slice_get, slice_set, unwrap_or, List, Ok, Some, None, All, IfOk, OnOk};
ghost use Rattle.vital_as_read.specs.Libraries.{IsCellOfLibrary, IsFromText};
ghost use Rattle.vital_netlist.specs.Cells.{HasCells, tree_of};
ghost use Rattle.vital_instances.specs.declared.instance.Instance.{Instance as Instance'};
ghost use Rattle.vital_instances.specs.Designs.{HasGoodCell};
ghost use Rattle.vital_instances.specs.Units.{cell_of, lent, unit_at as unit_at'};
ghost use Rattle.vital_level1.specs.declared.level.CellLevel.TheVariants.{Level1};
ghost use Rattle.vital_level1.specs.Verdicts.{IsVerdict};
ghost use Rattle.vital_library.specs.Units.{entities};
ghost use Rattle.vital_nodes.specs.declared.unit.Role.TheVariants as role;

use std::alloc::{AllocError, Global};
use vital_as_read::cells_are_as_read;
use vital_instances::{Instance, LibraryUnit, unit_at};
use vital_library::Library;
use vital_nodes::Role;
use vital_typed_cells::{Checked, TypedPackages, read_typed_cell, typed_is_sound};

/// The cells that were found so far, and for each entity of the library the number of its cell, if it is one of these.
#[derive(Drop)]
pub struct Found {
    pub cells: Vec<Checked>,
    pub numbers: Vec<Option<usize>>,
}

/// No number for each of so many.
fn unnumbered(alloc: Global, count: usize) -> Result<Vec<Option<usize>>, AllocError>
    ensures { IfOk result (λ numbers. numbers.items ≡ replicate count None) }
{
    vec![in alloc; None; count]
}

/// A cell that meets Level 1.
fn checked_cell(
    alloc: Global,
    packages: &TypedPackages<'_>,
    unit: LibraryUnit<'_>,
) -> Result<Checked, AllocError>
    requires read { All IsFromText packages.now }
    requires cell { IsCellOfLibrary (cell_of packages.now (lent unit)) }
    requires level { IsVerdict (cell_of packages.now (lent unit)) (Ok Level1) }
    ensures { IfOk result (λ cell. cell ≡ tree_of packages.now (lent unit.entry)) }
{
    cells_are_as_read();
    typed_is_sound();
    let cell = read_typed_cell(alloc, packages, unit.entity, Some(unit.arch))?;
    Ok(Checked::new(cell))
}

impl Found {
    /// Nothing is found in a library.
    pub fn new(alloc: Global, library: &Library) -> Result<Found, AllocError>
        ensures { IfOk result (λ found. HasCells library.now [] found.cells.items found.numbers.items) }
    {
        let numbers = unnumbered(alloc, library.entity_count() as usize)?;
        Ok(Found {
            cells: Vec::new(alloc),
            numbers,
        })
    }

    /// Whether the cell of an entity is one of these.
    fn has(&self, entity: u32) -> bool
        requires { entity < length self.now.numbers.items }
        ensures { result ≡ is_some (unwrap_or (slice_get self.now.numbers.items entity) None) }
    {
        self.numbers[entity as usize].is_some()
    }

    /// Puts the cell of an entity, which is none of these.
    fn put(&mut self, entity: u32, cell: Checked) -> Result<(), AllocError>
        requires { entity < length self.old.numbers.items }
        ensures cells { OnOk result (self.new.cells.items ≡ self.old.cells.items ++ cell ∷ []) }
        ensures numbers { OnOk result (self.new.numbers.items ≡ slice_set self.old.numbers.items entity (Some (length self.old.cells.items))) }
    {
        let number = self.cells.len();
        self.cells.push(cell)?;
        self.numbers[entity as usize] = Some(number);
        Ok(())
    }

    /// With the cell of an instance.
    fn put_cell(
        &mut self,
        alloc: Global,
        packages: &TypedPackages<'_>,
        entity: u32,
        unit: LibraryUnit<'_>,
    ) -> Result<(), AllocError>
        requires read { All IsFromText packages.now }
        requires there { entity < length self.old.numbers.items }
        requires unit { unit_at' packages.now entity ≡ Some (lent unit) }
        requires role { unit.role ≡ role.Lib }
        requires level { IsVerdict (cell_of packages.now (lent unit)) (Ok Level1) }
        ensures { OnOk result ((is : List Instance') (i : Instance') → i.entity ≡ entity → HasCells packages.now is self.old.cells.items self.old.numbers.items → HasCells packages.now (is ++ i ∷ []) self.new.cells.items self.new.numbers.items) }
    {
        if self.has(entity) {
            return Ok(());
        }
        let cell = checked_cell(alloc, packages, unit)?;
        self.put(entity, cell)
    }

    /// With the cell of an instance, if it is one of a cell.
    pub fn put_instance(
        &mut self,
        alloc: Global,
        library: &Library,
        packages: &TypedPackages<'_>,
        instance: &Instance,
    ) -> Result<(), AllocError>
        requires packages { packages.now ≡ library.now }
        requires read { All IsFromText library.now }
        requires room { length self.old.numbers.items ≡ length (entities library.now) }
        requires level { HasGoodCell library.now instance.now }
        ensures { OnOk result ((is : List Instance') → HasCells library.now is self.old.cells.items self.old.numbers.items → HasCells library.now (is ++ instance.now ∷ []) self.new.cells.items self.new.numbers.items) }
    {
        match unit_at(library, instance.entity) {
            Some(unit) => match unit.role {
                Role::Lib => self.put_cell(alloc, packages, instance.entity, unit),
                Role::Net => Ok(()),
            },
            None => Ok(()),
        }
    }
}

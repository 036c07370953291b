//! The units of a library as they are entered.

ghost use Rattle.std.specs.Prelude.{◌≡◌, ◌<◌, length, Some, None, IfOk, IsTrue};
ghost use Rattle.vital_instances.specs.Contents.{children_at};
ghost use Rattle.vital_instances.specs.Faults.{IsAnswer};
ghost use Rattle.vital_instances.specs.GoodCells.{fault_at};
ghost use Rattle.vital_instances.specs.Instances.{opened};
ghost use Rattle.vital_instances.specs.Judges.{IsJudge, IsSaidOf, Judge};
ghost use Rattle.vital_instances.specs.Units as of_units;
ghost use Rattle.vital_library.specs.Units.{entities};
ghost use Rattle.vital_nodes.specs.declared.unit.Role.TheVariants.{Lib, Net};

use crate::cell_fault::{CellFault, fault_of_cell};
use crate::fault::{Fault, InstancesError};
use crate::library_unit::LibraryUnit;
use crate::net_units::NetUnits;
use std::alloc::{AllocError, Global};
use std::marker::Model;
use vital_level1::Packages;
use vital_library::Library;
use vital_nodes::Role;

/// The units of a library as they are entered: a cell is judged once. Contracts see them as the files of the library.
#[derive(Drop)]
pub struct OpenUnits<'a> {
    library: &'a Library,
    packages: &'a Packages<'a>,
    net_units: &'a NetUnits<'a>,
    /// Whether each entity, in order, is a cell that was judged and has no fault.
    are_good: Vec<bool>,
}

impl<'a> Model for OpenUnits<'a> {
    ghost use Rattle.std.specs.Prelude.{◌≡◌, List, length};
    ghost use Rattle.std.specs.Coded.{codes};
    ghost use Rattle.vital_instances.specs.GoodCells.{AreGood};
    ghost use Rattle.vital_library.specs.Units.{entities};
    ghost use Rattle.vital_nodes.specs.contracts.unit.Units as units;
    ghost use Rattle.vital_nodes.specs.declared.unit.Units.{Units};

    ghost Value = { List Units };

    ghost coded = { Prim.hlevel (codes, units.the_row.coded) };

    ghost view = { λ u. u.library.now };

    ghost invariant = { λ u. (u.packages.now ≡ u.library.now) × (u.net_units.now ≡ u.library.now) × (length u.are_good.items ≡ length (entities u.library.now)) × AreGood u.library.now u.are_good.items };
}

impl<'a> OpenUnits<'a> {
    /// The units of a library before any of them is entered.
    pub fn new(
        alloc: Global,
        library: &'a Library,
        packages: &'a Packages<'a>,
        net_units: &'a NetUnits<'a>,
    ) -> Result<OpenUnits<'a>, AllocError>
        requires packages { packages.now ≡ library.now }
        requires net_units { net_units.now ≡ library.now }
        ensures { IfOk result (λ units. units ≡ library.now) }
    {
        let are_good = vec![in alloc; false; library.entity_count() as usize]?;
        Ok(OpenUnits {
            library,
            packages,
            net_units,
            are_good,
        })
    }

    /// The library.
    pub fn library(&self) -> &'a Library
        ensures { result.now ≡ self.now }
    {
        self.library
    }

    /// What its netlist units hold.
    pub fn net_units(&self) -> &'a NetUnits<'a>
        ensures { result.now ≡ self.now }
    {
        self.net_units
    }

    /// Whether the cell of a number was judged and has no fault.
    fn is_good(&self, number: u32) -> bool
        requires { number < length (entities self.now) }
        ensures { IsTrue result → (judge : Judge) → IsJudge judge → fault_at judge self.now number ≡ None }
    {
        self.are_good[number as usize]
    }

    /// Keeps that the cell of a number has no fault.
    fn keep_good(&mut self, number: u32)
        requires there { number < length (entities self.old) }
        requires good { (judge : Judge) → IsJudge judge → fault_at judge self.old number ≡ None }
        ensures { self.new ≡ self.old }
    {
        self.are_good[number as usize] = true;
    }

    /// The fault of the cell of a number, if it has one.
    fn judge(
        &mut self,
        alloc: Global,
        number: u32,
        unit: LibraryUnit<'a>,
    ) -> Result<Option<CellFault>, AllocError>
        requires unit { of_units.unit_at self.old number ≡ Some (of_units.lent unit) }
        requires there { number < length (entities self.old) }
        ensures fault { IfOk result (λ fault. IsSaidOf (of_units.cell_of self.old (of_units.lent unit.entry)) fault) }
        ensures same { self.new ≡ self.old }
    {
        if self.is_good(number) {
            return Ok(None);
        }
        match fault_of_cell(alloc, self.packages, unit.entity, unit.arch)? {
            Some(fault) => Ok(Some(fault)),
            None => {
                self.keep_good(number);
                Ok(None)
            }
        }
    }

    /// Opens a cell.
    fn open_cell(
        &mut self,
        alloc: Global,
        number: u32,
        unit: LibraryUnit<'a>,
    ) -> Result<(), InstancesError<'a>>
        requires unit { of_units.unit_at self.old number ≡ Some (of_units.lent unit) }
        requires there { number < length (entities self.old) }
        requires cell { unit.role ≡ Lib }
        ensures opened { (judge : Judge) → IsJudge judge → IsAnswer (λ _. children_at self.old number) (opened judge self.old (of_units.lent unit.entry)) result }
        ensures same { self.new ≡ self.old }
    {
        match self.judge(alloc, number, unit)? {
            Some(fault) => Err(InstancesError::Fault(Fault::Cell(fault))),
            None => Ok(()),
        }
    }

    /// Opens a netlist unit.
    fn open_net_unit(&self, number: u32, unit: LibraryUnit<'a>) -> Result<(), InstancesError<'a>>
        requires unit { of_units.unit_at self.now number ≡ Some (of_units.lent unit) }
        requires net { unit.role ≡ Net }
        ensures { (judge : Judge) → IsJudge judge → IsAnswer (λ _. children_at self.now number) (opened judge self.now (of_units.lent unit.entry)) result }
    {
        match self.net_units.fault(number) {
            Some(fault) => Err(InstancesError::Fault(fault)),
            None => Ok(()),
        }
    }

    /// Opens the unit of a number. It answers its first fault if it has one.
    pub fn open(
        &mut self,
        alloc: Global,
        number: u32,
        unit: LibraryUnit<'a>,
    ) -> Result<(), InstancesError<'a>>
        requires unit { of_units.unit_at self.old number ≡ Some (of_units.lent unit) }
        requires there { number < length (entities self.old) }
        ensures opened { (judge : Judge) → IsJudge judge → IsAnswer (λ _. children_at self.old number) (opened judge self.old (of_units.lent unit.entry)) result }
        ensures same { self.new ≡ self.old }
    {
        match unit.role {
            Role::Lib => self.open_cell(alloc, number, unit),
            Role::Net => self.open_net_unit(number, unit),
        }
    }
}

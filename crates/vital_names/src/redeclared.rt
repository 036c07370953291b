//! Identifiers that are declared again.

ghost use Rattle.std.specs.Prelude.{◌≡◌, [], ◌∷◌, ◌++◌, map, None, Some, IfOk, OnOk};
ghost use Rattle.std.specs.Option.{option_copied};
ghost use Rattle.vital_names.specs.Declarations.{body_of, declared_in, interface_of, lent};
ghost use Rattle.vital_names.specs.Redeclared.{is_redeclared, redeclared};

use crate::cell_names::CellNames;
use crate::declared::Declared;
use crate::declared_lists::declared_in;
use crate::process_names::ProcessNames;
use crate::site::{CellUnit, Site};
use std::alloc::{AllocError, Global};
use vital_base::Place;
use vital_nodes::Decl;

impl<'a> CellNames<'a> {
    /// The places of the generics and ports whose names an earlier one has or are predeclared.
    pub fn redeclared_in_entity(&self, alloc: Global) -> Result<Vec<Place>, AllocError>
        ensures { IfOk result (λ places. places.items ≡ redeclared self.now CellUnit.Entity None (interface_of self.now.entity)) }
    {
        let declared = self.interface(alloc)?;
        self.redeclared(alloc, CellUnit::Entity, None, &declared)
    }

    /// The places of the declarations of the architecture whose names an earlier one, a generic or a port has or are predeclared.
    pub fn redeclared_in_arch(&self, alloc: Global) -> Result<Vec<Place>, AllocError>
        ensures { IfOk result (λ places. places.items ≡ redeclared self.now CellUnit.Architecture None (body_of self.now.arch)) }
    {
        let declared = self.body(alloc)?;
        self.redeclared(alloc, CellUnit::Architecture, None, &declared)
    }

    /// The same of the declarations of a block of the architecture, which are themselves seen from nowhere.
    pub fn redeclared_in_block(
        &self,
        alloc: Global,
        declarations: &'a [Decl],
    ) -> Result<Vec<Place>, AllocError>
        ensures { IfOk result (λ places. places.items ≡ redeclared self.now CellUnit.Architecture None (declared_in declarations.now)) }
    {
        let declared = declared_in(alloc, declarations)?;
        self.redeclared(alloc, CellUnit::Architecture, None, &declared)
    }

    /// The places of the declarations of a process of the architecture whose names an earlier one of the process, one of the
    /// architecture, a generic or a port has or are predeclared.
    pub fn redeclared_in_process(
        &self,
        alloc: Global,
        process: &'a ProcessNames<'a>,
    ) -> Result<Vec<Place>, AllocError>
        ensures { IfOk result (λ places. places.items ≡ redeclared self.now CellUnit.Architecture (Some process.now) (declared_in process.now.declarations)) }
    {
        let declared = process.declared(alloc)?;
        self.redeclared(alloc, CellUnit::Architecture, Some(process), &declared)
    }

    /// The places of those among declarations of a unit, or of a process of it, whose names an earlier one that is seen from there
    /// has or are predeclared.
    fn redeclared(
        &self,
        alloc: Global,
        unit: CellUnit,
        process: Option<&'a ProcessNames<'a>>,
        declared: &[Declared<'a>],
    ) -> Result<Vec<Place>, AllocError>
        ensures { IfOk result (λ places. places.items ≡ redeclared self.now unit (option_copied process.entry) (map lent declared.now)) }
    {
        let mut places = Vec::new(alloc);
        for one in declared {
            self.put_redeclared(&mut places, unit, process, *one)?;
        }
        Ok(places)
    }

    /// Puts the place of a declaration at the end if it is one of these.
    fn put_redeclared(
        &self,
        places: &mut Vec<Place>,
        unit: CellUnit,
        process: Option<&'a ProcessNames<'a>>,
        declared: Declared<'a>,
    ) -> Result<(), AllocError>
        ensures { OnOk result (places.new.items ≡ places.old.items ++ redeclared self.now unit (option_copied process.entry) (lent declared.entry ∷ [])) }
    {
        if self.is_redeclared(unit, process, declared) {
            places.push(declared.identifier().place)?;
        }
        Ok(())
    }

    /// Whether an earlier declaration of the cell that is seen from a declaration has its name, or the name is predeclared.
    pub fn is_redeclared(
        &self,
        unit: CellUnit,
        process: Option<&'a ProcessNames<'a>>,
        declared: Declared<'a>,
    ) -> bool
        ensures { result ≡ is_redeclared self.now unit (option_copied process.entry) (lent declared.entry) }
    {
        let identifier = declared.identifier();
        let name = identifier.name.as_slice();
        let site = Site {
            unit,
            process,
            viewpoint: identifier.place,
        };
        self.declared(name, &site).is_some() || self.predeclared(name).is_some()
    }
}

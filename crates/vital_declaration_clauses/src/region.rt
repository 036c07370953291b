//! Where an architecture declares: in its own declarative part, and in those of its blocks and processes.

ghost use Rattle.std.specs.Prelude.{◌≡◌, [], ◌∷◌, ◌++◌, map, IfOk, IfSome, OnOk};
ghost use Rattle.std.specs.List.{filter_map};
ghost use Rattle.std.specs.Option.{option_copied};
ghost use Rattle.vital_declaration_clauses.specs.Regions.{of_process, outside, own_region, region_of, regions};

use std::alloc::{AllocError, Global};
use std::marker::Model;
use vital_names::{CellNames, ProcessNames};
use vital_nodes::{Conc, Decl, Process, all_concurrent};

/// Declarations that stand together: those of an architecture, of a block or of a process.
#[derive(Drop)]
pub struct Region<'a> {
    /// The names of the process that they are of, if they are of one. What a block declares is seen nowhere.
    process: Option<ProcessNames<'a>>,
    declarations: &'a [Decl],
}

impl<'a> Model for Region<'a> {
    ghost use Rattle.std.specs.Prelude.{◌≡◌, IfSome};
    ghost use Rattle.std.specs.Coded.{codes};
    ghost use Rattle.vital_declaration_clauses.specs.Regions.{Region};
    ghost use Rattle.vital_nodes.specs.contracts.decl.Decl as of_decl;
    ghost use Rattle.vital_nodes.specs.contracts.stmt.Process as of_process;

    ghost Value = { Region };

    ghost coded = { Prim.hlevel (codes, of_decl.the_row.coded, of_process.the_row.coded) };

    ghost view = { λ r. record { process = r.process; declarations = r.declarations.now } };

    ghost invariant = { λ r. IfSome r.process (λ p. p.declarations ≡ r.declarations.now) };
}

impl<'a> Region<'a> {
    /// The region outside of processes that these declarations are.
    fn outside(declarations: &'a [Decl]) -> Region<'a>
        ensures { result ≡ outside declarations.now }
    {
        Region {
            process: None,
            declarations,
        }
    }

    /// The region of a process.
    fn of_process(alloc: Global, process: &'a Process) -> Result<Region<'a>, AllocError>
        ensures { IfOk result (λ region. region ≡ of_process process.now) }
    {
        let names = ProcessNames::new(alloc, process)?;
        Ok(Region {
            process: Some(names),
            declarations: process.declarations.as_slice(),
        })
    }

    /// The process that they are of, by its names, if they are of one.
    pub fn process(&self) -> Option<&ProcessNames<'a>>
        ensures process { option_copied result ≡ self.now.process }
        ensures declarations { IfSome self.now.process (λ p. p.declarations ≡ self.now.declarations) }
    {
        self.process.as_ref()
    }

    /// The declarations.
    pub fn declarations(&self) -> &'a [Decl]
        ensures { result.now ≡ self.now.declarations }
    {
        self.declarations
    }
}

/// The regions of the architecture of a cell, its own first, and then those of its blocks and processes in the order of the text. They
/// are made once for a cell. There are none where it has no architecture.
pub fn regions<'a>(alloc: Global, names: &CellNames<'a>) -> Result<Vec<Region<'a>>, AllocError>
    ensures { IfOk result (λ found. found.items ≡ regions names.now.arch) }
{
    let mut found = own_region(alloc, names)?;
    if let Some(arch) = names.arch() {
        let statements = all_concurrent(alloc, arch.statements.as_slice())?;
        put_regions(&mut found, alloc, &statements)?;
    }
    Ok(found)
}

/// The declarations of the architecture of a cell itself, if it has one.
pub fn own_region<'a>(alloc: Global, names: &CellNames<'a>) -> Result<Vec<Region<'a>>, AllocError>
    ensures { IfOk result (λ found. found.items ≡ own_region names.now.arch) }
{
    let mut found = Vec::new(alloc);
    if let Some(arch) = names.arch() {
        found.push(Region::outside(arch.declarations.as_slice()))?;
    }
    Ok(found)
}

/// Puts the regions of those among statements that are blocks and processes at the end.
fn put_regions<'a>(
    found: &mut Vec<Region<'a>>,
    alloc: Global,
    statements: &[&'a Conc],
) -> Result<(), AllocError>
    ensures { OnOk result (found.new.items ≡ found.old.items ++ filter_map region_of (map (λ c. c.now) statements.now)) }
{
    for conc in statements {
        put_region(found, alloc, *conc)?;
    }
    Ok(())
}

/// Puts the region of a statement at the end if it is a block or a process.
fn put_region<'a>(
    found: &mut Vec<Region<'a>>,
    alloc: Global,
    conc: &'a Conc,
) -> Result<(), AllocError>
    ensures { OnOk result (found.new.items ≡ found.old.items ++ filter_map region_of (conc.now ∷ [])) }
{
    match conc {
        Conc::Process(_, _, process) => {
            let region = Region::of_process(alloc, process)?;
            found.push(region)?;
        }
        Conc::Block(_, _, block) => {
            found.push(Region::outside(block.declarations.as_slice()))?;
        }
        _ => {}
    }
    Ok(())
}

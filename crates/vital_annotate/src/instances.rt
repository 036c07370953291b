//! The instances of cells that an entry is for.

ghost use Rattle.std.specs.Prelude.{◌≡◌, ◌++◌, ◌∷◌, [], map, slice_get, IfOk, OnOk, if◌then◌else◌};
ghost use Rattle.std.specs.List.{AllZip};
ghost use Rattle.std.specs.Option.{option_map, option_to_list};
ghost use Rattle.vital_annotate.specs.Indexes.{found};
ghost use Rattle.vital_annotate.specs.Instances as spec;
ghost use Rattle.vital_annotate.specs.Keyed.{HasEntityKeys, HasKeys, fits_at, is_of as is_of'};
ghost use Rattle.vital_annotate.specs.Numbers.{numbers_where};
ghost use Rattle.vital_annotate.specs.Parts.{part_is as part_is'};
ghost use Rattle.vital_typed_cells.specs.Answers.{default_values as default_values'};
ghost use Rattle.vital_typed_cells.specs.Fits.{FitsCell};

use crate::cell_index::CellIndex;
use crate::parts::{part_is, parts_are};
use crate::path_keys::{NumbersByKey, numbers_under, put_entity_key, put_path_key};
use crate::target::Target;
use std::alloc::{AllocError, Global};
use std::marker::Model;
use vital_base::Name;
use vital_netlist::Design;
use vital_sdf::{Group, Instance};
use vital_timing::Delay;
use vital_typed_cells::default_values;

/// The instances of cells of a design, which are found by their paths and by their entities. Contracts see it as the list of them.
#[derive(Drop)]
pub struct CellInstances<'a> {
    design: &'a Design<'a>,
    targets: &'a [Target<'a>],
    paths: &'a NumbersByKey<'a>,
    entities: &'a NumbersByKey<'a>,
}

impl<'a> Model for CellInstances<'a> {
    ghost use Rattle.std.specs.Coded.{codes};
    ghost use Rattle.std.specs.Prelude.{List, map};
    ghost use Rattle.vital_annotate.specs.Indexes.{found};
    ghost use Rattle.vital_annotate.specs.Instances.{CellInstance};
    ghost use Rattle.vital_annotate.specs.Keyed.{HasEntityKeys, HasKeys};
    ghost use Rattle.vital_typed_cells.specs.contracts.typed_cell.TypedCell as tree;

    ghost Value = { List CellInstance };

    ghost coded = { Prim.hlevel (codes, tree.the_row.coded) };

    ghost view = { λ i. map (found i.design.now) i.targets.now };

    ghost invariant = { λ i. HasKeys i.paths.now (map (found i.design.now) i.targets.now) × HasEntityKeys i.entities.now (map (found i.design.now) i.targets.now) };
}

/// Puts the texts of names at the end.
fn put_parts<'b>(parts: &mut Vec<&'b [u8]>, names: &'b [Name]) -> Result<(), AllocError>
    ensures { OnOk result (map (λ part. part.now) parts.new.items ≡ map (λ part. part.now) parts.old.items ++ names.now) }
{
    for name in names {
        parts.push(name.as_slice())?;
    }
    Ok(())
}

/// The parts of a path, and more behind them.
fn parts_of<'b>(
    alloc: Global,
    path: &'b [Name],
    more: &'b [Name],
) -> Result<Vec<&'b [u8]>, AllocError>
    ensures { IfOk result (λ parts. map (λ part. part.now) parts.items ≡ path.now ++ more.now) }
{
    let mut parts = Vec::new(alloc);
    put_parts(&mut parts, path)?;
    put_parts(&mut parts, more)?;
    Ok(parts)
}

/// A vector of a number, if there is one.
fn numbers_of(alloc: Global, number: Option<usize>) -> Result<Vec<usize>, AllocError>
    ensures { IfOk result (λ numbers. numbers.items ≡ option_to_list number) }
{
    let mut numbers = Vec::new(alloc);
    if let Some(number) = number {
        numbers.push(number)?;
    }
    Ok(numbers)
}

/// Puts a number at the end if it is one of those that are meant.
fn put_if(numbers: &mut Vec<usize>, is_meant: bool, number: usize) -> Result<(), AllocError>
    ensures { OnOk result (numbers.new.items ≡ numbers.old.items ++ (if is_meant then number ∷ [] else [])) }
{
    if is_meant {
        numbers.push(number)?;
    }
    Ok(())
}

/// The delays that the timing generics of each begin with.
fn defaults_of(alloc: Global, targets: &[Target<'_>]) -> Result<Vec<Vec<Delay>>, AllocError>
    ensures values { IfOk result (λ values. map (λ delays. delays.items) values.items ≡ map (λ t. default_values' t.cell.now) targets.now) }
    ensures fit { IfOk result (λ values. AllZip (λ t delays. FitsCell t.cell.now delays.items) targets.now values.items) }
{
    let mut values = Vec::new(alloc);
    for target in targets {
        let delays = default_values(alloc, target.cell.checked())?;
        values.push(delays.into_vec())?;
    }
    Ok(values)
}

impl<'a> CellInstances<'a> {
    /// The instances of cells of a design, with their numbers by the keys of their paths and by those of their entities.
    pub fn new(
        design: &'a Design<'a>,
        targets: &'a [Target<'a>],
        paths: &'a NumbersByKey<'a>,
        entities: &'a NumbersByKey<'a>,
    ) -> CellInstances<'a>
        requires paths { HasKeys paths.now (map (found design.now) targets.now) }
        requires entities { HasEntityKeys entities.now (map (found design.now) targets.now) }
        ensures { result ≡ map (found design.now) targets.now }
    {
        CellInstances {
            design,
            targets,
            paths,
            entities,
        }
    }

    /// The cell of the instance of a number.
    pub fn cell(&self, number: usize) -> Option<&'a CellIndex<'a>>
        ensures { option_map (λ cell. cell.now) result ≡ option_map (λ i. i.cell) (slice_get self.now number) }
    {
        match self.targets.get(number) {
            Some(target) => Some(target.cell),
            None => None,
        }
    }

    /// Whether a path fits the instance of a number.
    fn fits(&self, alloc: Global, number: usize, parts: &[&[u8]]) -> Result<bool, AllocError>
        ensures { IfOk result (λ fits. fits ≡ fits_at self.now (map (λ part. part.now) parts.now) number) }
    {
        let Some(target) = self.targets.get(number) else {
            return Ok(false);
        };
        let labels = self.design.labels(alloc, target.instance)?;
        Ok(parts_are(&labels, parts))
    }

    /// The number of the first instance that a path fits. The buffer is written over.
    fn at_path(
        &self,
        alloc: Global,
        key: &mut Vec<u8>,
        parts: &[&[u8]],
    ) -> Result<Option<usize>, AllocError>
        ensures { IfOk result (λ number. option_to_list number ≡ spec.at_path self.now (map (λ part. part.now) parts.now)) }
    {
        put_path_key(key, parts)?;
        let numbers = numbers_under(self.paths, key);
        for number in numbers {
            if self.fits(alloc, *number, parts)? {
                return Ok(Some(*number));
            }
        }
        Ok(None)
    }

    /// The numbers of the first instance that a path fits, with more parts behind it.
    fn at_parts(
        &self,
        alloc: Global,
        key: &mut Vec<u8>,
        path: &[Name],
        more: &[Name],
    ) -> Result<Vec<usize>, AllocError>
        ensures { IfOk result (λ numbers. numbers.items ≡ spec.at_path self.now (path.now ++ more.now)) }
    {
        let parts = parts_of(alloc, path, more)?;
        let number = self.at_path(alloc, key, &parts)?;
        let numbers = numbers_of(alloc, number)?;
        Ok(numbers)
    }

    /// Whether the instance of a number is of an entity.
    fn is_of(&self, number: usize, entity: &[u8]) -> bool
        ensures { result ≡ is_of' self.now entity.now number }
    {
        match self.targets.get(number) {
            Some(target) => part_is(target.entity, entity),
            None => false,
        }
    }

    /// The numbers of the instances of an entity. It goes over those with the key of the entity. The buffer is written over.
    fn of_entity(
        &self,
        alloc: Global,
        key: &mut Vec<u8>,
        entity: &[u8],
    ) -> Result<Vec<usize>, AllocError>
        ensures { IfOk result (λ numbers. numbers.items ≡ numbers_where (λ i. part_is' i.entity entity.now) self.now) }
    {
        put_entity_key(key, entity)?;
        let group = numbers_under(self.entities, key);
        let mut numbers = Vec::new(alloc);
        for number in group {
            let is_meant = self.is_of(*number, entity);
            put_if(&mut numbers, is_meant, *number)?;
        }
        Ok(numbers)
    }

    /// The numbers of the instances of a type, unless more parts stand behind them. The buffer is written over.
    fn each_of_type(
        &self,
        alloc: Global,
        key: &mut Vec<u8>,
        cell_type: &Option<Name>,
        more: &[Name],
    ) -> Result<Vec<usize>, AllocError>
        ensures { IfOk result (λ numbers. numbers.items ≡ spec.each_of_type self.now cell_type.now more.now) }
    {
        let [] = more else {
            return Ok(Vec::new(alloc));
        };
        match cell_type {
            Some(entity) => self.of_entity(alloc, key, entity.as_slice()),
            None => Ok(Vec::new(alloc)),
        }
    }

    /// The numbers of the instances that the entries of a group are for, with labels behind that of the group. The buffer is written over.
    pub fn meant(
        &self,
        alloc: Global,
        key: &mut Vec<u8>,
        group: &Group,
        more: &[Name],
    ) -> Result<Vec<usize>, AllocError>
        ensures { IfOk result (λ numbers. numbers.items ≡ spec.meant self.now group.now.cell_type group.now.instance more.now) }
    {
        match &group.instance {
            Instance::Top => self.at_parts(alloc, key, &[], more),
            Instance::Each => self.each_of_type(alloc, key, &group.cell_type, more),
            Instance::Path(path) => self.at_parts(alloc, key, path.as_slice(), more),
        }
    }

    /// The delays that the timing generics of each instance begin with.
    pub fn defaults(&self, alloc: Global) -> Result<Vec<Vec<Delay>>, AllocError>
        ensures values { IfOk result (λ values. map (λ delays. delays.items) values.items ≡ map (λ i. default_values' i.cell) self.now) }
        ensures fit { IfOk result (λ values. AllZip (λ i delays. FitsCell i.cell delays) self.now (map (λ delays. delays.items) values.items)) }
    {
        let values = defaults_of(alloc, self.targets)?;
        Ok(values)
    }
}

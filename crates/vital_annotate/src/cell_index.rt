//! The timing generics of a cell by their names.

ghost use Rattle.std.specs.Prelude.{◌≡◌, ◌∷◌, ◌++◌, IfOk, OnOk};
ghost use Rattle.vital_annotate.specs.GenericNumbers.{HasNumbers};
ghost use Rattle.vital_annotate.specs.Generics.{generic_of, number_named};
ghost use Rattle.vital_annotate.specs.Tries.{tried, with_word};

use crate::names::{Edges, edge_or_none, edge_word};
use std::alloc::{AllocError, Global};
use std::collections::HashMap;
use std::marker::Model;
use vital_names::put_first;
use vital_objects::TimingGeneric;
use vital_sdf::Edge;
use vital_typed_cells::Checked;

/// A cell, whose timing generics are found by their names. Contracts see it as the cell.
#[derive(Drop)]
pub struct CellIndex<'a> {
    checked: &'a Checked,
    /// The number of the first generic of each name.
    numbers: HashMap<&'a [u8], usize>,
}

impl<'a> Model for CellIndex<'a> {
    ghost use Rattle.std.specs.Coded.{codes};
    ghost use Rattle.vital_annotate.specs.GenericNumbers.{HasNumbers};
    ghost use Rattle.vital_typed_cells.specs.contracts.typed_cell.TypedCell as tree;
    ghost use Rattle.vital_typed_cells.specs.declared.typed_cell.TypedCell.{TypedCell};

    ghost Value = { TypedCell };

    ghost coded = { Prim.hlevel (codes, tree.the_row.coded) };

    ghost view = { λ index. index.checked.now };

    ghost invariant = { λ index. HasNumbers index.numbers index.checked.now.generics };
}

/// The number of the first generic of each name.
fn numbers_of<'a>(
    alloc: Global,
    generics: &'a [TimingGeneric],
) -> Result<HashMap<&'a [u8], usize>, AllocError>
    ensures { IfOk result (λ numbers. HasNumbers numbers generics.now) }
{
    let mut numbers: HashMap<&'a [u8], usize> = HashMap::new(alloc);
    for (number, generic) in generics.iter().enumerate() {
        put_first(&mut numbers, generic.name.as_slice(), number)?;
    }
    Ok(numbers)
}

impl<'a> CellIndex<'a> {
    /// The index of a cell. It takes time and memory in proportion to its timing generics.
    pub fn new(alloc: Global, checked: &'a Checked) -> Result<CellIndex<'a>, AllocError>
        ensures { IfOk result (λ index. index ≡ checked.now) }
    {
        let numbers = numbers_of(alloc, checked.cell().generics.as_slice())?;
        Ok(CellIndex { checked, numbers })
    }

    /// The cell.
    pub fn checked(&self) -> &'a Checked
        ensures { result.now ≡ self.now }
    {
        self.checked
    }

    /// The number of the first timing generic of a name.
    fn number(&self, name: &[u8]) -> Option<usize>
        ensures { result ≡ number_named self.now.generics name.now }
    {
        self.numbers.get(name).copied()
    }

    /// That of a name with a word behind it. The name stays.
    fn number_behind(&self, name: &mut Vec<u8>, word: &[u8]) -> Result<Option<usize>, AllocError>
        ensures same { OnOk result (name.new.items ≡ name.old.items) }
        ensures number { IfOk result (λ number. number ≡ number_named self.now.generics (with_word name.old.items word.now)) }
    {
        let count = name.len();
        name.push(b'_')?;
        name.extend_from_slice(word)?;
        let number = self.number(name);
        name.truncate(count);
        Ok(number)
    }

    /// That of a name with two words behind it.
    fn number_behind_two(
        &self,
        name: &mut Vec<u8>,
        first: &[u8],
        second: &[u8],
    ) -> Result<Option<usize>, AllocError>
        ensures same { OnOk result (name.new.items ≡ name.old.items) }
        ensures number { IfOk result (λ number. number ≡ number_named self.now.generics (with_word (with_word name.old.items first.now) second.now)) }
    {
        let count = name.len();
        name.push(b'_')?;
        name.extend_from_slice(first)?;
        let number = self.number_behind(name, second)?;
        name.truncate(count);
        Ok(number)
    }

    /// That of a name with an edge, or else that of the name alone.
    fn number_with_edge(&self, name: &mut Vec<u8>, edge: Edge) -> Result<Option<usize>, AllocError>
        ensures same { OnOk result (name.new.items ≡ name.old.items) }
        ensures number { IfOk result (λ number. number ≡ generic_of self.now.generics (tried name.old.items (Edges.One (Some edge)))) }
    {
        match self.number_behind(name, edge_word(edge))? {
            Some(number) => Ok(Some(number)),
            None => Ok(self.number(name)),
        }
    }

    /// That of a name with an edge and none, or else with the edge alone, or else that of the name alone.
    fn number_with_first(&self, name: &mut Vec<u8>, edge: Edge) -> Result<Option<usize>, AllocError>
        ensures same { OnOk result (name.new.items ≡ name.old.items) }
        ensures number { IfOk result (λ number. number ≡ generic_of self.now.generics (tried name.old.items (Edges.Two (Some edge) None))) }
    {
        match self.number_behind_two(name, edge_word(edge), b"noedge")? {
            Some(number) => Ok(Some(number)),
            None => self.number_with_edge(name, edge),
        }
    }

    /// That of a name with two edges, the first of which may be absent, or else that of the name alone.
    fn number_with_second(
        &self,
        name: &mut Vec<u8>,
        first: Option<Edge>,
        second: Edge,
    ) -> Result<Option<usize>, AllocError>
        ensures same { OnOk result (name.new.items ≡ name.old.items) }
        ensures number { IfOk result (λ number. number ≡ generic_of self.now.generics (tried name.old.items (Edges.Two first (Some second)))) }
    {
        match self.number_behind_two(name, edge_or_none(first), edge_word(second))? {
            Some(number) => Ok(Some(number)),
            None => Ok(self.number(name)),
        }
    }

    /// The number of the first timing generic that has one of the names that are tried. The name stays.
    pub fn number_tried(
        &self,
        name: &mut Vec<u8>,
        edges: Edges,
    ) -> Result<Option<usize>, AllocError>
        ensures same { OnOk result (name.new.items ≡ name.old.items) }
        ensures number { IfOk result (λ number. number ≡ generic_of self.now.generics (tried name.old.items edges)) }
    {
        match edges {
            Edges::NoName => Ok(None),
            Edges::One(None) | Edges::Two(None, None) => Ok(self.number(name)),
            Edges::One(Some(edge)) => self.number_with_edge(name, edge),
            Edges::Two(Some(edge), None) => self.number_with_first(name, edge),
            Edges::Two(first, Some(second)) => self.number_with_second(name, first, second),
        }
    }
}

/// The indexes of cells, in order.
pub fn cell_indexes<'a>(
    alloc: Global,
    cells: &'a [Checked],
) -> Result<Vec<CellIndex<'a>>, AllocError>
    ensures { IfOk result (λ indexes. indexes.items ≡ cells.now) }
{
    let mut indexes = Vec::new(alloc);
    for cell in cells {
        indexes.push(CellIndex::new(alloc, cell)?)?;
    }
    Ok(indexes)
}

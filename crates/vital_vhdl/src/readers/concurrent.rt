//! Reading concurrent statements. What stands in a block is read by a parameter, so that each rule is proved by itself.

ghost use Rattle.std.specs.Prelude.{◌≡◌};
ghost use Rattle.vital_vhdl.specs.Reads.{Reads, ReadsWithin};
ghost use Rattle.vital_shapes.specs.Reading.{many};
ghost use Rattle.vital_shapes.specs.Statements as spec;

use crate::cursor::Cursor;
use crate::readers::declarations::declarations;
use crate::readers::identifiers::{closing, is_written};
use crate::readers::lists;
use crate::readers::outermost::{items, name, names, suffix_list};
use crate::readers::statements::{signal_assignment, statements};
use crate::shape_error::ShapeError;
use sqlite_items::Items;
use std::alloc::Global;
use vital_base::Place;
use vital_nodes::{Block, Conc, Identifier, Instance, Item, Process, Reference};

#[tactic(auto, unfolding(vital_shapes::specs::Statements::sensitivity))]
fn sensitivity(alloc: Global, cursor: &mut Cursor<'_>) -> Result<Items<Reference>, ShapeError>
    ensures { Reads (spec.sensitivity cursor.old) result cursor.new }
{
    if cursor.choice() == 0 {
        return Ok(Items::new(alloc));
    }
    cursor.skip();
    let found = names(alloc, cursor)?;
    cursor.skip();
    Ok(found)
}

#[tactic(auto, unfolding(vital_shapes::specs::Statements::process))]
fn process(alloc: Global, cursor: &mut Cursor<'_>) -> Result<Process, ShapeError>
    ensures { Reads (spec.process cursor.old) result cursor.new }
{
    cursor.choice();
    cursor.skip();
    let sensitivity = sensitivity(alloc, cursor)?;
    is_written(cursor);
    let declarations = declarations(alloc, cursor)?;
    cursor.skip();
    let statements = statements(alloc, cursor)?;
    cursor.skip();
    cursor.skip();
    closing(cursor);
    cursor.skip();
    Ok(Process {
        sensitivity,
        declarations,
        statements,
    })
}

/// The associations of a map, if it is written.
#[tactic(auto, unfolding(vital_shapes::specs::Statements::map_items))]
fn map_items(alloc: Global, cursor: &mut Cursor<'_>) -> Result<Items<Item>, ShapeError>
    ensures { Reads (spec.map_items cursor.old) result cursor.new }
{
    if cursor.choice() == 0 {
        return Ok(Items::new(alloc));
    }
    cursor.skip();
    cursor.skip();
    cursor.skip();
    let found = items(alloc, cursor)?;
    cursor.skip();
    Ok(found)
}

/// A name with its maps, behind its label.
#[tactic(auto, unfolding(vital_shapes::specs::Statements::instance))]
fn instance(
    alloc: Global,
    cursor: &mut Cursor<'_>,
    label: Identifier,
) -> Result<Instance, ShapeError>
    ensures { Reads (spec.instance label cursor.old) result cursor.new }
{
    let unit = name(alloc, cursor)?;
    cursor.choice();
    let generics = map_items(alloc, cursor)?;
    let ports = map_items(alloc, cursor)?;
    cursor.skip();
    Ok(Instance {
        label,
        unit,
        generics,
        ports,
    })
}

#[tactic(auto, unfolding(vital_shapes::specs::Statements::after_target))]
fn after_target(
    alloc: Global,
    cursor: &mut Cursor<'_>,
    place: Place,
    target: Reference,
) -> Result<Conc, ShapeError>
    ensures { Reads (spec.after_target place target cursor.old) result cursor.new }
{
    if cursor.choice() == 0 {
        cursor.skip();
        return Ok(Conc::Call(place, target));
    }
    let assignment = signal_assignment(alloc, cursor, target)?;
    Ok(Conc::SignalAssignment(place, assignment))
}

/// A statement that begins with a name.
#[tactic(auto, unfolding(vital_shapes::specs::Statements::unlabelled))]
fn unlabelled(
    alloc: Global,
    cursor: &mut Cursor<'_>,
    place: Place,
    first: Identifier,
) -> Result<Conc, ShapeError>
    ensures { Reads (spec.unlabelled place first cursor.old) result cursor.new }
{
    let suffixes = suffix_list(alloc, cursor)?;
    let target = Reference {
        identifier: first,
        suffixes,
    };
    after_target(alloc, cursor, place, target)
}

/// Reads what may hold blocks.
#[derive(Clone, Copy)]
struct Blocks<F> {
    alloc: Global,
    /// How many levels of blocks there may be in a block.
    levels: usize,
    concs: F,
}

impl<F: Fn(Global, &mut Cursor<'_>, usize) -> Result<Items<Conc>, ShapeError>> Blocks<F> {
    #[tactic(auto, unfolding(vital_shapes::specs::Statements::block))]
    fn block(&self, cursor: &mut Cursor<'_>) -> Result<Block, ShapeError>
        requires { ReadsWithin spec.concs_within self.now.levels (F.pre self.now.concs) (F.post self.now.concs) }
        ensures { Reads (spec.block (spec.concs_within self.now.levels) cursor.old) result cursor.new }
    {
        cursor.skip();
        is_written(cursor);
        let declarations = declarations(self.alloc, cursor)?;
        cursor.skip();
        let statements = (self.concs)(self.alloc, cursor, self.levels)?;
        cursor.skip();
        cursor.skip();
        closing(cursor);
        cursor.skip();
        Ok(Block {
            declarations,
            statements,
        })
    }

    /// A statement after its label.
    #[tactic(auto, unfolding(vital_shapes::specs::Statements::labelled))]
    fn labelled(
        &self,
        cursor: &mut Cursor<'_>,
        place: Place,
        label: Identifier,
    ) -> Result<Conc, ShapeError>
        requires { ReadsWithin spec.concs_within self.now.levels (F.pre self.now.concs) (F.post self.now.concs) }
        ensures { Reads (spec.labelled (spec.concs_within self.now.levels) place label cursor.old) result cursor.new }
    {
        match cursor.choice() {
            0 => {
                let process = process(self.alloc, cursor)?;
                Ok(Conc::Process(place, Some(label), process))
            }
            1 => {
                cursor.skip();
                let instance = instance(self.alloc, cursor, label)?;
                Ok(Conc::ComponentInstance(place, instance))
            }
            2 => {
                let instance = instance(self.alloc, cursor, label)?;
                Ok(Conc::Instance(place, instance))
            }
            _ => {
                let block = self.block(cursor)?;
                Ok(Conc::Block(place, label, block))
            }
        }
    }

    /// A statement that begins with an identifier.
    #[tactic(auto, unfolding(vital_shapes::specs::Statements::after_identifier))]
    fn after_identifier(&self, cursor: &mut Cursor<'_>, place: Place) -> Result<Conc, ShapeError>
        requires { ReadsWithin spec.concs_within self.now.levels (F.pre self.now.concs) (F.post self.now.concs) }
        ensures { Reads (spec.after_identifier (spec.concs_within self.now.levels) place cursor.old) result cursor.new }
    {
        let first = cursor.identifier(self.alloc)?;
        if cursor.choice() == 0 {
            cursor.skip();
            self.labelled(cursor, place, first)
        } else {
            unlabelled(self.alloc, cursor, place, first)
        }
    }

    #[tactic(auto, unfolding(vital_shapes::specs::Statements::conc))]
    fn conc(&self, cursor: &mut Cursor<'_>) -> Result<Conc, ShapeError>
        requires { ReadsWithin spec.concs_within self.now.levels (F.pre self.now.concs) (F.post self.now.concs) }
        ensures { Reads (spec.conc (spec.concs_within self.now.levels) cursor.old) result cursor.new }
    {
        let alternative = cursor.choice();
        let place = cursor.place();
        if alternative == 0 {
            let process = process(self.alloc, cursor)?;
            return Ok(Conc::Process(place, None, process));
        }
        self.after_identifier(cursor, place)
    }

    fn all(&self, cursor: &mut Cursor<'_>) -> Result<Items<Conc>, ShapeError>
        requires { ReadsWithin spec.concs_within self.now.levels (F.pre self.now.concs) (F.post self.now.concs) }
        ensures { Reads (many (λ _. spec.conc (spec.concs_within self.now.levels)) cursor.old) result cursor.new }
    {
        lists::many(self.alloc, cursor, |cursor, _| self.conc(cursor))
    }
}

/// Concurrent statements with so many levels of blocks in them, or fewer.
fn concs_within(
    alloc: Global,
    cursor: &mut Cursor<'_>,
    levels: usize,
) -> Result<Items<Conc>, ShapeError>
    ensures { Reads (spec.concs_within levels cursor.old) result cursor.new }
{
    if levels == 0 {
        return Ok(Items::new(alloc));
    }
    Blocks {
        alloc,
        levels: levels - 1,
        concs: concs_within,
    }
    .all(cursor)
}

/// The concurrent statements that stand here.
pub(crate) fn concs(alloc: Global, cursor: &mut Cursor<'_>) -> Result<Items<Conc>, ShapeError>
    ensures { Reads (spec.concs cursor.old) result cursor.new }
{
    let levels = cursor.left();
    concs_within(alloc, cursor, levels)
}

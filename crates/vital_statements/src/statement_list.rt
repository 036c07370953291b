//! L1.5: the statements of the architecture.

ghost use Rattle.std.specs.Prelude.{◌≡◌, ◌||◌, ◌&&◌, not, is_some, IfOk};
ghost use Rattle.vital_statements.specs.Clauses.{clause_5, is_wire_delay_block};
ghost use Rattle.vital_statements.specs.Statements as spec;

use crate::places::put_if;
use crate::statement::{as_block, as_process, statements_of};
use std::alloc::{AllocError, Global};
use vital_base::Place;
use vital_names::CellNames;
use vital_nodes::{Conc, HasPlace};

/// The places where L1.5 is broken: each statement of the architecture that is neither a process nor a block, each block after the
/// first, and a block with another label than WireDelay.
pub fn clause_5(alloc: Global, names: &CellNames<'_>) -> Result<Vec<Place>, AllocError>
    ensures { IfOk result (λ places. places.items ≡ clause_5 names.now) }
{
    let mut places = Vec::new(alloc);
    let mut has_block = false;
    for conc in statements_of(names) {
        put_if(&mut places, is_wrong(conc, has_block), conc.place())?;
        has_block |= as_block(conc).is_some();
    }
    Ok(places)
}

/// Whether a statement, before which a block stands or not, is neither a process nor the first block with the label WireDelay.
fn is_wrong(conc: &Conc, has_block: bool) -> bool
    ensures { result ≡ not (is_some (spec.as_process conc.now) || (is_wire_delay_block conc.now && not has_block)) }
{
    !(as_process(conc).is_some() || (is_wire_delay_block(conc) && !has_block))
}

/// Whether a statement is a block with the label WireDelay.
fn is_wire_delay_block(conc: &Conc) -> bool
    ensures { result ≡ is_wire_delay_block conc.now }
{
    match as_block(conc) {
        Some(block) => block.label.name.as_slice() == b"wiredelay".as_slice(),
        None => false,
    }
}

//! The statements of an architecture and of its processes.

ghost use Rattle.std.specs.Prelude.{◌≡◌};
ghost use Rattle.std.specs.Option.{option_copied, option_map};
ghost use Rattle.vital_statements.specs.Statements as spec;

use vital_names::CellNames;
use vital_nodes::{Block, Conc, Identifier, If, Process, Stmt};

/// The statements of the architecture of a cell. There are none where it has no architecture.
pub fn statements_of<'a>(names: &CellNames<'a>) -> &'a [Conc]
    ensures { result.now ≡ spec.statements_of names.now }
{
    match names.arch() {
        Some(arch) => arch.statements.as_slice(),
        None => &[],
    }
}

/// The process that a concurrent statement is.
pub fn as_process(conc: &Conc) -> Option<&Process>
    ensures { option_copied result ≡ spec.as_process conc.now }
{
    match conc {
        Conc::Process(_, _, process) => Some(process),
        _ => None,
    }
}

/// A block with its label.
#[derive(Clone, Copy)]
pub struct LabelledBlock<'a> {
    pub label: &'a Identifier,
    pub block: &'a Block,
}

/// The block that a concurrent statement is, with its label.
pub fn as_block(conc: &Conc) -> Option<LabelledBlock<'_>>
    ensures { option_map (λ b. (b.label.now, b.block.now)) result ≡ spec.as_block conc.now }
{
    match conc {
        Conc::Block(_, label, block) => Some(LabelledBlock { label, block }),
        _ => None,
    }
}

/// The `if` that a statement of a process is.
pub fn as_if(stmt: &Stmt) -> Option<&If>
    ensures { option_copied result ≡ spec.as_if stmt.now }
{
    match stmt {
        Stmt::If(_, statement) => Some(statement),
        _ => None,
    }
}

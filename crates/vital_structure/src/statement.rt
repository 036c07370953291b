//! The statements of a netlist unit.

ghost use Rattle.std.specs.Prelude.{◌≡◌, ◌++◌, map, IfOk, OnOk};
ghost use Rattle.vital_structure.specs.Statements as spec;

use std::alloc::{AllocError, Global};
use vital_base::Place;
use vital_nodes::{Arch, Conc, Entity, Instance};

/// What a statement is in a netlist unit.
#[derive(Clone, Copy)]
pub enum Statement<'a> {
    Instance(&'a Instance),
    /// One that stands in no netlist, at its place.
    NotStructural(Place),
}

/// What a statement is. A name with a label is an instance, also without maps.
fn statement_of(conc: &Conc) -> Statement<'_>
    ensures { spec.lent result ≡ spec.statement_of conc.now }
{
    match conc {
        Conc::ComponentInstance(_, instance) | Conc::Instance(_, instance) => {
            Statement::Instance(instance)
        }
        Conc::Process(place, _, _)
        | Conc::Block(place, _, _)
        | Conc::Call(place, _)
        | Conc::SignalAssignment(place, _) => Statement::NotStructural(*place),
    }
}

/// Puts what statements are at the end.
fn put_statements<'a>(
    statements: &mut Vec<Statement<'a>>,
    concurrent: &'a [Conc],
) -> Result<(), AllocError>
    ensures { OnOk result (map spec.lent statements.new.items ≡ map spec.lent statements.old.items ++ map spec.statement_of concurrent.now) }
{
    for conc in concurrent {
        statements.push(statement_of(conc))?;
    }
    Ok(())
}

/// The statements of an entity and of an architecture, in order.
pub fn statements_of<'a>(
    alloc: Global,
    entity: &'a Entity,
    arch: &'a Arch,
) -> Result<Vec<Statement<'a>>, AllocError>
    ensures { IfOk result (λ statements. map spec.lent statements.items ≡ spec.statements entity.now arch.now) }
{
    let mut statements = Vec::new(alloc);
    put_statements(&mut statements, entity.statements.as_slice())?;
    put_statements(&mut statements, arch.statements.as_slice())?;
    Ok(statements)
}

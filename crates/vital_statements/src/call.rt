//! Statements that are calls, and the procedures that they call.

ghost use Rattle.std.specs.Prelude.{◌≡◌};
ghost use Rattle.std.specs.Option.{option_copied, option_map};
ghost use Rattle.vital_calls.specs.Calls.{lent};
ghost use Rattle.vital_statements.specs.Called as spec;

use crate::site::site_at;
use vital_calls::{Call, call_of};
use vital_names::{CellNames, Procedure, ProcessNames};
use vital_nodes::{Conc, Stmt, call};

/// The call that a concurrent statement is.
pub fn call_of_conc(conc: &Conc) -> Option<Call<'_>>
    ensures { option_map lent result ≡ spec.call_of_conc conc.now }
{
    match call(conc) {
        Some(name) => call_of(name),
        None => None,
    }
}

/// The call that a statement of a process is.
pub fn call_of_stmt(stmt: &Stmt) -> Option<Call<'_>>
    ensures { option_map lent result ≡ spec.call_of_stmt stmt.now }
{
    match stmt {
        Stmt::Call(_, name) => call_of(name),
        _ => None,
    }
}

/// The predeclared procedure that a call in a process, or outside of processes, is of. There is none where a declaration of the cell
/// or a constant of a package hides it.
pub fn procedure_of(
    names: &CellNames<'_>,
    process: Option<&ProcessNames<'_>>,
    call: Call<'_>,
) -> Option<Procedure>
    ensures { result ≡ spec.procedure_of names.now (option_copied process.entry) (lent call.entry) }
{
    let site = site_at(process, call.identifier.place);
    match names.meaning(call.identifier.name.as_slice(), &site) {
        Some(meaning) => meaning.procedure(),
        None => None,
    }
}

//! What the statements of a process are read by.

ghost use Rattle.std.specs.Prelude.{◌≡◌, Some};
ghost use Rattle.std.specs.Option.{option_map};
ghost use Rattle.vital_calls.specs.Calls as calls;
ghost use Rattle.vital_sections.specs.Given.{lent};
ghost use Rattle.vital_sections.specs.Sections as spec;
ghost use Rattle.vital_expr.specs.Seen as readers;
ghost use Rattle.vital_typed_statements.specs.Statements.{context};

use crate::given::GivenCall;
use std::alloc::Global;
use vital_call_clauses::has_vector_result;
use vital_calls::{Call, formals_of_procedure};
use vital_expr::Reader;
use vital_names::{CellNames, CellUnit, Procedure, ProcessNames};
use vital_nodes::Stmt;
use vital_operands::{Faults, Position};
use vital_statements::{call_of_stmt, procedure_of, site_at};

/// What the statements of a process of a cell are read by.
#[derive(Clone, Copy)]
pub struct StatementReader<'a> {
    pub alloc: Global,
    pub names: &'a CellNames<'a>,
    pub faults: &'a Faults<'a>,
    pub process: &'a ProcessNames<'a>,
}

impl<'a> StatementReader<'a> {
    /// What the expressions in a statement are read by.
    pub fn reader(&self) -> Reader<'a>
        ensures { readers.lent result ≡ context self.now.names.now (Some self.now.process.now) self.now.faults.now }
    {
        Reader {
            alloc: self.alloc,
            position: Position::Statement(self.names, CellUnit::Architecture, Some(self.process)),
            faults: self.faults,
        }
    }

    /// A call of a procedure.
    fn given_call(&self, call: Call<'a>, procedure: Procedure) -> GivenCall<'a>
        ensures { lent result ≡ spec.given_call self.now.names.now self.now.faults.now self.now.process.now (calls.lent call.entry) procedure }
    {
        let site = site_at(Some(self.process), call.identifier.place);
        let has_vector = has_vector_result(self.names, &site, call.items);
        GivenCall {
            reader: self.reader(),
            formals: formals_of_procedure(procedure, has_vector),
            items: call.items,
        }
    }

    /// The predeclared procedure that a statement calls, and the call.
    pub fn called(&self, stmt: &'a Stmt) -> Option<(Procedure, GivenCall<'a>)>
        ensures { option_map (λ c. (c.0, lent c.1)) result ≡ spec.called self.now.names.now self.now.faults.now self.now.process.now stmt.now }
    {
        let call = call_of_stmt(stmt)?;
        let procedure = procedure_of(self.names, Some(self.process), call)?;
        Some((procedure, self.given_call(call, procedure)))
    }
}

//! Last lines, which end an answer.

ghost use Rattle.std.specs.Prelude.{◌≡◌, ◌≢◌, false};
ghost use Rattle.vital_report.specs.Lines.{said};
ghost use Rattle.vital_answers.specs.Answer.{refused};
ghost use Rattle.vital_answers.specs.Loading.{too_long};
ghost use Rattle.vital_answers.specs.Outcome.{Stage};

use crate::status::Status;
use vital_base::{Name, Sink, WriteFault};
use vital_report::{Limit, Line, Position, Printer};

/// Prints the last line of an answer, and ends with its status.
pub fn end_with<K: Sink>(line: &Line<'_>, status: Status, printer: &mut Printer<'_, K>) -> Status
    requires no_fault { (status ≢ Status.ReadFault) × (status ≢ Status.WriteFault) }
    requires goes_on { printer.old.stopped ≡ false }
    ensures { Stage (λ answer. answer ≡ refused (said line.now) status) result printer.old printer.new }
{
    match printer.print(line) {
        Ok(()) => status,
        Err(WriteFault) => Status::WriteFault,
    }
}

/// Refuses a file that is too long.
pub fn refuse_long<K: Sink>(file: &Name, printer: &mut Printer<'_, K>) -> Status
    requires { printer.old.stopped ≡ false }
    ensures { Stage (λ answer. answer ≡ too_long file.now) result printer.old printer.new }
{
    let at = Position {
        file: file.as_slice(),
        line: 0,
        column: 0,
    };
    let line = Line::RefusedLimit {
        limit: Limit::File,
        at,
    };
    end_with(&line, Status::Limit, printer)
}

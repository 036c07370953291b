//! How words and files are refused.

ghost use Rattle.std.specs.Prelude.{◌≡◌, false};
ghost use Rattle.vital_report.specs.Lines.{spot};
ghost use Rattle.vital_answers.specs.Refusals.{place_of, printed_usage, refused_at, refused_words, spot_of};
ghost use Rattle.vital_answers.specs.Given.{GivesRefusal};
ghost use Rattle.vital_answers.specs.Outcome.{Stage};

use crate::lines::end_with;
use crate::status::Status;
use vital_base::{Place, Sink};
use vital_library::LibraryError;
use vital_report::{
    LexicalWhy, LibraryWhy, Limit, Line, Position, Printer, SdfWhy, UsageWhy as PrintedUsage,
};
use vital_words::{NamedFile, UsageFault, UsageWhy};

/// How files are refused, and where. The number of a place's file counts the files from 0 in the order of their words.
#[derive(Clone, Copy, PartialEq, Eq)]
pub enum Refusal {
    /// No lexeme fits at the place.
    Lexical { place: Place, why: LexicalWhy },
    /// No file goes on with the token at the place.
    Syntax { place: Place },
    /// The limit is passed at the place.
    Limit { limit: Limit, place: Place },
    /// What an SDF file says at the place may not stand there.
    Sdf { why: SdfWhy, place: Place },
    /// The unit at the place does not go with the others.
    Library { why: LibraryWhy, place: Place },
}

impl Refusal {
    fn place(self) -> Place
        ensures { result ≡ place_of self }
    {
        match self {
            Refusal::Lexical { place, .. }
            | Refusal::Syntax { place }
            | Refusal::Limit { place, .. }
            | Refusal::Sdf { place, .. }
            | Refusal::Library { place, .. } => place,
        }
    }
}

/// Prints the one line of a refusal of these files, and ends with its status.
pub fn refuse_files<K: Sink>(
    files: &[NamedFile],
    refusal: Refusal,
    printer: &mut Printer<'_, K>,
) -> Status
    requires goes_on { printer.old.stopped ≡ false }
    ensures { Stage (λ answer. answer ≡ refused_at files.now refusal) result printer.old printer.new }
{
    let at = position_of(files, refusal.place());
    match refusal {
        Refusal::Lexical { why, .. } => {
            let line = Line::RefusedLexical { at, why };
            end_with(&line, Status::Syntax, printer)
        }
        Refusal::Syntax { .. } => {
            let line = Line::RefusedSyntax { at };
            end_with(&line, Status::Syntax, printer)
        }
        Refusal::Limit { limit, .. } => {
            let line = Line::RefusedLimit { limit, at };
            end_with(&line, Status::Limit, printer)
        }
        Refusal::Sdf { why, .. } => {
            let line = Line::RefusedSdf { why, at };
            end_with(&line, Status::Sdf, printer)
        }
        Refusal::Library { why, .. } => {
            let line = Line::RefusedLibrary { why, at };
            end_with(&line, Status::Library, printer)
        }
    }
}

/// A place in one of these files as it is printed, with the name of its file.
pub fn position_of<'a>(files: &'a [NamedFile], place: Place) -> Position<'a>
    ensures { spot result ≡ spot_of files.now place }
{
    let file: &[u8] = match files.get(place.file as usize) {
        Some(file) => file.name.as_slice(),
        None => b"",
    };
    Position {
        file,
        line: place.line,
        column: place.column,
    }
}

/// Prints the one line of words that are refused, and ends with its status.
pub fn refuse_words<K: Sink>(fault: UsageFault, printer: &mut Printer<'_, K>) -> Status
    requires { printer.old.stopped ≡ false }
    ensures { Stage (λ answer. answer ≡ refused_words fault) result printer.old printer.new }
{
    let line = Line::RefusedUsage {
        word: fault.word,
        why: printed_usage(fault.why),
    };
    end_with(&line, Status::Usage, printer)
}

/// Why words are refused, as it is printed.
fn printed_usage(why: UsageWhy) -> PrintedUsage
    ensures { result ≡ printed_usage why }
{
    match why {
        UsageWhy::Command => PrintedUsage::Command,
        UsageWhy::Key => PrintedUsage::Key,
        UsageWhy::Twice => PrintedUsage::Twice,
        UsageWhy::Value => PrintedUsage::Value,
        UsageWhy::Missing => PrintedUsage::Missing,
    }
}

/// How files that are no library are refused, unless memory ran out.
pub fn library_refusal(error: LibraryError) -> Option<Refusal>
    ensures { GivesRefusal error result }
{
    match error {
        LibraryError::TooManyUnits { place } => Some(Refusal::Limit {
            limit: Limit::Units,
            place,
        }),
        LibraryError::Duplicate { place } => Some(Refusal::Library {
            why: LibraryWhy::Duplicate,
            place,
        }),
        LibraryError::NoEntity { place } => Some(Refusal::Library {
            why: LibraryWhy::Entity,
            place,
        }),
        LibraryError::NoMemory => None,
    }
}

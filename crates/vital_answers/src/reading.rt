//! Reading the texts of VHDL and SDF files.

ghost use Rattle.std.specs.Prelude.{◌≡◌, ◌≤◌, List as List', Result, length, All, IfOk, OnOk};
ghost use Rattle.vital_as_read.specs.Libraries.{IsFromText};
ghost use Rattle.vital_grammar.specs.Grammar.{grammar};
ghost use Rattle.vital_answers.specs.Reading.{AreRead, IsRead, IsSdfRead, IsVhdlRead, tokens_of};
ghost use Rattle.vital_answers.specs.Refusals.{offset_of, place_in, printed_fault, printed_lexical, text_refusal};
ghost use Rattle.vital_answers.specs.Given.{GivesFile, GivesFiles, IsReadFromText, behind_files};
ghost use Rattle.vital_answers.specs.declared.reading.ReadFile.{ReadFile as ReadFile'};
ghost use Rattle.vital_answers.specs.declared.reading.ReadFiles.{ReadFiles as ReadFiles'};
ghost use Rattle.vital_answers.specs.declared.reading.Unread.TheVariants.{NoMemory};
ghost use Rattle.vital_answers.specs.declared.refusal.Refusal.{Refusal as Refusal'};

use crate::loading::Source;
use crate::refusal::Refusal;
use std::alloc::{AllocError, AllocFailed, Global};
use vital_base::{List, Place};
use vital_lex::{TextFault, Why, line_column};
use vital_ll::Rules;
use vital_report::{LexicalWhy, Limit, SdfWhy};
use vital_sdf::{SdfError, SdfFault, SdfFile, read_sdf};
use vital_sdf_grammar::sdf_rules;
use vital_vhdl::{Role, UnitError, Units, read_units};
use vital_words::FileKind;

/// The most tokens that all files of a run have.
const MOST_TOKENS: u32 = 4_194_304;

/// Why files were not read.
#[derive(Clone, Copy, PartialEq, Eq)]
pub enum Unread {
    Refused(Refusal),
    NoMemory,
}

impl From<AllocError> for Unread {
    ghost from_gives = { λ _ e. e ≡ NoMemory };

    fn from(_error: AllocError) -> Self {
        Unread::NoMemory
    }
}

impl<T: Drop> From<AllocFailed<T>> for Unread {
    ghost from_gives = { λ _ e. e ≡ NoMemory };

    fn from(_error: AllocFailed<T>) -> Self {
        Unread::NoMemory
    }
}

/// What is read of a file.
#[derive(Drop)]
pub enum ReadFile {
    /// The units of a VHDL file.
    Vhdl(Units),
    /// The entries of an SDF file.
    Sdf(SdfFile),
    /// A stimulus file, which is read later.
    Stimuli,
}

/// What is read of the files of a job, of each kind in order.
#[derive(Drop)]
pub struct ReadFiles {
    pub units: List<Units>,
    pub delays: List<SdfFile>,
}

/// How many tokens a file has.
fn tokens_of(file: &ReadFile) -> u32
    ensures { result ≡ tokens_of file.now }
{
    match file {
        ReadFile::Vhdl(units) => units.tokens,
        ReadFile::Sdf(file) => file.tokens,
        ReadFile::Stimuli => 0,
    }
}

/// Puts what was read of a file behind what was read of those before it.
fn put(file: ReadFile, units: &mut Vec<Units>, delays: &mut Vec<SdfFile>) -> Result<(), AllocError>
    ensures { OnOk result (record { units = units.new.items; delays = delays.new.items } ≡ behind_files (record { units = units.old.items; delays = delays.old.items }) file) }
{
    match file {
        ReadFile::Vhdl(read) => units.push(read)?,
        ReadFile::Sdf(read) => delays.push(read)?,
        ReadFile::Stimuli => {}
    }
    Ok(())
}

/// What is read of these files, which are numbered from 0; or how the first that is refused is. One table of VHDL's grammar serves all
/// of them.
pub fn read_files(alloc: Global, rules: &Rules, sources: &[Source]) -> Result<ReadFiles, Unread>
    requires grammar { rules.now ≡ grammar }
    requires few { length sources.now ≤ 34 }
    requires within { All (λ source. length source.text ≤ 16_777_216) sources.now }
    ensures gives { (outcome : Result ReadFiles' Refusal') → AreRead 0 4_194_304 sources.now outcome → GivesFiles result outcome }
    ensures read { IfOk result (λ files. All IsFromText files.units) }
{
    let mut units = Vec::new(alloc);
    let mut delays = Vec::new(alloc);
    let mut room = MOST_TOKENS;
    for (number, source) in sources.iter().enumerate() {
        let file = read_file(alloc, rules, number as u32, source, room)?;
        room = room.saturating_sub(tokens_of(&file));
        put(file, &mut units, &mut delays)?;
    }
    Ok(ReadFiles {
        units: List::new(units),
        delays: List::new(delays),
    })
}

/// What is read of the file with this number, by its kind; or how it is refused.
fn read_file(
    alloc: Global,
    rules: &Rules,
    number: u32,
    source: &Source,
    room: u32,
) -> Result<ReadFile, Unread>
    requires grammar { rules.now ≡ grammar }
    requires short { length source.now.text ≤ 16_777_216 }
    ensures gives { (outcome : Result ReadFile' Refusal') → IsRead source.now.kind number source.now.text room outcome → GivesFile result outcome }
    ensures read { IfOk result IsReadFromText }
{
    let text = source.text.as_slice();
    match source.kind {
        FileKind::Lib => read_vhdl(alloc, rules, number, Role::Lib, text, room),
        FileKind::Net => read_vhdl(alloc, rules, number, Role::Net, text, room),
        FileKind::Sdf => read_delays(alloc, number, text, room),
        FileKind::Stim => Ok(ReadFile::Stimuli),
    }
}

/// The units of the file with this number and text, which are of this role; or how it is refused.
fn read_vhdl(
    alloc: Global,
    rules: &Rules,
    number: u32,
    role: Role,
    text: &[u8],
    room: u32,
) -> Result<ReadFile, Unread>
    requires grammar { rules.now ≡ grammar }
    requires short { length text.now ≤ 16_777_216 }
    ensures gives { (outcome : Result ReadFile' Refusal') → IsVhdlRead role number text.now room outcome → GivesFile result outcome }
    ensures read { IfOk result IsReadFromText }
{
    match read_units(alloc, rules, number, role, text, room) {
        Ok(units) => Ok(ReadFile::Vhdl(units)),
        Err(UnitError::Lex(fault)) => Err(Unread::Refused(text_refusal(number, text, fault))),
        Err(UnitError::Refused { place }) => Err(Unread::Refused(Refusal::Syntax { place })),
        Err(UnitError::NoMemory) => Err(Unread::NoMemory),
    }
}

/// The entries of the SDF file with this number and text; or how it is refused.
fn read_delays(alloc: Global, number: u32, text: &[u8], room: u32) -> Result<ReadFile, Unread>
    requires short { length text.now ≤ 16_777_216 }
    ensures gives { (outcome : Result ReadFile' Refusal') → IsSdfRead number text.now room outcome → GivesFile result outcome }
    ensures read { IfOk result IsReadFromText }
{
    let rules = sdf_rules(alloc)?;
    match read_sdf(alloc, &rules, number, text, room) {
        Ok(file) => Ok(ReadFile::Sdf(file)),
        Err(SdfError::Lex(fault)) => Err(Unread::Refused(text_refusal(number, text, fault))),
        Err(SdfError::Refused { place }) => Err(Unread::Refused(Refusal::Syntax { place })),
        Err(SdfError::Fault { why, place }) => Err(Unread::Refused(Refusal::Sdf {
            why: printed_fault(why),
            place,
        })),
        Err(SdfError::NoMemory) => Err(Unread::NoMemory),
    }
}

/// Why an SDF file is refused, as it is printed.
fn printed_fault(fault: SdfFault) -> SdfWhy
    ensures { result ≡ printed_fault fault }
{
    match fault {
        SdfFault::Timescale => SdfWhy::Timescale,
        SdfFault::Divider => SdfWhy::Divider,
        SdfFault::Values => SdfWhy::Values,
    }
}

/// How a fault of a text, or a limit that it passes, is refused.
fn text_refusal(number: u32, text: &[u8], fault: TextFault) -> Refusal
    requires short { length text.now ≤ 16_777_216 }
    requires inside { offset_of fault ≤ length text.now }
    ensures { result ≡ text_refusal number text.now fault }
{
    match fault {
        TextFault::Fault { offset, why } => Refusal::Lexical {
            place: place_in(number, text, offset),
            why: printed_lexical(why),
        },
        TextFault::TooManyTokens { offset } => Refusal::Limit {
            limit: Limit::Tokens,
            place: place_in(number, text, offset),
        },
        TextFault::TooDeep { offset } => Refusal::Limit {
            limit: Limit::Nesting,
            place: place_in(number, text, offset),
        },
    }
}

fn printed_lexical(why: Why) -> LexicalWhy
    ensures { result ≡ printed_lexical why }
{
    match why {
        Why::Character => LexicalWhy::Character,
        Why::Unclosed => LexicalWhy::Unclosed,
    }
}

/// The place of an offset in the text of the file with this number.
fn place_in(number: u32, text: &[u8], offset: u32) -> Place
    requires short { length text.now ≤ 16_777_216 }
    requires inside { offset ≤ length text.now }
    ensures { result ≡ place_in number text.now offset }
{
    let (line, column) = line_column(text, offset);
    Place {
        file: number,
        line,
        column,
    }
}

//! Reading the text of a file.

ghost use Rattle.std.specs.Prelude.{◌≡◌, ◌<◌, ◌≤◌, ◌^◌, ℕ, List, Result, length, Ok, Err, IfErr, IfOk};
ghost use Rattle.vital_base.specs.declared.place.Place.{Place};
ghost use Rattle.vital_lex.specs.Outcome.{IsOutcome};
ghost use Rattle.vital_lex.specs.declared.faults.TextFault.{TextFault};
ghost use Rattle.vital_ll.specs.Refusal.{IsRefusal};
ghost use Rattle.vital_ll.specs.Sentence.{IsTreeOf};
ghost use Rattle.vital_ll.specs.declared.derivation.Step.{Step};
ghost use Rattle.vital_sdf_grammar.specs.Grammar.{grammar};
ghost use Rattle.vital_sdf_lexemes.specs.Sdf.{sdf};
ghost use Rattle.vital_sdf.specs.Files.{groups_of};
ghost use Rattle.vital_sdf.specs.Outcomes.{Gives, IsReading, kinds_of, offset_of};
ghost use Rattle.vital_sdf.specs.Reading.{place_at};
ghost use Rattle.vital_sdf.specs.Reads.{Answers};
ghost use Rattle.vital_sdf.specs.declared.group.SdfFile.{SdfFile};
ghost use Rattle.vital_sdf.specs.declared.read.SdfError.{SdfError};
ghost use Rattle.vital_sdf.specs.declared.read.SdfError.TheVariants.{NoMemory};
ghost use Rattle.vital_sdf.specs.declared.sdf_fault.SdfFault.{SdfFault};

use crate::cursor::Cursor;
use crate::group::{Group, SdfFile};
use crate::read_error::ReadError;
use crate::readers::files::groups;
use crate::sdf_fault::SdfFault;
use std::alloc::{AllocError, AllocFailed, Global};
use vital_base::{List, Place};
use vital_lex::{LexError, TextFault, TextPosition, Token};
use vital_ll::{ParseError, Rules, Tree, parse};
use vital_sdf_lexemes::lex_sdf;

/// Why nothing was read of a file.
#[derive(Clone, Copy, Debug, PartialEq, Eq)]
pub enum SdfError {
    /// Its text is no list of tokens, or passes a limit.
    Lex(TextFault),
    /// The token at the place is the first that no file goes on with. The end of the text counts as the last token, and
    /// stands after its last byte.
    Refused { place: Place },
    /// The keyword at the place is the first that says what it may not.
    Fault { why: SdfFault, place: Place },
    /// There was no memory for it.
    NoMemory,
}

impl From<AllocError> for SdfError {
    ghost from_gives = { λ _ e. e ≡ NoMemory };

    fn from(_error: AllocError) -> SdfError {
        SdfError::NoMemory
    }
}

impl<T: Drop> From<AllocFailed<T>> for SdfError {
    ghost from_gives = { λ _ e. e ≡ NoMemory };

    fn from(_error: AllocFailed<T>) -> SdfError {
        SdfError::NoMemory
    }
}

/// The kinds of tokens.
fn kinds_of(alloc: Global, tokens: &[Token]) -> Result<Vec<u16>, AllocError>
    ensures { IfOk result (λ kinds. kinds.items ≡ kinds_of tokens.now) }
{
    tokens.iter().map(|token| token.kind).collect(alloc)
}

/// The place of a token, or of the end of the text after the last one.
#[tactic(auto, unfolding(crate::specs::Reading::place_at))]
fn place_of(file: u32, text: &[u8], tokens: &[Token], token: u32) -> Place
    requires { length text.now ≤ 16777216 }
    ensures { result ≡ place_at file text.now (offset_of text.now tokens.now token) }
{
    let token = token as usize;
    let offset = if token < tokens.len() {
        tokens[token].start
    } else {
        text.len() as u32
    };
    let position = TextPosition::start(text).seek(text, offset);
    Place {
        file,
        line: position.line,
        column: position.column,
    }
}

/// The derivation of the tokens of a file.
fn derived(alloc: Global, rules: &Rules, tokens: &[Token]) -> Result<Tree, ParseError>
    requires table { rules.now ≡ grammar }
    requires length { length tokens.now < 2 ^ 32 }
    ensures tree { IfOk result (IsTreeOf grammar (kinds_of tokens.now)) }
    ensures only { IfOk result (λ tree. (other : List Step) → IsTreeOf grammar (kinds_of tokens.now) other → other ≡ tree) }
    ensures refused { IfErr result (IsRefusal grammar (kinds_of tokens.now)) }
{
    let kinds = kinds_of(alloc, tokens)?;
    parse(alloc, rules, kinds.as_slice())
}

/// What the tokens of a file say that the grammar takes.
fn groups_of(
    alloc: Global,
    file: u32,
    text: &[u8],
    tokens: &[Token],
) -> Result<List<Group>, ReadError>
    requires { length text.now ≤ 16777216 }
    ensures { Answers (groups_of file text.now tokens.now) result }
{
    let mut cursor = Cursor::new(file, text, tokens);
    groups(alloc, &mut cursor)
}

/// What the SDF file with this number says, whose text may have at most `room` tokens, by the table of the grammar that
/// `sdf_rules` makes.
///
/// The text is read as `lex_sdf` reads it, and its tokens by the grammar of SDF files. A fault of the text comes before a
/// refusal by the grammar, which names the first token that no file goes on with, and this before the first fault of what a
/// keyword says.
pub fn read_sdf(
    alloc: Global,
    rules: &Rules,
    file: u32,
    text: &[u8],
    room: u32,
) -> Result<SdfFile, SdfError>
    requires table { rules.now ≡ grammar }
    requires size { length text.now ≤ 16777216 }
    // What is read is what the text's tokens say, which the grammar takes.
    ensures read { (said : SdfFile) → result ≡ Ok said → IsReading file text.now room (Ok said) }
    // A fault of the text is the outcome of lexing it.
    ensures lexical { (fault : TextFault) → result ≡ Err (SdfError.Lex fault) → IsOutcome sdf text.now room (Err fault) }
    // A refusal stands at the first token that no file goes on with.
    ensures refused { (place : Place) → result ≡ Err (SdfError.Refused place) → IsReading file text.now room (Err (SdfError.Refused place)) }
    // A fault stands at the first keyword that says what it may not.
    ensures fault { (why : SdfFault) (place : Place) → result ≡ Err (SdfError.Fault why place)
        → IsReading file text.now room (Err (SdfError.Fault why place)) }
    // Whatever comes of the file is the answer, unless memory runs out.
    ensures only { (outcome : Result SdfFile SdfError) → IsReading file text.now room outcome → Gives result outcome }
{
    let tokens = match lex_sdf(alloc, text, room) {
        Ok(tokens) => tokens,
        Err(LexError::Text(fault)) => return Err(SdfError::Lex(fault)),
        Err(LexError::NoMemory) => return Err(SdfError::NoMemory),
    };
    let list = tokens.as_slice();
    match derived(alloc, rules, list) {
        Ok(_tree) => {}
        Err(ParseError::Refused { token }) => {
            let place = place_of(file, text, list, token);
            return Err(SdfError::Refused { place });
        }
        Err(ParseError::NoMemory) => return Err(SdfError::NoMemory),
    }
    match groups_of(alloc, file, text, list) {
        Ok(groups) => Ok(SdfFile {
            groups,
            tokens: list.len() as u32,
        }),
        Err(ReadError::Fault(why, place)) => Err(SdfError::Fault { why, place }),
        Err(ReadError::NoMemory) => Err(SdfError::NoMemory),
    }
}

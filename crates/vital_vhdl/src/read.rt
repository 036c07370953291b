//! Reading the text of a file.

ghost use Rattle.std.specs.Prelude.{◌≡◌, ◌<◌, ◌≤◌, ◌^◌, ℕ, List, Result, Some, length, Ok, Err, IfErr, IfOk};
ghost use Rattle.vital_grammar.specs.Grammar.{grammar};
ghost use Rattle.vital_lex.specs.Outcome.{IsOutcome};
ghost use Rattle.vital_lex.specs.declared.faults.TextFault.{TextFault};
ghost use Rattle.vital_ll.specs.Refusal.{IsRefusal};
ghost use Rattle.vital_ll.specs.Sentence.{IsTreeOf};
ghost use Rattle.vital_ll.specs.declared.derivation.Step.{Step};
ghost use Rattle.vital_shapes.specs.Reading.{kinds_of, place_at};
ghost use Rattle.vital_vhdl_lexemes.specs.Vhdl.{vhdl};
ghost use Rattle.vital_shapes.specs.Shapes.{shape};
ghost use Rattle.vital_vhdl.specs.Cursors.{HaveNames};
ghost use Rattle.vital_vhdl.specs.Outcomes.{GivesUnits, IsReading, IsRefusedText, IsUnitsOf, offset_of};
ghost use Rattle.vital_base.specs.declared.place.Place.{Place};
ghost use Rattle.vital_nodes.specs.declared.unit.Units.{Units};
ghost use Rattle.vital_vhdl.specs.declared.read.UnitError.{UnitError};
ghost use Rattle.vital_vhdl.specs.declared.read.UnitError.TheVariants.{NoMemory};

use crate::cursor::Cursor;
use crate::readers::units::file_units;
use crate::shape_error::ShapeError;
use std::alloc::{AllocError, AllocFailed, Global};
use vital_base::{List, Place};
use vital_lex::{LexError, TextFault, TextPosition, Token};
use vital_ll::{ParseError, Rules, Step, Tree, parse};
use vital_nodes::{Role, Unit, Units};
use vital_shapes::file_is_read;
use vital_vhdl_lexemes::lex_vhdl;

/// Why a file has no units.
#[derive(Clone, Copy, Debug, PartialEq, Eq)]
pub enum UnitError {
    /// Its text is no list of tokens, or passes a limit.
    Lex(TextFault),
    /// The token at the place is the first that no file goes on with. The end of the text counts as the last token, and
    /// stands after its last byte.
    Refused { place: Place },
    /// There was no memory for it.
    NoMemory,
}

impl From<AllocError> for UnitError {
    ghost from_gives = { λ _ e. e ≡ NoMemory };

    fn from(_error: AllocError) -> UnitError {
        UnitError::NoMemory
    }
}

impl<T: Drop> From<AllocFailed<T>> for UnitError {
    ghost from_gives = { λ _ e. e ≡ NoMemory };

    fn from(_error: AllocFailed<T>) -> UnitError {
        UnitError::NoMemory
    }
}

/// The kinds of tokens.
fn kinds_of(alloc: Global, tokens: &[Token]) -> Result<Vec<u16>, AllocError>
    ensures { IfOk result (λ kinds. kinds.items ≡ kinds_of tokens.now) }
{
    tokens.iter().map(|token| token.kind).collect(alloc)
}

/// The place of a token, or of the end of the text after the last one.
#[tactic(auto, unfolding(vital_shapes::specs::Reading::place_at))]
fn place_of(file: u32, text: &[u8], tokens: &[Token], token: u32) -> Place
    requires { length text.now ≤ 16777216 }
    ensures { result ≡ place_at file text.now (offset_of text.now tokens.now token) }
{
    let token = token as usize;
    let offset = if token < tokens.len() {
        tokens[token].start
    } else {
        text.len() as u32
    };
    let position = TextPosition::start(text).seek(text, offset);
    Place {
        file,
        line: position.line,
        column: position.column,
    }
}

/// The derivation of the tokens of a file.
fn derived(alloc: Global, rules: &Rules, tokens: &[Token]) -> Result<Tree, ParseError>
    requires table { rules.now ≡ grammar }
    requires length { length tokens.now < 2 ^ 32 }
    ensures tree { IfOk result (IsTreeOf grammar (kinds_of tokens.now)) }
    ensures only { IfOk result (λ tree. (other : List Step) → IsTreeOf grammar (kinds_of tokens.now) other → other ≡ tree) }
    ensures refused { IfErr result (IsRefusal grammar (kinds_of tokens.now)) }
{
    let kinds = kinds_of(alloc, tokens)?;
    parse(alloc, rules, kinds.as_slice())
}

/// The shape of a derivation. An identifier stands wherever one is read, so that it is never missed.
fn shaped(
    alloc: Global,
    file: u32,
    text: &[u8],
    tokens: &[Token],
    steps: &[Step],
) -> Result<List<Unit>, AllocError>
    requires size { length text.now ≤ 16777216 }
    requires names { HaveNames text.now tokens.now }
    requires tree { IsTreeOf grammar (kinds_of tokens.now) steps.now }
    ensures { IfOk result (λ units. shape file text.now tokens.now steps.now ≡ Some units) }
{
    file_is_read();
    let mut cursor = Cursor::new(file, text, tokens, steps);
    match file_units(alloc, &mut cursor) {
        Ok(units) => Ok(units),
        Err(ShapeError::NoMemory) => Err(AllocError),
        Err(ShapeError::NoIdentifier) => unreachable!(),
    }
}

/// The units of the file with this number, whose text may have at most `room` tokens, by the table of the grammar that
/// `vhdl_rules` makes.
///
/// The text is read as `lex_vhdl` reads it, and its tokens by the grammar of VHDL files. A fault of the text comes before a
/// refusal by the grammar, which names the first token that no file goes on with.
pub fn read_units(
    alloc: Global,
    rules: &Rules,
    file: u32,
    role: Role,
    text: &[u8],
    room: u32,
) -> Result<Units, UnitError>
    requires table { rules.now ≡ grammar }
    requires size { length text.now ≤ 16777216 }
    // The units are the shape of the one derivation of the text's tokens.
    ensures read { IfOk result (IsUnitsOf file role text.now room) }
    // A fault of the text is the outcome of lexing it.
    ensures lexical { (fault : TextFault) → result ≡ Err (UnitError.Lex fault) → IsOutcome vhdl text.now room (Err fault) }
    // A refusal stands at the first token that no file goes on with.
    ensures refused { (place : Place) → result ≡ Err (UnitError.Refused place) → IsRefusedText file text.now room place }
    // Whatever comes of the file is the answer, unless memory runs out.
    ensures only { (outcome : Result Units UnitError) → IsReading file role text.now room outcome → GivesUnits result outcome }
{
    let tokens = match lex_vhdl(alloc, text, room) {
        Ok(tokens) => tokens,
        Err(LexError::Text(fault)) => return Err(UnitError::Lex(fault)),
        Err(LexError::NoMemory) => return Err(UnitError::NoMemory),
    };
    let list = tokens.as_slice();
    let tree = match derived(alloc, rules, list) {
        Ok(tree) => tree,
        Err(ParseError::Refused { token }) => {
            let place = place_of(file, text, list, token);
            return Err(UnitError::Refused { place });
        }
        Err(ParseError::NoMemory) => return Err(UnitError::NoMemory),
    };
    let units = shaped(alloc, file, text, list, tree.steps())?;
    Ok(Units {
        role,
        units,
        tokens: list.len() as u32,
    })
}

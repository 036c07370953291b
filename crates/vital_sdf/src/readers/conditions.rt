//! Reading conditions, and ports that may have one.

ghost use Rattle.std.specs.Prelude.{◌≡◌, ◌-◌, Ok, IfOk, IsTrue, ◌↔◌, length};
ghost use Rattle.vital_sdf.specs.Conditions as spec;
ghost use Rattle.vital_sdf.specs.Reads.{Reads};

use crate::check_port::CheckPort;
use crate::cursor::{Cursor, NO_TOKEN};
use crate::entry::{Edge, Port};
use crate::read_error::ReadError;
use crate::readers::ports::{edge_of, edge_port, port_of, port_of_word};
use std::alloc::{AllocError, Global};
use vital_base::Name;
use vital_lex::Token;
use vital_sdf_lexemes::Kind;
use vital_sdf_words::{condition_name, quoted_condition_name};

const LEFT_PARENTHESIS: u16 = Kind::LeftParenthesis as u16;

const RIGHT_PARENTHESIS: u16 = Kind::RightParenthesis as u16;

const TEXT: u16 = Kind::Text as u16;

const WORD: u16 = Kind::Word as u16;

const IO_PATH: u16 = Kind::IoPath as u16;

const COND: u16 = Kind::Cond as u16;

/// Is the token a parenthesis?
fn is_parenthesis(token: Token) -> bool
    ensures { result ≡ spec.is_parenthesis token }
{
    token.kind == LEFT_PARENTHESIS || token.kind == RIGHT_PARENTHESIS
}

/// The bytes of lexemes without parentheses, with nothing between them.
fn joined(alloc: Global, cursor: &Cursor<'_>, tokens: &[Token]) -> Result<Vec<u8>, AllocError>
    ensures { IfOk result (λ bytes. bytes.items ≡ spec.joined cursor.now.text tokens.now) }
{
    let mut bytes = Vec::new(alloc);
    for token in tokens {
        if !is_parenthesis(*token) {
            bytes.extend_from_slice(cursor.bytes_of(*token))?;
        }
    }
    Ok(bytes)
}

/// The name that a string gives, if one is written.
#[tactic(auto, unfolding(crate::specs::Conditions::quoted_name))]
fn quoted_name(alloc: Global, cursor: &mut Cursor<'_>) -> Result<Option<Name>, ReadError>
    ensures { Reads (spec.quoted_name cursor.old) result cursor.new }
{
    if cursor.kind() != TEXT {
        return Ok(None);
    }
    let text = cursor.quoted();
    Ok(Some(quoted_condition_name(alloc, text)?))
}

/// The name that was given, or else that of these lexemes.
fn name_of(
    alloc: Global,
    cursor: &Cursor<'_>,
    tokens: &[Token],
    given: Option<Name>,
) -> Result<Name, AllocError>
    ensures { IfOk result (λ name. name ≡ spec.name_of cursor.now.text tokens.now given) }
{
    match given {
        Some(name) => Ok(name),
        None => {
            let text = joined(alloc, cursor, tokens)?;
            condition_name(alloc, text.as_slice())
        }
    }
}

/// Where the next IOPATH stands.
fn path_at(tokens: &[Token]) -> Option<usize>
    ensures { result ≡ spec.path_at tokens.now }
{
    tokens.iter().position(|token| token.kind == IO_PATH)
}

/// How many tokens stand before it.
fn count_before_path(tokens: &[Token]) -> usize
    ensures { result ≡ spec.count_before_path tokens.now }
{
    match path_at(tokens) {
        Some(at) => at,
        None => tokens.len(),
    }
}

/// A condition, up to the IOPATH that it is for.
#[tactic(auto, unfolding(crate::specs::Conditions::condition, crate::specs::Conditions::before_path))]
pub(crate) fn condition(alloc: Global, cursor: &mut Cursor<'_>) -> Result<Name, ReadError>
    ensures { Reads (spec.condition cursor.old) result cursor.new }
{
    let given = quoted_name(alloc, cursor)?;
    let count = count_before_path(cursor.tokens());
    let tokens = cursor.front(count);
    Ok(name_of(alloc, cursor, tokens, given)?)
}

/// The token that is so many before the end.
fn token_from_end(items: &[Token], back: usize) -> Token
    ensures { result ≡ spec.token_from_end items.now back }
{
    let at = items.len().saturating_sub(back);
    if at < items.len() {
        items[at]
    } else {
        NO_TOKEN
    }
}

/// Is the last item a WORD?
fn ends_with_word(items: &[Token]) -> bool
    ensures { result ≡ spec.ends_with_word items.now }
{
    token_from_end(items, 1).kind == WORD
}

/// A token as a port.
fn port_at(
    alloc: Global,
    cursor: &Cursor<'_>,
    token: Token,
    edge: Option<Edge>,
) -> Result<Port, AllocError>
    ensures { IfOk result (λ port. port ≡ spec.port_at cursor.now token edge) }
{
    port_of_word(alloc, cursor.bytes_of(token), cursor.divider(), edge)
}

/// The port that items end with, if they do.
fn last_port(
    alloc: Global,
    cursor: &Cursor<'_>,
    items: &[Token],
) -> Result<Option<Port>, AllocError>
    ensures { IfOk result (λ port. port ≡ spec.last_port cursor.now items.now) }
{
    if ends_with_word(items) {
        let port = port_at(alloc, cursor, token_from_end(items, 1), None)?;
        return Ok(Some(port));
    }
    match edge_of(token_from_end(items, 3).kind) {
        Some(edge) => {
            let port = port_at(alloc, cursor, token_from_end(items, 2), Some(edge))?;
            Ok(Some(port))
        }
        None => Ok(None),
    }
}

/// The tokens before that port.
fn before_last(items: &[Token]) -> &[Token]
    ensures { result.now ≡ spec.before_last items.now }
{
    let last = if ends_with_word(items) { 1 } else { 4 };
    &items[..items.len().saturating_sub(last)]
}

/// A condition and a port, behind COND.
#[tactic(auto, unfolding(crate::specs::Conditions::conditional_port))]
fn conditional_port(alloc: Global, cursor: &mut Cursor<'_>) -> Result<CheckPort, ReadError>
    ensures { Reads (spec.conditional_port cursor.old) result cursor.new }
{
    let given = quoted_name(alloc, cursor)?;
    let items = cursor.enclosed();
    let name = name_of(alloc, cursor, before_last(items), given)?;
    let port = last_port(alloc, cursor, items)?;
    Ok(CheckPort {
        condition: Some(name),
        port,
    })
}

/// A port without a condition.
fn unconditional(port: Port) -> CheckPort
    ensures { result ≡ spec.unconditional port }
{
    CheckPort {
        condition: None,
        port: Some(port),
    }
}

/// An edge and its port, or a condition and a port.
#[tactic(auto, unfolding(crate::specs::Conditions::inner_port))]
fn inner_port(alloc: Global, cursor: &mut Cursor<'_>) -> Result<CheckPort, ReadError>
    ensures { Reads (spec.inner_port cursor.old) result cursor.new }
{
    if cursor.kind() == COND {
        cursor.skip();
        return conditional_port(alloc, cursor);
    }
    let port = edge_port(alloc, cursor)?;
    Ok(unconditional(port))
}

/// A port of a timing check.
#[tactic(auto, unfolding(crate::specs::Conditions::check_port))]
pub(crate) fn check_port(alloc: Global, cursor: &mut Cursor<'_>) -> Result<CheckPort, ReadError>
    ensures { Reads (spec.check_port cursor.old) result cursor.new }
{
    if cursor.kind() != LEFT_PARENTHESIS {
        let port = port_of(alloc, cursor, None)?;
        return Ok(unconditional(port));
    }
    cursor.skip();
    let found = inner_port(alloc, cursor)?;
    cursor.skip();
    Ok(found)
}

/// The condition of a check, of those of its two ports.
pub(crate) fn both_conditions(
    first: Option<Name>,
    second: Option<Name>,
) -> Result<Option<Name>, AllocError>
    ensures { IfOk result (λ name. name ≡ spec.both_conditions first second) }
{
    match (first, second) {
        (Some(first), Some(second)) => {
            let mut name = first.into_vec();
            name.extend_from_slice(b"_and_")?;
            name.extend_from_slice(second.as_slice())?;
            Ok(Some(Name::new(name)))
        }
        (Some(first), None) => Ok(Some(first)),
        (None, second) => Ok(second),
    }
}

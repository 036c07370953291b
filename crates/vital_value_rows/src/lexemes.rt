//! Lexemes of texts, and places in texts.

use super::laws::definitions_on_rows;
use super::words::{Said, bytes_of, line, small, word};
use std::alloc::{AllocError, Global};
use vital_lex::{LexError, TextFault, TextPosition, Token, Tokens, Why, line_column, one_outcome};
use vital_row_files::GivenFile;
use vital_vhdl_lexemes::{Kind, Vhdl, lex_vhdl, reserved_words_in_order};

/// The greatest length of a text.
const LONGEST: usize = 16_777_216;

/// The kinds that are said by their names.
const KINDS: [Kind; 34] = [
    Kind::Identifier,
    Kind::ExtendedIdentifier,
    Kind::Number,
    Kind::StringLiteral,
    Kind::CharacterLiteral,
    Kind::Tick,
    Kind::Arrow,
    Kind::Assign,
    Kind::LessOrEqual,
    Kind::GreaterOrEqual,
    Kind::NotEqual,
    Kind::DoubleStar,
    Kind::Box,
    Kind::Ampersand,
    Kind::LeftParenthesis,
    Kind::RightParenthesis,
    Kind::Star,
    Kind::Plus,
    Kind::Comma,
    Kind::Minus,
    Kind::Dot,
    Kind::Slash,
    Kind::Colon,
    Kind::Semicolon,
    Kind::Less,
    Kind::Equal,
    Kind::Greater,
    Kind::Bar,
    Kind::Entity,
    Kind::End,
    Kind::Is,
    Kind::Process,
    Kind::Xnor,
    Kind::Architecture,
];

/// What a view says of a text.
pub fn say(alloc: Global, words: &[&str], files: &[GivenFile]) -> Said {
    one_outcome::<Vhdl>();
    reserved_words_in_order();
    definitions_on_rows();
    let text = bytes_of(files, "vhd");
    match word(words, 0) {
        "tokens" => tokens(alloc, text, word(words, 1)),
        "refused" => refused(alloc, text, word(words, 1)),
        "byte" => byte(alloc, text),
        _ => place(alloc, text, words),
    }
}

/// The tokens of a text, or its fault; None for want of memory.
fn lexed(alloc: Global, text: &[u8], room: u32) -> Result<Result<Tokens, TextFault>, AllocError> {
    if text.len() > LONGEST {
        return Err(AllocError);
    }
    match lex_vhdl(alloc, text, room) {
        Ok(tokens) => Ok(Ok(tokens)),
        Err(LexError::Text(fault)) => Ok(Err(fault)),
        Err(LexError::NoMemory) => Err(AllocError),
    }
}

/// Says a token: its kind, by its name or else by its number, and its place.
fn put_token(text: &mut String, token: &Token) -> Result<(), AllocError> {
    match KINDS.iter().find(|kind| kind.number() == token.kind) {
        Some(kind) => write!(text, "{kind:?} {} {}", token.start, token.end)?,
        None => write!(text, "kind {} {} {}", token.kind, token.start, token.end)?,
    }
    Ok(())
}

/// Says a fault with its offset.
fn put_fault(text: &mut String, fault: TextFault) -> Result<(), AllocError> {
    match fault {
        TextFault::Fault {
            offset,
            why: Why::Character,
        } => write!(text, "character {offset}")?,
        TextFault::Fault {
            offset,
            why: Why::Unclosed,
        } => write!(text, "unclosed {offset}")?,
        TextFault::TooManyTokens { offset } => write!(text, "too many tokens {offset}")?,
        TextFault::TooDeep { offset } => write!(text, "too deep {offset}")?,
    }
    Ok(())
}

/// A line for each token, or one for the fault.
fn tokens(alloc: Global, text: &[u8], room: &str) -> Said {
    let Some(room) = small(room) else {
        return Ok(None);
    };
    let mut said = String::new(alloc);
    match lexed(alloc, text, room)? {
        Ok(tokens) => put_tokens(&mut said, &Tokens::from_vec(tokens.into_vec()))?,
        Err(fault) => {
            put_fault(&mut said, fault)?;
            said.push('\n')?;
        }
    }
    Ok(Some(said))
}

fn put_tokens(said: &mut String, tokens: &Tokens) -> Result<(), AllocError> {
    for token in tokens.as_slice() {
        put_token(said, token)?;
        said.push('\n')?;
    }
    Ok(())
}

/// How a text is refused, or `read`.
fn refused(alloc: Global, text: &[u8], room: &str) -> Said {
    let Some(room) = small(room) else {
        return Ok(None);
    };
    let mut said = String::new(alloc);
    match lexed(alloc, text, room)? {
        Ok(_) => said.push_str("read")?,
        Err(fault) => put_fault(&mut said, fault)?,
    }
    said.push('\n')?;
    Ok(Some(said))
}

/// Says what a short text is: nothing, its one token, or its fault.
fn put_short(said: &mut String, alloc: Global, text: &[u8]) -> Result<(), AllocError> {
    match lexed(alloc, text, 1)? {
        Ok(tokens) => match tokens.as_slice() {
            [] => said.push_str("nothing")?,
            [token, ..] => put_token(said, token)?,
        },
        Err(fault) => put_fault(said, fault)?,
    }
    said.push('\n')
}

/// What the first byte of a text is alone, in a comment, and between quotation marks, apostrophes and backslashes.
fn byte(alloc: Global, text: &[u8]) -> Said {
    let Some(byte) = text.first().copied() else {
        return line(alloc, "no byte");
    };
    let mut said = String::new(alloc);
    put_short(&mut said, alloc, &[byte])?;
    put_short(&mut said, alloc, &[b'-', b'-', byte])?;
    for mark in [b'"', b'\'', b'\\'] {
        put_short(&mut said, alloc, &[mark, byte, mark])?;
    }
    Ok(Some(said))
}

/// The line and the column of an offset, where it is in the text; and the place that is found from the middle of the text on.
fn place(alloc: Global, text: &[u8], words: &[&str]) -> Said {
    let (Some(offset), Some(middle)) = (small(word(words, 1)), small(word(words, 2))) else {
        return Ok(None);
    };
    if text.len() > LONGEST {
        return Ok(None);
    }
    let mut said = String::new(alloc);
    if offset as usize <= text.len() {
        let (line, column) = line_column(text, offset);
        write!(said, "line {line} column {column}\n")?;
    }
    let found = TextPosition::start(text)
        .seek(text, middle)
        .seek(text, offset);
    let (offset, line, column) = (found.offset, found.line, found.column);
    write!(said, "offset {offset} line {line} column {column}\n")?;
    Ok(Some(said))
}

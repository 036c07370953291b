//! The views: which part answers the words of a row.

ghost use Rattle.std.specs.Prelude.{All};
ghost use Rattle.vital_as_read.specs.Libraries.{IsFromText};

use crate::calls::{put_call, put_given, put_item_count};
use crate::clauses::put_clauses;
use crate::expressions::put_expression;
use crate::library::library_of;
use crate::limits::put_limit;
use crate::meanings::put_meaning;
use crate::typed_cells::put_typed;
use std::alloc::{AllocError, Global};
use vital_library::Library;
use vital_row_files::{Answer, Answers, GivenFile, Row};

/// Answers each row by the view that its first word names.
pub struct Views;

/// Puts what the view of a library shows that the first of these words names; the others are its own.
fn put_view(
    alloc: Global,
    text: &mut String,
    library: &Library,
    words: &[String],
) -> Result<(), AllocError>
    requires read { All IsFromText library.now }
{
    let [view, words @ ..] = words else {
        return text.push_str("no view\n");
    };
    match view.as_str() {
        "clauses" => put_clauses(alloc, text, library, words),
        "limit" => put_limit(alloc, text, library),
        "call" => put_call(alloc, text, library, words),
        "given" => put_given(alloc, text, library, words),
        "items" => put_item_count(text, library),
        "expression" => put_expression(alloc, text, library, words),
        "typed" => put_typed(alloc, text, library),
        "meaning" => put_meaning(alloc, text, library, words),
        _ => text.push_str("no such view\n"),
    }
}

impl Answers for Views {
    fn answer(
        alloc: Global,
        words: &[String],
        files: &[GivenFile],
        _row: &Row,
    ) -> Result<Answer, AllocError> {
        let mut text = String::new(alloc);
        match library_of(alloc, files) {
            Ok(library) => put_view(alloc, &mut text, &library, words)?,
            Err(_) => text.push_str("no library\n")?,
        }
        Ok(Answer {
            bytes: text.into_bytes(),
            status: 0,
        })
    }
}

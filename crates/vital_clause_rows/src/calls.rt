//! How the items of calls are matched to the formals of what is called.

use crate::library::first_arch;
use std::alloc::{AllocError, Global};
use vital_calls::{
    Formals, actual_of, call_of, form_of, formals_of_function, formals_of_procedure,
    has_wrong_formals,
};
use vital_library::Library;
use vital_names::{LibraryNames, Predeclared};
use vital_nodes::{HasPlace, Item, Reference, actual, call};

/// The name that the only statement of a library's architecture calls.
fn name_called(library: &Library) -> Option<&Reference> {
    let Some(arch) = first_arch(library) else {
        return None;
    };
    match arch.statements.as_slice() {
        [statement] => call(statement),
        _ => None,
    }
}

/// The items of the only call of a library.
fn items_of(library: &Library) -> Option<&[Item]> {
    let Some(name) = name_called(library) else {
        return None;
    };
    match call_of(name) {
        Some(call) => Some(call.items),
        None => None,
    }
}

/// The formals of what a word is predeclared as; of VitalStateTable those where its result is a vector, or those where it is one level.
fn formals_of(
    alloc: Global,
    library: &Library,
    word: &str,
    has_vector_result: bool,
) -> Result<Option<Formals>, AllocError> {
    let names = LibraryNames::new(alloc, library)?;
    Ok(match names.predeclared(word.as_bytes()) {
        Some(Predeclared::Function(function)) => Some(formals_of_function(function)),
        Some(Predeclared::Procedure(procedure)) => {
            Some(formals_of_procedure(procedure, has_vector_result))
        }
        _ => None,
    })
}

/// Puts what is asked of each item, or that items are wrong for formals.
fn put_forms(text: &mut String, formals: Formals, items: &[Item]) -> Result<(), AllocError> {
    if has_wrong_formals(formals, items) {
        return text.push_str("wrong\n");
    }
    for (position, item) in items.iter().enumerate() {
        match form_of(formals, position, item) {
            Some(form) => write!(text, "{form:?}\n")?,
            None => text.push_str("nothing\n")?,
        }
    }
    Ok(())
}

/// Puts what is asked of each item of the call of a library, by the formals of a word; behind the word stands `vector` where the result is one.
pub fn put_call(
    alloc: Global,
    text: &mut String,
    library: &Library,
    words: &[String],
) -> Result<(), AllocError> {
    let [word, kinds @ ..] = words else {
        return text.push_str("no callee\n");
    };
    match (
        formals_of(alloc, library, word.as_str(), !kinds.is_empty())?,
        items_of(library),
    ) {
        (Some(formals), Some(items)) => put_forms(text, formals, items),
        _ => text.push_str("no call\n"),
    }
}

/// Puts the column of the actual for a formal.
fn put_column(
    text: &mut String,
    formals: Formals,
    items: &[Item],
    formal: &str,
) -> Result<(), AllocError> {
    let Some(item) = actual_of(items, formals, formal.as_bytes()) else {
        return text.push_str("nothing\n");
    };
    match actual(item) {
        Some(value) => write!(text, "column {}\n", value.place().column),
        None => text.push_str("nothing\n"),
    }
}

/// Puts the column of the actual that the call of a library gives for a formal of a word.
pub fn put_given(
    alloc: Global,
    text: &mut String,
    library: &Library,
    words: &[String],
) -> Result<(), AllocError> {
    let [word, formal] = words else {
        return text.push_str("no formal\n");
    };
    match (
        formals_of(alloc, library, word.as_str(), false)?,
        items_of(library),
    ) {
        (Some(formals), Some(items)) => put_column(text, formals, items, formal.as_str()),
        _ => text.push_str("no call\n"),
    }
}

/// Puts how many items the call of a library has, where the name that stands there is a call.
pub fn put_item_count(text: &mut String, library: &Library) -> Result<(), AllocError> {
    let Some(name) = name_called(library) else {
        return text.push_str("no name\n");
    };
    match call_of(name) {
        Some(call) => write!(text, "{} items\n", call.items.len()),
        None => text.push_str("no call\n"),
    }
}

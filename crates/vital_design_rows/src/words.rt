//! The words of a row.

use vital_nodes::Role;

/// What is looked at. It is the first word.
#[derive(Clone, Copy)]
pub enum View {
    Range(RangeView),
    Library(LibraryView),
}

/// What is looked at of ranges that are written in words.
#[derive(Clone, Copy)]
pub enum RangeView {
    /// How many bits a vector of a range has.
    Length,
    /// How far a bit is from the left.
    Distance,
    /// The index of the bit that is so far from the left.
    Index,
    /// What the bits of a port are associated with.
    Connections,
}

/// What is looked at of a library.
#[derive(Clone, Copy)]
pub enum LibraryView {
    /// The unit of the top by itself.
    Unit(UnitView),
    /// The levels that the defaults of the ports of the top are worth.
    Worths,
    UnderTop(TopView),
}

/// What is looked at of a netlist unit.
#[derive(Clone, Copy)]
pub enum UnitView {
    /// What it declares, and its statements.
    Structure,
    /// What the ports of its instances are associated with.
    Associations,
}

/// What is looked at of the instances under a top.
#[derive(Clone, Copy)]
pub enum TopView {
    Instances,
    InstanceCount,
    /// The cells, by their first instances.
    Cells,
    /// Each entity with the number of its cell.
    CellNumbers,
    Design(DesignView),
}

/// What is looked at of a design.
#[derive(Clone, Copy)]
pub enum DesignView {
    /// Its instances, and its signals with the numbers of their drivers.
    Tree,
    /// Its signals and the ports of the top with the values that they have while nothing drives them.
    Values,
    /// The cells of instances, the signals of their bits, and what drivers drive.
    Wiring,
    SignalCount,
}

/// The views by their names.
static VIEWS: [(&str, View); 15] = [
    ("length", View::Range(RangeView::Length)),
    ("distance", View::Range(RangeView::Distance)),
    ("index", View::Range(RangeView::Index)),
    ("connections", View::Range(RangeView::Connections)),
    (
        "structure",
        View::Library(LibraryView::Unit(UnitView::Structure)),
    ),
    (
        "associations",
        View::Library(LibraryView::Unit(UnitView::Associations)),
    ),
    ("worths", View::Library(LibraryView::Worths)),
    (
        "instances",
        View::Library(LibraryView::UnderTop(TopView::Instances)),
    ),
    (
        "instance-count",
        View::Library(LibraryView::UnderTop(TopView::InstanceCount)),
    ),
    (
        "cells",
        View::Library(LibraryView::UnderTop(TopView::Cells)),
    ),
    (
        "cell-numbers",
        View::Library(LibraryView::UnderTop(TopView::CellNumbers)),
    ),
    (
        "tree",
        View::Library(LibraryView::UnderTop(TopView::Design(DesignView::Tree))),
    ),
    (
        "values",
        View::Library(LibraryView::UnderTop(TopView::Design(DesignView::Values))),
    ),
    (
        "wiring",
        View::Library(LibraryView::UnderTop(TopView::Design(DesignView::Wiring))),
    ),
    (
        "signal-count",
        View::Library(LibraryView::UnderTop(TopView::Design(DesignView::SignalCount))),
    ),
];

/// The view that words begin with, if they do.
pub fn view_of(words: &[String]) -> Option<View> {
    let first = words.first()?;
    for (name, view) in &VIEWS {
        if first.as_str() == *name {
            return Some(*view);
        }
    }
    None
}

/// What stands behind a key with its `=` in the first word that begins so; or nothing.
pub fn value<'a>(words: &'a [String], key: &str) -> &'a str {
    for word in words {
        if let Some(value) = word.as_str().strip_prefix(key) {
            return value;
        }
    }
    ""
}

/// The file that a word names, and what it is read as, if it names one.
pub fn file_of(word: &str) -> Option<(Role, &str)> {
    match word.strip_prefix("lib=") {
        Some(name) => Some((Role::Lib, name)),
        None => match word.strip_prefix("net=") {
            Some(name) => Some((Role::Net, name)),
            None => None,
        },
    }
}

/// The name of the file of a number, in order of the words.
pub fn file_name(words: &[String], number: u32) -> &str {
    let mut left = number;
    for word in words {
        if let Some((_, name)) = file_of(word.as_str()) {
            if left == 0 {
                return name;
            }
            left = left.wrapping_sub(1);
        }
    }
    "-"
}

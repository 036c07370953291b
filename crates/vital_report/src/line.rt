use crate::why::{
    LexicalWhy, LibraryWhy, Limit, NetlistWhy, NoteWhy, SdfWhy, StimulusWhy, UsageWhy,
};
use vital_base::{Clause, Name, Time};
use vital_logic::Level;
use vital_timing_checks::Violated;

/// One line that is printed. It holds its names by reference, so making one takes no memory.
#[derive(Clone, Copy)]
pub enum Line<'a> {
    /// `vital 1`, the first line of a run.
    Version,
    /// `init NAME VALUE`: a watched signal's value before the initial run.
    Init {
        name: &'a Name,
        value: Level,
    },
    /// `event TIME DELTA NAME VALUE`: an event on a watched signal.
    Event {
        time: Time,
        delta: u64,
        name: &'a Name,
        value: Level,
    },
    /// `glitch TIME DELTA PATH PORT`: a path delay of an instance of a cell found a glitch at one of its ports (IEEE 1076.4). The path of the
    /// top is `-`.
    Glitch {
        time: Time,
        delta: u64,
        path: &'a [u8],
        port: &'a [u8],
    },
    /// `violation KIND TIME DELTA PATH TEST REFERENCE OBSERVED LIMIT`: a timing check of an instance of a cell found a violation (IEEE
    /// 1076.4): of the signal TEST, against the signal REFERENCE, which is `-` where it is tested alone. The path of the top is `-`.
    Violation {
        time: Time,
        delta: u64,
        path: &'a [u8],
        test: &'a [u8],
        reference: Option<&'a [u8]>,
        violated: Violated,
    },
    /// `end TIME`, the last line of a run: its end time.
    End {
        time: Time,
    },
    /// `cell ENTITY ARCH level1`: the cell, an entity with this architecture, meets Level 1 of VITAL (IEEE 1076.4); ARCH is `-` where
    /// the entity has none.
    CellLevel1 {
        entity: &'a Name,
        arch: Option<&'a Name>,
    },
    /// `cell ENTITY ARCH LEVEL CLAUSE FILE LINE COLUMN`: the cell breaks the clause at this place. LEVEL is the level that
    /// it has: `none` where the clause is one of level 0, else `level0`.
    CellBroken {
        entity: &'a Name,
        arch: Option<&'a Name>,
        clause: Clause,
        at: Position<'a>,
    },
    /// `instance PATH UNIT cell` or `instance PATH UNIT net`: an instance of a design, by its path, which is `-` for the top. Its unit is
    /// a cell or a netlist unit.
    Instance {
        path: &'a [u8],
        unit: &'a [u8],
        is_cell: bool,
    },
    /// `signal NAME TYPE N`: a signal of a design with N drivers in cells. TYPE is std_logic for a resolved signal, else std_ulogic
    /// (IEEE 1164).
    Signal {
        name: &'a [u8],
        is_resolved: bool,
        drivers: u64,
    },
    /// `end`, the last line of a design.
    EndOfDesign,
    /// `self SEED CELLS`, the first line of a run of cells that are made from a seed.
    SelfHead {
        seed: u64,
        cells: u32,
    },
    /// `events N`: how many lines of events a run had.
    Events {
        count: u64,
    },
    /// `messages N`: how many lines of glitches a run had.
    Messages {
        count: u64,
    },
    /// A line that was made before, without its LF.
    Text {
        text: &'a [u8],
    },
    /// `note sdf FILE LINE COLUMN WHY`: the entry of an SDF file at this place changes nothing, or less than it says.
    Note {
        at: Position<'a>,
        why: NoteWhy,
    },
    /// `refused usage N WHY`: the word with number N, counted from 1, is at fault.
    RefusedUsage {
        word: u64,
        why: UsageWhy,
    },
    /// `refused lexical FILE LINE COLUMN WHY`: at this place of a VHDL or SDF file no lexeme fits.
    RefusedLexical {
        at: Position<'a>,
        why: LexicalWhy,
    },
    /// `refused syntax FILE LINE COLUMN`: at this place of a VHDL or SDF file the grammar cannot go on.
    RefusedSyntax {
        at: Position<'a>,
    },
    /// `refused limit WHICH FILE LINE COLUMN`: at this place a file, a cell or a design passes a limit. The place in a file that is
    /// too long is 0 and 0.
    RefusedLimit {
        limit: Limit,
        at: Position<'a>,
    },
    /// `refused library WHY FILE LINE COLUMN`: the unit at this place does not go with the other units of the library.
    RefusedLibrary {
        why: LibraryWhy,
        at: Position<'a>,
    },
    /// `refused netlist WHY FILE LINE COLUMN NAME`: the design has this fault at this place. NAME is an identifier, or `-` where none
    /// stands there. A missing top stands at `-`, 0 and 0.
    RefusedNetlist {
        why: NetlistWhy,
        at: Position<'a>,
        name: Option<&'a [u8]>,
    },
    /// `refused netlist not-level1 FILE LINE COLUMN CLAUSE`: a cell of the design breaks the clause at this place, and none before it.
    RefusedCell {
        at: Position<'a>,
        clause: Clause,
    },
    /// `refused sdf WHY FILE LINE COLUMN`: what an SDF file says at this place is none of what may stand there.
    RefusedSdf {
        why: SdfWhy,
        at: Position<'a>,
    },
    /// `refused delta TIME LIMIT`: at this time a cycle would begin whose delta number is the limit.
    RefusedDelta {
        time: Time,
        limit: u64,
    },
    /// `refused stimulus WHY FILE LINE`: a line of a stimulus file, counted from 1, is at fault.
    RefusedStimulus {
        why: StimulusWhy,
        file: &'a Name,
        line: u32,
    },
}

/// A place as it is printed: the name of its file, and the line and the column in it, both from 1; or 0 and 0 for a whole file.
#[derive(Clone, Copy)]
pub struct Position<'a> {
    pub file: &'a [u8],
    pub line: u32,
    pub column: u32,
}

//! What each line says: the text that it begins with, and its fields.

ghost use Rattle.std.specs.Prelude.{◌≡◌, true};
ghost use Rattle.vital_report.specs.Held.{Counts, Puts};
ghost use Rattle.vital_report.specs.Lines.{said, is_message, is_of_cell, is_of_design, is_of_self, is_refusal, is_refused_design, bytes_of};

use crate::event_start::EventStart;
use crate::fields::{Field, write_line};
use crate::held::Held;
use crate::line::Line;
use crate::texts::{
    arch_text, broken_text, fixed, kind_text, level_text, name_text, number, text, type_text,
    unit_text,
};
use vital_base::{Sink, WriteFault};

/// Writes the line.
pub(crate) fn write<K: Sink>(
    held: &mut Held,
    sink: &mut K,
    start: &mut EventStart,
    line: &Line<'_>,
) -> Result<(), WriteFault>
    ensures keeps_may_stick { K.may_stick sink.old → K.may_stick sink.new }
    ensures counts { Counts result (K.faults sink.old) (K.faults sink.new) }
    ensures puts { Puts result (K.told sink.old) held.old (bytes_of (said line.now)) (K.told sink.new) held.new }
{
    match *line {
        Line::Version => write_line(held, sink, b"vital", &Field(1)),
        Line::Init { name, value } => {
            write_line(held, sink, b"init", &(text(name), Field(value)))
        }
        Line::Event {
            time,
            delta,
            name,
            value,
        } => start.write(held, sink, time, delta, name, value),
        Line::Glitch { .. } | Line::Violation { .. } => write_message(held, sink, line),
        Line::End { time } => write_line(held, sink, b"end", &Field(time)),
        Line::CellLevel1 { .. } | Line::CellBroken { .. } => write_cell(held, sink, line),
        Line::Instance { .. } | Line::Signal { .. } | Line::EndOfDesign => {
            write_design(held, sink, line)
        }
        Line::SelfHead { .. } | Line::Events { .. } | Line::Messages { .. } | Line::Text { .. } =>
            write_self(held, sink, line),
        Line::Note { at, why } => { write_line(held, sink, b"note sdf", &(at, fixed(why.word()))) }
        _ => write_refusal(held, sink, line),
    }
}

/// Writes the message of a cell.
fn write_message<K: Sink>(held: &mut Held, sink: &mut K, line: &Line<'_>) -> Result<(), WriteFault>
    requires { is_message line.now ≡ true }
    ensures keeps_may_stick { K.may_stick sink.old → K.may_stick sink.new }
    ensures counts { Counts result (K.faults sink.old) (K.faults sink.new) }
    ensures puts { Puts result (K.told sink.old) held.old (bytes_of (said line.now)) (K.told sink.new) held.new }
{
    match *line {
        Line::Glitch {
            time,
            delta,
            path,
            port,
        } => {
            let fields = (Field(time), (Field(delta), (fixed(path), fixed(port))));
            write_line(held, sink, b"glitch", &fields)
        }
        Line::Violation {
            time,
            delta,
            path,
            test,
            reference,
            violated,
        } => {
            let limits = (Field(violated.observed), Field(violated.limit));
            let times = (Field(time), Field(delta));
            let fields = (
                kind_text(violated.kind),
                (
                    times,
                    (fixed(path), (fixed(test), (name_text(reference), limits))),
                ),
            );
            write_line(held, sink, b"violation", &fields)
        }
        _ => unreachable!(),
    }
}

/// Writes a line of the command `self`.
fn write_self<K: Sink>(held: &mut Held, sink: &mut K, line: &Line<'_>) -> Result<(), WriteFault>
    requires { is_of_self line.now ≡ true }
    ensures keeps_may_stick { K.may_stick sink.old → K.may_stick sink.new }
    ensures counts { Counts result (K.faults sink.old) (K.faults sink.new) }
    ensures puts { Puts result (K.told sink.old) held.old (bytes_of (said line.now)) (K.told sink.new) held.new }
{
    match *line {
        Line::SelfHead { seed, cells } => {
            write_line(held, sink, b"self", &(Field(seed), number(cells)))
        }
        Line::Events { count } => write_line(held, sink, b"events", &Field(count)),
        Line::Messages { count } => write_line(held, sink, b"messages", &Field(count)),
        Line::Text { text } => write_line(held, sink, text, &()),
        _ => unreachable!(),
    }
}

/// Writes the line of a cell.
fn write_cell<K: Sink>(held: &mut Held, sink: &mut K, line: &Line<'_>) -> Result<(), WriteFault>
    requires { is_of_cell line.now ≡ true }
    ensures keeps_may_stick { K.may_stick sink.old → K.may_stick sink.new }
    ensures counts { Counts result (K.faults sink.old) (K.faults sink.new) }
    ensures puts { Puts result (K.told sink.old) held.old (bytes_of (said line.now)) (K.told sink.new) held.new }
{
    match *line {
        Line::CellLevel1 { entity, arch } => {
            let fields = (text(entity), (arch_text(arch), fixed(b"level1")));
            write_line(held, sink, b"cell", &fields)
        }
        Line::CellBroken {
            entity,
            arch,
            clause,
            at,
        } => {
            let broken = (level_text(clause), (Field(clause), at));
            let fields = (text(entity), (arch_text(arch), broken));
            write_line(held, sink, b"cell", &fields)
        }
        _ => unreachable!(),
    }
}

/// Writes a line of a design.
fn write_design<K: Sink>(held: &mut Held, sink: &mut K, line: &Line<'_>) -> Result<(), WriteFault>
    requires { is_of_design line.now ≡ true }
    ensures keeps_may_stick { K.may_stick sink.old → K.may_stick sink.new }
    ensures counts { Counts result (K.faults sink.old) (K.faults sink.new) }
    ensures puts { Puts result (K.told sink.old) held.old (bytes_of (said line.now)) (K.told sink.new) held.new }
{
    match *line {
        Line::Instance {
            path,
            unit,
            is_cell,
        } => {
            let fields = (fixed(path), (fixed(unit), unit_text(is_cell)));
            write_line(held, sink, b"instance", &fields)
        }
        Line::Signal {
            name,
            is_resolved,
            drivers,
        } => {
            let fields = (fixed(name), (type_text(is_resolved), Field(drivers)));
            write_line(held, sink, b"signal", &fields)
        }
        Line::EndOfDesign => held.put(sink, b"end\n"),
        _ => unreachable!(),
    }
}

/// Writes the line of a refusal.
fn write_refusal<K: Sink>(held: &mut Held, sink: &mut K, line: &Line<'_>) -> Result<(), WriteFault>
    requires { is_refusal line.now ≡ true }
    ensures keeps_may_stick { K.may_stick sink.old → K.may_stick sink.new }
    ensures counts { Counts result (K.faults sink.old) (K.faults sink.new) }
    ensures puts { Puts result (K.told sink.old) held.old (bytes_of (said line.now)) (K.told sink.new) held.new }
{
    match *line {
        Line::RefusedUsage { word, why } => {
            let fields = (Field(word), fixed(why.word()));
            write_line(held, sink, b"refused usage", &fields)
        }
        Line::RefusedLexical { at, why } => {
            write_line(held, sink, b"refused lexical", &(at, fixed(why.word())))
        }
        Line::RefusedSyntax { at } => write_line(held, sink, b"refused syntax", &at),
        Line::RefusedLimit { limit, at } => {
            write_line(held, sink, b"refused limit", &(fixed(limit.word()), at))
        }
        Line::RefusedLibrary { why, at } => {
            write_line(held, sink, b"refused library", &(fixed(why.word()), at))
        }
        Line::RefusedSdf { why, at } => {
            write_line(held, sink, b"refused sdf", &(fixed(why.word()), at))
        }
        Line::RefusedDelta { time, limit } => {
            write_line(held, sink, b"refused delta", &(Field(time), Field(limit)))
        }
        Line::RefusedStimulus { why, file, line } => {
            let fields = (fixed(why.word()), (text(file), number(line)));
            write_line(held, sink, b"refused stimulus", &fields)
        }
        Line::RefusedNetlist { .. } | Line::RefusedCell { .. } => {
            write_refused_design(held, sink, line)
        }
        _ => unreachable!(),
    }
}

/// Writes the line of the refusal of a design.
fn write_refused_design<K: Sink>(
    held: &mut Held,
    sink: &mut K,
    line: &Line<'_>,
) -> Result<(), WriteFault>
    requires { is_refused_design line.now ≡ true }
    ensures keeps_may_stick { K.may_stick sink.old → K.may_stick sink.new }
    ensures counts { Counts result (K.faults sink.old) (K.faults sink.new) }
    ensures puts { Puts result (K.told sink.old) held.old (bytes_of (said line.now)) (K.told sink.new) held.new }
{
    match *line {
        Line::RefusedNetlist { why, at, name } => {
            let fields = (fixed(why.word()), (at, name_text(name)));
            write_line(held, sink, b"refused netlist", &fields)
        }
        Line::RefusedCell { at, clause } => {
            let fields = (broken_text(), (at, Field(clause)));
            write_line(held, sink, b"refused netlist", &fields)
        }
        _ => unreachable!(),
    }
}

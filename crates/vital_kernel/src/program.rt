//! The program of a cell, with room for what a process of it sees and does.

ghost use Rattle.std.specs.Prelude.{◌≡◌, ◌^◌, ◌<◌, ◌≤◌, [], ℕ, All, IfOk, length, map, slice_get, slice_set, Some};
ghost use Rattle.vital_machine.specs.Fits.{EffectIsOfCell, EndsInTime, FitsStore, StepsAreOfCell};
ghost use Rattle.vital_machine.specs.Machine.{activated};
ghost use Rattle.vital_kernel.specs.Programs.{seen};

use crate::inputs::set_inputs;
use std::alloc::{AllocError, Global};
use std::marker::Model;
use vital_base::Time;
use vital_machine::{Effect, Effects, Inputs, Program, Store, activate};
use vital_signals::Signals;

/// The program of a cell, with room for what a process of it sees and does, which all its processes use in turn. Contracts see it as the
/// program and what the process of it did that ran last.
#[derive(Drop)]
pub(crate) struct CellProgram {
    program: Program,
    inputs: Inputs,
    effects: Effects,
}

impl Model for CellProgram {
    ghost use Rattle.std.specs.Coded.{codes};
    ghost use Rattle.vital_machine.specs.contracts.program.Program as parts;
    ghost use Rattle.vital_kernel.specs.Programs.{HasRoom, ProgramState};

    ghost Value = { ProgramState };

    ghost coded = { Prim.hlevel (codes, parts.the_row.coded) };

    ghost view = { λ p. record { program = p.program; effects = p.effects.listed } };

    ghost invariant = { λ p. HasRoom p.program p.inputs p.effects };
}

impl CellProgram {
    /// A program of whose processes none ran. Its cell has so many bits.
    pub(crate) fn new(alloc: Global, program: Program, bits: u32) -> Result<CellProgram, AllocError>
        requires { program.bits ≡ bits }
        ensures { IfOk result (λ p. p ≡ record { program = program; effects = [] }) }
    {
        let inputs = Inputs::reserve(alloc, &program)?;
        let effects = Effects::reserve(alloc, &program)?;
        Ok(CellProgram {
            program,
            inputs,
            effects,
        })
    }

    /// The variables of all its processes as they begin.
    pub(crate) fn first_store(&self, alloc: Global) -> Result<Store, AllocError>
        ensures first { IfOk result (λ store. store.listed ≡ map (λ p. p.first) self.now.program.processes) }
        ensures fits { IfOk result (λ store. (now : ℕ) → FitsStore self.now.program now store) }
    {
        Store::new(alloc, &self.program)
    }

    /// Runs the process of a number at a time, where the bits of its cell are the signals of these numbers. The store is that of the
    /// variables of all its processes. It takes no memory.
    pub(crate) fn run(
        &mut self,
        process: u32,
        now: Time,
        wires: &[usize],
        signals: &Signals,
        store: &mut Store,
    )
        requires process { process < length self.old.program.processes }
        requires now { now ≤ 2 ^ 60 }
        requires store { FitsStore self.old.program now store.old }
        requires one_each { length wires.now ≡ self.old.program.bits }
        requires there { All (λ signal. signal < length signals.now.signals) wires.now }
        requires few_signals { length signals.now.signals < 2 ^ 31 }
        ensures slots { store.new ≡ record store.old {
          listed = slice_set store.old.listed process (activated self.old.program process now store.old (seen now signals.now.signals wires.now)).slots;
        } }
        ensures effects { self.new ≡ record self.old {
          effects = (activated self.old.program process now store.old (seen now signals.now.signals wires.now)).effects;
        } }
        ensures store_fits { (later : ℕ) → now ≤ later → FitsStore self.old.program later store.new }
        ensures ends { All (EndsInTime now) self.new.effects }
        ensures numbers { (drivers : ℕ) → All (λ p. StepsAreOfCell drivers self.old.program.bits p.steps) self.old.program.processes
            → All (EffectIsOfCell drivers self.old.program.bits) self.new.effects }
    {
        set_inputs(&mut self.inputs, wires, signals, now);
        activate(
            &self.program,
            process,
            now,
            store,
            &self.inputs,
            &mut self.effects,
        );
    }

    /// How many effects the process of it had that ran last.
    pub(crate) fn effect_count(&self) -> u32
        ensures { result ≡ length self.now.effects }
    {
        self.effects.len()
    }

    /// The effect of a number, counted from 0, of the process of it that ran last.
    pub(crate) fn effect(&self, number: u32) -> Effect
        requires { number < length self.now.effects }
        ensures { slice_get self.now.effects number ≡ Some result }
    {
        self.effects.at(number)
    }
}

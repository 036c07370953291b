//! What an activation does, as it is listed.

ghost use Rattle.std.specs.Prelude.{◌≡◌, ◌<◌, ◌∷◌, ◌++◌, [], length, slice_get, IfOk, Some};
ghost use Rattle.vital_machine.specs.Fits.{FitsEffects};

use crate::effect::Effect;
use crate::program::Program;
use std::alloc::{AllocError, Global};
use std::marker::Model;

/// What an activation does, in order.
#[derive(Drop)]
pub struct Effects {
    effects: Vec<Effect>,
    room: u32,
}

impl Model for Effects {
    ghost use Rattle.std.specs.Prelude.{◌^◌, ◌<◌, ◌≤◌, length, vec_capacity};
    ghost use Rattle.vital_machine.specs.EffectLists.{EffectList};

    ghost Value = { EffectList };

    ghost view = { λ e. record { listed = e.effects.items; room = e.room } };

    ghost invariant = { λ e. (e.room ≤ vec_capacity e.effects) × (length e.effects.items ≤ e.room) × (e.room < 2 ^ 32) };
}

impl Effects {
    /// A list with room for what any process of a program does, in which there is nothing.
    pub fn reserve(alloc: Global, program: &Program) -> Result<Effects, AllocError>
        ensures none { IfOk result (λ effects. effects.listed ≡ []) }
        ensures fits { IfOk result (λ effects. FitsEffects program.now effects) }
    {
        let room = program.most_effects();
        Ok(Effects {
            effects: Vec::with_capacity(alloc, room as usize)?,
            room,
        })
    }

    /// How many there are.
    pub fn len(&self) -> u32
        ensures { result ≡ length self.now.listed }
    {
        self.effects.len() as u32
    }

    /// The one with this number, counted from 0.
    pub fn at(&self, number: u32) -> Effect
        requires { number < length self.now.listed }
        ensures { slice_get self.now.listed number ≡ Some result }
    {
        self.effects[number as usize]
    }

    /// Lists none.
    pub(crate) fn clear(&mut self)
        ensures { self.new ≡ record self.old { listed = [] } }
    {
        self.effects.clear();
    }

    /// Lists one more.
    pub(crate) fn put(&mut self, effect: Effect)
        requires { length self.old.listed < self.old.room }
        ensures { self.new ≡ record self.old { listed = self.old.listed ++ effect ∷ [] } }
    {
        let _ = self.effects.push(effect);
    }
}

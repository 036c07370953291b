ghost use Rattle.std.specs.Prelude.{◌≡◌, ◌≤◌, ◌<◌, ◌∷◌, ◌++◌, ℕ, Bool, [], length, IfOk, slice_index};
ghost use Rattle.std.specs.List.{list_any};
ghost use Rattle.std.specs.List.Sorted.{IsStrictlyIncreasing};

use std::alloc::{AllocError, Global};
use std::marker::Model;

/// A list of numbers with room for so many.
#[derive(Drop)]
pub struct Numbers {
    numbers: Vec<u32>,
    room: u32,
}

impl Model for Numbers {
    ghost use Rattle.std.specs.Prelude.{◌^◌, ◌<◌, ◌≤◌, length, vec_capacity};
    ghost use Rattle.vital_signals.specs.Lists.{NumberList};

    ghost Value = { NumberList };

    ghost view = { λ n. record { listed = n.numbers.items; room = n.room } };

    ghost invariant = { λ n. (n.room ≤ vec_capacity n.numbers) × (length n.numbers.items ≤ n.room) × (n.room < 2 ^ 32) };
}

impl Numbers {
    /// A list with room for so many numbers, of which none is listed.
    pub fn reserve(alloc: Global, room: u32) -> Result<Numbers, AllocError>
        ensures { IfOk result (λ numbers. numbers ≡ record { listed = []; room = room }) }
    {
        Ok(Numbers {
            numbers: Vec::with_capacity(alloc, room as usize)?,
            room,
        })
    }

    /// All that are listed.
    pub fn as_slice(&self) -> &[u32]
        ensures { result.now ≡ self.now.listed }
    {
        &self.numbers
    }

    /// How many are listed.
    pub fn len(&self) -> u32
        ensures count { result ≡ length self.now.listed }
        ensures fits { length self.now.listed ≤ self.now.room }
    {
        self.numbers.len() as u32
    }

    /// The one at this place, counted from 0.
    pub fn at(&self, k: u32) -> u32
        requires { k < length self.now.listed }
        ensures { result ≡ slice_index self.now.listed k }
    {
        self.numbers[k as usize]
    }

    /// Lists none.
    pub fn clear(&mut self)
        ensures { self.new ≡ record self.old { listed = [] } }
    {
        self.numbers.clear();
    }

    /// Lists one more.
    pub fn add(&mut self, number: u32)
        requires { length self.old.listed < self.old.room }
        ensures { self.new ≡ record self.old { listed = self.old.listed ++ number ∷ [] } }
    {
        let _ = self.numbers.push(number);
    }

    /// Puts the numbers in order, each once.
    pub fn order(&mut self)
        ensures rising { IsStrictlyIncreasing self.new.listed }
        ensures same { (test : ℕ → Bool) → list_any test self.new.listed ≡ list_any test self.old.listed }
        ensures keeps_room { self.new.room ≡ self.old.room }
        ensures fits { length self.new.listed ≤ self.new.room }
    {
        self.numbers.sort_unstable();
        self.numbers.dedup();
    }
}

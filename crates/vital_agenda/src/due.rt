ghost use Rattle.std.specs.Prelude.{◌≡◌, ◌<◌, ◌∷◌, ◌++◌, [], length, IfOk, slice_index};

use std::alloc::{AllocError, Global};
use std::marker::Model;

/// The drivers that had a transaction at the present time, rising.
#[derive(Drop)]
pub struct Due {
    drivers: Vec<u32>,
    room: u32,
}

impl Model for Due {
    ghost use Rattle.std.specs.Prelude.{◌^◌, ◌<◌, ◌≤◌, length, vec_capacity};
    ghost use Rattle.vital_agenda.specs.DueLists.{DueList};

    ghost Value = { DueList };

    ghost view = { λ d. record { listed = d.drivers.items; room = d.room } };

    ghost invariant = { λ d. (d.room ≤ vec_capacity d.drivers) × (length d.drivers.items ≤ d.room) × (d.room < 2 ^ 32) };
}

impl Due {
    /// A list with room for so many drivers, of which none is listed.
    pub fn reserve(alloc: Global, drivers: u32) -> Result<Due, AllocError>
        ensures { IfOk result (λ due. due ≡ record { listed = []; room = drivers }) }
    {
        Ok(Due {
            drivers: Vec::with_capacity(alloc, drivers as usize)?,
            room: drivers,
        })
    }

    /// How many are listed.
    pub fn len(&self) -> u32
        ensures { result ≡ length self.now.listed }
    {
        self.drivers.len() as u32
    }

    /// The one with this number, counted from 0.
    pub fn at(&self, k: u32) -> u32
        requires { k < length self.now.listed }
        ensures { result ≡ slice_index self.now.listed k }
    {
        self.drivers[k as usize]
    }

    /// Lists none.
    pub(crate) fn clear(&mut self)
        ensures { self.new ≡ record self.old { listed = [] } }
    {
        self.drivers.clear();
    }

    /// Lists one more.
    pub(crate) fn add(&mut self, driver: u32)
        requires { length self.old.listed < self.old.room }
        ensures { self.new ≡ record self.old { listed = self.old.listed ++ driver ∷ [] } }
    {
        let _ = self.drivers.push(driver);
    }
}

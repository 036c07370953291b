//! Positions of units.

ghost use Rattle.std.specs.Prelude.{◌≡◌};
ghost use Rattle.std.specs.Option.{option_copied};
ghost use Rattle.vital_library.specs.Positions.{arch_at, entity_at, role_at, unit_at};

use vital_nodes::{Arch, Entity, Role, Unit, Units};

/// Where a unit stands: the number of its file, and its own in that file, each from 0.
#[derive(Clone, Copy, PartialEq, Eq)]
pub struct Position {
    pub file: usize,
    pub unit: u32,
}

impl Position {
    /// The unit there.
    pub fn unit_in(self, files: &[Units]) -> Option<&Unit>
        ensures { option_copied result ≡ unit_at files.now self }
    {
        files
            .get(self.file)?
            .units
            .as_slice()
            .get(self.unit as usize)
    }

    /// The entity there.
    pub fn entity_in(self, files: &[Units]) -> Option<&Entity>
        ensures { option_copied result ≡ entity_at files.now self }
    {
        match self.unit_in(files) {
            Some(Unit::Entity(entity)) => Some(entity),
            _ => None,
        }
    }

    /// What the entities of the file are.
    pub fn role_in(self, files: &[Units]) -> Option<Role>
        ensures { result ≡ role_at files.now self }
    {
        Some(files.get(self.file)?.role)
    }

    /// The architecture there.
    pub fn arch_in(self, files: &[Units]) -> Option<&Arch>
        ensures { option_copied result ≡ arch_at files.now self }
    {
        match self.unit_in(files) {
            Some(Unit::Arch(arch)) => Some(arch),
            _ => None,
        }
    }
}

//! The instances of a design as they are entered, one after another.

ghost use Rattle.std.specs.Prelude.{◌≡◌, ◌<◌, ◌≤◌, ◌+◌, ◌∷◌, ◌++◌, [], length, Some, None, OnOk, IfErr};
ghost use Rattle.std.specs.Option.{option_map};
ghost use Rattle.vital_instances.specs.Faults.{IsError};
ghost use Rattle.vital_instances.specs.Faults as faults;
ghost use Rattle.vital_instances.specs.Frames as spec;
ghost use Rattle.vital_instances.specs.Instances.{instance_of, lent, most_instances, most_labels};
ghost use Rattle.vital_instances.specs.Judges.{IsJudge, Judge};
ghost use Rattle.vital_instances.specs.Units as of_units;
ghost use Rattle.vital_instances.specs.Units.{unit_at as unit_at'};
ghost use Rattle.vital_library.specs.Units.{entities};

use crate::entry::Entry;
use crate::fault::{Fault, InstancesError};
use crate::frame::Frame;
use crate::instance::Instance;
use crate::library_unit::{LibraryUnit, unit_at};
use crate::open_units::OpenUnits;
use std::alloc::{AllocError, Global};

/// The greatest number of instances, the top among them.
pub const MOST_INSTANCES: usize = 16_384;

/// The greatest number of labels on a path.
pub const MOST_LABELS: usize = 32;

/// The instances that were found so far, and those in which others are being entered: each but the last is the parent of the next.
#[derive(Drop)]
pub struct Entering {
    pub found: Vec<Instance>,
    pub frames: Vec<Frame>,
}

impl Entering {
    /// Nothing is entered.
    pub fn new(alloc: Global) -> Entering
        ensures found { result.found.items ≡ [] }
        ensures frames { result.frames.items ≡ [] }
    {
        Entering {
            found: Vec::new(alloc),
            frames: Vec::new(alloc),
        }
    }

    /// Whether an entity stands on the path.
    fn is_above(&self, entity: u32) -> bool
        ensures { result ≡ spec.is_on_path self.now.frames.items entity }
    {
        self.frames.iter().any(|frame| frame.entity == entity)
    }

    /// Why an instance may not be entered, by its path and by how many were found.
    fn misplaced<'a>(&self, entry: Entry<'a>) -> Option<Fault<'a>>
        ensures { option_map faults.lent result ≡ spec.misplaced self.now.frames.items self.now.found.items (lent entry.entry) }
    {
        if self.is_above(entry.entity) {
            Some(Fault::Loop(entry.name))
        } else if self.frames.len() > MOST_LABELS {
            Some(Fault::TooDeep(entry.name))
        } else if self.found.len() >= MOST_INSTANCES {
            Some(Fault::TooManyInstances(entry.name))
        } else {
            None
        }
    }

    /// Puts an instance, the instances in which are to be entered.
    fn put(&mut self, entry: Entry<'_>) -> Result<(), AllocError>
        ensures found { OnOk result (self.new.found.items ≡ self.old.found.items ++ instance_of (lent entry.entry) ∷ []) }
        ensures frames { OnOk result (self.new.frames.items ≡ self.old.frames.items ++ spec.frame_of (length self.old.found.items) (lent entry.entry) ∷ []) }
    {
        let instance = self.found.len();
        self.found.push(entry.instance())?;
        self.frames.push(Frame {
            entity: entry.entity,
            instance,
            next: 0,
        })?;
        Ok(())
    }

    /// Enters an instance of a unit that may stand there, but for those in it.
    fn enter_unit<'a>(
        &mut self,
        alloc: Global,
        units: &mut OpenUnits<'a>,
        entry: Entry<'a>,
        unit: LibraryUnit<'a>,
    ) -> Result<(), InstancesError<'a>>
        requires placed { spec.misplaced self.old.frames.items self.old.found.items (lent entry) ≡ None }
        requires unit { unit_at' units.old entry.entity ≡ Some (of_units.lent unit) }
        requires there { entry.entity < length (entities units.old) }
        ensures entered { OnOk result ((judge : Judge) → IsJudge judge → spec.entered_all judge units.old self.old.frames.items (lent entry.entry) self.old.found.items ≡ spec.resumed_all judge units.old self.new.frames.items self.new.found.items) }
        ensures fault { IfErr result (λ e. (judge : Judge) → IsJudge judge → IsError (spec.entered_all judge units.old self.old.frames.items (lent entry.entry) self.old.found.items) e) }
        ensures same { units.new ≡ units.old }
        ensures found { OnOk result (self.new.found.items ≡ self.old.found.items ++ instance_of (lent entry.entry) ∷ []) }
        ensures frames { OnOk result (self.new.frames.items ≡ self.old.frames.items ++ spec.frame_of (length self.old.found.items) (lent entry.entry) ∷ []) }
    {
        units.open(alloc, entry.entity, unit)?;
        self.put(entry)?;
        Ok(())
    }

    /// Enters an instance, but for those in it.
    pub fn enter<'a>(
        &mut self,
        alloc: Global,
        units: &mut OpenUnits<'a>,
        entry: Entry<'a>,
    ) -> Result<(), InstancesError<'a>>
        requires { length self.old.frames.items ≤ most_labels + 1 }
        ensures entered { OnOk result ((judge : Judge) → IsJudge judge → spec.entered_all judge units.old self.old.frames.items (lent entry.entry) self.old.found.items ≡ spec.resumed_all judge units.old self.new.frames.items self.new.found.items) }
        ensures fault { IfErr result (λ e. (judge : Judge) → IsJudge judge → IsError (spec.entered_all judge units.old self.old.frames.items (lent entry.entry) self.old.found.items) e) }
        ensures same { units.new ≡ units.old }
        ensures placed { OnOk result (spec.misplaced self.old.frames.items self.old.found.items (lent entry.entry) ≡ None) }
        ensures found { OnOk result (self.new.found.items ≡ self.old.found.items ++ instance_of (lent entry.entry) ∷ []) }
        ensures frames { OnOk result (self.new.frames.items ≡ self.old.frames.items ++ spec.frame_of (length self.old.found.items) (lent entry.entry) ∷ []) }
    {
        if let Some(fault) = self.misplaced(entry) {
            return Err(InstancesError::Fault(fault));
        }
        match unit_at(units.library(), entry.entity) {
            Some(unit) => self.enter_unit(alloc, units, entry, unit),
            None => Err(InstancesError::Fault(Fault::UnknownUnit(entry.name))),
        }
    }

    /// Enters the next of the instances in one, if one is left there.
    fn step<'a>(
        &mut self,
        alloc: Global,
        units: &mut OpenUnits<'a>,
        frame: Frame,
    ) -> Result<(), InstancesError<'a>>
        requires { length self.old.frames.items ≤ most_labels }
        ensures resumed { OnOk result ((judge : Judge) → IsJudge judge → spec.resumed_all judge units.old (self.old.frames.items ++ frame ∷ []) self.old.found.items ≡ spec.resumed_all judge units.old self.new.frames.items self.new.found.items) }
        ensures fault { IfErr result (λ e. (judge : Judge) → IsJudge judge → IsError (spec.resumed_all judge units.old (self.old.frames.items ++ frame ∷ []) self.old.found.items) e) }
        ensures same { units.new ≡ units.old }
        ensures less { OnOk result (spec.work self.new.frames.items self.new.found.items < spec.work (self.old.frames.items ++ frame ∷ []) self.old.found.items) }
        ensures most_frames { OnOk result (length self.new.frames.items ≤ most_labels + 1) }
    {
        match frame.next_entry(units.net_units()) {
            Some(entry) => {
                self.frames.push(frame.behind())?;
                self.enter(alloc, units, entry)?;
                Ok(())
            }
            None => Ok(()),
        }
    }

    /// Enters all that is left.
    pub fn finish<'a>(
        &mut self,
        alloc: Global,
        units: &mut OpenUnits<'a>,
    ) -> Result<(), InstancesError<'a>>
        requires { length self.old.frames.items ≤ most_labels + 1 }
        ensures resumed { OnOk result ((judge : Judge) → IsJudge judge → spec.resumed_all judge units.old self.old.frames.items self.old.found.items ≡ Ok self.new.found.items) }
        ensures fault { IfErr result (λ e. (judge : Judge) → IsJudge judge → IsError (spec.resumed_all judge units.old self.old.frames.items self.old.found.items) e) }
    {
        while let Some(frame) = self.frames.pop() {
            self.step(alloc, units, frame)?;
        }
        Ok(())
    }
}

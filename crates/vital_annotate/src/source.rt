//! What the entries of files make of the delays.
#![tactic(auto, using(crate::proofs::OutcomeLemmas::no_memory, crate::proofs::OutcomeLemmas::made))]

ghost use Rattle.std.specs.Prelude.{◌≡◌, []};
ghost use Rattle.vital_annotate.specs.Annotations as spec;
ghost use Rattle.vital_annotate.specs.Instances as instances';
ghost use Rattle.vital_annotate.specs.Outcomes.{IsOutcome};
ghost use Rattle.vital_sdf.specs.declared.entry.EntryKind.TheVariants as entry';

use crate::annotate_error::AnnotateError;
use crate::annotations::Annotations;
use crate::entries::{Meant, enter_timing};
use crate::how::How;
use crate::instances::CellInstances;
use crate::note::NoteWhy;
use std::alloc::Global;
use vital_base::{Corner, Name, Place};
use vital_sdf::{Entry, EntryKind, Group, SdfFile, Timing, TimingKind};

/// What all entries are for, and which value of a triple is taken.
#[derive(Drop)]
pub struct Source<'a> {
    pub alloc: Global,
    pub instances: &'a CellInstances<'a>,
    pub corner: Corner,
}

/// The labels before an interconnection's port, which go on from the instance of the group.
fn labels_of(timing: &Timing) -> &[Name]
    ensures { result.now ≡ spec.labels_of timing.now.kind timing.now.first }
{
    match timing.kind {
        TimingKind::Port => timing.first.labels.as_slice(),
        TimingKind::IoPath
        | TimingKind::Setup
        | TimingKind::Hold
        | TimingKind::Recovery
        | TimingKind::Removal
        | TimingKind::SetupHold
        | TimingKind::RecRem
        | TimingKind::Period
        | TimingKind::Width => &[],
    }
}

impl<'a> Source<'a> {
    /// What delays or limits make, that stand at a place in a group for the instances of these numbers.
    fn enter_timing(
        &self,
        group: &Group,
        numbers: &[usize],
        place: Place,
        timing: &Timing,
        buffer: &mut Vec<u8>,
        annotations: &mut Annotations,
    ) -> Result<(), AnnotateError>
        requires { numbers.now ≡ instances'.meant self.now.instances.now group.now.cell_type group.now.instance [] }
        ensures { IsOutcome (spec.entered self.now.instances.now self.now.corner group.now place (entry'.Timing timing.now) annotations.old) result annotations.new }
    {
        let how = How {
            corner: self.corner,
            place,
            mode: timing.mode,
        };
        let labels = labels_of(timing);
        if labels.is_empty() {
            let meant = Meant {
                instances: self.instances,
                how,
                numbers,
            };
            return enter_timing(&meant, timing, buffer, annotations);
        }
        let numbers = self.instances.meant(self.alloc, buffer, group, labels)?;
        let meant = Meant {
            instances: self.instances,
            how,
            numbers: &numbers,
        };
        enter_timing(&meant, timing, buffer, annotations)
    }

    /// What an entry of a group makes, which is for the instances of these numbers.
    fn enter(
        &self,
        group: &Group,
        numbers: &[usize],
        entry: &Entry,
        buffer: &mut Vec<u8>,
        annotations: &mut Annotations,
    ) -> Result<(), AnnotateError>
        requires { numbers.now ≡ instances'.meant self.now.instances.now group.now.cell_type group.now.instance [] }
        ensures { IsOutcome (spec.entered self.now.instances.now self.now.corner group.now entry.now.place entry.now.kind annotations.old) result annotations.new }
    {
        match &entry.kind {
            EntryKind::Passed => {
                annotations.note(entry.place, NoteWhy::Passed)?;
                Ok(())
            }
            EntryKind::NoPort => {
                annotations.note(entry.place, NoteWhy::Port)?;
                Ok(())
            }
            EntryKind::Timing(timing) => {
                self.enter_timing(group, numbers, entry.place, timing, buffer, annotations)
            }
        }
    }

    /// What the entries of a group make. Their instances are found once.
    fn enter_group(
        &self,
        group: &Group,
        buffer: &mut Vec<u8>,
        annotations: &mut Annotations,
    ) -> Result<(), AnnotateError>
        ensures { IsOutcome (spec.group_entered self.now.instances.now self.now.corner group.now annotations.old) result annotations.new }
    {
        let numbers = self.instances.meant(self.alloc, buffer, group, &[])?;
        let entries = group.entries.as_slice();
        for entry in entries {
            self.enter(group, &numbers, entry, buffer, annotations)?;
        }
        Ok(())
    }

    /// What a file makes.
    fn enter_file(
        &self,
        file: &SdfFile,
        buffer: &mut Vec<u8>,
        annotations: &mut Annotations,
    ) -> Result<(), AnnotateError>
        ensures { IsOutcome (spec.file_entered self.now.instances.now self.now.corner file.now annotations.old) result annotations.new }
    {
        let groups = file.groups.as_slice();
        for group in groups {
            self.enter_group(group, buffer, annotations)?;
        }
        Ok(())
    }

    /// What files make, one after the other. What was in the buffer is written over.
    pub fn enter_files(
        &self,
        files: &[SdfFile],
        buffer: &mut Vec<u8>,
        annotations: &mut Annotations,
    ) -> Result<(), AnnotateError>
        ensures { IsOutcome (spec.each (spec.file_entered self.now.instances.now self.now.corner) files.now annotations.old) result annotations.new }
    {
        for file in files {
            self.enter_file(file, buffer, annotations)?;
        }
        Ok(())
    }
}

ghost use Rattle.std.specs.Prelude.{◌≡◌, ℕ, ◌<◌, ◌≤◌, List, [], length, Option, None, Some, IfOk, OnOk, OnErr, IsErr, IsSome, IfSome, option_map};
ghost use Rattle.vital_base.specs.Faults.{Rose};
ghost use Rattle.vital_base.specs.Shelves.{Files, History, OpensWhole, TakesNext, with_open, with_read};

use crate::bytes::Name;
use crate::failed::Failed;

/// Files by name, of which one at a time is open for reading.
///
/// A shelf may tell its files, and one that does may also be steady: then it stays steady, and it fails only for a name that
/// is not there and for a read with no file open. Every shelf counts its faults, and no call changes the files. A shelf may
/// tell its history too: what was to be opened, and how often it was read.
pub trait Shelf {
    // What each name holds, where the shelf tells its files.
    ghost files: { Self → Option Files };

    // What is left of the open file; None where no file is open.
    ghost opened: { Self → Option (List ℕ) };

    // How many faults there were; the count stands still at 2^64 - 1.
    ghost faults: { Self → ℕ };

    // It fails only where the caller can know it.
    ghost is_steady: { Self → Type 0 };

    // What was asked of it, where the shelf tells that.
    ghost history: { Self → Option History };

    /// Opens the file of this name at its start, in place of one that was open. A name that is not there is a fault, and
    /// after a fault no file is open.
    fn open(&mut self, name: &Name) -> Result<(), Failed>
        ensures keeps_files { files self.new ≡ files self.old }
        ensures stays_steady { is_steady self.old → is_steady self.new }
        ensures never_falls { faults self.old ≤ faults self.new }
        ensures is_noted { history self.new ≡ option_map (with_open name.now) (history self.old) }

        ensures ok_leaves_count { OnOk result (faults self.new ≡ faults self.old) }
        ensures ok_opens { OnOk result (IsSome (opened self.new)) }
        ensures ok_opens_whole { OnOk result (IfSome (files self.old) (λ told.
            OpensWhole told name.now (opened self.new))) }

        ensures err_rose { OnErr result (Rose (faults self.old) (faults self.new)) }
        ensures err_closes { OnErr result (opened self.new ≡ None) }
        ensures steady_err_is_missing { OnErr result (is_steady self.old
            → IfSome (files self.old) (λ told. told name.now ≡ None)) };

    /// Takes one or more of the next bytes of the open file into the front of the piece, and says how many; 0 at the end of
    /// the file alone. A fault takes nothing, and with no file open every read is one.
    fn read(&mut self, piece: &mut [u8]) -> Result<usize, Failed>
        requires { 0 < length piece.old }
        ensures keeps_files { files self.new ≡ files self.old }
        ensures stays_steady { is_steady self.old → is_steady self.new }
        ensures never_falls { faults self.old ≤ faults self.new }

        ensures ok_within { IfOk result (λ count. count ≤ length piece.new) }
        ensures ok_leaves_count { OnOk result (faults self.new ≡ faults self.old) }
        ensures ok_takes_next { IfOk result (λ count. IfSome (files self.old) (λ _.
            TakesNext count piece.new (opened self.old) (opened self.new))) }
        ensures ok_takes_none_at_end { IfOk result (λ count. IfSome (files self.old) (λ _.
            count ≡ 0 → opened self.old ≡ Some [])) }
        ensures ok_is_noted { IfOk result (λ count.
            history self.new ≡ option_map (with_read count) (history self.old)) }

        ensures closed_fails { opened self.old ≡ None → IsErr result }
        ensures err_rose { OnErr result (Rose (faults self.old) (faults self.new)) }
        ensures err_takes_nothing { OnErr result (opened self.new ≡ opened self.old) }
        ensures err_is_not_noted { OnErr result (history self.new ≡ history self.old) }
        ensures steady_err_is_closed { OnErr result (is_steady self.old → opened self.old ≡ None) };
}

ghost use Rattle.std.specs.Prelude.{◌≡◌, ℕ, ◌<◌, ◌≤◌, length, take, IfOk, OnOk, OnErr};
ghost use Rattle.vital_base.specs.Faults.{Rose};
ghost use Rattle.vital_base.specs.Sinks.{Told, appended};

use crate::failed::Failed;

/// Where bytes are written to, in order. A sink may tell the bytes that it got, and it counts its faults.
pub trait Sink {
    // What it tells of the bytes that it got.
    ghost told: { Self → Told };

    // How many faults there were; the count stands still at 2^64 - 1.
    ghost faults: { Self → ℕ };

    // Its writes may take none of a piece and answer Ok.
    ghost may_stick: { Self → Type 0 };

    /// Appends first bytes of the piece, and says how many; 0 only where the sink may stick. A fault appends nothing.
    fn write(&mut self, piece: &[u8]) -> Result<usize, Failed>
        requires { 0 < length piece.now }
        ensures keeps_may_stick { may_stick self.old → may_stick self.new }
        ensures never_falls { faults self.old ≤ faults self.new }

        ensures ok_within { IfOk result (λ count. count ≤ length piece.now) }
        ensures ok_leaves_count { OnOk result (faults self.new ≡ faults self.old) }
        ensures ok_appends { IfOk result (λ count.
            told self.new ≡ appended (told self.old) (take count piece.now)) }
        ensures ok_sticks_where_it_may { IfOk result (λ count. count ≡ 0 → may_stick self.old) }

        ensures err_rose { OnErr result (Rose (faults self.old) (faults self.new)) }
        ensures err_appends_nothing { OnErr result (told self.new ≡ told self.old) };

    /// Counts that a write took none of a piece, as a fault, where the sink may stick. It writes nothing.
    fn note_stuck(&mut self)
        ensures keeps_may_stick { may_stick self.old → may_stick self.new }
        ensures rose { may_stick self.old → Rose (faults self.old) (faults self.new) }
        ensures never_falls { faults self.old ≤ faults self.new }
        ensures writes_nothing { told self.new ≡ told self.old };
}

//! Laws of runs, as functions whose contracts they are.

ghost use Rattle.std.specs.Prelude.{◌≡◌, ℕ, ◌<◌, true, List, length};
ghost use Rattle.vital_agenda.specs.Driver.{AllRise};
ghost use Rattle.vital_base.specs.declared.ports.PortBit.{PortBit};
ghost use Rattle.vital_kernel.specs.DesignNetworks.{is_stimulated};
ghost use Rattle.vital_kernel.specs.Networks.{Network};
ghost use Rattle.vital_kernel.specs.PortNetworks.{IsOfDesign};
ghost use Rattle.vital_kernel.specs.PortRuns.{IsPortRun};
ghost use Rattle.vital_kernel.specs.Runs.{HasOneRun, HasOneRunFrom, Run};
ghost use Rattle.vital_kernel.specs.States.{State};
ghost use Rattle.vital_stim.specs.declared.stimuli.StimLine.{StimLine};

/// From each state in which no transaction is pending before the present there is one run up to an end time with a limit of delta numbers,
/// and the plain program gives it: a law, called for its clause.
pub fn one_run_from()
    ensures { (n : Network) (until limit : ℕ) (s : State) → AllRise s.now s.drivers → HasOneRunFrom n until limit s }
{}

/// So it is from the start: a law, called for its clause.
pub fn one_run()
    ensures { (n : Network) (lines : List StimLine) (until limit : ℕ) → HasOneRun n lines until limit }
{}

/// Where each port is named by a line of the stimuli, the network of ports is that of their design: a law, called for its clause.
pub fn ports_are_a_design()
    ensures { (ports : List PortBit) (lines : List StimLine)
        → ((i : ℕ) → i < length ports → is_stimulated lines i ≡ true) → IsOfDesign ports lines }
{}

/// The run of ports alone, in which cycles of delta number 1 may begin, ends: a law, called for its clause.
pub fn port_run()
    ensures { (ports : List PortBit) (lines : List StimLine) (until limit : ℕ) → 1 < limit → (r : Run) × IsPortRun ports lines until limit r }
{}

//! Laws of designs, as functions whose contracts they are.

ghost use Rattle.std.specs.Prelude.{◌≡◌, ◌<◌, ◌^◌, List, length, All, None, IsSome};
ghost use Rattle.vital_as_read.specs.Libraries.{IsFromText};
ghost use Rattle.vital_netlist.specs.Elaboration.{design_of, fault_of_count};
ghost use Rattle.vital_netlist.specs.Soundness.{IsSoundDesign};
ghost use Rattle.vital_instances.specs.declared.instance.Instance.{Instance};
ghost use Rattle.vital_instances.specs.Designs.{AreEntered};
ghost use Rattle.vital_netlist.specs.Bits.{bits};
ghost use Rattle.vital_netlist.specs.Nets.{signal_number};
ghost use Rattle.vital_nodes.specs.declared.unit.Units.{Units};

use crate::cell_laws::ports_of_cells_are_bits;
use vital_as_read::cells_are_as_read;
use vital_connections::associations_are_apart;
use vital_instances::instances_are_good;
use vital_typed_cells::typed_is_sound;

/// Each bit of a design has a signal, that of its net, where the instances have no fault: a law, called for its clause.
pub fn bits_have_signals()
    ensures { (files : List Units) (found : List Instance) → AreEntered files found → All (λ b. IsSome (signal_number files found b)) (bits files found) }
{
    instances_are_good();
    ports_of_cells_are_bits();
    associations_are_apart();
}

/// The design that instances of units of a library make is sound, where the files of the library were read from text, the instances have no
/// fault, and their signals and drivers are not too many: a law, called for its clause.
pub fn designs_are_sound()
    ensures { (files : List Units) (found : List Instance) → All IsFromText files → AreEntered files found → fault_of_count files found ≡ None → length (design_of files found).drivers < 2 ^ 31 → IsSoundDesign (design_of files found) }
{
    instances_are_good();
    ports_of_cells_are_bits();
    associations_are_apart();
    cells_are_as_read();
    typed_is_sound();
}

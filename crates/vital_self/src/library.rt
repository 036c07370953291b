//! The library: one cell.

ghost use Rattle.std.specs.Prelude.{◌≡◌};
ghost use Rattle.vital_self.specs.Library.{library};

/// The text of the file `and2.vhd`: a cell AND2 of two inputs, whose output is their NAND.
#[tactic(auto, unfolding(crate::specs::Library::library))]
pub(crate) fn library() -> &'static [u8]
    ensures { result.now ≡ library }
{
    br#"library IEEE;
use IEEE.STD_LOGIC_1164.all;
use IEEE.VITAL_Timing.all;
entity AND2 is
  generic (
    TimingChecksOn : Boolean := True;
    InstancePath : STRING := "*";
    XOn : Boolean := True;
    MsgOn : Boolean := True;
    tpd_A_Y : VitalDelayType01 := (0.200 ns, 0.300 ns);
    tpd_B_Y : VitalDelayType01 := (0.200 ns, 0.300 ns);
    tipd_A : VitalDelayType01 := (0.100 ns, 0.300 ns);
    tipd_B : VitalDelayType01 := (0.000 ns, 0.000 ns));
  port (
    A : in STD_ULOGIC;
    B : in STD_ULOGIC;
    Y : out STD_ULOGIC);
  attribute VITAL_LEVEL0 of AND2 : entity is TRUE;
end AND2;
architecture VITAL of AND2 is
  attribute VITAL_LEVEL1 of VITAL : architecture is TRUE;
  signal A_ipd : STD_ULOGIC := 'X';
  signal B_ipd : STD_ULOGIC := 'X';
begin
  WireDelay : block
  begin
    VitalWireDelay (A_ipd, A, tipd_A);
    VitalWireDelay (B_ipd, B, tipd_B);
  end block;
  VITALBehavior : process (A_ipd, B_ipd)
    variable Results : STD_LOGIC_VECTOR(1 to 1) := (others => 'X');
    variable Y_GlitchData : VitalGlitchDataType;
    alias Y_zd : STD_ULOGIC is Results(1);
  begin
    Y_zd := (A_ipd) NAND (B_ipd);
    VitalPathDelay01 (
      OutSignal => Y,
      GlitchData => Y_GlitchData,
      OutSignalName => "Y",
      OutTemp => Y_zd,
      Paths => (0 => (A_ipd'last_event, tpd_A_Y, TRUE),
                1 => (B_ipd'last_event, tpd_B_Y, TRUE)),
      Mode => OnEvent,
      XOn => XOn,
      MsgOn => MsgOn,
      MsgSeverity => WARNING);
  end process;
end VITAL;
"#
}

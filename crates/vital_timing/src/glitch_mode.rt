//! How glitches are treated.

/// How a path delay treats a change that comes while an earlier one is pending (IEEE 1076.4, VitalGlitchKindType).
#[derive(Clone, Copy, Debug, PartialEq, Eq)]
pub enum GlitchMode {
    /// The output is unknown from the time of the pending change on.
    OnEvent,
    /// The output is unknown from the time on at which the glitch is found.
    OnDetect,
    /// VitalInertial: the output is assigned by inertial delay.
    Inertial,
    /// VitalTransport: the output is assigned by transport delay.
    Transport,
}

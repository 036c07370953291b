//! What is wrong with an SDF file that the grammar does not refuse.

/// What an SDF file says and may not.
#[derive(Clone, Copy, Debug, PartialEq, Eq)]
pub enum SdfFault {
    /// A TIMESCALE is not 1, 10, 100, 1.0, 10.0 or 100.0 with s, ms, us, ns, ps or fs.
    Timescale,
    /// A DIVIDER is not `.` or `/`.
    Divider,
    /// An IOPATH, PORT or INTERCONNECT has no value, or more than twelve.
    Values,
}

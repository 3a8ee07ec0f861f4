// The status of a program.

/// How the program ends.
#[derive(Clone, Copy, Debug, PartialEq, Eq)]
pub struct Status {
    /// The exit status, 0 to 6.
    pub code: u8,
}

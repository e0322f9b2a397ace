//! A register that was opened, and how it came to be open.

/// A register that was opened, or set up where there was none.
pub struct Opened<K> {
    /// The register.
    pub register: K,
    /// How it came to be open.
    pub origin: Origin,
}

/// How a register came to be open.
#[derive(Clone, Copy, PartialEq, Eq)]
pub enum Origin {
    /// It stood in its file.
    Found,
    /// It was set up, in a file that had nothing else.
    New,
}

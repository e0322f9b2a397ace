//! What is told where a mirror is let go.

/// The notice of a mirror that is let go.
pub trait Notice {
    /// The register is no longer in memory: all is asked of the store from now on.
    fn let_go(&self);
}

//! Where a command is that may take long.

/// Where a command is that may take long.
#[derive(Clone, Copy, PartialEq, Eq)]
pub enum Stage<'a> {
    /// The register in the file of this name is opened next.
    Opening(&'a str),
    /// So many of all the files of requests were read.
    Reading {
        /// How many were read.
        read: usize,
        /// How many there are.
        files: usize,
    },
    /// So many requests are answered next.
    Answering(usize),
    /// A file is read from standard input next. Whoever types it may not know.
    Input,
    /// A report is made next.
    Reporting,
    /// The register is read into memory next.
    Filling,
}

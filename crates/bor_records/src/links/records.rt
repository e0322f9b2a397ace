//! Records that are read by key, one at a time.

ghost use Rattle.std.specs.Prelude.{◌≡◌, option_map};
ghost use Rattle.std.specs.declared.alloc.AllocError.{AllocError};
ghost use Rattle.bor_records.specs.Reading.{ReadsSo, ReadsAsOne, Reading};
ghost use Rattle.bor_records.specs.Links.Answers.{HaveSigned};
ghost use Rattle.bor_records.specs.Links.Shown.{Shown, identifiers_in};

use crate::links::node::Node;
use crate::links::sign::Sign;
use bods_read::Identifier;
use std::alloc::AllocError;
use std::convert::AsSlice;

/// Records of a register, as they stand for a viewer on a day, read by key. They may be in memory,
/// or in tables over a connection that fails.
///
/// What a state shows is a relation (`reading.shows`), and what is shown has open nodes and links (`shown`).
/// A read that ends clean leaves what is shown. Then its answer is of that, and its fault is one
/// that it may answer (`reading.may_tell`). What else a read leaves as it was, whoever implements
/// this says (`reading.leads`, and `reading.lasts` where there is an answer), and reads one after
/// another leave it too. Where no state shows anything, nothing is promised of an answer.
pub trait Records {
    /// Why a read had no answer. Want of memory is one such fault.
    type Fault: Drop + From<AllocError>;

    /// Nodes, lent or made.
    type Nodes: AsSlice<Node> + Drop;

    /// Identifiers, lent or made.
    type Identifiers: AsSlice<Identifier> + Drop;

    /// What a state shows.
    ghost Content: { Type 0 };

    /// The open nodes and the links of what is shown.
    ghost shown: { Content → Shown };

    /// What reads do.
    ghost reading: { Reading Self Content Self.Fault };

    /// The identifiers of a record that is an open entity; `None` where it isn't one.
    fn identifiers(&mut self, node: &Node) -> Result<Option<Self::Identifiers>, Self::Fault>
        ensures { ReadsSo reading self.old self.new result (λ m found.
            option_map (λ i. Self.Identifiers.items i) found
            ≡ identifiers_in (shown m).nodes node.now) };

    /// Records among which are those of all open entities that have a sign.
    fn signed(&mut self, sign: &Sign) -> Result<Self::Nodes, Self::Fault>
        ensures { ReadsSo reading self.old self.new result (λ m nodes.
            HaveSigned (shown m) sign.now (Self.Nodes.items nodes)) };

    /// Reads one after another are as one.
    ghost goes_on: { ReadsAsOne reading };

    /// A read may fail for want of memory.
    ghost tells_memory: { (error : AllocError) (fault : Self.Fault)
        → Self.Fault.from_gives error fault → reading.may_tell fault };
}

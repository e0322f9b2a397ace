//! The store below a mirror, and what is asked of it.

ghost use Rattle.std.specs.Prelude.{◌≡◌, ◌↔◌, IfOk, IfSome};
ghost use Rattle.bor_records.specs.Promises.{Reads};
ghost use Rattle.bor_register.specs.Bare.{bare_register};

use bor_register::StoreFault;
use bor_register::keeping::Keep;
use bor_register::memory::ListKeep;

/// What a store is known by without being asked, which is for contracts alone.
pub trait StoreState {
    /// The store is open, if it has returned what was written.
    ghost is_open: { Self → Type 0 };
}

/// A keep that can be mirrored: it hands out its register whole.
pub trait MirrorStore: Keep + StoreState {
    /// The register in memory, each filing without its file; `None` where it has more live
    /// statements than so many, or there is no memory for it. Only a store that is open answers, if
    /// it has returned what was written.
    fn whole(&mut self, most: u32) -> Result<Option<ListKeep>, StoreFault>
        ensures reads { Reads Self.meaning self.old self.new result (λ r whole.
            IfSome whole (λ mirror. mirror.register ≡ bare_register r)) }
        ensures up { IfOk result (λ _.
            Self.meaning.is_sound self.new → Self.meaning.is_clean self.new) };

    /// Where the store is open, it is clean, if it has returned what was written.
    ghost open_is_clean: { (k : Self) → Self.is_open k
        ↔ (Self.meaning.is_sound k → Self.meaning.is_clean k) };
}

//! How much a mirror may hold.

ghost use Rattle.std.specs.Prelude.{◌≡◌, ◌*◌, min};
ghost use Rattle.bor_store.specs.Room.{statements_a_megabyte};

/// How many live statements a mirror may hold that may take so many megabytes of memory.
pub fn statements_within(megabytes: u32) -> u32
    ensures { result ≡ min (megabytes * statements_a_megabyte) u32.MAX }
{
    megabytes.saturating_mul(650)
}

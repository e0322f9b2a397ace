//! Which places of clients are taken.

ghost use Rattle.std.specs.Prelude.{◌≡◌, false, length, MatchOption, set};
ghost use Rattle.bor_program.specs.Connections.Places.{Takes, place_count, taken_in};

use crate::connections::watch::PLACES;

/// The places of clients, and which of them are taken.
#[derive(Drop)]
pub(crate) struct Seats {
    taken: [bool; PLACES],
    ghost all: { length taken ≡ place_count },
}

impl Seats {
    /// Free places.
    pub(crate) fn new() -> Seats
        ensures { taken_in result.taken ≡ 0 }
    {
        Seats {
            taken: [false; PLACES],
        }
    }

    /// Takes a place that is free, if there is one.
    pub(crate) fn take(&mut self) -> Option<usize>
        ensures { MatchOption result
            ((taken_in self.old.taken ≡ place_count) × (self.new ≡ self.old))
            (λ place. Takes self.old.taken place self.new.taken) }
    {
        for place in 0..PLACES {
            if !self.taken[place] {
                self.taken[place] = true;
                return Some(place);
            }
        }
        None
    }

    /// Leaves a place.
    pub(crate) fn leave(&mut self, place: usize)
        ensures { self.new.taken ≡ set self.old.taken place false }
    {
        if place < PLACES {
            self.taken[place] = false;
        }
    }
}

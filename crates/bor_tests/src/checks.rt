//! The assertions of the tests, each kind in one place: the text that is printed where one fails is
//! proved once, and not in each test.

use std::process::Abort;

/// It is so.
pub(crate) fn holds(rt: &impl Abort, what: &str, is_so: bool) {
    assert!(rt; is_so, "{what}");
}

/// It is so at this place.
pub(crate) fn holds_at(rt: &impl Abort, what: &str, place: usize, is_so: bool) {
    assert!(rt; is_so, "{what} at {place}");
}

/// Each of these is so. The place of one that isn't is told, counted from 0.
pub(crate) fn all_hold(rt: &impl Abort, what: &str, are_so: &[bool]) {
    for (place, is_so) in are_so.iter().enumerate() {
        assert!(rt; *is_so, "{what}, {place}");
    }
}

/// There are so many.
pub(crate) fn counts(rt: &impl Abort, what: &str, count: usize, wanted: usize) {
    assert_eq!(rt; count, wanted, "{what}");
}

/// It ends with this status.
pub(crate) fn ends(rt: &impl Abort, what: &str, status: u8, wanted: u8) {
    assert_eq!(rt; status, wanted, "{what}");
}

// What several tests assert, each in one call.

use std::fmt::Debug;
use std::process::Abort;

/// That what was found of something is what was expected.
pub fn same<T: Debug + PartialEq>(rt: &impl Abort, of: &impl Debug, found: &T, expected: &T) {
    assert!(rt;
        found == expected,
        "of {of:?}: {found:?} in place of {expected:?}"
    );
}

/// That a text is this one.
pub fn same_text(rt: &impl Abort, found: &[u8], expected: &[u8]) {
    assert!(rt; found == expected, "{found:?} in place of {expected:?}");
}

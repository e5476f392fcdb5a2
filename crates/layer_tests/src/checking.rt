//! How the tests fail.
use std::process::Abort;

/// Fails, and names the case, if it isn't so.
pub(super) fn check<R: Abort>(rt: &R, is_so: bool, case: &str) {
    assert!(rt; is_so, "{case}");
}

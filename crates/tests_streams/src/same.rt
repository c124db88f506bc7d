use std::fmt::Debug;
use std::process::Abort;

/// Fails the test and prints both values if what was found isn't the expected value. This takes much less time to prove than a comparison
/// in place.
pub(crate) fn assert_same<T: PartialEq + Debug + Drop>(rt: &impl Abort, found: T, wanted: T) {
    assert!(rt; found == wanted, "{found:?}, and not {wanted:?}");
}

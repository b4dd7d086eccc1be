// One place where values are compared.
use std::fmt::Debug;
use std::process::Abort;

/// Asserts that a value is the one that is expected.
pub(crate) fn expect_equal<T: PartialEq + Debug + Drop>(rt: &impl Abort, value: T, expected: T) {
    assert_eq!(rt; value, expected);
}

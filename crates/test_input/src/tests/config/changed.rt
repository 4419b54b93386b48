//! Every front of a text, and the text with each byte changed: the answer is a configuration, or a fault on a line that
//! the text has.

use super::super::changed::{Language, changes, fronts};
use super::EVERY;

/// More than ten fronts are fine: after BOARD, after each statement and each blank, newline or comment outside of
/// classes.
#[test]
fn fronts_of_every(rt: HostRuntime) {
    let fine = fronts(rt.alloc(), Language::Configuration, EVERY.as_bytes());
    assert!(rt; matches!(fine, Ok(number) if number > 10), "{fine:?}");
}

/// The bytes that each byte is changed to.
const CHANGES: &[u8] = &[b'0', b';', b'{', b'}', b'\n', 0, 0xFF];

/// More than a hundred changes are fine: in comments, of blanks and of digits.
#[test]
fn changed_bytes(rt: HostRuntime) {
    let fine = changes(
        rt.alloc(),
        Language::Configuration,
        EVERY.as_bytes(),
        CHANGES,
    );
    assert!(rt; matches!(fine, Ok(number) if number > 100), "{fine:?}");
}

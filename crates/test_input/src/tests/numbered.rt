//! Texts that are made for many numbers.

use std::alloc::AllocError;

/// Puts a template at the end, with a number in the place of each `#`.
fn put_numbered(text: &mut String, template: &str, number: u32) -> Result<(), AllocError> {
    for byte in template.as_bytes() {
        if *byte == b'#' {
            write!(text, "{number}")?;
        } else {
            text.push(char::from(*byte))?;
        }
    }
    Ok(())
}

/// Puts a template at the end for each number from the first to the last.
pub fn put_all(text: &mut String, template: &str, first: u32, last: u32) -> Result<(), AllocError> {
    for number in first..=last {
        put_numbered(text, template, number)?;
    }
    Ok(())
}

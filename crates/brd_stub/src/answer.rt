//! An answer.

use brd_base::NoMemory;
use std::alloc::Global;

/// What is answered to a request.
pub struct Answer {
    /// The text for GDB's console, which comes before the reply.
    pub console: Vec<u8>,
    /// The reply's payload.
    pub reply: Vec<u8>,
}

/// Written out, so that a function that lets one go is proved with a call, and not with the end of each part.
impl Drop for Answer {
    fn drop(self) {
        let Answer {
            console: _,
            reply: _,
        } = self;
    }
}

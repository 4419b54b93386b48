//! The calls in which tasks and handlers are.

use crate::calls::Calls;
use brd_base::NoMemory;
use std::alloc::Global;

/// How many calls one in the other are kept of a task or a handler (own choice). What is deeper counts to the last one.
const MOST_FRAMES: usize = 65_536;

/// A call that has not returned.
#[derive(Clone, Copy)]
struct Frame {
    /// The place of the call.
    call: usize,
    /// The address of its first instruction.
    target: u32,
    /// Where it returns to.
    returns_to: u32,
    /// How many steps had been done when it was made.
    entered: u64,
}

/// Where an instruction leads to that calls a function or returns from one.
#[derive(Clone, Copy)]
pub(crate) struct Lead {
    /// The address of the instruction.
    pub(crate) from: u32,
    /// Where it leads to, once what stands in its delay slot was executed.
    pub(crate) target: u32,
    /// Whether it calls.
    pub(crate) calls: bool,
}

/// The calls in which a task or a handler is.
#[derive(Drop)]
pub(crate) struct Stack {
    /// Whose they are.
    pub(crate) owner: u32,
    /// How many steps it has done.
    pub(crate) steps: u64,
    frames: Vec<Frame>,
    lead: Option<Lead>,
}

impl Stack {
    /// None yet.
    pub(crate) fn new(alloc: Global, owner: u32) -> Stack {
        Stack {
            owner,
            steps: 0,
            frames: Vec::new(alloc),
            lead: None,
        }
    }

    /// Counts a step at an address, which may lead somewhere.
    pub(crate) fn step(
        &mut self,
        calls: &mut Calls,
        address: u32,
        lead: Option<Lead>,
    ) -> Result<(), NoMemory> {
        self.come_to(calls, address)?;
        self.steps = self.steps.saturating_add(1);
        if lead.is_some() {
            self.lead = lead;
        }
        Ok(())
    }

    /// Comes to an address: by a call, by a return, in a delay slot, or otherwise.
    fn come_to(&mut self, calls: &mut Calls, address: u32) -> Result<(), NoMemory> {
        if let Some(lead) = self.lead {
            if address == lead.from.wrapping_add(4) {
                return Ok(());
            }
            self.lead = None;
            if address == lead.target {
                if lead.calls {
                    return self.enter(calls, lead.from, address);
                }
                self.go_back(calls, address);
                return Ok(());
            }
        }
        if self.begins_anew(address) {
            self.close(calls);
        }
        if self.frames.is_empty() {
            return self.enter(calls, self.owner, address);
        }
        Ok(())
    }

    /// Whether an address is the first one of all, to which no call and no return has led, and a call has not returned.
    fn begins_anew(&self, address: u32) -> bool {
        match self.frames.first() {
            Some(first) => first.target == address && self.frames.len() > 1,
            None => false,
        }
    }

    /// Makes a call.
    fn enter(&mut self, calls: &mut Calls, from: u32, target: u32) -> Result<(), NoMemory> {
        if self.frames.len() >= MOST_FRAMES {
            return Ok(());
        }
        let call = calls.enter(from, target)?;
        self.frames.push(Frame {
            call,
            target,
            returns_to: from.wrapping_add(8),
            entered: self.steps,
        })?;
        Ok(())
    }

    /// Returns to an address, from the last call that does, and from those that were made in it.
    fn go_back(&mut self, calls: &mut Calls, address: u32) {
        let Some(place) = self.last_to(address) else {
            return;
        };
        let count = self.frames.len().saturating_sub(place);
        for _ in 0..count {
            self.leave(calls);
        }
    }

    /// The place of the last call that returns to an address, but for the first of all.
    fn last_to(&self, address: u32) -> Option<usize> {
        for place in (1..self.frames.len()).rev() {
            if let Some(frame) = self.frames.get(place) {
                if frame.returns_to == address {
                    return Some(place);
                }
            }
        }
        None
    }

    /// Leaves the last call.
    fn leave(&mut self, calls: &mut Calls) {
        if let Some(frame) = self.frames.pop() {
            calls.leave(frame.call, self.steps.saturating_sub(frame.entered));
        }
    }

    /// Leaves all calls: the task or handler has ended, or the part has.
    pub(crate) fn close(&mut self, calls: &mut Calls) {
        self.lead = None;
        for _ in 0..self.frames.len() {
            self.leave(calls);
        }
    }
}

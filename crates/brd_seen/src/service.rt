//! The service calls by their names and arguments, which brd_sysgate's table has, and how each value is shown.

use brd_base::NoMemory;
use brd_happening::AskedCall;
use brd_kernel::Call;
use brd_names::{put, put_number, put_signed, put_word};
use brd_sysgate::{Service, service};
use std::alloc::Global;

/// How an argument or a second result is shown.
#[derive(Clone, Copy, PartialEq, Eq)]
pub enum Shown {
    /// There is none.
    Nothing,
    /// As a signed decimal number: IDs, priorities, processors, times, modes.
    Number,
    /// As 0x and hexadecimal digits: bits of event flags, data, addresses.
    Bits,
    /// As a character, where it is printable ASCII: the low byte.
    Character,
}

/// The number of `ext_tsk`.
pub const EXT_TSK: u32 = 3;

/// The number of `ter_tsk`.
pub const TER_TSK: u32 = 4;

/// The number of `ext_ker`.
pub const EXT_KER: u32 = 41;

/// The number of `ret_int`.
pub const RET_INT: u32 = 58;

/// A service call as it is said.
#[derive(Clone, Copy)]
pub struct SaidCall {
    /// What was asked for.
    pub asked: AskedCall,
}

impl SaidCall {
    /// The number of the call.
    pub fn number(&self) -> u32 {
        self.asked.number
    }

    /// The service that it asks for, where there is one of its number.
    pub fn service(&self) -> Option<Service> {
        service(self.asked.number, self.asked.arguments)
    }

    /// The call that it is, where there is one of its number.
    pub fn call(&self) -> Option<Call> {
        match self.service() {
            Some(service) => Some(service.asked.call),
            None => None,
        }
    }

    /// Puts the call at the end, by its name and with its arguments.
    pub fn put(&self, alloc: Global, out: &mut Vec<u8>) -> Result<(), NoMemory> {
        let Some(service) = self.service() else {
            put(out, "service ")?;
            return put_signed(alloc, out, self.asked.number);
        };
        out.extend_from_slice(service.name)?;
        put(out, "(")?;
        self.put_arguments(alloc, out, service)?;
        put(out, ")")
    }

    /// Puts the arguments that a service takes at the end.
    fn put_arguments(
        &self,
        alloc: Global,
        out: &mut Vec<u8>,
        service: Service,
    ) -> Result<(), NoMemory> {
        let shown = arguments_of(service.asked.call);
        for i in 0..4usize {
            if i >= usize::from(service.takes) {
                return Ok(());
            }
            if i > 0 {
                put(out, ", ")?;
            }
            put_value(alloc, out, shown[i], self.asked.arguments[i])?;
        }
        Ok(())
    }

    /// Whether the call answers a count where others answer E_OK.
    pub fn counts(&self) -> bool {
        match self.service() {
            Some(service) => is_counting(service.asked.call),
            None => false,
        }
    }

    /// What the second result is.
    pub fn second(&self) -> Shown {
        match self.service() {
            Some(service) => second_of(service.asked.call),
            None => Shown::Nothing,
        }
    }
}

/// How the arguments of a call are shown.
fn arguments_of(call: Call) -> [Shown; 4] {
    let (first, second) = match call {
        Call::PutChr(_) => (Shown::Character, Shown::Number),
        Call::SetFlg(..)
        | Call::ClrFlg(..)
        | Call::TwaiFlg(..)
        | Call::TsndDtq(..)
        | Call::FsndDtq(..)
        | Call::RelMpf(..)
        | Call::SndMbx(..) => (Shown::Number, Shown::Bits),
        _ => (Shown::Number, Shown::Number),
    };
    [first, second, Shown::Number, Shown::Number]
}

/// What the second result of a call is, in $v1.
fn second_of(call: Call) -> Shown {
    match call {
        Call::GetPri(_)
        | Call::GetPid
        | Call::GetTid
        | Call::GetTim
        | Call::MgetTid(_)
        | Call::RefTsk(..)
        | Call::RefSem(..)
        | Call::RefDtq(..)
        | Call::RefMtx(..)
        | Call::RefMpf(..)
        | Call::RefCyc(..)
        | Call::RefAlm(..) => Shown::Number,
        Call::TwaiFlg(..)
        | Call::TrcvDtq(..)
        | Call::RefFlg(..)
        | Call::TgetMpf(..)
        | Call::TrcvMbx(..)
        | Call::RefMbx(..) => Shown::Bits,
        _ => Shown::Nothing,
    }
}

/// Whether a call answers a count, or true or false, where others answer E_OK.
fn is_counting(call: Call) -> bool {
    matches!(call, Call::CanAct(_) | Call::CanWup(_) | Call::Sns(_))
}

/// Puts a value at the end.
pub fn put_value(
    alloc: Global,
    out: &mut Vec<u8>,
    shown: Shown,
    word: u32,
) -> Result<(), NoMemory> {
    match shown {
        Shown::Nothing => Ok(()),
        Shown::Number => put_signed(alloc, out, word),
        Shown::Bits => {
            put(out, "0x")?;
            put_word(out, word)
        }
        Shown::Character => put_character(alloc, out, word % 0x100),
    }
}

/// Puts a byte at the end, as a character where it is printable ASCII.
fn put_character(alloc: Global, out: &mut Vec<u8>, byte: u32) -> Result<(), NoMemory> {
    if byte < 32 || byte > 126 {
        return put_number(alloc, out, u64::from(byte));
    }
    put(out, "'")?;
    out.push(byte as u8)?;
    put(out, "'")
}

//! From packets to requests.

ghost use Rattle.std.specs.Prelude.{◌≡◌, IfOk};
ghost use Rattle.brd_gdb.specs.Reading as reading;
ghost use Rattle.brd_gdb.specs.declared.request.Request.TheVariants as variants;

use crate::actions::{moving, thread};
use crate::digits::{bytes, pair, word};
use crate::monitor::monitored;
use crate::request::{Move, PointKind, Request, ThreadId};
use brd_base::NoMemory;
use std::alloc::Global;

/// The request of a packet's payload.
pub fn request_of(alloc: Global, text: &[u8]) -> Result<Request, NoMemory>
    ensures { IfOk result (λ request. request ≡ reading.request_of text.now) }
{
    if let Some(request) = question(text) {
        return Ok(request);
    }
    if let Some(request) = order(text) {
        return Ok(request);
    }
    if let Some(request) = whatever(text) {
        return Ok(request);
    }
    if let Some(request) = writing(text) {
        return Ok(request);
    }
    if let Some(request) = thread_packet(text) {
        return Ok(request);
    }
    if let Some(request) = reading(text) {
        return Ok(request);
    }
    if let Some(request) = point_packet(text) {
        return Ok(request);
    }
    if let Some(request) = forward(text) {
        return Ok(request);
    }
    match monitor_packet(alloc, text) {
        Ok(Some(request)) => Ok(request),
        Ok(None) => Ok(Request::Unknown),
        Err(NoMemory) => Err(NoMemory),
    }
}

/// The packets without arguments that ask for something.
fn question(text: &[u8]) -> Option<Request>
    ensures { result ≡ reading.question_of text.now }
{
    if text == b"?".as_slice() {
        return Some(Request::StopReason);
    }
    if text == b"g".as_slice() {
        return Some(Request::ReadRegisters);
    }
    if text == b"qC".as_slice() {
        return Some(Request::CurrentThread);
    }
    if text == b"qfThreadInfo".as_slice() {
        return Some(Request::FirstThreads);
    }
    if text == b"qsThreadInfo".as_slice() {
        return Some(Request::OtherThreads);
    }
    if text == b"vCont?".as_slice() {
        return Some(Request::MoveKinds);
    }
    None
}

/// The packets without arguments that do something.
fn order(text: &[u8]) -> Option<Request>
    ensures { result ≡ reading.order_of text.now }
{
    if text == b"c".as_slice() {
        return Some(Request::Forward(Move::Continue));
    }
    if text == b"s".as_slice() {
        return Some(Request::Forward(Move::Step(ThreadId::Any)));
    }
    if text == b"bc".as_slice() {
        return Some(Request::BackwardContinue);
    }
    if text == b"bs".as_slice() {
        return Some(Request::BackwardStep);
    }
    if text == b"D".as_slice() {
        return Some(Request::Detach);
    }
    if text == b"k".as_slice() {
        return Some(Request::Kill);
    }
    if text == b"QStartNoAckMode".as_slice() {
        return Some(Request::StartNoAckMode);
    }
    None
}

/// The packets that mean the same whatever their arguments are.
fn whatever(text: &[u8]) -> Option<Request>
    ensures { result ≡ reading.whatever_of text.now }
{
    if let Some(_) = text.strip_prefix(b"qSupported") {
        return Some(Request::Supported);
    }
    if let Some(_) = text.strip_prefix(b"qAttached") {
        return Some(Request::IsAttached);
    }
    if let Some(_) = text.strip_prefix(b"vKill;") {
        return Some(Request::KillProcess);
    }
    None
}

/// The packets that would change the program.
fn writing(text: &[u8]) -> Option<Request>
    ensures { result ≡ reading.writing_of text.now }
{
    if let Some(_) = text.strip_prefix(b"M") {
        return Some(Request::Write);
    }
    if let Some(_) = text.strip_prefix(b"G") {
        return Some(Request::Write);
    }
    if let Some(_) = text.strip_prefix(b"P") {
        return Some(Request::Write);
    }
    if let Some(_) = text.strip_prefix(b"X") {
        return Some(Request::Write);
    }
    None
}

/// The packets that name a register or threads.
fn thread_packet(text: &[u8]) -> Option<Request>
    ensures { result ≡ reading.thread_packet_of text.now }
{
    if let Some(digits) = text.strip_prefix(b"p") {
        let register = word(digits)?;
        return Some(Request::ReadRegister(register));
    }
    if let Some(threads) = text.strip_prefix(b"Hc") {
        let thread = thread(threads)?;
        return Some(Request::SetThread {
            moves: true,
            thread,
        });
    }
    if let Some(threads) = text.strip_prefix(b"Hg") {
        let thread = thread(threads)?;
        return Some(Request::SetThread {
            moves: false,
            thread,
        });
    }
    if let Some(threads) = text.strip_prefix(b"T") {
        let thread = thread(threads)?;
        return Some(Request::IsAlive(thread));
    }
    if let Some(threads) = text.strip_prefix(b"qThreadExtraInfo,") {
        let thread = thread(threads)?;
        return Some(Request::ThreadInfo(thread));
    }
    None
}

/// The packets that read a part of something.
fn reading(text: &[u8]) -> Option<Request>
    ensures { result ≡ reading.reading_of text.now }
{
    if let Some(numbers) = text.strip_prefix(b"m") {
        let (address, length) = pair(numbers)?;
        return Some(Request::ReadMemory { address, length });
    }
    if let Some(numbers) = text.strip_prefix(b"qXfer:features:read:target.xml:") {
        let (offset, length) = pair(numbers)?;
        return Some(Request::ReadFeatures { offset, length });
    }
    if let Some(numbers) = text.strip_prefix(b"qXfer:threads:read::") {
        let (offset, length) = pair(numbers)?;
        return Some(Request::ReadThreads { offset, length });
    }
    None
}

/// The packets of points.
fn point_packet(text: &[u8]) -> Option<Request>
    ensures { result ≡ reading.point_packet_of text.now }
{
    if let Some(point) = text.strip_prefix(b"Z") {
        let (kind, address, length) = point_of(point)?;
        return Some(Request::SetPoint {
            kind,
            address,
            length,
        });
    }
    if let Some(point) = text.strip_prefix(b"z") {
        let (kind, address, length) = point_of(point)?;
        return Some(Request::ClearPoint {
            kind,
            address,
            length,
        });
    }
    None
}

/// A point: its kind, its address and its length.
fn point_of(text: &[u8]) -> Option<(PointKind, u32, u32)>
    ensures { result ≡ reading.point_parts_of text.now }
{
    let [kind, comma, numbers @ ..] = text else {
        return None;
    };
    if *comma != b',' {
        return None;
    }
    let kind = kind_of(*kind)?;
    let (address, length) = pair(numbers)?;
    Some((kind, address, length))
}

/// The kind of a point.
fn kind_of(byte: u8) -> Option<PointKind>
    ensures { result ≡ reading.kind_of byte }
{
    match byte {
        b'0' => Some(PointKind::SoftwareBreak),
        b'1' => Some(PointKind::HardwareBreak),
        b'2' => Some(PointKind::WriteWatch),
        b'3' => Some(PointKind::ReadWatch),
        b'4' => Some(PointKind::AccessWatch),
        _ => None,
    }
}

/// The packet `vCont` with actions.
fn forward(text: &[u8]) -> Option<Request>
    ensures { result ≡ reading.moving_of text.now }
{
    let actions = text.strip_prefix(b"vCont;")?;
    let found = moving(actions)?;
    Some(Request::Forward(found))
}

/// The packet of a command of the user.
fn monitor_packet(alloc: Global, text: &[u8]) -> Result<Option<Request>, NoMemory>
    ensures { IfOk result (λ request. request ≡ reading.monitor_packet_of text.now) }
{
    let Some(digits) = text.strip_prefix(b"qRcmd,") else {
        return Ok(None);
    };
    match bytes(alloc, digits)? {
        Some(command) => Ok(Some(Request::Monitor(monitored(&command)))),
        None => Ok(None),
    }
}

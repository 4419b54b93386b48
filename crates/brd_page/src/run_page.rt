//! A page.

ghost use Rattle.std.specs.Prelude.{◌≡◌, ◌≤◌, ◌<◌, ◌+◌, ◌-◌, ◌++◌, ℕ, List as ListOf, Err, Some, length};
ghost use Rattle.std.specs.Prelude.{IfOk, OnOk, true};
ghost use Rattle.brd_board.specs.declared.event.Event.{Event as EventOf};
ghost use Rattle.brd_board.specs.Board.{BoardState as BoardOf};
ghost use Rattle.brd_journal.specs.Playing.{IsPlayed};
ghost use Rattle.brd_trace.specs.Recorded.{begun_of, IsNoted};
ghost use Rattle.brd_page.specs.declared.fault.PageFault.TheVariants.{TooMuch};
ghost use Rattle.brd_listing.specs.Listing.{IsBehind};
ghost use Rattle.brd_page.specs.Data.{IsAny};
ghost use Rattle.brd_page.specs.Events.{IsData};
ghost use Rattle.brd_page.specs.Page.{IsPage, IsRunPage, always_shown, most_bytes, most_events};
ghost use Rattle.brd_page.specs.Picture.{IsDrawn};
ghost use Rattle.brd_page.specs.Recorder.{IsOfRun};

use crate::data::Json;
use crate::fault::PageFault;
use crate::listing::{put_listing, put_names};
use crate::picture::draw;
use crate::recorder::Recorder;
use crate::template::{FRONT, MIDDLE, REST};
use crate::told::Told;
use crate::verdicts::put_verdicts;
use brd_base::NoMemory;
use brd_board::Board;
use brd_journal::Journal;
use brd_lines::Lines;
use brd_listing::Places;
use brd_mem::Image;
use brd_names::Names;
use brd_printer::Manner;
use brd_timeline::PictureFault;
use brd_trace::Tracer;
use brd_verdicts::Units;
use std::alloc::Global;

/// How many events a page shows at most.
pub const MOST_EVENTS: u64 = 100_000;

/// How many bytes a page of many events has at most: 8 MiB.
pub const MOST_BYTES: usize = 8_388_608;

/// A page of at most so many events may have more bytes.
pub const ALWAYS_SHOWN: u64 = 1_000;

/// What stands in the place of a picture that would have too much to draw.
pub(crate) const NO_PICTURE: &str =
    "<p>Too much for a picture: choose fewer events by --from and --to.</p>\n";

/// What a page shows.
#[derive(Clone, Copy)]
pub struct Part<'a> {
    /// The image of the board.
    pub image: &'a Image,
    /// What happens to it.
    pub journal: &'a Journal,
    /// The lines of its source that are known.
    pub lines: &'a Lines,
    /// Which tasks have units of semaphores, and mutexes, in the end.
    pub units: &'a Units,
    /// The position from which on events were asked for: a page may begin later, and says so.
    pub asked: u64,
    /// The position after the last event.
    pub to: u64,
}

/// The page of a run: it shows the events from the position on to which a tracer's board has come, up to the part's
/// end. The tracer shows no lines of instructions, and those of all processors.
///
/// # Errors
///
/// `TooMuch` where there are more than `MOST_EVENTS` events, or more than `ALWAYS_SHOWN` and the page would have more
/// than `MOST_BYTES` bytes; `NoMemory` where memory runs out.
pub fn page(alloc: Global, tracer: Tracer, part: Part) -> Result<Vec<u8>, PageFault>
    requires on { tracer.playback.at ≤ part.to }
    requires within { part.to ≤ length part.journal.now.events }
    ensures page { (boot : BoardOf) → IsPlayed boot part.entry.journal.now.events tracer.playback
        → IsNoted boot part.entry.journal.now.events tracer.playback.at tracer.notes
        → IfOk result (λ page. IsRunPage boot part.entry.journal.now.events tracer.playback.at part.entry.to
        page.items) }
    ensures bytes { always_shown < part.entry.to - tracer.playback.at
        → IfOk result (λ page. length page.items ≤ most_bytes) }
    ensures events { IfOk result (λ page. part.entry.to ≤ tracer.playback.at + most_events) }
    ensures refused { result ≡ Err TooMuch → always_shown < part.entry.to - tracer.playback.at }
{
    let events = part.to - tracer.playback.at;
    if events > MOST_EVENTS {
        return Err(PageFault::TooMuch);
    }
    let many = events > ALWAYS_SHOWN;
    let symbols = Places::new(alloc, part.image.symbols.as_slice())?;
    let manner = manner_of(part.image, &symbols);
    let mut recorder = Recorder::new(alloc, tracer, manner, part.asked)?;
    put_events(alloc, &mut recorder, part, &symbols, many)?;
    let Recorder {
        playback,
        tracer,
        mut told,
        mut text,
        ..
    } = recorder;
    put_rest(alloc, &mut told, part, &symbols, &playback.board, &mut text)?;
    let picture = picture_of(alloc, tracer, part.journal)?;
    whole(alloc, &picture, &text, many)
}

/// How the lines of an image's board are made, by these symbols.
pub(crate) fn manner_of<'a>(image: &'a Image, symbols: &'a Places<'_>) -> Manner<'a> {
    Manner {
        names: Names::new(symbols, image.segments.as_slice()),
        order: image.order,
        words: &[],
    }
}

/// Puts the events at the end up to that of the part. Where they are many they have a limit.
fn put_events(
    alloc: Global,
    recorder: &mut Recorder,
    part: Part,
    symbols: &Places,
    many: bool,
) -> Result<(), PageFault>
    requires on { recorder.old.playback.at ≤ part.to }
    requires within { part.to ≤ length part.journal.now.events }
    requires both { recorder.old.tracer.playback.at ≡ recorder.old.playback.at }
    ensures at { IfOk result (λ _. recorder.new.playback.at ≡ part.entry.to) }
    ensures both { IfOk result (λ _. recorder.new.tracer.playback.at ≡ recorder.new.playback.at) }
    ensures recorded { (boot : BoardOf) (from : ℕ) → IsOfRun boot part.entry.journal.now.events from recorder.old
        → IfOk result (λ _. IsOfRun boot part.entry.journal.now.events from recorder.new) }
    ensures refused { result ≡ Err TooMuch → many ≡ true }
{
    while recorder.playback.at < part.to {
        recorder.step(alloc, part, symbols)?;
        if many && recorder.text.len() > MOST_BYTES {
            return Err(PageFault::TooMuch);
        }
    }
    Ok(())
}

/// Puts at the end what comes behind the events: what is found of the board after them, the listing, and the names of
/// the words that were loaded or stored.
fn put_rest(
    alloc: Global,
    told: &mut Told,
    part: Part,
    symbols: &Places,
    board: &Board,
    text: &mut Json,
) -> Result<(), NoMemory>
    ensures { OnOk result (IsBehind IsAny text.old text.new) }
{
    told.places.sort()?;
    told.places.dedup();
    told.words.sort()?;
    told.words.dedup();
    let mut json = Json::new(alloc);
    put_verdicts(&mut json, alloc, part.units, board)?;
    json.key("listing")?;
    let names = Names::with_lines(symbols, part.image.segments.as_slice(), part.lines);
    put_listing(&mut json, alloc, part.image, names, &told.places)?;
    json.key("words")?;
    put_names(&mut json, alloc, symbols, &told.words)?;
    text.end_with(&json)?;
    Ok(())
}

/// The picture of a tracer's timeline of a journal, or what stands in its place.
fn picture_of(alloc: Global, tracer: Tracer, journal: &Journal) -> Result<Vec<u8>, NoMemory>
    ensures { (boot : BoardOf) (events : ListOf EventOf) (from : ℕ) → IsPlayed boot events tracer.playback
        → IsNoted boot events tracer.playback.at tracer.notes → begun_of tracer.notes ≡ Some from
        → IfOk result (λ picture. IsDrawn boot events from tracer.playback.at picture.items) }
{
    let Some(timeline) = tracer.into_timeline(alloc, journal)? else {
        return Ok(Vec::new(alloc));
    };
    match draw(alloc, timeline) {
        Ok(text) => Ok(text),
        Err(PictureFault::NoMemory) => Err(NoMemory),
        Err(PictureFault::TooMuch) => Ok(Vec::from_slice(alloc, NO_PICTURE.as_bytes())?),
    }
}

/// The page of a picture and of data. Where it shows many events it has a limit.
fn whole(alloc: Global, picture: &[u8], json: &Json, many: bool) -> Result<Vec<u8>, PageFault>
    ensures page { (boot : BoardOf) (events : ListOf EventOf) (from to : ℕ)
        → IsDrawn boot events from to picture.now → IsData boot events from to json.now
        → IfOk result (λ page. IsRunPage boot events from to page.items) }
    ensures bytes { many ≡ true → IfOk result (λ page. length page.items ≤ most_bytes) }
    ensures refused { result ≡ Err TooMuch → many ≡ true }
{
    let page = joined(
        alloc,
        FRONT.as_bytes(),
        picture,
        MIDDLE.as_bytes(),
        json,
        REST.as_bytes(),
    )?;
    if many && page.len() > MOST_BYTES {
        return Err(PageFault::TooMuch);
    }
    Ok(page)
}

/// The page of these parts.
fn joined(
    alloc: Global,
    front: &[u8],
    picture: &[u8],
    middle: &[u8],
    json: &Json,
    rest: &[u8],
) -> Result<Vec<u8>, NoMemory>
    ensures { IfOk result (λ page.
        IsPage front.now picture.now middle.now json.now rest.now page.items) }
{
    let text = json.as_slice();
    let page = chained(alloc, front, picture, middle, text, rest)?;
    Ok(page)
}

/// Five texts, one after the other.
fn chained(
    alloc: Global,
    front: &[u8],
    picture: &[u8],
    middle: &[u8],
    text: &[u8],
    rest: &[u8],
) -> Result<Vec<u8>, NoMemory>
    ensures { IfOk result (λ page.
        page.items ≡ front.now ++ picture.now ++ middle.now ++ text.now ++ rest.now) }
{
    let mut page = Vec::new(alloc);
    page.extend_from_slice(front)?;
    page.extend_from_slice(picture)?;
    page.extend_from_slice(middle)?;
    page.extend_from_slice(text)?;
    page.extend_from_slice(rest)?;
    Ok(page)
}

//! Processors in a picture: each has a colour of its own, where it holds a spin lock and where it has the turn.

ghost use Rattle.std.specs.Prelude.{◌≤◌, OnOk};
ghost use Rattle.brd_timeline.specs.Bars.{GoesOn};

use crate::layout::{HEIGHT, LEAST_WIDTH, LETTER, MARGIN, x_of};
use crate::number::put_attribute;
use crate::slice::{put_ink, put_rect, put_span};
use crate::timeline::Timeline;
use brd_base::NoMemory;
use brd_text::{put, put_decimal};

/// The colours of processors 1 to 8, from a palette whose colours are told apart without regard to how one sees them
/// and are none of those of kinds (Paul Tol, "Colour Schemes", light).
const COLOURS: [&str; 8] = [
    "#77aadd", "#ee8866", "#eedd88", "#ffaabb", "#99ddff", "#44bb99", "#bbcc33", "#aaaa00",
];

/// Some processors.
#[derive(Clone, Copy)]
pub(crate) struct Cpus {
    /// Whether each is one of them, by its number.
    has: [bool; 9],
}

/// A bar in a lane that has no kinds.
#[derive(Clone, Copy)]
pub(crate) struct Bar {
    /// Of which processors.
    pub cpus: Cpus,
    /// Where it begins.
    pub from: u64,
    /// Where it ends.
    pub to: u64,
}

impl Cpus {
    /// None.
    pub(crate) fn none() -> Cpus {
        Cpus { has: [false; 9] }
    }

    /// One processor.
    pub(crate) fn one(cpu: u8) -> Cpus {
        let mut cpus = Cpus::none();
        cpus.add(cpu);
        cpus
    }

    /// These processors and one more.
    pub(crate) fn add(&mut self, cpu: u8) {
        if (cpu as usize) < 9 {
            self.has[cpu as usize] = true;
        }
    }

    /// These processors and others.
    pub(crate) fn with(self, others: Cpus) -> Cpus {
        let mut cpus = self;
        for cpu in 1..9u8 {
            if others.contains(cpu) {
                cpus.add(cpu);
            }
        }
        cpus
    }

    /// Whether a processor is one of them.
    pub(crate) fn contains(self, cpu: u8) -> bool {
        (cpu as usize) < 9 && self.has[cpu as usize]
    }

    /// How many they are.
    pub(crate) fn count(self) -> u32 {
        let mut count = 0u32;
        for cpu in 1..9u8 {
            if self.contains(cpu) {
                count = count.saturating_add(1);
            }
        }
        count
    }

    /// Their colour: of several processors white, with a line round it.
    pub(crate) fn colour(self) -> &'static str {
        if self.count() > 1 {
            return "#ffffff\" stroke=\"#999999";
        }
        for place in 0..8usize {
            if self.contains(place as u8 + 1) {
                return COLOURS[place];
            }
        }
        "#ffffff"
    }

    /// Puts at the end which they are: `cpu 1, 3`.
    pub(crate) fn put(self, to: &mut Vec<u8>) -> Result<(), NoMemory>
        ensures { OnOk result (GoesOn to.old.items to.new.items) }
    {
        let mut is_first = true;
        for cpu in 1..9u8 {
            if self.contains(cpu) {
                put_cpu(to, is_first, cpu)?;
                is_first = false;
            }
        }
        Ok(())
    }
}

impl Bar {
    /// Puts the bar at the end, where it lies in the picture, with what stands before and after its processors.
    pub(crate) fn put(
        &self,
        to: &mut Vec<u8>,
        timeline: &Timeline,
        y: u32,
        words: (&str, &str),
    ) -> Result<(), NoMemory>
        requires { y ≤ 2700000 }
        ensures { OnOk result (GoesOn to.old.items to.new.items) }
    {
        if self.to <= timeline.from || timeline.to <= self.from {
            return Ok(());
        }
        let x = x_of(timeline, self.from);
        let width = x_of(timeline, self.to).saturating_sub(x);
        put_rect(
            to,
            (x, y),
            (width.max(LEAST_WIDTH), HEIGHT),
            self.cpus.colour(),
        )?;
        self.put_title(to, words)?;
        self.put_label(to, x, y, width)
    }

    /// Puts at the end what a browser shows of the bar under the pointer, and closes it.
    fn put_title(&self, to: &mut Vec<u8>, words: (&str, &str)) -> Result<(), NoMemory>
        ensures { OnOk result (GoesOn to.old.items to.new.items) }
    {
        put(to, "<title>")?;
        self.put_cpus(to, words)?;
        put(to, ", ")?;
        put_span(to, self.from, self.to)
    }

    /// Puts the processors at the end, with what stands before and after them.
    fn put_cpus(&self, to: &mut Vec<u8>, words: (&str, &str)) -> Result<(), NoMemory>
        ensures { OnOk result (GoesOn to.old.items to.new.items) }
    {
        put(to, words.0)?;
        self.cpus.put(to)?;
        put(to, words.1)
    }

    /// Puts the processors in the bar at the end, where it has room for them.
    fn put_label(&self, to: &mut Vec<u8>, x: u32, y: u32, width: u32) -> Result<(), NoMemory>
        requires across { x ≤ 11400 }
        requires down { y ≤ 2700000 }
        ensures { OnOk result (GoesOn to.old.items to.new.items) }
    {
        let letters = width.saturating_sub(MARGIN) / LETTER;
        if self.cpus.count().saturating_mul(3).saturating_add(2) > letters {
            return Ok(());
        }
        put_ink(to, "#000000", x + MARGIN / 2, y + 140)?;
        self.cpus.put(to)?;
        put(to, "</text>\n")
    }
}

/// Puts a processor at the end, the first one or another.
fn put_cpu(to: &mut Vec<u8>, is_first: bool, cpu: u8) -> Result<(), NoMemory>
    ensures { OnOk result (GoesOn to.old.items to.new.items) }
{
    put_between(to, is_first)?;
    put_decimal(to, u64::from(cpu))
}

/// Puts at the end what stands before the first processor or another one.
fn put_between(to: &mut Vec<u8>, is_first: bool) -> Result<(), NoMemory>
    ensures { OnOk result (GoesOn to.old.items to.new.items) }
{
    if is_first {
        return put(to, "cpu ");
    }
    put(to, ", ")
}

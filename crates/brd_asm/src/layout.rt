//! The places of statements, line by line.

ghost use Rattle.std.specs.Prelude.{◌≡◌, ◌+◌, ◌<◌, ◌≤◌, ◌^◌, Ok, true, option_map};
ghost use Rattle.brd_source.specs.View as source;
ghost use Rattle.brd_source.specs.Lines.{line_of};
ghost use Rattle.brd_asm.specs.Faults.{Gives};
ghost use Rattle.brd_asm.specs.Layout.{nothing, read, order_by, settled, check_is_new, happened, filled, placed};
ghost use Rattle.brd_asm.specs.Layout.{are_in_ram};
ghost use Rattle.brd_asm.specs.View as view;
ghost use Rattle.brd_asm.specs.LayoutView.{layout};

use crate::effect::{Effect, effect_of, own_name};
use crate::fault::AsmFault;
use crate::names::Names;
use crate::piece::{Content, Piece};
use crate::pieces::Pieces;
use brd_base::{BASE, TOP};
use brd_source::{Line, LineFault, Statement, parse_line};
use brd_word::Order;
use std::alloc::Global;

/// What the lines so far have placed and named.
#[derive(Drop)]
pub struct Layout<'a> {
    /// The byte order, once a line has settled it.
    pub order: Option<Order>,
    /// Where the next statement stands.
    pub place: u32,
    /// The names so far.
    pub names: Names<'a>,
    /// The pieces so far.
    pub pieces: Pieces<'a>,
}

impl<'a> Layout<'a> {
    /// Nothing of a text yet.
    pub fn new(alloc: Global, text: &[u8]) -> Self
        ensures { layout result ≡ nothing }
    {
        Layout {
            order: None,
            place: BASE,
            names: Names::new(alloc, text),
            pieces: Pieces::new(alloc),
        }
    }

    /// Places one more line. After a fault the layout is of no more use.
    #[tactic(auto, unfolding(crate::specs::Layout::placed))]
    pub fn place(&mut self, alloc: Global, line: usize, bytes: &'a [u8]) -> Result<(), AsmFault>
        ensures { Gives (λ _. layout self.new) result (placed line bytes.now (layout self.old)) }
    {
        let said = read(alloc, line, bytes)?;
        self.order = settled(line, &said, self.order)?;
        let Line { labels, statement } = said;
        let own = own_name(&statement);
        // By the names of earlier lines; a name that is defined twice comes before its faults.
        let effect = effect_of(line, self.place, &self.names, statement);
        self.names.label(line, self.place, labels.as_slice())?;
        check_is_new(line, own, &self.names)?;
        self.happen(line, effect?)
    }

    /// Does what a statement of a line does.
    fn happen(&mut self, line: usize, effect: Effect<'a>) -> Result<(), AsmFault>
        ensures { Gives (λ _. layout self.new) result (happened line (view.effect effect.entry) (layout self.old)) }
    {
        match effect {
            Effect::Stays => Ok(()),
            Effect::Moves(place) => {
                self.place = place;
                Ok(())
            }
            Effect::Equates(name, value) => self.names.define(line, value, name),
            Effect::Fills(content) => self.fill(line, content),
        }
    }

    /// Puts content at the place, after which the next statement stands then.
    #[tactic(auto, unfolding(crate::specs::Layout::filled))]
    fn fill(&mut self, line: usize, content: Content<'a>) -> Result<(), AsmFault>
        ensures { Gives (λ _. layout self.new) result (filled line (view.content content.entry) (layout self.old)) }
    {
        let place = self.place;
        let size = content.size();
        if size == 0 {
            return Ok(());
        }
        if !are_in_ram(place, size) {
            return Err(AsmFault::Range { line });
        }
        let size = size as u32;
        if place % content.alignment() != 0 {
            return Err(AsmFault::Misaligned { line });
        }
        if self.pieces.overlaps(place, place + size) {
            return Err(AsmFault::Overlap { line });
        }
        let piece = Piece {
            place,
            line,
            content,
        };
        self.pieces.push(piece, size)?;
        self.place = place + size;
        Ok(())
    }
}

/// The byte order once a line is read that says this: the first line that says anything settles it, and no other may
/// name it.
#[tactic(auto, unfolding(crate::specs::Layout::settled))]
fn settled(line: usize, said: &Line, order: Option<Order>) -> Result<Option<Order>, AsmFault>
    ensures { Gives (λ order. order) result (settled line (source.line_value said.now) order) }
{
    let is_labelled = said.labels.len() != 0;
    match &said.statement {
        Statement::ByteOrder(named) => {
            if is_labelled || order.is_some() {
                return Err(AsmFault::Syntax { line });
            }
            Ok(Some(*named))
        }
        Statement::Nothing => Ok(if is_labelled {
            Some(order_by(order))
        } else {
            order
        }),
        _ => Ok(Some(order_by(order))),
    }
}

/// The byte order of a source in which it was settled so, or not at all.
pub fn order_by(order: Option<Order>) -> Order
    ensures { result ≡ order_by order }
{
    order.unwrap_or(Order::Big)
}

/// Whether as many addresses as this from a place on can all be filled.
fn are_in_ram(place: u32, size: u128) -> bool
    requires { size < 2 ^ 100 }
    ensures { result ≡ are_in_ram place size }
{
    place >= BASE && place as u128 + size <= TOP as u128
}

/// The name that a statement gives a value to, if it does, may not have one yet.
#[tactic(auto, unfolding(crate::specs::Layout::check_is_new))]
fn check_is_new(line: usize, name: Option<&[u8]>, names: &Names) -> Result<(), AsmFault>
    ensures { Gives (λ nothing. nothing) result
        (check_is_new line (option_map (λ name. name.now) name.entry) names.now) }
{
    match name {
        None => Ok(()),
        Some(name) => {
            if names.has(name) {
                return Err(AsmFault::Twice { line });
            }
            Ok(())
        }
    }
}

/// What a line says.
fn read<'a>(alloc: Global, line: usize, bytes: &'a [u8]) -> Result<Line<'a>, AsmFault>
    ensures { Gives source.line_value result (read line (line_of bytes.now)) }
{
    match parse_line(alloc, bytes) {
        Ok(read) => Ok(read),
        Err(LineFault::Syntax) => Err(AsmFault::Syntax { line }),
        Err(LineFault::NoMemory) => Err(AsmFault::NoMemory),
    }
}

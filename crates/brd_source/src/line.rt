//! A whole line.

ghost use Rattle.std.specs.Prelude.{◌≡◌, ◌≤◌, length, map, option_map, Some, IfSome};
ghost use Rattle.brd_source.specs.Faults.{Gives};
ghost use Rattle.brd_source.specs.Fronts as fronts;
ghost use Rattle.brd_source.specs.Lines as lines;
ghost use Rattle.brd_source.specs.Tokens.{seen};
ghost use Rattle.brd_source.specs.View.{line_value};

use crate::fault::LineFault;
use crate::scanner::scan;
use crate::statement::Line;
use crate::statements::statement;
use crate::token::SourceToken;
use brd_base::List;
use smallvec::SmallVec;
use std::alloc::Global;

/// The label at the front, which is two tokens.
fn label<'a>(tokens: &[SourceToken<'a>]) -> Option<&'a [u8]>
    ensures is { option_map (λ name. name.now) result ≡ fronts.label_of (map seen tokens.now) }
    ensures long { IfSome result (λ _. 2 ≤ length tokens.now) }
{
    match tokens {
        [SourceToken::Run(name), SourceToken::Mark(b':'), ..] if brd_text::is_name(name) => Some(
            *name,
        ),
        _ => None,
    }
}

/// The labels at the front, and the tokens after them.
fn labels<'t, 'a>(
    alloc: Global,
    tokens: &'t [SourceToken<'a>],
) -> Result<(List<&'a [u8]>, &'t [SourceToken<'a>]), LineFault>
    ensures { Gives {Y = fronts.Labelled} (λ front. (map (λ name. name.now) front.0, map seen front.1.now)) result
        (Some (lines.labels_of (map seen tokens.now), lines.behind_labels (map seen tokens.now))) }
{
    let mut labels = List::new(alloc);
    let mut rest = tokens;
    'labels: while let Some(name) = label(rest) {
        labels.push(name)?;
        let [_, _, behind @ ..] = rest else {
            break;
        };
        rest = behind;
    }
    Ok((labels, rest))
}

/// What a line of source says: the bytes of one line, without the newline after it.
///
/// # Errors
///
/// `Syntax` where the line has none of the forms of docs/ASSEMBLER.md, and `NoMemory` where memory runs out.
#[tactic(auto, unfolding(crate::specs::Lines::line_of))]
pub fn parse_line<'a>(alloc: Global, bytes: &'a [u8]) -> Result<Line<'a>, LineFault>
    ensures { Gives line_value result (lines.line_of bytes.now) }
{
    let mut tokens = SmallVec::new(alloc);
    scan(bytes, &mut tokens)?;
    let (labels, behind) = labels(alloc, tokens.as_slice())?;
    let statement = statement(alloc, behind)?;
    Ok(Line { labels, statement })
}

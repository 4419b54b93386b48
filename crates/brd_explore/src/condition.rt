//! Conditions on the words of a board: two sums are compared.

ghost use Rattle.std.specs.Prelude.{◌≡◌, ◌*◌, ◌≤◌, IfSome, length};
ghost use Rattle.brd_explore.specs.Failures.{compares, holds, is_so, sum_of, worth};

use crate::wanted::word_at;
use brd_base::List;
use brd_board::Board;

/// A term of a sum.
#[derive(Clone, Copy)]
pub enum Term {
    /// A number.
    Number(u32),
    /// The word at an address.
    Word(u32),
}

/// How two sums are compared.
#[derive(Clone, Copy, Debug, PartialEq, Eq)]
pub enum Comparison {
    /// The first is less.
    Less,
    /// It is less, or the same.
    AtMost,
    /// It is more.
    More,
    /// It is more, or the same.
    AtLeast,
    /// Both are the same.
    Same,
    /// They aren't.
    Other,
}

/// A condition: a sum of terms is compared with another one. The sums are of natural numbers, none is too large.
#[derive(Drop)]
pub struct Condition {
    /// The terms of the first sum.
    pub left: List<Term>,
    /// How it is compared.
    pub order: Comparison,
    /// The terms of the second sum.
    pub right: List<Term>,
}

impl Condition {
    /// Whether it holds on a board, or one of its words isn't there.
    #[tactic(auto, unfolding(crate::specs::Failures::holds))]
    pub(crate) fn holds(&self, board: &Board) -> bool
        ensures { result ≡ holds board.now self.now }
    {
        let left = sum_of(board, self.left.as_slice());
        let right = sum_of(board, self.right.as_slice());
        is_so(self.order, left, right)
    }
}

/// The sum of terms, where all of their words are there.
fn sum_of(board: &Board, terms: &[Term]) -> Option<u128>
    ensures { result ≡ sum_of board.now terms.now }
{
    let mut sum = 0u128;
    for term in terms {
        sum += u128::from(worth(board, *term)?);
    }
    Some(sum)
}

/// What a term is worth, where its word is there.
fn worth(board: &Board, term: Term) -> Option<u32>
    ensures { result ≡ worth board.now term }
{
    match term {
        Term::Number(number) => Some(number),
        Term::Word(address) => word_at(board, address),
    }
}

/// Whether two sums compare so, or one isn't there.
fn is_so(order: Comparison, left: Option<u128>, right: Option<u128>) -> bool
    ensures { result ≡ is_so order left right }
{
    match (left, right) {
        (Some(left), Some(right)) => compares(order, left, right),
        _ => true,
    }
}

/// Whether two numbers compare so.
fn compares(order: Comparison, left: u128, right: u128) -> bool
    ensures { result ≡ compares order left right }
{
    match order {
        Comparison::Less => left < right,
        Comparison::AtMost => left <= right,
        Comparison::More => left > right,
        Comparison::AtLeast => left >= right,
        Comparison::Same => left == right,
        Comparison::Other => left != right,
    }
}

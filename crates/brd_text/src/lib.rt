//! What the product's texts share: bytes by kind, lines, pieces between commas, numbers, bytes to tokens with their
//! lines, the shape of 'a value or the first fault', a step that is repeated over the tokens of a text, and pieces that
//! are put at the end of one.
#![tactic(auto)]

mod byte;
mod front;
mod gap;
mod hex;
pub mod laws;
mod line;
mod numeral;
mod pieces;
mod scanner;
mod token;
mod writing;

pub use byte::{is_blank, is_digit, is_letter, is_name, is_run_byte, is_space};
pub use front::{behind, run_len};
pub use hex::{hex_digits, hex_word};
pub use line::{line_after, line_at, split_line};
pub use numeral::{decimal, hex_value, number, plain_decimal};
pub use pieces::{parted, piece};
pub use scanner::Scanner;
pub use token::Token;
pub use writing::{put, put_decimal, put_word};

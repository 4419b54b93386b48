//! Bytes, lines, tokens and numbers with values that were worked out by hand.

use brd_text::{
    Scanner, Token, decimal, hex_digits, hex_word, is_blank, is_digit, is_letter, is_name,
    is_run_byte, is_space, line_after, line_at, number, plain_decimal, split_line,
};
use std::test::Fail;
use test_help::none_wrong;

const TEXT: &[u8] = b" a_1.$b(0x1f)/* \n */ / //c\n\n;*/\r\t\xff/*/\n";

/// The tokens of the text, with their lines.
const TOKENS: &[(Token, usize)] = &[
    (Token::Run(b"a_1.$b"), 1),
    (Token::Mark(b'('), 1),
    (Token::Run(b"0x1f"), 1),
    (Token::Mark(b')'), 1),
    (Token::Mark(b'/'), 2),
    (Token::Mark(b';'), 4),
    (Token::Mark(b'*'), 4),
    (Token::Mark(b'/'), 4),
    (Token::Mark(0xff), 4),
    (Token::Unclosed, 5),
    (Token::End, 5),
    (Token::End, 5),
];

/// The first token that isn't as it should be.
fn first_wrong_token() -> Option<usize> {
    let mut scanner = Scanner::new(TEXT);
    for (row, (token, line)) in TOKENS.iter().enumerate() {
        let (found, at) = scanner.next();
        if found != *token || at != *line {
            return Some(row);
        }
    }
    None
}

#[test]
fn tokens(_rt: HostRuntime) -> Result<(), Fail> {
    none_wrong(first_wrong_token())
}

const NUMBERS: &[(&[u8], Option<u32>)] = &[
    (b"0", Some(0)),
    (b"0010", Some(10)),
    (b"4294967295", Some(4_294_967_295)),
    (b"4294967296", None),
    (b"0xfFa9", Some(0xffa9)),
    (b"0x00000000001", Some(1)),
    (b"0xffffffff", Some(0xffff_ffff)),
    (b"0x100000000", None),
    (b"", None),
    (b"0x", None),
    (b"0X1", None),
    (b"1a", None),
    (b"0xg", None),
    (b"x", None),
    (b"99999999999999999999999999999999", None),
];

/// The first number that isn't as it should be.
fn first_wrong_number() -> Option<usize> {
    NUMBERS
        .iter()
        .position(|(text, expected)| number(*text) != *expected)
}

#[test]
fn numbers(_rt: HostRuntime) -> Result<(), Fail> {
    none_wrong(first_wrong_number())
}

/// A text, the largest number that it may be, what it is as decimal digits, and what as those of a plain number.
const DECIMALS: &[(&[u8], u64, Option<u64>, Option<u64>)] = &[
    (b"17", 17, Some(17), Some(17)),
    (b"18", 17, None, None),
    (b"0x1", 99, None, None),
    (b"", 99, None, None),
    (b"a", 99, None, None),
    (b"-1", 9, None, None),
    (b"0", 0, Some(0), Some(0)),
    (b"00", 0, Some(0), None),
    (b"01", 0, None, None),
    (b"10", 10, Some(10), Some(10)),
    (b"010", 10, Some(10), None),
    (
        b"18446744073709551615",
        u64::MAX,
        Some(u64::MAX),
        Some(u64::MAX),
    ),
    (b"18446744073709551616", u64::MAX, None, None),
];

/// The first row of decimals that isn't as it says.
fn first_wrong_decimal() -> Option<usize> {
    DECIMALS.iter().position(|(text, largest, expected, plain)| decimal(*text, *largest)
        != *expected
        || plain_decimal(*text, *largest) != *plain)
}

#[test]
fn decimals(_rt: HostRuntime) -> Result<(), Fail> {
    none_wrong(first_wrong_decimal())
}

const HEX_WORDS: &[(&[u8], Option<u32>)] = &[
    (b"0123aBcD", Some(0x0123_abcd)),
    (b"ffffFFFF", Some(0xffff_ffff)),
    (b"98765eE0", Some(0x9876_5ee0)),
    (b"0123abc", None),
    (b"00123abcd", None),
    (b"", None),
    (b"0x000001", None),
    (b"0000000 ", None),
    // Next to the digits and letters that count.
    (b"0000000/", None),
    (b"0000000:", None),
    (b"0000000@", None),
    (b"0000000G", None),
    (b"0000000`", None),
    (b"0000000g", None),
];

/// The first row of hexadecimal words that isn't as it says.
fn first_wrong_word() -> Option<usize> {
    HEX_WORDS
        .iter()
        .position(|(text, expected)| hex_word(*text) != *expected)
}

#[test]
fn hexadecimals(rt: HostRuntime) -> Result<(), Fail> {
    assert!(rt; hex_digits(0x0123_abcd) == *b"0123abcd");
    none_wrong(first_wrong_word())
}

/// A text, its first line, and what is after that line's end, if it has one.
const SPLITS: &[(&[u8], &[u8], Option<&[u8]>)] = &[
    (b"a\r\nb", b"a\r", Some(b"b")),
    (b"\n", b"", Some(b"")),
    (b"ab", b"ab", None),
    (b"", b"", None),
];

/// The first row of splits that isn't as it says.
fn first_wrong_split() -> Option<usize> {
    for (row, (text, first, others)) in SPLITS.iter().enumerate() {
        let (line, behind) = split_line(*text);
        if line != *first || behind != *others {
            return Some(row);
        }
    }
    None
}

/// A text, the number of a line, and the line.
const LINES: &[(&[u8], usize, &[u8])] = &[
    (b"one\n\nthree\n", 0, b""),
    (b"one\n\nthree\n", 1, b"one"),
    (b"one\n\nthree\n", 2, b""),
    (b"one\n\nthree\n", 3, b"three"),
    (b"one\n\nthree\n", 4, b""),
    (b"one\n\nthree\n", 5, b""),
    (b"one", 2, b""),
    (b"one", usize::MAX, b""),
];

/// The first row of lines that isn't as it says.
fn first_wrong_line() -> Option<usize> {
    LINES
        .iter()
        .position(|(text, number, line)| line_at(*text, *number) != *line)
}

#[test]
fn lines(rt: HostRuntime) -> Result<(), Fail> {
    assert!(rt; line_after(4, b'\n') == 5 && line_after(4, b'\r') == 4);
    none_wrong(first_wrong_split())?;
    none_wrong(first_wrong_line())
}

/// A byte, and whether it is a letter, a digit, a space, a blank, and one of those that runs are made of.
const BYTES: &[(u8, bool, bool, bool, bool, bool)] = &[
    (b'a', true, false, false, false, true),
    (b'Z', true, false, false, false, true),
    (b'@', false, false, false, false, false),
    (b'{', false, false, false, false, false),
    (b'0', false, true, false, false, true),
    (b'9', false, true, false, false, true),
    (b':', false, false, false, false, false),
    (b'/', false, false, false, false, false),
    (b' ', false, false, true, true, false),
    (b'\t', false, false, true, true, false),
    (b'\r', false, false, true, true, false),
    (b'\n', false, false, false, true, false),
    (b'\x0b', false, false, false, false, false),
    (b'\x0c', false, false, false, false, false),
    (b'$', false, false, false, false, true),
    (b'_', false, false, false, false, true),
    (b'-', false, false, false, false, false),
];

/// The first row of bytes that isn't as it says.
fn first_wrong_byte() -> Option<usize> {
    BYTES.iter().position(|(byte, letter, digit, space, blank, run)| is_letter(*byte) != *letter
        || is_digit(*byte) != *digit
        || is_space(*byte) != *space
        || is_blank(*byte) != *blank
        || is_run_byte(*byte) != *run)
}

const NAMES: &[(&[u8], bool)] = &[
    (b"_a", true),
    (b".", true),
    (b"Z9$", true),
    (b"$a", false),
    (b"9", false),
    (b"", false),
    (b"a b", false),
];

/// The first row of names that isn't as it says.
fn first_wrong_name() -> Option<usize> {
    NAMES
        .iter()
        .position(|(text, expected)| is_name(*text) != *expected)
}

#[test]
fn bytes(_rt: HostRuntime) -> Result<(), Fail> {
    none_wrong(first_wrong_byte())?;
    none_wrong(first_wrong_name())
}

//! Rows of tables. A row is a line of text, in which what is wanted stands behind a `|`.

use std::process::Abort;
use std::str::SplitWhitespace;

/// What is given, before the `|`, word for word.
pub fn given(row: &str) -> SplitWhitespace<'_> {
    let given = match row.split_once("|") {
        Some((given, _)) => given,
        None => "",
    };
    given.split_whitespace()
}

/// The next word; where there is none, no text.
pub fn word<'a>(words: &mut SplitWhitespace<'a>) -> &'a str {
    words.next().unwrap_or("")
}

/// The next word as a number of hexadecimal digits, with `-` before it in two's complement.
pub fn number(words: &mut SplitWhitespace<'_>) -> u64 {
    let text = word(words);
    match text.strip_prefix("-") {
        Some(digits) => u64::from_str_radix(digits, 16).unwrap_or(0).wrapping_neg(),
        None => u64::from_str_radix(text, 16).unwrap_or(0),
    }
}

/// Judges what was found for a row.
pub fn judge(rt: &impl Abort, row: &str, found: &str) {
    let want = match row.split_once("|") {
        Some((_, want)) => want,
        None => "no row",
    };
    assert_eq!(rt; (row, found), (row, want));
}

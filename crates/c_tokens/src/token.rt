//! Tokens.

use crate::class::{Class, TokenKind};
use mx_base::Place;

/// A token: the bytes of the text from `from` up to `to`, of which the first stands at `place`.
#[derive(Clone, Copy, Debug, PartialEq, Eq)]
pub struct Token {
    pub kind: TokenKind,
    pub class: Class,
    pub place: Place,
    pub from: u32,
    pub to: u32,
}

//! The tokens of a C source, each with its place, or the first piece of it that is none.
#![tactic(auto)]

mod class;
mod cut;
mod fault;
mod laws;
mod marks;
mod numbers;
mod piece;
mod places;
mod quotes;
mod token;
mod words;

pub use class::{Class, TokenKind};
pub use cut::tokens;
pub use fault::TokenFault;
pub use laws::{
    bad_bytes_begin_no_token, bad_numbers_are_runs, characters_are_quoted, long_names_are_runs,
    open_texts_are_unended, texts_are_quoted, tokens_are_longest, tokens_stand,
};
pub use numbers::{Number, number_of};
pub use quotes::{character_of, text_of};
pub use token::Token;

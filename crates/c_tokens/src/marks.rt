//! The marks, which are the punctuators of C that the language has.

ghost use Rattle.std.specs.Prelude.{◌≡◌, ◌<◌, OnSome};
ghost use Rattle.c_tokens.specs.Marks as spec;

use crate::class::Class;

/// The mark that these three bytes are.
#[tactic(auto, unfolding(crate::specs::Marks::mark_of_three))]
pub fn mark_of_three(a: u8, b: u8, c: u8) -> Option<Class>
    ensures value { result ≡ spec.mark_of_three a b c }
    ensures whole { OnSome result (0 < c) }
{
    match (a, b, c) {
        (b'<', b'<', b'=') => Some(Class::ShiftLeftAssign),
        (b'>', b'>', b'=') => Some(Class::ShiftRightAssign),
        _ => None,
    }
}

/// The mark that these two bytes are.
#[tactic(auto, unfolding(crate::specs::Marks::mark_of_two))]
pub fn mark_of_two(a: u8, b: u8) -> Option<Class>
    ensures value { result ≡ spec.mark_of_two a b }
    ensures whole { OnSome result (0 < b) }
{
    match (a, b) {
        (b'-', b'>') => Some(Class::Arrow),
        (b'+', b'+') => Some(Class::PlusPlus),
        (b'-', b'-') => Some(Class::MinusMinus),
        (b'<', b'<') => Some(Class::ShiftLeft),
        (b'>', b'>') => Some(Class::ShiftRight),
        (b'<', b'=') => Some(Class::LessEqual),
        (b'>', b'=') => Some(Class::GreaterEqual),
        (b'=', b'=') => Some(Class::EqualEqual),
        (b'!', b'=') => Some(Class::NotEqual),
        (b'&', b'&') => Some(Class::AndAnd),
        (b'|', b'|') => Some(Class::OrOr),
        (b'+', b'=') => Some(Class::PlusAssign),
        (b'-', b'=') => Some(Class::MinusAssign),
        (b'*', b'=') => Some(Class::StarAssign),
        (b'/', b'=') => Some(Class::SlashAssign),
        (b'%', b'=') => Some(Class::PercentAssign),
        (b'&', b'=') => Some(Class::AndAssign),
        (b'^', b'=') => Some(Class::XorAssign),
        (b'|', b'=') => Some(Class::OrAssign),
        _ => None,
    }
}

/// The mark that this byte is.
#[tactic(auto, unfolding(crate::specs::Marks::mark_of_one))]
pub fn mark_of_one(a: u8) -> Option<Class>
    ensures { result ≡ spec.mark_of_one a }
{
    match a {
        b'(' => Some(Class::OpenParen),
        b')' => Some(Class::CloseParen),
        b'{' => Some(Class::OpenBrace),
        b'}' => Some(Class::CloseBrace),
        b'[' => Some(Class::OpenBracket),
        b']' => Some(Class::CloseBracket),
        b';' => Some(Class::Semicolon),
        b',' => Some(Class::Comma),
        b'.' => Some(Class::Dot),
        b'?' => Some(Class::Question),
        b':' => Some(Class::Colon),
        b'+' => Some(Class::Plus),
        b'-' => Some(Class::Minus),
        b'*' => Some(Class::Star),
        b'/' => Some(Class::Slash),
        b'%' => Some(Class::Percent),
        b'<' => Some(Class::Less),
        b'>' => Some(Class::Greater),
        b'&' => Some(Class::And),
        b'^' => Some(Class::Xor),
        b'|' => Some(Class::Or),
        b'~' => Some(Class::Tilde),
        b'!' => Some(Class::Not),
        b'=' => Some(Class::Assign),
        _ => None,
    }
}

//! The reserved words.

ghost use Rattle.std.specs.Prelude.{◌≡◌};
ghost use Rattle.c_tokens.specs.Words as spec;

use crate::class::Class;

/// The reserved word that these bytes are.
#[tactic(auto, unfolding(crate::specs::Words::word_of))]
pub fn word_of(text: &[u8]) -> Option<Class>
    ensures { result ≡ spec.word_of text.now }
{
    match text {
        b"void" => Some(Class::Void),
        b"char" => Some(Class::Char),
        b"short" => Some(Class::Short),
        b"int" => Some(Class::Int),
        b"long" => Some(Class::Long),
        b"signed" => Some(Class::Signed),
        b"unsigned" => Some(Class::Unsigned),
        b"struct" => Some(Class::Struct),
        b"extern" => Some(Class::Extern),
        b"if" => Some(Class::If),
        b"else" => Some(Class::Else),
        b"while" => Some(Class::While),
        b"do" => Some(Class::Do),
        b"for" => Some(Class::For),
        b"break" => Some(Class::Break),
        b"continue" => Some(Class::Continue),
        b"return" => Some(Class::Return),
        b"sizeof" => Some(Class::SizeOf),
        _ => None,
    }
}

//! Tests on the classes of tokens.

ghost use Rattle.std.specs.Prelude.{◌≡◌, ◌∷◌};
ghost use Rattle.c_tokens.specs.declared.class.Class.TheVariants as k;
ghost use Rattle.c_grammar.specs.Lexemes.{same, among};
ghost use Rattle.c_grammar.specs.Grammar.{other_assigners};
ghost use Rattle.c_grammar.specs.Rules as n;
ghost use Rattle.c_grammar.specs.Reading.{base_begins, integer_begins, width_begins, expression_begins, prefix_begins, begins};

use c_tokens::Class;

/// Whether two classes are the same.
#[tactic(auto, unfolding(c_grammar::specs::Lexemes::same))]
pub fn same_class(a: Class, b: Class) -> bool
    ensures { result ≡ same a b }
{
    a == b
}

/// Whether a token of this class begins the word for a width.
pub fn begins_width(class: Class) -> bool
    ensures { result ≡ among class width_begins }
{
    same_class(class, Class::Char)
        || same_class(class, Class::Short)
        || same_class(class, Class::Int)
        || same_class(class, Class::Long)
}

/// Whether a token of this class begins an integer type.
pub fn begins_integer(class: Class) -> bool
    ensures { result ≡ among class integer_begins }
{
    same_class(class, Class::Signed) || same_class(class, Class::Unsigned) || begins_width(class)
}

/// Whether a token of this class begins a type.
pub fn begins_type(class: Class) -> bool
    ensures { result ≡ among class base_begins }
{
    same_class(class, Class::Void) || same_class(class, Class::Struct) || begins_integer(class)
}

/// Whether a token of this class is an operator before its operand.
pub fn is_prefix(class: Class) -> bool
    ensures { result ≡ among class prefix_begins }
{
    same_class(class, Class::Minus)
        || same_class(class, Class::Tilde)
        || same_class(class, Class::Not)
        || same_class(class, Class::Star)
        || same_class(class, Class::And)
        || same_class(class, Class::PlusPlus)
        || same_class(class, Class::MinusMinus)
}

/// Whether a token of this class begins a number, a character, a text or a name.
pub fn begins_atom(class: Class) -> bool
    ensures { result ≡ among class (begins n.Atom) }
{
    same_class(class, Class::Number)
        || same_class(class, Class::Character)
        || same_class(class, Class::Text)
        || same_class(class, Class::Name)
}

/// Whether a token of this class begins an expression.
pub fn begins_expression(class: Class) -> bool
    ensures { result ≡ among class expression_begins }
{
    same_class(class, Class::OpenParen)
        || is_prefix(class)
        || same_class(class, Class::SizeOf)
        || begins_atom(class)
}

/// Whether a token of this class is an operator of an assignment.
pub fn is_assigner(class: Class) -> bool
    ensures { result ≡ among class (k.Assign ∷ other_assigners) }
{
    same_class(class, Class::Assign)
        || same_class(class, Class::PlusAssign)
        || same_class(class, Class::MinusAssign)
        || same_class(class, Class::StarAssign)
        || same_class(class, Class::SlashAssign)
        || same_class(class, Class::PercentAssign)
        || same_class(class, Class::AndAssign)
        || same_class(class, Class::OrAssign)
        || same_class(class, Class::XorAssign)
        || same_class(class, Class::ShiftLeftAssign)
        || same_class(class, Class::ShiftRightAssign)
}

/// Whether a token of this class begins a part that stands after what it is applied to.
pub fn begins_part(class: Class) -> bool
    ensures { result ≡ among class (begins n.Part) }
{
    same_class(class, Class::OpenBracket)
        || same_class(class, Class::Dot)
        || same_class(class, Class::Arrow)
        || same_class(class, Class::PlusPlus)
        || same_class(class, Class::MinusMinus)
}

//! The levels of binary operators, by number from the tightest on, which is 0.

ghost use Rattle.std.specs.Prelude.{◌≡◌, ◌<◌, ◌≤◌, true, false, MatchOption};
ghost use Rattle.parse_expressions.specs.Levels as spec;

use crate::classes::same_class;
use c_tokens::Class;

/// How many levels there are.
pub const LEVELS: u8 = 10;

/// Whether a token of this class is an operator of the level.
pub fn is_operator(level: u8, class: Class) -> bool
    requires { level < 10 }
    ensures { result ≡ spec.is_operator level class }
{
    match level {
        0 => {
            same_class(class, Class::Star)
                || same_class(class, Class::Slash)
                || same_class(class, Class::Percent)
        }
        1 => same_class(class, Class::Plus) || same_class(class, Class::Minus),
        2 => same_class(class, Class::ShiftLeft) || same_class(class, Class::ShiftRight),
        3 => {
            same_class(class, Class::Less)
                || same_class(class, Class::LessEqual)
                || same_class(class, Class::Greater)
                || same_class(class, Class::GreaterEqual)
        }
        4 => same_class(class, Class::EqualEqual) || same_class(class, Class::NotEqual),
        5 => same_class(class, Class::And),
        6 => same_class(class, Class::Xor),
        7 => same_class(class, Class::Or),
        8 => same_class(class, Class::AndAnd),
        _ => same_class(class, Class::OrOr),
    }
}

/// The level of an operator of this class, if it is one of the first so many.
pub fn level_within(levels: u8, class: Class) -> Option<u8>
    requires { levels ≤ 10 }
    ensures { MatchOption result (spec.is_within levels class ≡ false) (λ level. (level < levels) × (spec.is_operator level class ≡ true) × (spec.is_within level class ≡ false)) }
{
    for level in 0..levels {
        if is_operator(level, class) {
            return Some(level);
        }
    }
    None
}

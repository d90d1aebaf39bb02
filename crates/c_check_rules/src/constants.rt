//! Constants.

ghost use Rattle.std.specs.Prelude.{◌≡◌, ◌≤ℤ◌, ◌+ℤ◌, ◌-ℤ◌, ◌*ℤ◌, ◌*◌, ◌%◌, ◌^◌, ◌≤◌, unsigned_abs, true, ◌<◌, pos, negsuc, Some, not, false, int_div, int_rem};
ghost use Rattle.std.specs.Ordering.{int_eq};
ghost use Rattle.mx_base.specs.Numbers.{value_of, word_of as word_of_number, residue};
ghost use Rattle.mx_base.specs.declared.operators.Arithmetic.TheVariants.{Mul, Div, Rem, Add, Sub, Shl, Shr, BitAnd, BitXor, BitOr};
ghost use Rattle.mx_base.specs.declared.operators.Comparison.TheVariants.{Less, LessOrEqual, Equal, NotEqual};
ghost use Rattle.mx_base.specs.Operators.{compares, negated, inverted, is_zero, is_long as spec_is_long, has_no_quotient as spec_has_no_quotient, count_modulus as spec_count_modulus, word_arithmetic};
ghost use Rattle.c_check_rules.specs.Constants as spec;

use crate::kinds::Outer;
use c_tree::{BinaryOp, Logical, UnaryOp};
use mx_base::{Arithmetic, Comparison, IntKind, extend, wrap};

/// What an expression is as a constant: one by its 64-bit word, one whose division stops, or none.
#[derive(Clone, Copy, Debug)]
pub enum Constant {
    Value(u64),
    Stops,
    No,
}

/// The number of a type that the low bits of a word stand for.
#[tactic(auto, using(crate::proofs::Values::least_bound, crate::proofs::Values::greatest_bound, crate::proofs::Values::size_bound, crate::proofs::Values::narrow_bound), unfolding(mx_base::specs::Numbers::value_of, mx_base::specs::Numbers::wrapped, mx_base::specs::Numbers::residue))]
fn number(kind: IntKind, word: u64) -> i128
    ensures value { result ≡ value_of kind word }
    ensures low { negsuc 0x7fff_ffff_ffff_ffff ≤ℤ result }
    ensures high { result ≤ℤ pos 0xffff_ffff_ffff_ffff }
    ensures size { unsigned_abs result ≤ 0xffff_ffff_ffff_ffff }
    ensures narrow { spec.is_unsigned_long kind ≡ false → unsigned_abs result ≤ 0x8000_0000_0000_0000 }
{
    wrap(kind, word as i128)
}

/// The 64-bit word of a number.
#[tactic(auto, unfolding(mx_base::specs::Numbers::word_of, mx_base::specs::Numbers::residue))]
fn word_of(n: i128) -> u64
    ensures { result ≡ word_of_number n }
{
    n.rem_euclid(0x1_0000_0000_0000_0000) as u64
}

#[tactic(auto, unfolding(mx_base::specs::Operators::negated))]
fn negative(kind: IntKind, word: u64) -> u64
    ensures { result ≡ word_of_number (negated kind (value_of kind word)) }
{
    let n = number(kind, word);
    word_of(wrap(kind, 0 - n))
}

#[tactic(auto, unfolding(mx_base::specs::Operators::inverted))]
fn inverse(kind: IntKind, word: u64) -> u64
    ensures { result ≡ word_of_number (inverted kind (value_of kind word)) }
{
    let n = number(kind, word);
    word_of(wrap(kind, -1 - n))
}

#[tactic(auto, unfolding(mx_base::specs::Operators::is_zero))]
fn is_zero_word(kind: IntKind, word: u64) -> bool
    ensures { result ≡ is_zero (value_of kind word) }
{
    let n = number(kind, word);
    n == 0
}

fn truth_word(holds: bool) -> Constant
    ensures { result ≡ spec.truth_word holds }
{
    if holds {
        Constant::Value(1)
    } else {
        Constant::Value(0)
    }
}

fn unary_word(op: UnaryOp, kind: IntKind, word: u64) -> Constant
    ensures { result ≡ spec.unary_word op kind word }
{
    match op {
        UnaryOp::Neg => Constant::Value(negative(kind, word)),
        UnaryOp::BitNot => Constant::Value(inverse(kind, word)),
        UnaryOp::Not => truth_word(is_zero_word(kind, word)),
        UnaryOp::Deref | UnaryOp::AddressOf => Constant::No,
    }
}

/// `-`, `~` or `!` over a constant of a type.
pub fn fold_unary(op: UnaryOp, kind: IntKind, constant: Constant) -> Constant
    ensures { result ≡ spec.fold_unary op kind constant }
{
    match constant {
        Constant::Value(word) => unary_word(op, kind, word),
        Constant::Stops => Constant::Stops,
        Constant::No => Constant::No,
    }
}

fn truth(word: u64) -> Constant
    ensures { result ≡ spec.truth word }
{
    if word == 0 {
        Constant::Value(0)
    } else {
        Constant::Value(1)
    }
}

fn truth_of(constant: Constant) -> Constant
    ensures { result ≡ spec.truth_of constant }
{
    match constant {
        Constant::Value(word) => truth(word),
        Constant::Stops => Constant::Stops,
        Constant::No => Constant::No,
    }
}

fn both(word: u64, b: Constant) -> Constant
    ensures { result ≡ spec.both word b }
{
    if word == 0 {
        Constant::Value(0)
    } else {
        truth_of(b)
    }
}

fn either(word: u64, b: Constant) -> Constant
    ensures { result ≡ spec.either word b }
{
    if word == 0 {
        truth_of(b)
    } else {
        Constant::Value(1)
    }
}

fn logical(op: Logical, word: u64, b: Constant) -> Constant
    ensures { result ≡ spec.logical op word b }
{
    match op {
        Logical::And => both(word, b),
        Logical::Or => either(word, b),
    }
}

fn fold_logic(op: Logical, a: Constant, b: Constant) -> Constant
    ensures { result ≡ spec.fold_logic op a b }
{
    match a {
        Constant::No => Constant::No,
        Constant::Stops => match b {
            Constant::No => Constant::No,
            Constant::Value(_) => Constant::Stops,
            Constant::Stops => Constant::Stops,
        },
        Constant::Value(word) => match b {
            Constant::No => Constant::No,
            Constant::Value(_) => logical(op, word, b),
            Constant::Stops => logical(op, word, b),
        },
    }
}

fn fold_strict(op: BinaryOp, kind: IntKind, a: Constant, b: Constant) -> Constant
    ensures { result ≡ spec.fold_strict op kind a b }
{
    match a {
        Constant::No => Constant::No,
        Constant::Stops => match b {
            Constant::No => Constant::No,
            Constant::Value(_) => Constant::Stops,
            Constant::Stops => Constant::Stops,
        },
        Constant::Value(word) => match b {
            Constant::No => Constant::No,
            Constant::Stops => Constant::Stops,
            Constant::Value(by) => binary_word(op, kind, word, by),
        },
    }
}

/// An operator of two operands over constants that are taken in a type.
pub fn fold_binary(op: BinaryOp, kind: IntKind, a: Constant, b: Constant) -> Constant
    ensures { result ≡ spec.fold_binary op kind a b }
{
    match op {
        BinaryOp::Arithmetic(_) | BinaryOp::Comparison(_) => fold_strict(op, kind, a, b),
        BinaryOp::Logical(op) => fold_logic(op, a, b),
    }
}

/// A constant in the type of this form.
pub fn cast_constant(form: Outer, constant: Constant) -> Constant
    ensures { result ≡ spec.cast_constant form constant }
{
    match constant {
        Constant::Value(word) => match form {
            Outer::Int(kind) => Constant::Value(extend(kind, word)),
            Outer::Pointer => Constant::Value(word),
            Outer::Void => Constant::No,
            Outer::Array(_) => Constant::No,
            Outer::Struct(_) => Constant::No,
        },
        Constant::Stops => Constant::Stops,
        Constant::No => Constant::No,
    }
}

fn is_no(constant: Constant) -> bool
    ensures { result ≡ spec.is_no constant }
{
    match constant {
        Constant::No => true,
        Constant::Value(_) => false,
        Constant::Stops => false,
    }
}

/// `?:` over constants, whose values are taken in a type.
pub fn choose(kind: IntKind, test: Constant, a: Constant, b: Constant) -> Constant
    ensures { result ≡ spec.choose kind test a b }
{
    if is_no(test) || is_no(a) || is_no(b) {
        return Constant::No;
    }
    match test {
        Constant::Value(word) => {
            let taken = if word == 0 { b } else { a };
            cast_constant(Outer::Int(kind), taken)
        }
        Constant::Stops => Constant::Stops,
        Constant::No => Constant::No,
    }
}

fn signed(word: u64) -> i128
    ensures { result ≡ pos word }
{
    word as i128
}

fn sum(x: i128, y: i128) -> i128
    requires low { negsuc 0x7fff_ffff_ffff_ffff ≤ℤ x }
    requires high { x ≤ℤ pos 0xffff_ffff_ffff_ffff }
    requires low_by { negsuc 0x7fff_ffff_ffff_ffff ≤ℤ y }
    requires high_by { y ≤ℤ pos 0xffff_ffff_ffff_ffff }
    ensures { result ≡ x +ℤ y }
{
    x + y
}

fn difference(x: i128, y: i128) -> i128
    requires low { negsuc 0x7fff_ffff_ffff_ffff ≤ℤ x }
    requires high { x ≤ℤ pos 0xffff_ffff_ffff_ffff }
    requires low_by { negsuc 0x7fff_ffff_ffff_ffff ≤ℤ y }
    requires high_by { y ≤ℤ pos 0xffff_ffff_ffff_ffff }
    ensures { result ≡ x -ℤ y }
{
    x - y
}

fn quotient(x: i128, y: i128) -> i128
    requires low { negsuc 0x7fff_ffff_ffff_ffff ≤ℤ x }
    requires high { x ≤ℤ pos 0xffff_ffff_ffff_ffff }
    requires some { int_eq y (pos 0) ≡ false }
    ensures { result ≡ int_div x y }
{
    x / y
}

fn remainder(x: i128, y: i128) -> i128
    requires low { negsuc 0x7fff_ffff_ffff_ffff ≤ℤ x }
    requires high { x ≤ℤ pos 0xffff_ffff_ffff_ffff }
    requires some { int_eq y (pos 0) ≡ false }
    ensures { result ≡ int_rem x y }
{
    x % y
}

#[tactic(auto, unfolding(mx_base::specs::Operators::word_arithmetic, mx_base::specs::Operators::arithmetic))]
fn plus(kind: IntKind, a: u64, b: u64) -> u64
    ensures { word_arithmetic Add kind a b ≡ Some result }
{
    let x = number(kind, a);
    let y = number(kind, b);
    word_of(wrap(kind, sum(x, y)))
}

#[tactic(auto, unfolding(mx_base::specs::Operators::word_arithmetic, mx_base::specs::Operators::arithmetic))]
fn minus(kind: IntKind, a: u64, b: u64) -> u64
    ensures { word_arithmetic Sub kind a b ≡ Some result }
{
    let x = number(kind, a);
    let y = number(kind, b);
    word_of(wrap(kind, difference(x, y)))
}

#[tactic(auto, unfolding(mx_base::specs::Operators::word_arithmetic, mx_base::specs::Operators::arithmetic))]
fn bits_and(kind: IntKind, a: u64, b: u64) -> u64
    ensures { word_arithmetic BitAnd kind a b ≡ Some result }
{
    let x = word_of(number(kind, a));
    let y = word_of(number(kind, b));
    word_of(wrap(kind, signed(x & y)))
}

#[tactic(auto, unfolding(mx_base::specs::Operators::word_arithmetic, mx_base::specs::Operators::arithmetic))]
fn bits_xor(kind: IntKind, a: u64, b: u64) -> u64
    ensures { word_arithmetic BitXor kind a b ≡ Some result }
{
    let x = word_of(number(kind, a));
    let y = word_of(number(kind, b));
    word_of(wrap(kind, signed(x ^ y)))
}

#[tactic(auto, unfolding(mx_base::specs::Operators::word_arithmetic, mx_base::specs::Operators::arithmetic))]
fn bits_or(kind: IntKind, a: u64, b: u64) -> u64
    ensures { word_arithmetic BitOr kind a b ≡ Some result }
{
    let x = word_of(number(kind, a));
    let y = word_of(number(kind, b));
    word_of(wrap(kind, signed(x | y)))
}

#[tactic(auto, unfolding(mx_base::specs::Operators::compares))]
fn below(kind: IntKind, a: u64, b: u64) -> bool
    ensures { result ≡ compares Less (value_of kind a) (value_of kind b) }
{
    let x = number(kind, a);
    let y = number(kind, b);
    x < y
}

#[tactic(auto, unfolding(mx_base::specs::Operators::compares))]
fn at_most(kind: IntKind, a: u64, b: u64) -> bool
    ensures { result ≡ compares LessOrEqual (value_of kind a) (value_of kind b) }
{
    let x = number(kind, a);
    let y = number(kind, b);
    x <= y
}

#[tactic(auto, unfolding(mx_base::specs::Operators::compares))]
fn equal(kind: IntKind, a: u64, b: u64) -> bool
    ensures same { result ≡ compares Equal (value_of kind a) (value_of kind b) }
    ensures differs { not result ≡ compares NotEqual (value_of kind a) (value_of kind b) }
{
    let x = number(kind, a);
    let y = number(kind, b);
    x == y
}

fn is_long(kind: IntKind) -> bool
    ensures { result ≡ spec_is_long kind }
{
    match kind {
        IntKind::I64 => true,
        _ => false,
    }
}

fn has_no_quotient(kind: IntKind, x: i128, y: i128) -> bool
    ensures value { result ≡ spec_has_no_quotient kind x y }
    ensures divisor { result ≡ false → int_eq y (pos 0) ≡ false }
{
    y == 0 || (is_long(kind) && x == -0x8000_0000_0000_0000 && y == -1)
}

#[tactic(auto, unfolding(mx_base::specs::Operators::word_arithmetic, mx_base::specs::Operators::arithmetic))]
fn over(kind: IntKind, a: u64, b: u64) -> Option<u64>
    ensures { result ≡ word_arithmetic Div kind a b }
{
    let x = number(kind, a);
    let y = number(kind, b);
    if has_no_quotient(kind, x, y) {
        None
    } else {
        Some(word_of(wrap(kind, quotient(x, y))))
    }
}

#[tactic(auto, unfolding(mx_base::specs::Operators::word_arithmetic, mx_base::specs::Operators::arithmetic))]
fn rest(kind: IntKind, a: u64, b: u64) -> Option<u64>
    ensures { result ≡ word_arithmetic Rem kind a b }
{
    let x = number(kind, a);
    let y = number(kind, b);
    if has_no_quotient(kind, x, y) {
        None
    } else {
        Some(word_of(wrap(kind, remainder(x, y))))
    }
}

fn answered(word: Option<u64>) -> Constant
    ensures { result ≡ spec.answered word }
{
    match word {
        Some(word) => Constant::Value(word),
        None => Constant::Stops,
    }
}

/// The word that an operator calculates of two words that are taken in the type, or none where there is no quotient.
fn calculated(op: Arithmetic, kind: IntKind, a: u64, b: u64) -> Option<u64>
    ensures { result ≡ word_arithmetic op kind a b }
{
    match op {
        Arithmetic::Mul => Some(times(kind, a, b)),
        Arithmetic::Div => over(kind, a, b),
        Arithmetic::Rem => rest(kind, a, b),
        Arithmetic::Add => Some(plus(kind, a, b)),
        Arithmetic::Sub => Some(minus(kind, a, b)),
        Arithmetic::Shl => Some(left(kind, a, b)),
        Arithmetic::Shr => Some(right(kind, a, b)),
        Arithmetic::BitAnd => Some(bits_and(kind, a, b)),
        Arithmetic::BitXor => Some(bits_xor(kind, a, b)),
        Arithmetic::BitOr => Some(bits_or(kind, a, b)),
    }
}

/// Whether two words that are taken in the type compare so.
#[tactic(auto, unfolding(mx_base::specs::Operators::compares))]
fn compared(op: Comparison, kind: IntKind, a: u64, b: u64) -> bool
    ensures { result ≡ compares op (value_of kind a) (value_of kind b) }
{
    match op {
        Comparison::Less => below(kind, a, b),
        Comparison::LessOrEqual => at_most(kind, a, b),
        Comparison::Greater => below(kind, b, a),
        Comparison::GreaterOrEqual => at_most(kind, b, a),
        Comparison::Equal => equal(kind, a, b),
        Comparison::NotEqual => !equal(kind, a, b),
    }
}

/// An operator on two words that are taken in the type.
fn binary_word(op: BinaryOp, kind: IntKind, a: u64, b: u64) -> Constant
    ensures { result ≡ spec.binary_word op kind a b }
{
    match op {
        BinaryOp::Arithmetic(op) => answered(calculated(op, kind, a, b)),
        BinaryOp::Comparison(op) => truth_word(compared(op, kind, a, b)),
        BinaryOp::Logical(op) => logical(op, a, Constant::Value(b)),
    }
}

/// How many bits a shift count is taken modulo.
fn count_modulus(kind: IntKind) -> i128
    ensures value { result ≡ pos (spec_count_modulus kind) }
    ensures some { pos 32 ≤ℤ result }
    ensures few { result ≤ℤ pos 64 }
{
    match kind {
        IntKind::I64 => 64,
        IntKind::U64 => 64,
        _ => 32,
    }
}

#[tactic(auto, unfolding(mx_base::specs::Numbers::residue))]
fn shift_count(kind: IntKind, b: u64) -> u32
    ensures value { result ≡ residue (spec_count_modulus kind) (value_of kind b) }
    ensures few { result < 64 }
{
    let y = number(kind, b);
    y.rem_euclid(count_modulus(kind)) as u32
}

/// A power of 2.
fn power(count: u32) -> u64
    requires { count < 64 }
    ensures { result ≡ 2 ^ count }
{
    1u64 << count
}

/// A product that fits: the second factor is at most 2^63 either way.
fn product(x: i128, y: i128) -> i128
    requires left { unsigned_abs x ≤ 0xffff_ffff_ffff_ffff }
    requires right { unsigned_abs y ≤ 0x8000_0000_0000_0000 }
    ensures { result ≡ x *ℤ y }
{
    x * y
}

#[tactic(auto, unfolding(mx_base::specs::Operators::word_arithmetic, mx_base::specs::Operators::arithmetic))]
fn left(kind: IntKind, a: u64, b: u64) -> u64
    ensures { word_arithmetic Shl kind a b ≡ Some result }
{
    let x = number(kind, a);
    let factor = power(shift_count(kind, b));
    word_of(wrap(kind, product(x, signed(factor))))
}

#[tactic(auto, unfolding(mx_base::specs::Operators::word_arithmetic, mx_base::specs::Operators::arithmetic))]
fn right(kind: IntKind, a: u64, b: u64) -> u64
    ensures { word_arithmetic Shr kind a b ≡ Some result }
{
    let x = number(kind, a);
    let count = shift_count(kind, b);
    word_of(wrap(kind, x >> count))
}

fn is_unsigned_long(kind: IntKind) -> bool
    ensures { result ≡ spec.is_unsigned_long kind }
{
    match kind {
        IntKind::U64 => true,
        _ => false,
    }
}

/// The low 64 bits of a product.
fn low_product(a: u64, b: u64) -> u64
    ensures { result ≡ (a * b) % 0x1_0000_0000_0000_0000 }
{
    (a as u128 * b as u128 % 0x1_0000_0000_0000_0000) as u64
}

#[tactic(auto, using(crate::proofs::Values::low_product_is))]
fn times_unsigned(kind: IntKind, a: u64, b: u64) -> u64
    requires { spec.is_unsigned_long kind ≡ true }
    ensures { word_arithmetic Mul kind a b ≡ Some result }
{
    low_product(a, b)
}

#[tactic(auto, unfolding(mx_base::specs::Operators::word_arithmetic, mx_base::specs::Operators::arithmetic))]
fn times_narrow(kind: IntKind, a: u64, b: u64) -> u64
    requires { spec.is_unsigned_long kind ≡ false }
    ensures { word_arithmetic Mul kind a b ≡ Some result }
{
    let x = number(kind, a);
    let y = number(kind, b);
    word_of(wrap(kind, product(x, y)))
}

fn times(kind: IntKind, a: u64, b: u64) -> u64
    ensures { word_arithmetic Mul kind a b ≡ Some result }
{
    if is_unsigned_long(kind) {
        times_unsigned(kind, a, b)
    } else {
        times_narrow(kind, a, b)
    }
}

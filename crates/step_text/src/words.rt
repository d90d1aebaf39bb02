//! The words and signs of operators, types and services.

use mx_base::{Arithmetic, CService, Comparison, IntKind};

/// An operator that calculates, as C writes it.
pub fn arithmetic_sign(op: Arithmetic) -> &'static str {
    match op {
        Arithmetic::Mul => "*",
        Arithmetic::Div => "/",
        Arithmetic::Rem => "%",
        Arithmetic::Add => "+",
        Arithmetic::Sub => "-",
        Arithmetic::Shl => "<<",
        Arithmetic::Shr => ">>",
        Arithmetic::BitAnd => "&",
        Arithmetic::BitXor => "^",
        Arithmetic::BitOr => "|",
    }
}

/// An operator that compares, as C writes it.
pub fn comparison_sign(op: Comparison) -> &'static str {
    match op {
        Comparison::Less => "<",
        Comparison::LessOrEqual => "<=",
        Comparison::Greater => ">",
        Comparison::GreaterOrEqual => ">=",
        Comparison::Equal => "==",
        Comparison::NotEqual => "!=",
    }
}

/// A type of integers.
pub fn kind_word(kind: IntKind) -> &'static str {
    match kind {
        IntKind::I8 => "i8",
        IntKind::U8 => "u8",
        IntKind::I16 => "i16",
        IntKind::U16 => "u16",
        IntKind::I32 => "i32",
        IntKind::U32 => "u32",
        IntKind::I64 => "i64",
        IntKind::U64 => "u64",
    }
}

/// A service by the name of its function in C.
pub fn service_word(service: CService) -> &'static str {
    match service {
        CService::Print => "print",
        CService::Put => "put",
        CService::Get => "get",
        CService::Alloc => "alloc",
        CService::Free => "free",
        CService::Exit => "exit",
    }
}

/// An end of bounds.
pub fn end_word(upper: bool) -> &'static str {
    if upper { "upper" } else { "lower" }
}

/// What an access does.
pub fn access_word(write: bool) -> &'static str {
    if write { "write" } else { "read" }
}

//! The rules of C's types, without a tree: types as values, their sizes, which types operators, conversions and casts take and give,
//! constants, and what is known of a name.
#![tactic(auto)]

mod constants;
mod conversions;
mod kinds;
mod named;
mod names;
mod operators;
mod predeclared;
mod sizes;

pub use constants::{Constant, cast_constant, choose, fold_binary, fold_unary};
pub use conversions::{
    cast_fits, common, converts, fits_struct, is_scalar, is_void, is_void_pointer, promoted,
};
pub use kinds::{Core, Layer, Outer, Type, same};
pub use named::{HasName, NamedItems};
pub use names::{
    Function, Local, Member, Scope, StructInfo, Variable, copy_name, copy_types, member_kind,
    member_named, same_name,
};
pub use operators::{binary_kind, choice_kind, moves, shifts, takes_away};
pub use predeclared::{Bind, Builtin, Found, is_predeclared};
pub use sizes::{
    LIMIT, align_in, inner_size, is_inner_sized, is_sized, is_within, scalars_in, size_in,
};

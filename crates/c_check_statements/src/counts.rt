//! The counts of declarations.

ghost use Rattle.std.specs.Prelude.{◌≡◌, IfOk, Some};
ghost use Rattle.c_check_rules.specs.Conversions.{is_integer_form};
ghost use Rattle.c_check_statements.specs.Counts as spec;
ghost use Rattle.c_check_statements.specs.Counts.{ReadsCounts};

use c_check_expressions::read_expr;
use c_check_rules::{Constant, LIMIT, Outer, Scope, Type};
use c_check_typing::{CheckFault, Notes, Typed};
use c_tree::Expr;
use mx_base::OutOfMemory;
use sqlite_items::Items;
use std::alloc::Global;

/// The counts of a declaration: their values, whether one is outside the limits, whether one is no constant, and whether one is no integer.
#[derive(Drop)]
pub struct Counts {
    pub values: Items<u64>,
    pub is_out: bool,
    pub is_open: bool,
    pub is_odd: bool,
}

/// Whether a value is no constant, or a division that has no quotient.
pub fn open_constant(constant: Constant) -> bool
    ensures { result ≡ spec.open_constant constant }
{
    match constant {
        Constant::Value(_) => false,
        Constant::Stops => true,
        Constant::No => true,
    }
}

fn is_integer(form: Outer) -> bool
    ensures { result ≡ is_integer_form form }
{
    match form {
        Outer::Int(_) => true,
        Outer::Void => false,
        Outer::Pointer => false,
        Outer::Array(_) => false,
        Outer::Struct(_) => false,
    }
}

fn out_constant(form: Outer, constant: Constant) -> bool
    ensures { result ≡ spec.out_constant form constant }
{
    match constant {
        Constant::Value(word) => is_integer(form) && !(1 <= word && word <= LIMIT),
        Constant::Stops => false,
        Constant::No => false,
    }
}

impl Counts {
    fn new(alloc: Global) -> Counts
        ensures { result ≡ spec.no_counts }
    {
        Counts {
            values: Items::new(alloc),
            is_out: false,
            is_open: false,
            is_odd: false,
        }
    }

    /// The counts with one more.
    fn with(self, t: &Typed) -> Result<Counts, OutOfMemory>
        ensures { IfOk result (λ counts. counts ≡ spec.count_after self t.now) }
    {
        let Counts {
            values,
            is_out,
            is_open,
            is_odd,
        } = self;
        let mut values = values;
        if let Constant::Value(word) = t.constant {
            values.push(word)?;
        }
        let form = t.kind.outer();
        Ok(Counts {
            values,
            is_out: is_out || out_constant(form, t.constant),
            is_open: is_open || open_constant(t.constant),
            is_odd: is_odd || !is_integer(form),
        })
    }

    /// Whether the counts make a type.
    pub fn is_plain(&self) -> bool
        ensures { result ≡ spec.is_plain self.now }
    {
        !self.is_out && !self.is_open && !self.is_odd
    }
}

/// Arrays of so many of a type, the first outermost.
pub fn arrayed(alloc: Global, values: &[u64], kind: Type) -> Result<Type, OutOfMemory>
    ensures { IfOk result (λ t. t ≡ spec.arrayed values.now kind) }
{
    let mut arrayed = kind;
    let mut i = values.len();
    'values: while i > 0 {
        i -= 1;
        arrayed = arrayed.array_of(alloc, values[i])?;
    }
    Ok(arrayed)
}

/// Reads the counts of a declaration from the left.
pub fn read_counts(
    alloc: Global,
    scope: &Scope,
    notes: &mut Notes,
    exprs: &[Expr],
) -> Result<Counts, CheckFault>
    ensures { ReadsCounts (spec.counted scope.now (Some spec.no_counts) exprs.now) notes.old result notes.new }
{
    let mut counts = Counts::new(alloc);
    'exprs: for expr in exprs {
        let t = read_expr(alloc, scope, notes, false, expr)?;
        counts = counts.with(&t)?;
    }
    Ok(counts)
}

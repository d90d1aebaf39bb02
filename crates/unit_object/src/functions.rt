//! The code of a function behind that of others, in the part of code of a unit.

ghost use Rattle.std.specs.Prelude.{◌≡◌, ◌++◌, length, IfOk, OnOk};
ghost use Rattle.unit_object.specs.Given.{coded_of, is_function_of};
ghost use Rattle.unit_object.specs.Units as u;

use code_emit::{
    Field, FunctionPlan, Parameter, note_fields, place_labels, put_function, steps_at,
};
use fat_ir::FatFun;
use mx_base::OutOfMemory;
use obj_file::Spot3;
use std::alloc::Global;

/// A function with what its code goes by.
#[derive(Clone, Copy)]
pub struct UnitFunction<'a> {
    pub fun: &'a FatFun,
    pub plan: FunctionPlan<'a>,
    pub parameters: &'a [Parameter],
    /// How many words of the control stack its frame has.
    pub units: u32,
    /// How many labels it has, that of its end with them: each is a number below this.
    pub labels: usize,
}

/// How many bytes there are.
fn length_of(code: &Vec<u8>) -> Result<u32, OutOfMemory>
    ensures { IfOk result (λ n. n ≡ length code.now.items) }
{
    match u32::try_from(code.len()) {
        Ok(n) => Ok(n),
        Err(_) => Err(OutOfMemory),
    }
}

/// The offset of each label of a function that begins at an offset.
fn labels_from(alloc: Global, f: &UnitFunction, at: u32) -> Result<Vec<u32>, OutOfMemory>
    ensures { IfOk result (λ labels. labels.items ≡ u.labels_from (is_function_of f.now) at (coded_of f.now)) }
{
    let mut labels = vec![in alloc; 0; f.labels]?;
    place_labels(
        alloc,
        &mut labels,
        &f.plan,
        f.fun,
        f.parameters,
        f.units,
        at,
    )?;
    Ok(labels)
}

/// The bytes of a function come behind those that are there, as its fields and the places of its checks do.
///
/// # Errors
///
/// `OutOfMemory`: no memory for bytes or lists, or a number that no instruction has room for.
pub fn put_unit_function(
    alloc: Global,
    code: &mut Vec<u8>,
    fields: &mut Vec<Field>,
    places: &mut Vec<Spot3>,
    f: &UnitFunction,
) -> Result<(), OutOfMemory>
    ensures code { OnOk result (code.new.items
        ≡ code.old.items ++ u.bytes_from (is_function_of f.now) (length code.old.items) (coded_of f.now)) }
    ensures fields { OnOk result (fields.new.items
        ≡ fields.old.items ++ u.fields_from (is_function_of f.now) (length code.old.items) (coded_of f.now)) }
    ensures places { OnOk result (places.new.items
        ≡ places.old.items ++ u.spots_from (is_function_of f.now) (length code.old.items) (coded_of f.now)) }
{
    let at = length_of(code)?;
    let labels = labels_from(alloc, f, at)?;
    put_function(
        alloc,
        code,
        labels.as_slice(),
        &f.plan,
        f.fun,
        f.parameters,
        f.units,
    )?;
    let first = steps_at(alloc, &f.plan, f.fun, f.parameters, f.units, at)?;
    note_fields(
        alloc,
        fields,
        places,
        &f.plan,
        f.fun.steps.as_slice(),
        first,
    )
}

//! The line of a step, and that of a function.

use crate::words::{
    access_word, arithmetic_sign, comparison_sign, end_word, kind_word, service_word,
};
use fat_ir::{FatFun, FatStep};
use std::alloc::{AllocError, Global};

/// The name of a symbol by its number; one that has no name is `?`.
fn name_of<'a>(names: &[&'a str], symbol: u32) -> &'a str {
    match names.get(symbol as usize) {
        Some(name) => *name,
        None => "?",
    }
}

/// What stands at an offset of an object, or else of the data frame.
fn object_text(
    alloc: Global,
    names: &[&str],
    symbol: Option<u32>,
    offset: u32,
) -> Result<String, AllocError> {
    let object = match symbol {
        Some(symbol) => name_of(names, symbol),
        None => "frame",
    };
    format!(in alloc; "{object} + {offset}")
}

/// A value, and its bounds behind it.
fn value_text(alloc: Global, value: u32, bounds: Option<u32>) -> Result<String, AllocError> {
    match bounds {
        Some(bounds) => format!(in alloc; "v{value} in v{bounds}"),
        None => format!(in alloc; "v{value}"),
    }
}

/// Where a result goes, with `=` behind it; nothing where it goes nowhere.
fn target_text(alloc: Global, to: Option<u32>, bounds: Option<u32>) -> Result<String, AllocError> {
    match to {
        Some(to) => {
            let value = value_text(alloc, to, bounds)?;
            format!(in alloc; "{value} = ")
        }
        None => Ok(String::new(alloc)),
    }
}

/// Arguments, with a comma between two of them.
fn arguments_text(alloc: Global, args: &[(u32, Option<u32>)]) -> Result<String, AllocError> {
    let mut text = String::new(alloc);
    let mut between = "";
    for arg in args {
        let value = value_text(alloc, arg.0, arg.1)?;
        text.push_str(between)?;
        text.push_str(value.as_str())?;
        between = ", ";
    }
    Ok(text)
}

/// A call of a symbol.
fn call_line(
    alloc: Global,
    name: &str,
    args: &[(u32, Option<u32>)],
    to: Option<u32>,
    bounds: Option<u32>,
) -> Result<String, AllocError> {
    let target = target_text(alloc, to, bounds)?;
    let arguments = arguments_text(alloc, args)?;
    format!(in alloc; "{target}call {name}({arguments})")
}

/// A call of a service.
fn service_line(
    alloc: Global,
    name: &str,
    arg: Option<u32>,
    to: Option<u32>,
) -> Result<String, AllocError> {
    let target = target_text(alloc, to, None)?;
    match arg {
        Some(arg) => format!(in alloc; "{target}service {name}(v{arg})"),
        None => format!(in alloc; "{target}service {name}()"),
    }
}

/// A return.
fn return_line(
    alloc: Global,
    from: Option<u32>,
    bounds: Option<u32>,
) -> Result<String, AllocError> {
    match from {
        Some(from) => {
            let value = value_text(alloc, from, bounds)?;
            format!(in alloc; "return {value}")
        }
        None => String::from_str(alloc, "return"),
    }
}

/// A step: values are `v` and their number, `vN in vM` is a pointer with its bounds, and symbols have their names from the list.
pub fn step_line(alloc: Global, step: &FatStep, names: &[&str]) -> Result<String, AllocError> {
    match step {
        FatStep::Const { to, n } => format!(in alloc; "v{to} = {n}"),
        FatStep::Copy { to, from } => format!(in alloc; "v{to} = v{from}"),
        FatStep::Arith { to, op, kind, a, b } => {
            let sign = arithmetic_sign(*op);
            let kind = kind_word(*kind);
            format!(in alloc; "v{to} = v{a} {sign} v{b} as {kind}")
        }
        FatStep::Compare { to, op, kind, a, b } => {
            let sign = comparison_sign(*op);
            let kind = kind_word(*kind);
            format!(in alloc; "v{to} = v{a} {sign} v{b} as {kind}")
        }
        FatStep::Extend { to, from, kind } => {
            let kind = kind_word(*kind);
            format!(in alloc; "v{to} = v{from} as {kind}")
        }
        FatStep::Place {
            to,
            bounds,
            symbol,
            offset,
            size,
        } => {
            let object = object_text(alloc, names, *symbol, *offset)?;
            format!(in alloc; "v{to} in v{bounds} = &{object} of {size}")
        }
        FatStep::Make { to, p, n } => format!(in alloc; "v{to} = bounds of v{n} at v{p}"),
        FatStep::Meet { to, a, b } => format!(in alloc; "v{to} = v{a} meet v{b}"),
        FatStep::Bound { to, from, upper } => {
            let end = end_word(*upper);
            format!(in alloc; "v{to} = {end} of v{from}")
        }
        FatStep::Judge {
            value,
            size,
            bounds,
            write,
            place,
        } => {
            let access = access_word(*write);
            let line = place.line;
            let col = place.col;
            format!(in alloc; "check {access} {size} v{value} in v{bounds} at {line}:{col}")
        }
        FatStep::Load { p, to, kind } => {
            let kind = kind_word(*kind);
            format!(in alloc; "v{to} = load {kind} v{p}")
        }
        FatStep::Store { p, from, kind } => {
            let kind = kind_word(*kind);
            format!(in alloc; "store {kind} v{p} = v{from}")
        }
        FatStep::LoadPtr { p, to, bounds } => {
            format!(in alloc; "v{to} in v{bounds} = load pointer v{p}")
        }
        FatStep::StorePtr { p, from, bounds } => {
            format!(in alloc; "store pointer v{p} = v{from} in v{bounds}")
        }
        FatStep::Label { n } => format!(in alloc; "label {n}"),
        FatStep::Jump { n } => format!(in alloc; "jump {n}"),
        FatStep::JumpIf { from, n } => format!(in alloc; "jump {n} if v{from}"),
        FatStep::Call {
            symbol,
            args,
            to,
            bounds,
        } => call_line(
            alloc,
            name_of(names, *symbol),
            args.as_slice(),
            *to,
            *bounds,
        ),
        FatStep::Service { service, arg, to } => {
            service_line(alloc, service_word(*service), *arg, *to)
        }
        FatStep::Give { from, bounds } => return_line(alloc, *from, *bounds),
    }
}

/// The head of a function: its name, how many values its private variables have, how many temporaries parameters arrive in, how many
/// temporaries there are, and the bytes of its data frame.
pub fn function_line(alloc: Global, fun: &FatFun, names: &[&str]) -> Result<String, AllocError> {
    let name = name_of(names, fun.name);
    let private = fun.private;
    let arrived = fun.arrived;
    let temps = fun.temps;
    let frame = fun.frame;
    format!(in alloc;
        "{name}: private {private}, arrived {arrived}, temporaries {temps}, frame {frame}"
    )
}

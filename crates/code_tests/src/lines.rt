//! Lines of steps.

use fat_ir::FatStep;
use mx_base::{Arithmetic, CService, Comparison, IntKind, Place};
use sqlite_items::Items;
use std::alloc::{AllocError, Global};
use std::test::Fail;
use step_text::step_line;

/// The symbols of the steps.
const NAMES: [&str; 2] = ["main", "grid"];

/// Whether the line of a step is this one.
fn is_line(alloc: Global, step: FatStep, line: &str) -> Result<bool, AllocError> {
    let text = step_line(alloc, &step, &NAMES)?;
    Ok(text.as_str() == line)
}

#[test]
fn symbols_have_their_names(rt: HostRuntime) -> Result<(), Fail> {
    let alloc = rt.alloc();
    let global = FatStep::Place {
        to: 4,
        bounds: 5,
        symbol: Some(1),
        offset: 8,
        size: 16,
    };
    assert!(rt; is_line(alloc, global, "v4 in v5 = &grid + 8 of 16")?);
    let framed = FatStep::Place {
        to: 4,
        bounds: 5,
        symbol: None,
        offset: 0,
        size: 4,
    };
    assert!(rt; is_line(alloc, framed, "v4 in v5 = &frame + 0 of 4")?);
    let unknown = FatStep::Call {
        symbol: 2,
        args: Items::new(alloc),
        to: None,
        bounds: None,
    };
    assert!(rt; is_line(alloc, unknown, "call ?()")?);
    Ok(())
}

#[test]
fn calls_have_their_arguments(rt: HostRuntime) -> Result<(), Fail> {
    let alloc = rt.alloc();
    let call = FatStep::Call {
        symbol: 0,
        args: Items::from_slice(alloc, &[(4, Some(5)), (6, None)])?,
        to: Some(8),
        bounds: Some(9),
    };
    assert!(rt; is_line(alloc, call, "v8 in v9 = call main(v4 in v5, v6)")?);
    let service = FatStep::Service {
        service: CService::Get,
        arg: None,
        to: Some(4),
    };
    assert!(rt; is_line(alloc, service, "v4 = service get()")?);
    let nothing = FatStep::Give {
        from: None,
        bounds: None,
    };
    assert!(rt; is_line(alloc, nothing, "return")?);
    Ok(())
}

#[test]
fn operators_have_their_signs_and_types(rt: HostRuntime) -> Result<(), Fail> {
    let alloc = rt.alloc();
    let shifted = FatStep::Arith {
        to: 4,
        op: Arithmetic::Shl,
        kind: IntKind::I32,
        a: 5,
        b: 6,
    };
    assert!(rt; is_line(alloc, shifted, "v4 = v5 << v6 as i32")?);
    let compared = FatStep::Compare {
        to: 4,
        op: Comparison::NotEqual,
        kind: IntKind::U64,
        a: 5,
        b: 6,
    };
    assert!(rt; is_line(alloc, compared, "v4 = v5 != v6 as u64")?);
    Ok(())
}

#[test]
fn checks_have_their_places(rt: HostRuntime) -> Result<(), Fail> {
    let alloc = rt.alloc();
    let written = FatStep::Judge {
        value: 4,
        size: 8,
        bounds: 5,
        write: true,
        place: Place {
            file: 0,
            line: 12,
            col: 3,
        },
    };
    assert!(rt; is_line(alloc, written, "check write 8 v4 in v5 at 12:3")?);
    Ok(())
}

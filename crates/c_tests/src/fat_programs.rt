//! A program of fat steps is built and dropped.

use fat_ir::{FatFun, FatProgram, FatStep};
use sqlite_items::Items;
use std::test::Fail;

#[test]
fn builds_and_drops_a_program(rt: HostRuntime) -> Result<(), Fail> {
    let alloc = rt.alloc();
    let mut args = Items::new(alloc);
    args.push((0, Some(1)))?;
    let mut steps = Items::new(alloc);
    steps.push(FatStep::Call {
        symbol: 2,
        args,
        to: Some(0),
        bounds: Some(1),
    })?;
    steps.push(FatStep::Give {
        from: Some(0),
        bounds: Some(1),
    })?;
    let mut funs = Items::new(alloc);
    funs.push(FatFun {
        name: 1,
        private: 2,
        arrived: 0,
        temps: 0,
        bounds: Items::from_slice(alloc, &[false, true])?,
        frame: 0,
        steps,
    })?;
    let program = FatProgram { funs };
    assert_eq!(rt; program.funs.len(), 1);
    Ok(())
}

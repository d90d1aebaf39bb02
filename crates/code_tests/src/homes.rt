//! Homes of small functions.

ghost use Rattle.std.specs.Prelude.{◌≡◌, IfOk};
ghost use Rattle.code_tests.specs.Functions.{adding, calling, first_one, first_two};

use fat_ir::{FatFun, FatStep};
use mx_base::{Arithmetic, IntKind, OutOfMemory, Place};
use reg_assign::{Wishes, assign};
use sqlite_items::Items;
use std::alloc::Global;
use std::test::Fail;
use step_code::Home;

/// `int f(int a, int b) { int c = b; g(); return a; }`: a and b are the values 0 and 1, and c is 2.
fn calling_function(alloc: Global) -> Result<FatFun, OutOfMemory>
    ensures { IfOk result (λ f. f ≡ calling) }
{
    let mut steps = Items::new(alloc);
    steps.push(FatStep::Copy { to: 2, from: 1 })?;
    steps.push(FatStep::Call {
        symbol: 0,
        args: Items::new(alloc),
        to: None,
        bounds: None,
    })?;
    steps.push(FatStep::Give {
        from: Some(0),
        bounds: None,
    })?;
    let bounds = Items::from_slice(alloc, &[false, false, false])?;
    Ok(FatFun {
        name: 0,
        private: 3,
        arrived: 0,
        temps: 0,
        bounds,
        frame: 0,
        steps,
    })
}

/// The parameters a and b wish for the first two registers.
fn wishes_of_two(alloc: Global) -> Result<Wishes, OutOfMemory>
    ensures { IfOk result (λ w. w ≡ first_two) }
{
    let numbers = Items::from_slice(alloc, &[0, 1])?;
    let bounds = Items::new(alloc);
    Ok(Wishes { numbers, bounds })
}

const HERE: Place = Place {
    file: 0,
    line: 1,
    col: 1,
};

/// `int f(int *p) { int i = 0; int s = 0; do { s += *p; } while (s); return s; }`: p is the values 0 and 1, i is 2, and s is 3.
fn adding_function(alloc: Global) -> Result<FatFun, OutOfMemory>
    ensures { IfOk result (λ f. f ≡ adding) }
{
    let mut steps = Items::new(alloc);
    steps.push(FatStep::Label { n: 1 })?;
    steps.push(FatStep::Judge {
        value: 0,
        size: 4,
        bounds: 1,
        write: false,
        place: HERE,
    })?;
    steps.push(FatStep::Load {
        p: 0,
        to: 4,
        kind: IntKind::I32,
    })?;
    steps.push(FatStep::Arith {
        to: 3,
        op: Arithmetic::Add,
        kind: IntKind::I32,
        a: 3,
        b: 4,
    })?;
    steps.push(FatStep::JumpIf { from: 3, n: 1 })?;
    steps.push(FatStep::Give {
        from: Some(3),
        bounds: None,
    })?;
    let bounds = Items::from_slice(alloc, &[false, true, false, false, false])?;
    Ok(FatFun {
        name: 0,
        private: 4,
        arrived: 0,
        temps: 1,
        bounds,
        frame: 0,
        steps,
    })
}

/// The parameter p wishes for the first register, and its bounds for none.
fn wishes_of_one(alloc: Global) -> Result<Wishes, OutOfMemory>
    ensures { IfOk result (λ w. w ≡ first_one) }
{
    let numbers = Items::from_slice(alloc, &[0])?;
    let bounds = Items::new(alloc);
    Ok(Wishes { numbers, bounds })
}

#[test]
#[tactic(auto, using(crate::proofs::Small::adding_can, crate::proofs::Small::one_may))]
fn a_loop_without_calls_has_registers_alone(rt: HostRuntime) -> Result<(), Fail> {
    let alloc = rt.alloc();
    let fun = adding_function(alloc)?;
    let wishes = wishes_of_one(alloc)?;
    let found = assign(alloc, &fun, &wishes)?;
    let wanted = [
        Home::Reg(7),
        Home::Bnd(2),
        Home::Reg(6),
        Home::Reg(10),
        Home::Reg(11),
    ];
    assert_eq!(rt; found.words, 0);
    assert_eq!(rt; found.homes.as_slice(), wanted.as_slice());
    Ok(())
}

#[test]
#[tactic(auto, using(crate::proofs::Small::calling_can, crate::proofs::Small::two_may))]
fn a_later_argument_has_no_earlier_register(rt: HostRuntime) -> Result<(), Fail> {
    let alloc = rt.alloc();
    let fun = calling_function(alloc)?;
    let wishes = wishes_of_two(alloc)?;
    let found = assign(alloc, &fun, &wishes)?;
    // a lives over the call; b keeps rsi, though rdi is free, in which a arrives; c has rdi
    let wanted = [Home::Slot(0), Home::Reg(6), Home::Reg(7)];
    assert_eq!(rt; found.words, 1);
    assert_eq!(rt; found.homes.as_slice(), wanted.as_slice());
    Ok(())
}

//! The steps in which each value lives.

ghost use Rattle.std.specs.Prelude.{◌≡◌, ℕ, ◌+◌, ◌<◌, ◌≤◌, ◌^◌, ◌++◌, false, true, map, length, IfOk, OnOk};
ghost use Rattle.fat_ir.specs.Named.{maybe, in_arguments};
ghost use Rattle.fat_ir.specs.Spans.{named, IsAssignable};
ghost use Rattle.reg_assign.specs.Ranges.{AreSpans};
ghost use Rattle.reg_assign.specs.Wishing.{AreWishes, StandAhead};
ghost use Rattle.reg_assign.specs.Lives.{up_to, touched, all_touched, steps_touched, nowhere, from_on, entered, lives, plain_named};
ghost use Rattle.reg_assign.specs.Loops.{loops_in, extended_range, extended_all};

use crate::loops::{Loop, extend, loops_of};
use crate::names::names_of;
use crate::wishes::Wishes;
use fat_ir::{FatFun, FatStep};
use mx_base::OutOfMemory;
use sqlite_items::Items;
use std::alloc::Global;

/// The steps from the place `from` on, up to `past`; none where that is 0.
#[derive(Clone, Copy, Debug, PartialEq, Eq)]
pub struct LiveRange {
    pub from: usize,
    pub past: usize,
}

/// Where the values of a function live.
#[derive(Drop)]
pub struct Lives {
    /// The range of each value.
    pub ranges: Items<LiveRange>,
    /// The values that live anywhere, by the beginnings of their ranges.
    pub order: Items<usize>,
}

/// The range up to a further step, which may be its first.
fn up_to_step(range: LiveRange, at: usize) -> LiveRange
    requires { at < 2 ^ 63 }
    ensures { result ≡ up_to at range }
{
    let from = if range.past == 0 { at } else { range.from };
    let past = at + 1;
    LiveRange { from, past }
}

impl Lives {
    /// So many values that live nowhere yet.
    fn none(alloc: Global, count: usize) -> Result<Lives, OutOfMemory>
        ensures { IfOk result (λ l. l ≡ nowhere count) }
    {
        let nothing = LiveRange { from: 0, past: 0 };
        let mut ranges = Vec::with_capacity(alloc, count)?;
        ranges.resize(count, nothing)?;
        let ranges = Items::from_vec(ranges);
        let order = Items::new(alloc);
        Ok(Lives { ranges, order })
    }

    /// A value lives at this step.
    fn touch(&mut self, at: usize, value: usize) -> Result<(), OutOfMemory>
        requires { at < 2 ^ 63 }
        ensures { OnOk result (self.new ≡ touched at value self.old) }
    {
        let Some(range) = self.ranges.get(value) else {
            return Ok(());
        };
        let range = *range;
        if range.past == 0 {
            self.order.push(value)?;
        }
        self.ranges.set(value, up_to_step(range, at));
        Ok(())
    }

    fn touch_maybe(&mut self, at: usize, value: Option<u32>) -> Result<(), OutOfMemory>
        requires { at < 2 ^ 63 }
        ensures { OnOk result (self.new ≡ all_touched at (maybe value) self.old) }
    {
        match value {
            Some(value) => self.touch(at, value as usize),
            None => Ok(()),
        }
    }

    fn touch_arguments(&mut self, at: usize, args: &[(u32, Option<u32>)]) -> Result<(), OutOfMemory>
        requires { at < 2 ^ 63 }
        ensures { OnOk result (self.new ≡ all_touched at (in_arguments args.now) self.old) }
    {
        for arg in args {
            self.touch(at, arg.0 as usize)?;
            self.touch_maybe(at, arg.1)?;
        }
        Ok(())
    }

    /// The values that a step names live at it.
    #[tactic(auto, using(crate::proofs::Touching::all_touched_append))]
    fn touch_step(&mut self, at: usize, step: &FatStep) -> Result<(), OutOfMemory>
        requires { at < 2 ^ 63 }
        ensures { OnOk result (self.new ≡ all_touched at (named step.now) self.old) }
    {
        if let FatStep::Call {
            args,
            to,
            bounds,
            ..
        } = step
        {
            self.touch_arguments(at, args.as_slice())?;
            self.touch_maybe(at, *to)?;
            return self.touch_maybe(at, *bounds);
        }
        let (first, second, third) = names_of(step);
        self.touch_maybe(at, first)?;
        self.touch_maybe(at, second)?;
        self.touch_maybe(at, third)
    }

    fn touch_steps(&mut self, steps: &[FatStep]) -> Result<(), OutOfMemory>
        ensures { OnOk result (self.new ≡ steps_touched 0 steps.now self.old) }
    {
        for (at, step) in steps.iter().enumerate() {
            self.touch_step(at, step)?;
        }
        Ok(())
    }

    /// These values live at the first step.
    fn touch_first(&mut self, values: &[usize]) -> Result<(), OutOfMemory>
        ensures { OnOk result (self.new ≡ all_touched 0 values.now self.old) }
    {
        for value in values {
            self.touch(0, *value)?;
        }
        Ok(())
    }

    /// The values below `count` live at the first step.
    #[tactic(auto, using(crate::proofs::Touching::from_on_next))]
    fn enter(&mut self, count: usize) -> Result<(), OutOfMemory>
        ensures { OnOk result (self.new ≡ all_touched 0 (from_on 0 count) self.old) }
    {
        for value in 0..count {
            self.touch(0, value)?;
        }
        Ok(())
    }
}

/// Each range that reaches into a loop goes on to the loop's end.
fn extended_ranges(
    alloc: Global,
    ranges: &[LiveRange],
    loops: &[Loop],
) -> Result<Items<LiveRange>, OutOfMemory>
    ensures { IfOk result (λ rs. rs ≡ map (extended_range loops.now) ranges.now) }
{
    let mut longer = Vec::new(alloc);
    for range in ranges {
        longer.push(extend(*range, loops))?;
    }
    Ok(Items::from_vec(longer))
}

/// Where the values of a function live.
#[tactic(auto, using(crate::proofs::Touching::all_touched_append))]
fn lives_of(alloc: Global, fun: &FatFun, wishes: &Wishes) -> Result<Lives, OutOfMemory>
    ensures { IfOk result (λ l. l ≡ lives (wishes.now.numbers ++ wishes.now.bounds) fun.now) }
{
    let mut lives = Lives::none(alloc, fun.bounds.len())?;
    lives.touch_first(wishes.numbers.as_slice())?;
    lives.touch_first(wishes.bounds.as_slice())?;
    lives.enter(fun.private as usize + fun.arrived as usize)?;
    lives.touch_steps(fun.steps.as_slice())?;
    let loops = loops_of(alloc, fun.steps.as_slice())?;
    let ranges = extended_ranges(alloc, lives.ranges.as_slice(), loops.as_slice())?;
    let order = lives.order;
    Ok(Lives { ranges, order })
}

/// Where the values of a function live: the range of each is its span, and they stand in the order in which they begin to live,
/// those that wish for registers ahead.
#[tactic(auto, using(crate::proofs::Lived::spans_of))]
pub fn live_ranges(alloc: Global, fun: &FatFun, wishes: &Wishes) -> Result<Lives, OutOfMemory>
    requires assignable { IsAssignable fun.now }
    requires wishes { AreWishes fun.now wishes.now }
    ensures value { IfOk result (λ l. l ≡ lives (wishes.now.numbers ++ wishes.now.bounds) fun.now) }
    ensures spans { IfOk result (AreSpans fun.now) }
    ensures numbers { IfOk result (λ l. StandAhead fun.now l false wishes.now.numbers) }
    ensures bounds { IfOk result (λ l. StandAhead fun.now l true wishes.now.bounds) }
{
    let lives = lives_of(alloc, fun, wishes)?;
    Ok(lives)
}

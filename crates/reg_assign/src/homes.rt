//! The homes of a function's values.

ghost use Rattle.std.specs.Prelude.{◌≡◌, ℕ, ◌+◌, ◌*◌, ◌<◌, ◌≤◌, Bool, true, false, length, slice_index, slice_index_or, IfOk};
ghost use Rattle.fat_ir.specs.Spans.{IsAssignable};
ghost use Rattle.reg_assign.specs.Homes.{register_at, number_home, pair_home, homes_by, AreHomes};
ghost use Rattle.reg_assign.specs.Ranges.{AreSpans};
ghost use Rattle.reg_assign.specs.Places.{ArePlaced};
ghost use Rattle.reg_assign.specs.Granted.{AreGranted};
ghost use Rattle.reg_assign.specs.Wishing.{AreWishes};

use crate::lives::live_ranges;
use crate::noise::count_calls;
use crate::places::place_values;
use crate::wishes::Wishes;
use fat_ir::FatFun;
use mx_base::OutOfMemory;
use sqlite_items::Items;
use std::alloc::Global;
use step_code::Home;

/// How many registers are homes of numbers: rdi, rsi, r10, r11, r8 and r9.
const NUMBER_REGISTERS: usize = 6;

/// How many registers are homes of bounds: BND2 and BND3.
const BOUNDS_REGISTERS: usize = 2;

/// The homes of a function's values.
#[derive(Drop)]
pub struct Homes {
    /// The home of each value, in the function's numbering.
    pub homes: Items<Home>,
    /// How many words of the frame are homes: the first ones.
    pub words: u32,
}

/// The register of a place: rdi, rsi, r10, r11, r8, r9.
fn register(place: usize) -> u8
    ensures { result ≡ register_at place }
{
    match place {
        0 => 7,
        1 => 6,
        2 => 10,
        3 => 11,
        4 => 8,
        _ => 9,
    }
}

fn home_of_number(place: usize) -> Home
    requires { place < 158 }
    ensures { result ≡ number_home place }
{
    if place < NUMBER_REGISTERS {
        Home::Reg(register(place))
    } else {
        Home::Slot((place - NUMBER_REGISTERS) as u16)
    }
}

/// The home of bounds, whose slots stand behind so many words.
fn home_of_bounds(place: usize, words: usize) -> Home
    requires place { place < 154 }
    requires words { words ≤ 152 }
    ensures { result ≡ pair_home words place }
{
    if place < BOUNDS_REGISTERS {
        Home::Bnd((place + 2) as u8)
    } else {
        Home::Slot((words + 2 * (place - BOUNDS_REGISTERS)) as u16)
    }
}

/// How many places behind the registers are used.
fn slots_of(places: &[usize], registers: usize) -> usize
    requires some { 1 ≤ registers }
    requires registers { registers ≤ 6 }
    requires places { (v : ℕ) → slice_index places.now v < registers + 152 }
    ensures few { result ≤ 152 }
    ensures all { (v : ℕ) → slice_index places.now v < registers + result }
{
    let mut slots = 0;
    for place in places {
        if *place >= registers + slots {
            slots = *place - registers + 1;
        }
    }
    slots
}

/// The homes of all values by their places.
fn homes_of(
    alloc: Global,
    fun: &FatFun,
    numbers: &[usize],
    bounds: &[usize],
    words: usize,
) -> Result<Items<Home>, OutOfMemory>
    requires numbers { (v : ℕ) → slice_index numbers.now v < 158 }
    requires bounds { (v : ℕ) → slice_index bounds.now v < 154 }
    requires words { words ≤ 152 }
    ensures { IfOk result (λ homes. homes ≡ homes_by (slice_index numbers.now) (slice_index bounds.now) words 0 fun.now.bounds) }
{
    let mut homes = Vec::new(alloc);
    for (value, is_bounds) in fun.bounds.as_slice().iter().enumerate() {
        let home = if *is_bounds {
            home_of_bounds(place_of(bounds, value), words)
        } else {
            home_of_number(place_of(numbers, value))
        };
        homes.push(home)?;
    }
    Ok(Items::from_vec(homes))
}

fn place_of(places: &[usize], value: usize) -> usize
    ensures { result ≡ slice_index places.now value }
{
    match places.get(value) {
        Some(place) => *place,
        None => 0,
    }
}

/// A home for each value of a function. Values whose spans share a step have homes that share no register and no word; one
/// whose span holds a call or a service has a slot; and another only has one where its span holds a step at which no register
/// is free. The span of a value holds the steps that name it, for a private one and one in which a parameter arrives the first
/// step too, and goes on to the ends of loops that it reaches into. A value that wishes for a register has that one, or a slot.
///
/// It is a linear scan over the spans, in the order in which they begin.
pub fn assign(alloc: Global, fun: &FatFun, wishes: &Wishes) -> Result<Homes, OutOfMemory>
    requires assignable { IsAssignable fun.now }
    requires wishes { AreWishes fun.now wishes.now }
    ensures homes { IfOk result (AreHomes fun.now) }
    ensures granted { IfOk result (AreGranted wishes.now) }
{
    let lives = live_ranges(alloc, fun, wishes)?;
    let counts = count_calls(alloc, fun.steps.as_slice())?;
    let numbers = place_values(
        alloc,
        fun,
        &lives,
        counts.as_slice(),
        false,
        NUMBER_REGISTERS,
        wishes.numbers.as_slice(),
    )?;
    let bounds = place_values(
        alloc,
        fun,
        &lives,
        counts.as_slice(),
        true,
        BOUNDS_REGISTERS,
        wishes.bounds.as_slice(),
    )?;
    let words = slots_of(numbers.as_slice(), NUMBER_REGISTERS);
    let pairs = slots_of(bounds.as_slice(), BOUNDS_REGISTERS);
    let homes = homes_of(alloc, fun, numbers.as_slice(), bounds.as_slice(), words)?;
    let words = (words + 2 * pairs) as u32;
    Ok(Homes { homes, words })
}

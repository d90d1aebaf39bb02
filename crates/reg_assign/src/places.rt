//! Places for the values of one kind, numbers or bounds: the registers first, and then words or pairs of words of the frame.

ghost use Rattle.std.specs.Prelude.{◌≡◌, ℕ, ◌+◌, ◌*◌, ◌<◌, ◌≤◌, Bool, true, false, length, replicate, slice_index, slice_index_or, slice_set, IfOk};
ghost use Rattle.reg_assign.specs.Noise.{counts_from, quiet_by};
ghost use Rattle.reg_assign.specs.Ranges.{AreSpans};
ghost use Rattle.fat_ir.specs.Spans.{IsAssignable};
ghost use Rattle.reg_assign.specs.Lives.{range_in};
ghost use Rattle.reg_assign.specs.Places.{IsPick, ArePlaced};
ghost use Rattle.reg_assign.specs.Wishing.{MayWish, StandAhead};

use crate::lives::{LiveRange, Lives};
use crate::noise::is_quiet;
use crate::wishes::wish_of;
use fat_ir::FatFun;
use mx_base::OutOfMemory;
use sqlite_items::Items;
use std::alloc::Global;

/// So many values of one kind live at one step at most.
const MOST_AT_ONCE: usize = 152;

/// The first place from `least` on that is free at this step, or as many as there are.
fn free_place(until: &[usize], at: usize, least: usize) -> usize
    requires { least ≤ length until.now }
    ensures from { least ≤ result }
    ensures within { result ≤ length until.now }
    ensures free { result < length until.now → slice_index until.now result ≤ at }
    ensures busy { (c : ℕ) → least ≤ c → c < result → at < slice_index until.now c }
{
    for place in least..until.len() {
        if until[place] <= at {
            return place;
        }
    }
    until.len()
}

/// The place for a value: the first from `least` on that is free, and no register where the value isn't quiet.
fn pick(until: &[usize], at: usize, quiet: bool, least: usize, registers: usize) -> usize
    requires least { least ≤ registers }
    requires registers { registers ≤ length until.now }
    ensures { IsPick (λ c. slice_index until.now c) (length until.now) at quiet least registers result }
{
    let from = if quiet { least } else { registers };
    free_place(until, at, from)
}

/// Places that are given.
#[derive(Drop)]
struct Board {
    /// Of each place, up to which step it is taken.
    until: Items<usize>,
    /// The place of each value.
    places: Items<usize>,
}

fn zeros(alloc: Global, count: usize) -> Result<Items<usize>, OutOfMemory>
    ensures { IfOk result (λ ns. ns ≡ replicate count 0) }
{
    let mut zeros = Vec::with_capacity(alloc, count)?;
    zeros.resize(count, 0)?;
    Ok(Items::from_vec(zeros))
}

impl Board {
    fn give(&mut self, index: usize, place: usize, past: usize)
        requires index { index < length self.old.places }
        requires place { place < length self.old.until }
        ensures { self.new ≡ record { until = slice_set self.old.until place past; places = slice_set self.old.places index place } }
    {
        self.until.set(place, past);
        self.places.set(index, place);
    }
}

#[tactic(auto, using(crate::proofs::Touching::absent))]
fn range_of(lives: &Lives, value: usize) -> LiveRange
    ensures { result ≡ range_in lives.now.ranges value }
{
    match lives.ranges.get(value) {
        Some(range) => *range,
        None => LiveRange { from: 0, past: 0 },
    }
}

#[tactic(auto, using(crate::proofs::Touching::absent))]
fn is_bounds(fun: &FatFun, value: usize) -> bool
    ensures { result ≡ slice_index_or fun.now.bounds value false }
{
    match fun.bounds.get(value) {
        Some(bounds) => *bounds,
        None => false,
    }
}

/// Places for numbers, or for bounds, of which the first ones are registers. Values that live at one step have different
/// places, one that lives where a call or a service stands has no register, and another only has none where all are taken. A
/// value that wishes for a register has that one, or none.
#[tactic(auto, using(crate::proofs::Giving::given_none, crate::proofs::Giving::placed_all))]
pub(crate) fn place_values(
    alloc: Global,
    fun: &FatFun,
    lives: &Lives,
    counts: &[usize],
    bounds: bool,
    registers: usize,
    wishes: &[usize],
) -> Result<Items<usize>, OutOfMemory>
    requires assignable { IsAssignable fun.now }
    requires spans { AreSpans fun.now lives.now }
    requires counts { counts.now ≡ counts_from 0 fun.now.steps }
    requires few { registers ≤ 6 }
    requires wishes { MayWish fun.now bounds registers wishes.now }
    requires ahead { StandAhead fun.now lives.now bounds wishes.now }
    ensures length { IfOk result (λ places. length places ≡ length fun.now.bounds) }
    ensures placed { IfOk result (λ places. ArePlaced fun.now lives.now bounds registers wishes.now (λ v. slice_index places v)) }
{
    let until = zeros(alloc, registers + MOST_AT_ONCE)?;
    let places = zeros(alloc, fun.bounds.len())?;
    let mut board = Board { until, places };
    for value in lives.order.as_slice() {
        let index = *value;
        if is_bounds(fun, index) != bounds {
            continue;
        }
        let range = range_of(lives, index);
        let quiet = is_quiet(counts, range);
        let least = wish_of(wishes, index);
        let place = pick(board.until.as_slice(), range.from, quiet, least, registers);
        board.give(index, place, range.past);
    }
    let Board { places, .. } = board;
    Ok(places)
}

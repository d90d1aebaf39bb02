//! What is seen of an expression by its form and what was seen of its parts. `place` is where the expression stands.

ghost use Rattle.std.specs.Prelude.{◌≡◌, IfOk, true};
ghost use Rattle.bounds_plan.specs.elaboration.Source.{kind_at, past_kind};
ghost use Rattle.steps_facts.specs.Seen.{view_of, reached_of};
ghost use Rattle.c_look.specs.Looks as spec;

use c_check_rules::Bind;
use c_tree::{BinaryOp, UnaryOp};
use mx_base::{CService, OutOfMemory, Place};
use steps_facts::{Facts, Knows, Reached, Seen, Sorted, Spot, Standing};
use steps_pieces::{given_number, gives_number, loads_number, reads_number};

/// What is no place.
fn value_seen(facts: Facts, number: bool, place: Place, after: Reached) -> Seen
    ensures { view_of result ≡ spec.value_seen facts number place (reached_of after) }
{
    Seen {
        facts,
        number,
        spot: Spot::Memory,
        place,
        after,
    }
}

/// A place.
fn place_seen(facts: Facts, spot: Spot, place: Place, after: Reached) -> Seen
    ensures { view_of result ≡ spec.place_seen facts spot place (reached_of after) }
{
    Seen {
        facts,
        number: reads_number(spot, facts.sort),
        spot,
        place,
        after,
    }
}

/// A value of the next type.
fn value_at<K: Knows>(
    known: &K,
    number: bool,
    place: Place,
    r: Reached,
) -> Result<Seen, OutOfMemory>
    ensures { IfOk result (λ s. view_of s ≡ spec.value_at (K.around known.now) number place (reached_of r)) }
{
    let here = known.kind_here(r)?;
    Ok(value_seen(here.facts, number, place, here.after))
}

/// A number, or `sizeof` of a type.
pub fn word_seen<K: Knows>(known: &K, place: Place, r: Reached) -> Result<Seen, OutOfMemory>
    ensures { IfOk result (λ s. view_of s ≡ spec.value_at (K.around known.now) true place (reached_of r)) }
{
    value_at(known, true, place, r)
}

/// A text.
pub fn text_seen<K: Knows>(known: &K, place: Place, r: Reached) -> Result<Seen, OutOfMemory>
    ensures { IfOk result (λ s. view_of s ≡ spec.text_seen (K.around known.now) place (reached_of r)) }
{
    let here = known.kind_here(r)?;
    let literal = known.literal_here(here.after)?;
    Ok(value_seen(here.facts, false, place, literal.after))
}

/// A variable, by where it stands.
fn standing_seen(at: Standing, facts: Facts, place: Place, after: Reached) -> Seen
    ensures { view_of result ≡ spec.place_seen facts (spec.spot_at at) place (reached_of after) }
{
    match at {
        Standing::Number(x) => place_seen(facts, Spot::Number(x), place, after),
        Standing::Pointer(x) => place_seen(facts, Spot::Pointer(x), place, after),
        Standing::Frame { .. } | Standing::Nowhere => {
            place_seen(facts, Spot::Memory, place, after)
        }
    }
}

/// What a name means, which has a type of these facts.
fn named_seen<K: Knows>(known: &K, facts: Facts, bind: Bind, place: Place, after: Reached) -> Seen
    ensures { view_of result ≡ spec.named_seen (K.around known.now) facts bind place (reached_of after) }
{
    match bind {
        Bind::Global(_) => place_seen(facts, Spot::Memory, place, after),
        Bind::Local(number) => {
            let at = known.variable(number);
            standing_seen(at, facts, place, after)
        }
        Bind::Fun(_) => value_seen(facts, false, place, after),
        Bind::Service(_) | Bind::Builtin(_) => value_seen(facts, true, place, after),
    }
}

/// A name.
pub fn name_seen<K: Knows>(known: &K, place: Place, r: Reached) -> Result<Seen, OutOfMemory>
    ensures { IfOk result (λ s. view_of s ≡ spec.name_seen (K.around known.now) place (reached_of r)) }
{
    let here = known.kind_here(r)?;
    let meant = known.bind_here(here.after)?;
    Ok(named_seen(known, here.facts, meant.bind, place, meant.after))
}

/// An element, a member, or what a pointer points to, whose parts are gone through up to `r`.
pub fn part_seen<K: Knows>(known: &K, place: Place, r: Reached) -> Result<Seen, OutOfMemory>
    ensures { IfOk result (λ s. view_of s ≡ spec.part_seen (K.around known.now) place (reached_of r)) }
{
    let here = known.kind_here(r)?;
    Ok(place_seen(here.facts, Spot::Memory, place, here.after))
}

/// An operator on one operand, which is gone through up to `r`.
pub fn single_seen<K: Knows>(
    known: &K,
    op: UnaryOp,
    place: Place,
    r: Reached,
) -> Result<Seen, OutOfMemory>
    ensures { IfOk result (λ s. view_of s ≡ spec.single_seen op (K.around known.now) place (reached_of r)) }
{
    match op {
        UnaryOp::Neg | UnaryOp::BitNot | UnaryOp::Not => value_at(known, true, place, r),
        UnaryOp::Deref => part_seen(known, place, r),
        UnaryOp::AddressOf => value_at(known, false, place, r),
    }
}

/// An operator on the operands `x` and `y`.
pub fn joint_seen<K: Knows>(
    known: &K,
    joint: BinaryOp,
    x: Seen,
    y: Seen,
    place: Place,
) -> Result<Seen, OutOfMemory>
    ensures { IfOk result (λ s. view_of s ≡ spec.joint_seen joint (K.around known.now) (view_of x) (view_of y) place) }
{
    let number = gives_number(joint, x.number, y.number);
    value_at(known, number, place, y.after)
}

/// A change of the place `x`, where the tree is gone through up to `r`.
fn changed_seen<K: Knows>(known: &K, x: Seen, place: Place, r: Reached) -> Result<Seen, OutOfMemory>
    ensures { IfOk result (λ s. view_of s ≡ spec.changed_seen (view_of x) place (reached_of r)) }
{
    let here = known.kind_here(r)?;
    let number = reads_number(x.spot, x.facts.sort);
    Ok(value_seen(x.facts, number, place, here.after))
}

/// An assignment of `y` to the place `x`.
pub fn assigned_seen<K: Knows>(
    known: &K,
    x: Seen,
    y: Seen,
    place: Place,
) -> Result<Seen, OutOfMemory>
    ensures { IfOk result (λ s. view_of s ≡ spec.changed_seen (view_of x) place (reached_of y.after)) }
{
    changed_seen(known, x, place, y.after)
}

/// `++` or `--` of the place `x`.
pub fn stepped_seen<K: Knows>(known: &K, x: Seen, place: Place) -> Result<Seen, OutOfMemory>
    ensures { IfOk result (λ s. view_of s ≡ spec.changed_seen (view_of x) place (reached_of x.after)) }
{
    changed_seen(known, x, place, x.after)
}

/// `?:`, whose parts are gone through up to `r`.
pub fn choice_seen<K: Knows>(known: &K, place: Place, r: Reached) -> Result<Seen, OutOfMemory>
    ensures { IfOk result (λ s. view_of s ≡ spec.choice_seen (K.around known.now) place (reached_of r)) }
{
    let here = known.kind_here(r)?;
    let number = loads_number(here.facts.sort);
    Ok(value_seen(here.facts, number, place, here.after))
}

/// A cast of `x`.
pub fn cast_seen<K: Knows>(known: &K, x: Seen, place: Place) -> Result<Seen, OutOfMemory>
    ensures { IfOk result (λ s. view_of s ≡ spec.cast_seen (K.around known.now) (view_of x) place) }
{
    let here = known.kind_here(x.after)?;
    let number = given_number(here.facts.sort, x.number);
    Ok(value_seen(here.facts, number, place, here.after))
}

/// `sizeof` of `x`, which stands from `r` on.
pub fn size_seen<K: Knows>(
    known: &K,
    x: Seen,
    place: Place,
    r: Reached,
) -> Result<Seen, OutOfMemory>
    ensures { IfOk result (λ s. view_of s ≡ spec.size_seen (K.around known.now) (view_of x) place (reached_of r)) }
{
    let here = known.kind_here(x.after)?;
    let after = Reached {
        kind: here.after.kind,
        name: here.after.name,
        declaration: here.after.declaration,
        literal: r.literal,
        body: here.after.body,
    };
    Ok(value_seen(here.facts, true, place, after))
}

/// Whether what a function gives is a number.
fn result_number(sort: Sorted) -> bool
    ensures { result ≡ spec.result_number sort }
{
    match sort {
        Sorted::Number(_) | Sorted::Whole | Sorted::Nothing => true,
        Sorted::Pointer => false,
    }
}

/// Whether what a service gives is a number.
fn service_number(service: CService) -> bool
    ensures { result ≡ spec.service_number service }
{
    match service {
        CService::Alloc => false,
        CService::Print | CService::Put | CService::Get | CService::Free | CService::Exit => true,
    }
}

/// Whether a call gives a number.
fn called_number<K: Knows>(known: &K, sort: Sorted, bind: Bind) -> Result<bool, OutOfMemory>
    ensures { IfOk result (λ n. n ≡ spec.called_number (K.around known.now) sort bind) }
{
    match bind {
        Bind::Fun(number) => {
            let _sorts = known.parameters(number)?;
            Ok(result_number(sort))
        }
        Bind::Service(service) => Ok(service_number(service)),
        Bind::Builtin(_) => Ok(false),
        Bind::Global(_) | Bind::Local(_) => Ok(true),
    }
}

/// A call whose arguments are gone through up to `r`.
pub fn call_seen<K: Knows>(known: &K, place: Place, r: Reached) -> Result<Seen, OutOfMemory>
    ensures { IfOk result (λ s. view_of s ≡ spec.call_seen (K.around known.now) place (reached_of r)) }
{
    let here = known.kind_here(r)?;
    let meant = known.bind_here(here.after)?;
    let number = called_number(known, here.facts.sort, meant.bind)?;
    Ok(value_seen(here.facts, number, place, meant.after))
}

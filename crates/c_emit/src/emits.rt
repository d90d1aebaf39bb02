//! The steps of expressions.

ghost use Rattle.std.specs.Prelude.{◌≡◌, ◌+◌, ◌≤◌, ◌^◌, ◌&&◌, OnOk, IfOk, length};
ghost use Rattle.bounds_plan.specs.elaboration.Expressions.{expression};
ghost use Rattle.steps_facts.specs.Seen.{view_of, seen_in, reached_of};
ghost use Rattle.steps_pieces.specs.Put.{put_of, went, went_given, went_all};
ghost use Rattle.c_emit.specs.Argued.{places_of};

use c_look::{
    assigned_seen, call_seen, cast_seen, choice_seen, joint_seen, look, look_all, name_seen,
    part_seen, single_seen, size_seen, stepped_seen, text_seen, word_seen,
};
use c_tree::{Expr, ExprKind};
use mx_base::OutOfMemory;
use narrowing::of_element;
use sqlite_items::Items;
use steps_facts::{Knows, Reached, Seen, Sorted};
use steps_pieces::{
    Emitter, LAST, assigned_sort, call_labels, choice_of, is_copied, joint_labels, parameters_of,
    put_addressed, put_assigned, put_call, put_cast, put_choice_end, put_converted, put_crossing,
    put_element, put_joined, put_joint, put_jump_if, put_member, put_name, put_no_pointer,
    put_single, put_stepped, put_text, put_word, second_at, stands_at, take_labels, takes_place,
    value_at,
};

/// How many bytes a text takes with the byte 0 at its end.
fn text_size(text: &[u8]) -> u64
    ensures { result ≡ length text.now + 1 }
{
    text.len() as u64 + 1
}

/// Whether an element of what may be an array is an array itself.
fn is_nested(array: bool, element: bool) -> bool
    ensures { result ≡ (array && element) }
{
    array && element
}

/// An expression that stands from `r` on: its value, or the address of its place, into `d`, and what is seen of it.
#[cycle(emit)]
pub fn emit<K: Knows>(
    out: &mut Emitter,
    known: &K,
    e: &Expr,
    r: Reached,
    d: u32,
    place: bool,
) -> Result<Seen, OutOfMemory>
    ensures put { OnOk result (put_of out.new ≡ went place (expression e.now (K.around known.now) (reached_of r)) d (put_of out.old)) }
    ensures seen { IfOk result (λ s. view_of s ≡ seen_in (K.around known.now).structs (expression e.now (K.around known.now) (reached_of r))) }
{
    if d > LAST {
        return Err(OutOfMemory);
    }
    match &e.kind {
        ExprKind::Number(n, _) => {
            let own = word_seen(known, e.place, r)?;
            put_word(out, *n, place, d)?;
            Ok(own)
        }
        ExprKind::Text(bytes) => {
            let own = text_seen(known, e.place, r)?;
            let at = known.literal_here(r)?;
            let text = bytes.as_slice();
            let size = text_size(text);
            let symbol = known.texts();
            put_text(out, symbol, at.offset, size, d)?;
            Ok(own)
        }
        ExprKind::Var(_) => {
            let own = name_seen(known, e.place, r)?;
            let here = known.kind_here(r)?;
            let meant = known.bind_here(r)?;
            put_name(out, known, meant.bind, here.facts, place, e.place, d)?;
            Ok(own)
        }
        ExprKind::Unary(op, a) => {
            let operand = a.get();
            let x = emit(out, known, operand, r, d, takes_place(*op))?;
            let own = single_seen(known, *op, e.place, x.after)?;
            put_single(out, *op, x, own.facts.sort, place, e.place, d)?;
            Ok(own)
        }
        ExprKind::Binary(op, a, b) => {
            let left = a.get();
            let right = b.get();
            let first = take_labels(out, joint_labels(*op))?;
            let x = emit(out, known, left, r, d, false)?;
            let y = look(known, right, x.after)?;
            put_joint(out, *op, x, y, first, d)?;
            emit(out, known, right, x.after, second_at(*op, d), false)?;
            let own = joint_seen(known, *op, x, y, e.place)?;
            put_joined(out, *op, x, y, first, place, own.number, d)?;
            Ok(own)
        }
        ExprKind::Assign(op, a, b) => {
            let target = a.get();
            let source = b.get();
            let x = emit(out, known, target, r, d, true)?;
            let copied = is_copied(x.spot, x.facts.sort);
            if copied {
                let z = look(known, source, x.after)?;
                let left = assigned_seen(known, x, z, e.place)?;
                Ok(left)
            } else {
                let to = assigned_sort(*op, x.facts.sort);
                let y = emit_given(out, known, to, source, x.after, value_at(x.spot, d))?;
                let own = assigned_seen(known, x, y, e.place)?;
                put_assigned(out, *op, x, y, place, d)?;
                Ok(own)
            }
        }
        ExprKind::StepBy(up, before, a) => {
            let stepped = a.get();
            let x = emit(out, known, stepped, r, d, true)?;
            let own = stepped_seen(known, x, e.place)?;
            put_stepped(out, *up, *before, x, place, d)?;
            Ok(own)
        }
        ExprKind::Cond(c, a, b) => {
            let test = c.get();
            let one = a.get();
            let other = b.get();
            let first = take_labels(out, 2)?;
            let x = emit(out, known, test, r, d, false)?;
            let y = look(known, one, x.after)?;
            let z = look(known, other, y.after)?;
            let own = choice_seen(known, e.place, z.after)?;
            let to = choice_of(own.facts.sort);
            put_jump_if(out, d, first)?;
            emit_given(out, known, to, other, y.after, d)?;
            put_crossing(out, first, first + 1)?;
            emit_given(out, known, to, one, x.after, d)?;
            put_choice_end(out, first + 1, place, own.number, d)?;
            Ok(own)
        }
        ExprKind::Call(_, args) => {
            let all = args.as_slice();
            let behind = look_all(known, all, r)?;
            let own = call_seen(known, e.place, behind)?;
            let meant = known.bind_here(behind)?;
            let sorts = parameters_of(known, out.alloc, meant.bind)?;
            let wanted = sorts.as_slice();
            let first = take_labels(out, call_labels(meant.bind))?;
            let places = emit_arguments(out, known, wanted, all, r, d)?;
            let sort = own.facts.sort;
            put_call(
                out, known, meant.bind, places, sort, first, place, own.number, d,
            )?;
            Ok(own)
        }
        ExprKind::Index(a, i) => {
            let array = a.get();
            let number = i.get();
            let x = emit(out, known, array, r, d, false)?;
            put_addressed(out, x.number, d)?;
            let y = emit(out, known, number, x.after, d + 2, false)?;
            let own = part_seen(known, e.place, y.after)?;
            let nested = is_nested(x.facts.array, own.facts.array);
            let flags = known.flags();
            let rule = of_element(nested, 0, own.facts.size, flags);
            put_element(out, rule, own.facts, place, e.place, d)?;
            Ok(own)
        }
        ExprKind::Member(a, name) => {
            let base = a.get();
            let x = emit(out, known, base, r, d, false)?;
            let own = part_seen(known, e.place, x.after)?;
            let facts = own.facts;
            let at = known.member(x.facts.owner, name, facts.size, facts.array)?;
            put_member(
                out, x.number, at.offset, at.rule, facts.sort, place, e.place, d,
            )?;
            Ok(own)
        }
        ExprKind::Arrow(a, name) => {
            let pointer = a.get();
            let x = emit(out, known, pointer, r, d, false)?;
            let own = part_seen(known, e.place, x.after)?;
            let facts = own.facts;
            let at = known.member(x.facts.target, name, facts.size, facts.array)?;
            put_member(
                out, x.number, at.offset, at.rule, facts.sort, place, e.place, d,
            )?;
            Ok(own)
        }
        ExprKind::Cast(_, _, a) => {
            let inner = a.get();
            let x = emit(out, known, inner, r, d, false)?;
            let own = cast_seen(known, x, e.place)?;
            put_cast(out, x, own.facts.sort, place, d)?;
            Ok(own)
        }
        ExprKind::SizeOfKind(base, stars) => {
            let own = word_seen(known, e.place, r)?;
            let size = known.size_named(base, *stars);
            put_word(out, size, place, d)?;
            Ok(own)
        }
        ExprKind::SizeOfValue(a) => {
            let measured = a.get();
            let x = look(known, measured, r)?;
            let own = size_seen(known, x, e.place, r)?;
            put_word(out, x.facts.size, place, d)?;
            Ok(own)
        }
    }
}

/// An expression's value where one of a sort is wanted, into `d`, and what is seen of the expression: a number is converted to the sort's
/// type, and where a pointer is wanted a number, which is 0, is the null pointer.
#[cycle(emit)]
pub fn emit_given<K: Knows>(
    out: &mut Emitter,
    known: &K,
    to: Sorted,
    e: &Expr,
    r: Reached,
    d: u32,
) -> Result<Seen, OutOfMemory>
    ensures put { OnOk result (put_of out.new ≡ went_given to (expression e.now (K.around known.now) (reached_of r)) d (put_of out.old)) }
    ensures seen { IfOk result (λ s. view_of s ≡ seen_in (K.around known.now).structs (expression e.now (K.around known.now) (reached_of r))) }
{
    if d > LAST {
        return Err(OutOfMemory);
    }
    match to {
        Sorted::Number(kind) => {
            let x = emit(out, known, e, r, d, false)?;
            put_converted(out, x, kind, d)?;
            Ok(x)
        }
        Sorted::Pointer => {
            let x = look(known, e, r)?;
            let null = x.number;
            if null {
                put_no_pointer(out, d)?;
                Ok(x)
            } else {
                emit(out, known, e, r, d, false)
            }
        }
        Sorted::Whole => emit(out, known, e, r, d, false),
        Sorted::Nothing => emit(out, known, e, r, d, false),
    }
}

/// Arguments where values of these sorts are wanted, each with a pair of values from `d` on, and where they stand. There is one for each
/// sort.
#[cycle(emit)]
fn emit_arguments<K: Knows>(
    out: &mut Emitter,
    known: &K,
    sorts: &[Sorted],
    all: &[Expr],
    r: Reached,
    d: u32,
) -> Result<Items<(u32, Option<u32>)>, OutOfMemory>
    ensures put { OnOk result (put_of out.new ≡ went_all sorts.now all.now (K.around known.now) (reached_of r) d (put_of out.old)) }
    ensures places { IfOk result (λ xs. xs ≡ places_of sorts.now all.now (K.around known.now) (reached_of r) d) }
{
    let mut places = Items::new(out.alloc);
    let mut left = sorts;
    let mut at = r;
    let mut to = d;
    for e in all {
        let Some((sort, more)) = left.split_first() else {
            return Err(OutOfMemory);
        };
        if to > LAST {
            return Err(OutOfMemory);
        }
        let x = emit_given(out, known, *sort, e, at, to)?;
        places.push(stands_at(*sort, x.number, to))?;
        left = more;
        at = x.after;
        to += 2;
    }
    if !left.is_empty() {
        return Err(OutOfMemory);
    }
    Ok(places)
}

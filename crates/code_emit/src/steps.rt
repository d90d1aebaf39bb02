//! Each kind of step as pieces.

ghost use Rattle.std.specs.Prelude.{◌≡◌, ◌++◌, ◌∷◌, [], ℕ, List, pos, ◌-ℤ◌, OnOk};
ghost use Rattle.step_code.specs.Steps as spec;
ghost use Rattle.step_code.specs.declared.pieces.Piece.{Piece};
ghost use Rattle.code_emit.specs.Plans.{plan_of};
ghost use Rattle.fat_ir.specs.declared.step.FatStep.TheVariants as s;
ghost use Rattle.step_code.specs.declared.pieces.Piece.TheVariants as piece;
ghost use Rattle.x86_forms.specs.Examples as x;
ghost use Rattle.x86_forms.specs.declared.instr.Instr.TheVariants as i;
ghost use Rattle.x86_forms.specs.declared.instr.Rm.TheVariants as rm;

use crate::arguments::{append, load_args};
use crate::homes::{BND0, RAX, RCX, RDI, get, get_bounds, in_reg, put, put_bounds};
use crate::numbers::{behind, bounds_to, extend, full, offset, set, to_last};
use crate::operators::{lower_arith, lower_compare};
use crate::plan::{FunctionPlan, home, is_bounds, is_function};
use fat_ir::FatStep;
use mx_base::{CService, IntKind, OutOfMemory};
use step_code::Piece;
use x86_forms::{Base, Instr, Mem, Reg, Rm};

/// The last word of a frame behind which three more have a number.
const LAST_SPARE: u16 = 65_532;

/// rcx is compared with rax.
fn compared() -> Piece
    ensures { result ≡ piece.Plain (i.AluTo 5 64 (x.reg 1) (x.in_reg 0)) }
{
    Piece::Plain(Instr::AluTo {
        op: 5,
        w: 64,
        r: Reg(RCX),
        rm: in_reg(RAX),
    })
}

/// rax becomes rcx.
fn moved() -> Piece
    ensures { result ≡ piece.Plain (i.MovTo 64 (x.reg 1) (x.in_reg 0)) }
{
    Piece::Plain(Instr::MovTo {
        w: 64,
        r: Reg(RCX),
        rm: in_reg(RAX),
    })
}

/// A constant comes to rax.
#[tactic(auto, using(crate::proofs::Words::word_signed))]
fn word(n: u64) -> Piece
    ensures { result ≡ piece.Plain (i.MovImm 64 (x.reg 0) (spec.word_imm n)) }
{
    Piece::Plain(Instr::MovImm {
        w: 64,
        r: Reg(RAX),
        imm: n.cast_signed(),
    })
}

/// The machine's number of a service.
fn service_number(service: CService) -> u32
    ensures { result ≡ spec.service_number service }
{
    match service {
        CService::Print => 0x1002,
        CService::Put => 0x1003,
        CService::Get => 0x1004,
        CService::Alloc => 0x1000,
        CService::Free => 0x1001,
        CService::Exit => 60,
    }
}

/// The address of a symbol, or of the data frame, comes to rax.
fn place(p: &FunctionPlan, symbol: Option<u32>) -> Piece
    ensures { result ≡ spec.place_piece (plan_of p.now) symbol }
{
    match symbol {
        None => Piece::LoadCell { r: RAX },
        Some(symbol) => {
            if is_function(p.functions, symbol) {
                set(RAX, 0)
            } else {
                set(RAX, 0)
            }
        }
    }
}

/// The bounds of so many bytes there come to BND0, full ones for a function.
fn bounds_there(p: &FunctionPlan, symbol: Option<u32>, last: i32) -> Piece
    ensures { (size : ℕ) → last ≡ pos size -ℤ pos 1 → result ≡ spec.bounds_piece (plan_of p.now) symbol size }
{
    match symbol {
        None => bounds_to(last),
        Some(symbol) => {
            if is_function(p.functions, symbol) {
                Piece::Plain(full(BND0))
            } else {
                bounds_to(last)
            }
        }
    }
}

fn lower_copy(out: &mut Vec<Piece>, p: &FunctionPlan, to: u32, from: u32) -> Result<(), OutOfMemory>
    ensures { OnOk result (out.new.items ≡ out.old.items ++ spec.lower (plan_of p.now) (s.Copy to from)) }
{
    if is_bounds(p, to) {
        append(
            out,
            &[
                get_bounds(BND0, home(p, from)),
                put_bounds(home(p, to), BND0),
            ],
        )
    } else {
        append(out, &[get(RAX, home(p, from)), put(home(p, to), RAX)])
    }
}

fn lower_place(
    out: &mut Vec<Piece>,
    p: &FunctionPlan,
    to: u32,
    bounds: u32,
    symbol: Option<u32>,
    n: u32,
    size: u64,
) -> Result<(), OutOfMemory>
    ensures { OnOk result (out.new.items ≡ out.old.items ++ spec.lower (plan_of p.now) (s.Place to bounds symbol n size)) }
{
    let disp = offset(n)?;
    let last = to_last(size)?;
    append(
        out,
        &[
            place(p, symbol),
            Piece::Plain(Instr::Lea {
                r: Reg(RAX),
                m: behind(RAX, disp),
            }),
            put(home(p, to), RAX),
            bounds_there(p, symbol, last),
            put_bounds(home(p, bounds), BND0),
        ],
    )
}

fn lower_meet(
    out: &mut Vec<Piece>,
    p: &FunctionPlan,
    to: u32,
    a: u32,
    b: u32,
) -> Result<(), OutOfMemory>
    ensures { OnOk result (out.new.items ≡ out.old.items ++ spec.lower (plan_of p.now) (s.Meet to a b)) }
{
    if p.spare > LAST_SPARE {
        return Err(OutOfMemory);
    }
    append(
        out,
        &[
            get_bounds(BND0, home(p, a)),
            Piece::KeepBounds {
                k: p.spare,
                b: BND0,
            },
            get_bounds(BND0, home(p, b)),
            Piece::KeepBounds {
                k: p.spare + 2,
                b: BND0,
            },
            Piece::LoadSlot { r: RAX, k: p.spare },
            Piece::LoadSlot {
                r: RCX,
                k: p.spare + 2,
            },
            compared(),
            Piece::Hop { code: 3, skip: 3 },
            moved(),
            Piece::KeepSlot { k: p.spare, r: RAX },
            Piece::LoadSlot {
                r: RAX,
                k: p.spare + 1,
            },
            Piece::LoadSlot {
                r: RCX,
                k: p.spare + 3,
            },
            compared(),
            Piece::Hop { code: 3, skip: 3 },
            moved(),
            Piece::KeepSlot {
                k: p.spare + 1,
                r: RAX,
            },
            Piece::LoadBounds {
                b: BND0,
                k: p.spare,
            },
            put_bounds(home(p, to), BND0),
        ],
    )
}

fn lower_bound(
    out: &mut Vec<Piece>,
    p: &FunctionPlan,
    to: u32,
    from: u32,
    upper: bool,
) -> Result<(), OutOfMemory>
    ensures { OnOk result (out.new.items ≡ out.old.items ++ spec.lower (plan_of p.now) (s.Bound to from upper)) }
{
    if p.spare > LAST_SPARE {
        return Err(OutOfMemory);
    }
    let (k, turned) = if upper {
        (
            p.spare + 1,
            Instr::One {
                op: 0,
                w: 64,
                rm: in_reg(RAX),
            },
        )
    } else {
        (p.spare, Instr::Nop)
    };
    append(
        out,
        &[
            get_bounds(BND0, home(p, from)),
            Piece::KeepBounds {
                k: p.spare,
                b: BND0,
            },
            Piece::LoadSlot { r: RAX, k },
            Piece::Plain(turned),
            put(home(p, to), RAX),
        ],
    )
}

fn lower_judge(
    out: &mut Vec<Piece>,
    p: &FunctionPlan,
    value: u32,
    size: u32,
    bounds: u32,
) -> Result<(), OutOfMemory>
    ensures { OnOk result (out.new.items
        ≡ out.old.items ++ (spec.get 0 ((plan_of p.now).home value) ∷ spec.get_bounds 0 ((plan_of p.now).home bounds)
        ∷ piece.Plain (i.Bndcl 0 (x.in_reg 0))
        ∷ piece.Plain (i.Bndcu 0 (rm.Mem (x.based 0 (pos size -ℤ pos 1)))) ∷ [])) }
{
    let last = to_last(u64::from(size))?;
    append(
        out,
        &[
            get(RAX, home(p, value)),
            get_bounds(BND0, home(p, bounds)),
            Piece::Plain(Instr::Bndcl {
                b: BND0,
                rm: in_reg(RAX),
            }),
            Piece::Plain(Instr::Bndcu {
                b: BND0,
                rm: Rm::Mem(behind(RAX, last)),
            }),
        ],
    )
}

fn put_result(out: &mut Vec<Piece>, p: &FunctionPlan, to: Option<u32>) -> Result<(), OutOfMemory>
    ensures { (rest : List Piece) → OnOk result (out.new.items ++ rest ≡ out.old.items ++ spec.put_number_at (plan_of p.now) to rest) }
{
    match to {
        None => Ok(()),
        Some(v) => append(out, &[put(home(p, v), RAX)]),
    }
}

fn lower_call(
    out: &mut Vec<Piece>,
    p: &FunctionPlan,
    symbol: u32,
    args: &[(u32, Option<u32>)],
    to: Option<u32>,
    bounds: Option<u32>,
) -> Result<(), OutOfMemory>
    ensures { OnOk result (out.new.items
        ≡ out.old.items ++ (spec.load_args (plan_of p.now) args.now 0 0
        ++ (piece.CallTo symbol ∷ spec.put_number_at (plan_of p.now) to (spec.put_pair_at (plan_of p.now) bounds)))) }
{
    load_args(out, p, args)?;
    append(out, &[Piece::CallTo { symbol }])?;
    put_result(out, p, to)?;
    match bounds {
        None => Ok(()),
        Some(v) => append(out, &[put_bounds(home(p, v), BND0)]),
    }
}

/// The word of a service comes to rdi, 0 where there is none.
fn argument(p: &FunctionPlan, arg: Option<u32>) -> Piece
    ensures { result ≡ spec.word_arg (plan_of p.now) arg }
{
    match arg {
        None => set(RDI, 0),
        Some(v) => get(RDI, home(p, v)),
    }
}

fn lower_service(
    out: &mut Vec<Piece>,
    p: &FunctionPlan,
    service: CService,
    arg: Option<u32>,
    to: Option<u32>,
) -> Result<(), OutOfMemory>
    ensures { OnOk result (out.new.items ≡ out.old.items ++ spec.lower (plan_of p.now) (s.Service service arg to)) }
{
    let word = argument(p, arg);
    let number = set(RAX, service_number(service));
    match to {
        None => append(out, &[word, number, Piece::Serve]),
        Some(v) => append(out, &[word, number, Piece::Serve, put(home(p, v), RAX)]),
    }
}

fn lower_give(
    out: &mut Vec<Piece>,
    p: &FunctionPlan,
    from: Option<u32>,
    bounds: Option<u32>,
) -> Result<(), OutOfMemory>
    ensures { OnOk result (out.new.items ≡ out.old.items ++ spec.lower_give (plan_of p.now) from bounds) }
{
    let end = Piece::Go { label: p.exit };
    match from {
        Some(v) => match bounds {
            None => append(out, &[get(RAX, home(p, v)), end]),
            Some(b) => append(
                out,
                &[get(RAX, home(p, v)), get_bounds(BND0, home(p, b)), end],
            ),
        },
        None => match bounds {
            None => append(out, &[set(RAX, 0), Piece::Plain(full(BND0)), end]),
            Some(_) => Ok(()),
        },
    }
}

/// A step comes as pieces behind those that are there. The answer `OutOfMemory` also comes where an offset, a size or a word of
/// the frame has no place in an instruction.
///
/// # Errors
///
/// `OutOfMemory`: no memory for the list, or a number that no instruction has room for.
pub fn lower_step(out: &mut Vec<Piece>, p: &FunctionPlan, step: &FatStep) -> Result<(), OutOfMemory>
    ensures { OnOk result (out.new.items ≡ out.old.items ++ spec.lower (plan_of p.now) step.now) }
{
    match step {
        FatStep::Const { to, n } => append(out, &[word(*n), put(home(p, *to), RAX)]),
        FatStep::Copy { to, from } => lower_copy(out, p, *to, *from),
        FatStep::Arith { to, op, kind, a, b } => lower_arith(out, p, *op, *kind, *to, *a, *b),
        FatStep::Compare { to, op, kind, a, b } => lower_compare(out, p, *op, *kind, *to, *a, *b),
        FatStep::Extend { to, from, kind } => append(
            out,
            &[
                get(RAX, home(p, *from)),
                Piece::Plain(extend(*kind, RAX)),
                put(home(p, *to), RAX),
            ],
        ),
        FatStep::Place {
            to,
            bounds,
            symbol,
            offset,
            size,
        } => { lower_place(out, p, *to, *bounds, *symbol, *offset, *size) }
        FatStep::Make { to, p: q, n } => append(
            out,
            &[
                get(RAX, home(p, *q)),
                get(RCX, home(p, *n)),
                Piece::Plain(Instr::Bndmk {
                    b: BND0,
                    m: Mem {
                        base: Base::Reg(Reg(RAX)),
                        index: Some((Reg(RCX), 1)),
                        disp: -1,
                    },
                }),
                put_bounds(home(p, *to), BND0),
            ],
        ),
        FatStep::Meet { to, a, b } => lower_meet(out, p, *to, *a, *b),
        FatStep::Bound { to, from, upper } => lower_bound(out, p, *to, *from, *upper),
        FatStep::Judge {
            value,
            size,
            bounds,
            ..
        } => lower_judge(out, p, *value, *size, *bounds),
        FatStep::Load { p: q, to, kind } => append(
            out,
            &[
                get(RAX, home(p, *q)),
                Piece::Read {
                    kind: *kind,
                    r: RAX,
                    p: RAX,
                },
                put(home(p, *to), RAX),
            ],
        ),
        FatStep::Store { p: q, from, kind } => append(
            out,
            &[
                get(RAX, home(p, *q)),
                get(RCX, home(p, *from)),
                Piece::Write {
                    kind: *kind,
                    p: RAX,
                    r: RCX,
                },
            ],
        ),
        FatStep::LoadPtr { p: q, to, bounds } => append(
            out,
            &[
                get(RAX, home(p, *q)),
                Piece::Read {
                    kind: IntKind::U64,
                    r: RCX,
                    p: RAX,
                },
                Piece::LoadPair {
                    b: BND0,
                    p: RAX,
                    v: RCX,
                },
                put(home(p, *to), RCX),
                put_bounds(home(p, *bounds), BND0),
            ],
        ),
        FatStep::StorePtr { p: q, from, bounds } => append(
            out,
            &[
                get(RAX, home(p, *q)),
                get(RCX, home(p, *from)),
                Piece::Write {
                    kind: IntKind::U64,
                    p: RAX,
                    r: RCX,
                },
                get_bounds(BND0, home(p, *bounds)),
                Piece::KeepPair {
                    p: RAX,
                    v: RCX,
                    b: BND0,
                },
            ],
        ),
        FatStep::Label { .. } => Ok(()),
        FatStep::Jump { n } => append(out, &[Piece::Go { label: *n }]),
        FatStep::JumpIf { from, n } => append(
            out,
            &[
                get(RAX, home(p, *from)),
                Piece::Plain(Instr::Test {
                    w: 64,
                    r: Reg(RAX),
                    rm: in_reg(RAX),
                }),
                Piece::GoIf { code: 5, label: *n },
            ],
        ),
        FatStep::Call {
            symbol,
            args,
            to,
            bounds,
        } => lower_call(out, p, *symbol, args.as_slice(), *to, *bounds),
        FatStep::Service { service, arg, to } => lower_service(out, p, *service, *arg, *to),
        FatStep::Give { from, bounds } => lower_give(out, p, *from, *bounds),
    }
}

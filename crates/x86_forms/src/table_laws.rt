//! Laws of the instruction table.

ghost use Rattle.std.specs.Prelude.{◌≡◌, ℕ, Ok};
ghost use Rattle.x86_forms.specs.declared.instr.Instr.{Instr};
ghost use Rattle.x86_forms.specs.Accesses.{accesses};
ghost use Rattle.x86_forms.specs.Processor.{Processor};
ghost use Rattle.x86_forms.specs.Requests.{Store, run};
ghost use Rattle.x86_forms.specs.Table.{row};
ghost use Rattle.x86_forms.specs.TableLaws.{AsksFor, AnswerAlike, SameOutcome, LeavesAll, WhereDone, BoundsAfter};

/// The law that each row of the instruction table asks memory for exactly the data accesses of its instruction, in order
/// and marked as in `reach`, whatever memory answers.
pub fn rows_make_their_accesses()
    ensures { (i : Instr) (next : ℕ) (before : Processor) → AsksFor (row i next before) (accesses i next before.regs) }
{}

/// A memory that stands for another one.
pub trait StandsFor<Y> {
    /// The two hold the same.
    ghost alike: { Self → Y → Type 0 };
}

/// The law that two memories with stores of bounds which answer alike do every instruction alike: it ends in the same
/// way, with the same processor, and the memories stand for each other again. O is why a memory refuses a request.
pub fn memories_do_rows_alike<X: StandsFor<Y>, Y, O>()
    ensures { (m : Store X O) (n : Store Y O) → AnswerAlike X.alike m n → (i : Instr) (next : ℕ) (before : Processor) (x : X) (y : Y)
        → X.alike x y → SameOutcome X.alike (run m before (row i next before) x) (run n before (row i next before) y) }
{}

/// The law that an instruction which isn't done leaves the memory as it was, and the processor but for BNDSTATUS; BNDSTATUS
/// too, unless a bounds check failed or the memory's refusal sets it.
pub fn failing_rows_leave_all<X, O>()
    ensures { (s : Store X O) (i : Instr) (next : ℕ) (before : Processor) (x : X) → LeavesAll s before x (run s before (row i next before) x) }
{}

/// The law of BND0 to BND3: a near branch without the BND prefix sets all to INIT where BNDPRESERVE is clear; BNDMK, a
/// loading BNDMOV and BNDLDX set the one that they name; and no instruction sets another.
pub fn rows_leave_bounds<X, O>()
    ensures { (s : Store X O) (i : Instr) (next : ℕ) (before : Processor) (x : X) → WhereDone (BoundsAfter i before) (run s before (row i next before) x) }
{}

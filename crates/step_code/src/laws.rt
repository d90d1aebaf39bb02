//! Laws of the code of functions. Each function does nothing, and its contract is the law.

ghost use Rattle.std.specs.Prelude.{◌≡◌, ◌<◌, ◌≤◌, ℕ, List, length};
ghost use Rattle.x86_forms.specs.Spelling.{spelling};
ghost use Rattle.fat_ir.specs.declared.program.FatFun.{FatFun};
ghost use Rattle.fat_ir.specs.declared.step.FatStep.{FatStep};
ghost use Rattle.fat_ir.specs.Spans.{Range};
ghost use Rattle.step_code.specs.declared.pieces.Piece.{Piece};
ghost use Rattle.step_code.specs.Pieces.{instr_of};
ghost use Rattle.step_code.specs.Steps.{Plan};
ghost use Rattle.step_code.specs.Homes.{Assigned, HaveHomes, first_in, last_in};
ghost use Rattle.step_code.specs.Bytes.{size_of_piece, size_of_pieces, bytes_of_pieces, size_of_steps, bytes_of_steps};

/// A piece has as many bytes wherever it stands and goes: so the sizes of what stands before it tell where it stands.
pub fn pieces_have_one_size()
    ensures { (label_at entry_at : ℕ → ℕ) (next : ℕ) (p : Piece) → length (spelling (instr_of label_at entry_at next p)) ≡ size_of_piece p }
{}

/// The bytes of pieces and steps are as many as their sizes tell.
pub fn sizes_are_lengths()
    ensures pieces { (label_at entry_at : ℕ → ℕ) (at : ℕ) (ps : List Piece) → length (bytes_of_pieces label_at entry_at at ps) ≡ size_of_pieces ps }
    ensures steps { (p : Plan) (label_at entry_at : ℕ → ℕ) (at : ℕ) (steps : List FatStep) → length (bytes_of_steps p label_at entry_at at steps) ≡ size_of_steps p steps }
{}

/// Homes that values have by spans are as code asks: each value has a range of steps with the three properties of a span, values whose
/// ranges share a step have homes that share no word and no register, and each home is one for numbers or for bounds.
pub fn homes_by_spans_are_assigned()
    ensures { (f : FatFun) (units : ℕ) (p : Plan) (range : ℕ → Range) → HaveHomes f units p range → length f.steps < 0xffff_ffff_ffff_ffff → ((v : ℕ) → (range v).past ≤ length f.steps)
        → Assigned units f.private f.steps p (λ x. first_in (range x)) (λ x. last_in (range x)) }
{}

//! Laws of exact readers of instructions. Each function does nothing, and its contract is the law.

ghost use Rattle.std.specs.Prelude.{◌≡◌, ◌↔◌, ℕ, ◌+◌, ◌<◌, ◌≤◌, Bool, true, List};
ghost use Rattle.std.specs.List.{All};
ghost use Rattle.mx_base.specs.Memory.{AreBytes, list_at};
ghost use Rattle.mx_base.specs.Regions.{is_executable};
ghost use Rattle.x86_forms.specs.declared.instr.Instr.{Instr};
ghost use Rattle.x86_forms.specs.Spelling.{Spells};
ghost use Rattle.obj_file.specs.declared.image.Image.{Image};
ghost use Rattle.obj_file.specs.Machine.{Reading, Is, IsReader, Ground, State, Goes, code_end, reading_at};
ghost use Rattle.obj_file.specs.Runs.{run_of, accesses_of};
ghost use Rattle.obj_file.specs.Loaded.{Tabled, Mode, ground_of, image_run, image_accesses};
ghost use Rattle.obj_file.specs.Stored.{stored_run, stored_accesses};
ghost use Rattle.obj_file.specs.StoreLaw.{HaveBytes};

/// Two exact readers of instructions read the same of all bytes, so that by both the machine runs alike: it ends in the same
/// way and makes the same accesses for C.
pub fn exact_readers_give_equal_runs()
    ensures reads { (reads other : List ℕ → Reading) → IsReader reads → IsReader other → (bytes : List ℕ) → All (λ b. b < 256) bytes → reads bytes ≡ other bytes }
    ensures run { (reads other : List ℕ → Reading) → IsReader reads → IsReader other → (outers : ℕ) (mode : Mode) (turns : ℕ) (s : State Tabled) → AreBytes s.memory.bytes → run_of (ground_of reads outers mode) turns s ≡ run_of (ground_of other outers mode) turns s }
    ensures accesses { (reads other : List ℕ → Reading) → IsReader reads → IsReader other → (outers : ℕ) (mode : Mode) (turns : ℕ) (s : State Tabled) → AreBytes s.memory.bytes → accesses_of (ground_of reads outers mode) turns s ≡ accesses_of (ground_of other outers mode) turns s }
    ensures image { (reads other : List ℕ → Reading) → IsReader reads → IsReader other → (v : Image) → HaveBytes v.segments → (mode : Mode) (turns : ℕ) (input : List ℕ) → image_run reads v mode turns input ≡ image_run other v mode turns input }
    ensures image_accesses { (reads other : List ℕ → Reading) → IsReader reads → IsReader other → (v : Image) → HaveBytes v.segments → (mode : Mode) (turns : ℕ) (input : List ℕ) → image_accesses reads v mode turns input ≡ image_accesses other v mode turns input }
    ensures stored { (reads other : List ℕ → Reading) → IsReader reads → IsReader other → (v : Image) → HaveBytes v.segments → (mode : Mode) (turns : ℕ) (input : List ℕ) → stored_run reads v mode turns input ≡ stored_run other v mode turns input }
    ensures stored_accesses { (reads other : List ℕ → Reading) → IsReader reads → IsReader other → (v : Image) → HaveBytes v.segments → (mode : Mode) (turns : ℕ) (input : List ℕ) → stored_accesses reads v mode turns input ≡ stored_accesses other v mode turns input }
{}

/// At an address of code an instruction is read exactly where its spelling stands, up to the end of its region of code.
pub fn instructions_are_read_where_they_are_spelled<X>()
    ensures { (g : Ground X) (s : State X) (i : Instr) (size : ℕ) → IsReader g.reads → AreBytes (g.bytes s.memory) → is_executable s.processor.rip ≡ true
        → (reading_at g s ≡ Is i size) ↔ ((s.processor.rip + size ≤ code_end s.processor.rip) × Spells (list_at size (g.bytes s.memory) s.processor.rip) i) }
{}

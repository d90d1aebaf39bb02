//! Laws of the runs of code, and of the memory that a step works on.

ghost use Rattle.std.specs.Prelude.{ℕ};
ghost use Rattle.x86_forms.specs.declared.instr.Instr.{Instr};
ghost use Rattle.x86_forms.specs.Processor.{Processor};
ghost use Rattle.x86_forms.specs.Requests.{run};
ghost use Rattle.x86_forms.specs.Table.{row};
ghost use Rattle.x86_core.specs.EarlyLaws.{EachRunsOnce};
ghost use Rattle.paged_memory.specs.Framed.{Framed};
ghost use Rattle.x86_core.specs.Framed.{framed, unframed, SameOverBytes};

/// The law that code of the first path has exactly one run, whatever its bytes are.
pub fn code_runs_once()
    ensures { EachRunsOnce }
{}

/// The law that frames matter where they are too few and nowhere else: each row of the instruction table ends over a memory
/// of bytes and frames as it does over the bytes alone, and where it is refused for want of frames, it is done over them.
pub fn rows_need_frames_alone()
    ensures { (i : Instr) (next : ℕ) (before : Processor) (x : Framed) → SameOverBytes (run framed before (row i next before) x) (run unframed before (row i next before) x.bytes) }
{}

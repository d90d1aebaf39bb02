//! Small programs as steps.

ghost use Rattle.std.specs.Prelude.{◌≡◌, Bool, true, false, None, [], ◌∷◌, codes};
ghost use Rattle.mx_base.specs.StopOfC.{Exit, Bounds, OutOfTurns, Divide, StackOver, Unmapped, Strayed, read_of, write_of};
ghost use Rattle.fat_ir.specs.Worked.{ends, read, written, pair, at, run_alone, writes_element, reads_past_end, counts, divides_by_0, keeps_pointer, frees_twice, narrows, reads_at, run_descent, fills_frame, run_reading, reads_over_way_back};

/// How small programs end: by which stop, with which output, with how many turns left, and after which accesses. The
/// sources stand beside their steps.
pub fn small_programs_end_so()
    ensures inside { run_alone (writes_element 3) 10 ≡ ends (Exit 0) (1 ∷ []) 8 (written 0x2000_0003 1 ∷ read 0x2000_0003 1 ∷ []) }
    ensures first_byte_outside { run_alone (writes_element 4) 10 ≡ ends (Bounds 0x2000_0004 (pair 0x2000_0000 0x2000_0003) (write_of 1 (at 2 17))) [] 9 [] }
    ensures last_byte_outside { run_alone reads_past_end 10 ≡ ends (Bounds 0x2000_0004 (pair 0x2000_0000 0x2000_0003) (read_of 4 (at 2 24))) [] 9 [] }
    ensures five_turns { run_alone counts 5 ≡ ends OutOfTurns (codes "0\n1\n2\n3\n4\n") 0 [] }
    ensures no_turn { run_alone counts 0 ≡ ends OutOfTurns [] 0 [] }
    ensures division { run_alone divides_by_0 10 ≡ ends Divide [] 9 [] }
    ensures pointer_back { run_alone (keeps_pointer false) 10 ≡ ends (Bounds 0x2000_0004 (pair 0x2000_0000 0x2000_0003) (write_of 1 (at 4 1))) [] 9 (written 0x2000_0010 8 ∷ read 0x2000_0010 8 ∷ []) }
    ensures pointer_spoiled { run_alone (keeps_pointer true) 10 ≡ ends (Exit 0) [] 8 (written 0x2000_0010 8 ∷ read 0x2000_0010 1 ∷ written 0x2000_0010 1 ∷ read 0x2000_0010 8 ∷ written 0x2000_0005 1 ∷ []) }
    ensures freed_twice { run_alone frees_twice 10 ≡ ends (Exit 0) (codes "0\n-1\n-1\n") 8 [] }
    ensures narrowed { run_alone narrows 10 ≡ ends (Exit 0) (codes "536870916\n536870923\n") 8 [] }
    ensures unmapped { run_alone (reads_at 0xffff_ffff_ffff_ffff) 10 ≡ ends (Unmapped 0xffff_ffff_ffff_ffff) [] 9 [] }
    ensures strayed { run_alone (reads_at 0x7100_0000) 10 ≡ ends (Strayed 0x7100_0000) [] 9 [] }
    ensures too_deep { run_descent 2 3 100 ≡ ends StackOver [] 96 [] }
    ensures deep { run_descent 1 3 100 ≡ ends (Exit 0) [] 94 [] }
    ensures frame { run_alone (fills_frame 16) 10 ≡ ends (Exit 0) [] 8 (written 0x53ff_ffff 1 ∷ []) }
    ensures large_frame { run_alone (fills_frame 0x400_0001) 10 ≡ ends StackOver [] 9 [] }
    ensures parameter { run_reading 7 10 ≡ ends (Exit 7) [] 6 (written 0x53ff_fff0 4 ∷ read 0x53ff_fff0 4 ∷ []) }
    ensures stuck { run_alone reads_over_way_back 10 ≡ None }
{}

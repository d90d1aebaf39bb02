//! Small programs as core trees.

ghost use Rattle.std.specs.Prelude.{◌≡◌, Bool, true, false, [], ◌∷◌, codes};
ghost use Rattle.mx_base.specs.Bounds.{bounds_at};
ghost use Rattle.mx_base.specs.StopOfC.{Exit, Bounds, OutOfTurns, Divide, StackOver, Unmapped, read_of, write_of};
ghost use Rattle.bounds_plan.specs.laws.Worked.{ends, read, written, pair, at, run_alone, run_steps, narrowing, not_narrowing, first_object, array_and_pointer, pairs_of_pointers, prints_7, writes_element, reads_past_end, fills_block, keeps_pointer, spreads_pointers, reads_last_byte, prints_members, copies_pointers, counts, run_descent, run_descent_steps, divides_by_0, frees_twice, skips_2, adds_in_order, run_reading, run_reading_steps, run_borrowing, run_borrowing_steps};

/// How small programs end: by which stop, with which output, with how many turns left, after which accesses, and with
/// which megabytes asked for bounds. The sources stand beside their core trees.
pub fn small_programs_mean_so()
    ensures prints { run_alone first_object [] prints_7 10 ≡ ends (Exit 0) (codes "7\n") 8 [] [] }
    ensures inside { run_alone first_object (bounds_at 0x2000_0000 4 ∷ []) (writes_element 3) 10 ≡ ends (Exit 0) (1 ∷ []) 8 (written 0x2000_0003 1 ∷ read 0x2000_0003 1 ∷ []) [] }
    ensures first_byte_outside { run_alone first_object (bounds_at 0x2000_0000 4 ∷ []) (writes_element 4) 10 ≡ ends (Bounds 0x2000_0004 (pair 0x2000_0000 0x2000_0003) (write_of 1 (at 2 17))) [] 9 [] [] }
    ensures last_byte_outside { run_alone first_object (bounds_at 0x2000_0000 4 ∷ []) reads_past_end 10 ≡ ends (Bounds 0x2000_0004 (pair 0x2000_0000 0x2000_0003) (read_of 4 (at 2 24))) [] 9 [] [] }
    ensures block { run_alone first_object [] fills_block 20 ≡ ends (Bounds 0x3000_0009 (pair 0x3000_0000 0x3000_0008) (write_of 1 (at 2 20))) (codes "0\n1\n2\n3\n4\n5\n6\n7\n8\n") 10 (written 0x3000_0000 1 ∷ read 0x3000_0000 1 ∷ written 0x3000_0001 1 ∷ read 0x3000_0001 1 ∷ written 0x3000_0002 1 ∷ read 0x3000_0002 1 ∷ written 0x3000_0003 1 ∷ read 0x3000_0003 1 ∷ written 0x3000_0004 1 ∷ read 0x3000_0004 1 ∷ written 0x3000_0005 1 ∷ read 0x3000_0005 1 ∷ written 0x3000_0006 1 ∷ read 0x3000_0006 1 ∷ written 0x3000_0007 1 ∷ read 0x3000_0007 1 ∷ written 0x3000_0008 1 ∷ read 0x3000_0008 1 ∷ []) [] }
    ensures pointer_back { run_alone array_and_pointer [] (keeps_pointer false) 10 ≡ ends (Bounds 0x2000_0004 (pair 0x2000_0000 0x2000_0003) (write_of 1 (at 4 1))) [] 9 (written 0x2000_0008 8 ∷ read 0x2000_0008 1 ∷ written 0x2000_0008 1 ∷ read 0x2000_0008 1 ∷ written 0x2000_0008 1 ∷ read 0x2000_0008 8 ∷ []) (0x200 ∷ []) }
    ensures pointer_spoiled { run_alone array_and_pointer [] (keeps_pointer true) 10 ≡ ends (Exit 0) [] 8 (written 0x2000_0008 8 ∷ read 0x2000_0008 1 ∷ written 0x2000_0008 1 ∷ read 0x2000_0008 8 ∷ written 0x2000_0005 1 ∷ []) (0x200 ∷ []) }
    ensures megabytes { run_alone first_object (bounds_at 0x2000_0000 4 ∷ []) spreads_pointers 10 ≡ ends (Exit 0) [] 8 (written 0x3000_0000 8 ∷ written 0x3000_0008 8 ∷ written 0x3010_0000 8 ∷ []) (0x300 ∷ 0x301 ∷ []) }
    ensures unmapped { run_alone first_object [] reads_last_byte 10 ≡ ends (Unmapped 0xffff_ffff_ffff_ffff) [] 9 [] [] }
    ensures narrowed { run_alone first_object [] (prints_members narrowing) 10 ≡ ends (Exit 0) (codes "536870912\n536870927\n536870916\n536870923\n") 8 [] [] }
    ensures not_narrowed { run_alone first_object [] (prints_members not_narrowing) 10 ≡ ends (Exit 0) (codes "536870912\n536870927\n536870912\n536870927\n") 8 [] [] }
    ensures struct_copied { run_alone pairs_of_pointers [] copies_pointers 10 ≡ ends (Bounds 0x2000_0006 (pair 0x2000_0004 0x2000_0005) (write_of 1 (at 4 1))) [] 9 (written 0x2000_0008 8 ∷ written 0x2000_0010 8 ∷ read 0x2000_0008 8 ∷ written 0x2000_0018 8 ∷ read 0x2000_0010 8 ∷ written 0x2000_0020 8 ∷ read 0x2000_0018 8 ∷ written 0x2000_0003 1 ∷ read 0x2000_0020 8 ∷ []) (0x200 ∷ []) }
    ensures five_turns { run_alone first_object [] counts 5 ≡ ends OutOfTurns (codes "0\n1\n2\n3\n4\n") 0 [] [] }
    ensures no_turn { run_alone first_object [] counts 0 ≡ ends OutOfTurns [] 0 [] [] }
    ensures too_deep { run_descent 2 3 100 ≡ ends StackOver [] 96 [] [] }
    ensures deep { run_descent 1 3 100 ≡ ends (Exit 0) [] 94 [] [] }
    ensures division { run_alone first_object [] divides_by_0 10 ≡ ends Divide [] 9 [] [] }
    ensures skipped { run_alone first_object [] skips_2 10 ≡ ends (Exit 0) (codes "1\n3\n") 6 [] [] }
    ensures skipped_few_turns { run_alone first_object [] skips_2 2 ≡ ends OutOfTurns (codes "1\n") 0 [] [] }
    ensures parameter { run_reading 7 10 ≡ ends (Exit 7) [] 6 (written 0x53ff_fff0 4 ∷ read 0x53ff_fff0 4 ∷ []) [] }
    ensures lent { run_borrowing 3 10 ≡ ends (Exit 0) [] 5 (written 0x2000_0003 1 ∷ []) (0x200 ∷ []) }
    ensures lent_outside { run_borrowing 4 10 ≡ ends (Bounds 0x2000_0004 (pair 0x2000_0000 0x2000_0003) (write_of 1 (at 1 39))) [] 7 [] (0x200 ∷ []) }
    ensures added_in_order { run_alone first_object (bounds_at 0x2000_0000 4 ∷ []) adds_in_order 10 ≡ ends (Exit 0) (7 ∷ []) 8 (written 0x2000_0002 1 ∷ read 0x2000_0002 1 ∷ []) [] }
    ensures freed_twice { run_alone first_object [] frees_twice 10 ≡ ends (Exit 0) (codes "0\n-1\n-1\n") 8 [] [] }
{}

/// The steps that these programs are compiled to end in the same way, with the same output, turns and accesses.
pub fn compiled_programs_run_so()
    ensures prints { run_steps first_object prints_7 10 ≡ run_alone first_object [] prints_7 10 }
    ensures inside { run_steps first_object (writes_element 3) 10 ≡ run_alone first_object (bounds_at 0x2000_0000 4 ∷ []) (writes_element 3) 10 }
    ensures first_byte_outside { run_steps first_object (writes_element 4) 10 ≡ run_alone first_object (bounds_at 0x2000_0000 4 ∷ []) (writes_element 4) 10 }
    ensures last_byte_outside { run_steps first_object reads_past_end 10 ≡ run_alone first_object (bounds_at 0x2000_0000 4 ∷ []) reads_past_end 10 }
    ensures block { run_steps first_object fills_block 20 ≡ run_alone first_object [] fills_block 20 }
    ensures pointer_back { run_steps array_and_pointer (keeps_pointer false) 10 ≡ run_alone array_and_pointer [] (keeps_pointer false) 10 }
    ensures pointer_spoiled { run_steps array_and_pointer (keeps_pointer true) 10 ≡ run_alone array_and_pointer [] (keeps_pointer true) 10 }
    ensures megabytes { run_steps first_object spreads_pointers 10 ≡ run_alone first_object (bounds_at 0x2000_0000 4 ∷ []) spreads_pointers 10 }
    ensures unmapped { run_steps first_object reads_last_byte 10 ≡ run_alone first_object [] reads_last_byte 10 }
    ensures narrowed { run_steps first_object (prints_members narrowing) 10 ≡ run_alone first_object [] (prints_members narrowing) 10 }
    ensures not_narrowed { run_steps first_object (prints_members not_narrowing) 10 ≡ run_alone first_object [] (prints_members not_narrowing) 10 }
    ensures struct_copied { run_steps pairs_of_pointers copies_pointers 10 ≡ run_alone pairs_of_pointers [] copies_pointers 10 }
    ensures five_turns { run_steps first_object counts 5 ≡ run_alone first_object [] counts 5 }
    ensures no_turn { run_steps first_object counts 0 ≡ run_alone first_object [] counts 0 }
    ensures too_deep { run_descent_steps 2 3 100 ≡ run_descent 2 3 100 }
    ensures deep { run_descent_steps 1 3 100 ≡ run_descent 1 3 100 }
    ensures division { run_steps first_object divides_by_0 10 ≡ run_alone first_object [] divides_by_0 10 }
    ensures skipped { run_steps first_object skips_2 10 ≡ run_alone first_object [] skips_2 10 }
    ensures skipped_few_turns { run_steps first_object skips_2 2 ≡ run_alone first_object [] skips_2 2 }
    ensures parameter { run_reading_steps 7 10 ≡ run_reading 7 10 }
    ensures lent { run_borrowing_steps 3 10 ≡ run_borrowing 3 10 }
    ensures lent_outside { run_borrowing_steps 4 10 ≡ run_borrowing 4 10 }
    ensures added_in_order { run_steps first_object adds_in_order 10 ≡ run_alone first_object (bounds_at 0x2000_0000 4 ∷ []) adds_in_order 10 }
    ensures freed_twice { run_steps first_object frees_twice 10 ≡ run_alone first_object [] frees_twice 10 }
{}

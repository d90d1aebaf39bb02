//! Small programs as syntax trees.

ghost use Rattle.std.specs.Prelude.{true, [], ◌∷◌, codes};
ghost use Rattle.mx_base.specs.StopOfC.{Exit, Bounds, OutOfTurns, Divide, StackOver, Unmapped, read_of, write_of};
ghost use Rattle.bounds_plan.specs.laws.Worked.{ends, narrowing, not_narrowing, other_flags_alone, read, written, pair, at, array_and_pointer, first_object, pairs_of_pointers};
ghost use Rattle.bounds_plan.specs.laws.WorkedSources.{copies_pointers, counts, descends_1, descends_2, divides_by_0, fills_block, frees_twice, keeps_pointer, prints_7, prints_members, reads_last_byte, reads_past_end, spoils_pointer, spreads_pointers, writes_element_3, writes_element_4};
ghost use Rattle.bounds_plan.specs.laws.WorkedForms.{calculates, changes, points, fills, goes_round, adds_in_order};
ghost use Rattle.bounds_plan.specs.laws.WorkedFlags.{trailing_array, nested_array, row_pointed_to, steps_element_4, adds_to_element_4, copies_from_bytes, copies_to_bytes};
ghost use Rattle.bounds_plan.specs.laws.WorkedRuns.{EndSo, SaysSo, objects_apart};

/// How small programs end that are given as syntax trees: by which stop, with which output, with how many turns left, after which
/// accesses, and with which megabytes asked for bounds. So they end by their meaning, and by the steps that they are compiled to.
pub fn small_sources_mean_so()
    ensures prints { EndSo prints_7 narrowing first_object 4096 0 10 (ends (Exit 0) (codes "7\n") 8 [] []) }
    ensures inside { EndSo writes_element_3 narrowing first_object 4096 0 10 (ends (Exit 0) (1 ∷ []) 8 (written 0x2000_0003 1 ∷ read 0x2000_0003 1 ∷ []) []) }
    ensures first_byte_outside { EndSo writes_element_4 narrowing first_object 4096 0 10 (ends (Bounds 0x2000_0004 (pair 0x2000_0000 0x2000_0003) (write_of 1 (at 2 17))) [] 9 [] []) }
    ensures last_byte_outside { EndSo reads_past_end narrowing first_object 4096 0 10 (ends (Bounds 0x2000_0004 (pair 0x2000_0000 0x2000_0003) (read_of 4 (at 2 24))) [] 9 [] []) }
    ensures block { EndSo fills_block narrowing first_object 4096 0 20 (ends (Bounds 0x3000_0009 (pair 0x3000_0000 0x3000_0008) (write_of 1 (at 2 20))) (codes "0\n1\n2\n3\n4\n5\n6\n7\n8\n") 10 (written 0x3000_0000 1 ∷ read 0x3000_0000 1 ∷ written 0x3000_0001 1 ∷ read 0x3000_0001 1 ∷ written 0x3000_0002 1 ∷ read 0x3000_0002 1 ∷ written 0x3000_0003 1 ∷ read 0x3000_0003 1 ∷ written 0x3000_0004 1 ∷ read 0x3000_0004 1 ∷ written 0x3000_0005 1 ∷ read 0x3000_0005 1 ∷ written 0x3000_0006 1 ∷ read 0x3000_0006 1 ∷ written 0x3000_0007 1 ∷ read 0x3000_0007 1 ∷ written 0x3000_0008 1 ∷ read 0x3000_0008 1 ∷ []) []) }
    ensures pointer_back { EndSo keeps_pointer narrowing array_and_pointer 4096 0 10 (ends (Bounds 0x2000_0004 (pair 0x2000_0000 0x2000_0003) (write_of 1 (at 4 1))) [] 9 (written 0x2000_0008 8 ∷ read 0x2000_0008 1 ∷ written 0x2000_0008 1 ∷ read 0x2000_0008 1 ∷ written 0x2000_0008 1 ∷ read 0x2000_0008 8 ∷ []) (0x200 ∷ [])) }
    ensures pointer_spoiled { EndSo spoils_pointer narrowing array_and_pointer 4096 0 10 (ends (Exit 0) [] 8 (written 0x2000_0008 8 ∷ read 0x2000_0008 1 ∷ written 0x2000_0008 1 ∷ read 0x2000_0008 8 ∷ written 0x2000_0005 1 ∷ []) (0x200 ∷ [])) }
    ensures megabytes { EndSo spreads_pointers narrowing first_object 4096 0 10 (ends (Exit 0) [] 8 (written 0x3000_0000 8 ∷ written 0x3000_0008 8 ∷ written 0x3010_0000 8 ∷ []) (0x300 ∷ 0x301 ∷ [])) }
    ensures unmapped { EndSo reads_last_byte narrowing first_object 4096 0 10 (ends (Unmapped 0xffff_ffff_ffff_ffff) [] 9 [] []) }
    ensures narrowed { EndSo prints_members narrowing first_object 4096 0 10 (ends (Exit 0) (codes "536870912\n536870927\n536870916\n536870923\n") 8 [] []) }
    ensures not_narrowed { EndSo prints_members not_narrowing first_object 4096 0 10 (ends (Exit 0) (codes "536870912\n536870927\n536870912\n536870927\n") 8 [] []) }
    ensures struct_copied { EndSo copies_pointers narrowing pairs_of_pointers 4096 0 10 (ends (Bounds 0x2000_0006 (pair 0x2000_0004 0x2000_0005) (write_of 1 (at 4 1))) [] 9 (written 0x2000_0008 8 ∷ written 0x2000_0010 8 ∷ read 0x2000_0008 8 ∷ written 0x2000_0018 8 ∷ read 0x2000_0010 8 ∷ written 0x2000_0020 8 ∷ read 0x2000_0018 8 ∷ written 0x2000_0003 1 ∷ read 0x2000_0020 8 ∷ []) (0x200 ∷ [])) }
    ensures five_turns { EndSo counts narrowing first_object 4096 0 5 (ends OutOfTurns (codes "0\n1\n2\n3\n4\n") 0 [] []) }
    ensures no_turn { EndSo counts narrowing first_object 4096 0 0 (ends OutOfTurns [] 0 [] []) }
    ensures too_deep { EndSo descends_2 narrowing first_object 3 1 100 (ends StackOver [] 96 [] []) }
    ensures deep { EndSo descends_1 narrowing first_object 3 1 100 (ends (Exit 0) [] 94 [] []) }
    ensures division { EndSo divides_by_0 narrowing first_object 4096 0 10 (ends Divide [] 9 [] []) }
    ensures freed_twice { EndSo frees_twice narrowing first_object 4096 0 10 (ends (Exit 0) (codes "0\n-1\n-1\n") 8 [] []) }
{}

/// How the same programs end with too few turns: what they did by then stands, and no turn is left.
pub fn small_sources_run_out_so()
    ensures prints { EndSo prints_7 narrowing first_object 4096 0 1 (ends OutOfTurns (codes "7\n") 0 [] []) }
    ensures inside { EndSo writes_element_3 narrowing first_object 4096 0 1 (ends OutOfTurns (1 ∷ []) 0 (written 0x2000_0003 1 ∷ read 0x2000_0003 1 ∷ []) []) }
    ensures first_byte_outside { EndSo writes_element_4 narrowing first_object 4096 0 0 (ends OutOfTurns [] 0 [] []) }
    ensures last_byte_outside { EndSo reads_past_end narrowing first_object 4096 0 0 (ends OutOfTurns [] 0 [] []) }
    ensures block { EndSo fills_block narrowing first_object 4096 0 5 (ends OutOfTurns (codes "0\n1\n2\n3\n4\n") 0 (written 0x3000_0000 1 ∷ read 0x3000_0000 1 ∷ written 0x3000_0001 1 ∷ read 0x3000_0001 1 ∷ written 0x3000_0002 1 ∷ read 0x3000_0002 1 ∷ written 0x3000_0003 1 ∷ read 0x3000_0003 1 ∷ written 0x3000_0004 1 ∷ read 0x3000_0004 1 ∷ []) []) }
    ensures pointer_back { EndSo keeps_pointer narrowing array_and_pointer 4096 0 0 (ends OutOfTurns [] 0 [] []) }
    ensures pointer_spoiled { EndSo spoils_pointer narrowing array_and_pointer 4096 0 1 (ends OutOfTurns [] 0 (written 0x2000_0008 8 ∷ read 0x2000_0008 1 ∷ written 0x2000_0008 1 ∷ read 0x2000_0008 8 ∷ written 0x2000_0005 1 ∷ []) (0x200 ∷ [])) }
    ensures megabytes { EndSo spreads_pointers narrowing first_object 4096 0 1 (ends OutOfTurns [] 0 (written 0x3000_0000 8 ∷ written 0x3000_0008 8 ∷ written 0x3010_0000 8 ∷ []) (0x300 ∷ 0x301 ∷ [])) }
    ensures unmapped { EndSo reads_last_byte narrowing first_object 4096 0 0 (ends OutOfTurns [] 0 [] []) }
    ensures narrowed { EndSo prints_members narrowing first_object 4096 0 1 (ends OutOfTurns (codes "536870912\n536870927\n536870916\n536870923\n") 0 [] []) }
    ensures not_narrowed { EndSo prints_members not_narrowing first_object 4096 0 1 (ends OutOfTurns (codes "536870912\n536870927\n536870912\n536870927\n") 0 [] []) }
    ensures struct_copied { EndSo copies_pointers narrowing pairs_of_pointers 4096 0 0 (ends OutOfTurns [] 0 [] []) }
    ensures too_deep { EndSo descends_2 narrowing first_object 3 1 2 (ends OutOfTurns [] 0 [] []) }
    ensures deep { EndSo descends_1 narrowing first_object 3 1 3 (ends OutOfTurns [] 0 [] []) }
    ensures division { EndSo divides_by_0 narrowing first_object 4096 0 0 (ends OutOfTurns [] 0 [] []) }
    ensures freed_twice { EndSo frees_twice narrowing first_object 4096 0 1 (ends OutOfTurns (codes "0\n-1\n-1\n") 0 [] []) }
{}

/// How programs end that have every form of expression, initialiser and statement, and what they print, by their meaning and
/// by the steps that they are compiled to. The numbers are those that a C compiler's program prints.
pub fn sources_with_every_form_say_so()
    ensures calculates { SaysSo calculates narrowing objects_apart 4096 0 1000 (Exit 44) (codes "-56\n200\n4464\n4294967295\n0\n-3\n-1\n-4\n268435455\n-11200\n2\n1\n1\n6\n-200\n0\n1\n-1\n4294967295\n15\n4294967240\n2147483648\n205\n1\n0\n0\n") }
    ensures changes { SaysSo changes narrowing objects_apart 4096 0 1000 (Exit 0) (codes "-56\n-2\n-8\n-2\n0\n1099511627776\n4\n4\n4\n13\n14\n0\n2\n2\n0\n4\n3\n44\n7\n") }
    ensures points { SaysSo points narrowing objects_apart 4096 0 1000 (Exit 9) (codes "19\n32\n8\n12\n6\n5\n5\n5\n2\n1\n1\n1\n1\n1\n1\n0\n5\n10\n10\n1\n98\n97\n97\n98\n4\n0\n2\n1\n5\n") }
    ensures fills { SaysSo fills narrowing objects_apart 4096 0 1000 (Exit 0) (codes "32\n99\n98\n0\n120\n0\n3\n128\n1\n1\n2\n1\n104\n48\n5\n9\n4\n") }
    ensures goes_round { SaysSo goes_round narrowing objects_apart 4096 3 1000 (Exit 13) (codes "18\n10\n2153767\n42\n3\n8\n77\n-1\n-1\n2\n") }
    ensures adds_in_order { SaysSo adds_in_order narrowing objects_apart 4096 3 1000 (Exit 0) (codes "1\n2\n5\n2\n1\n5\n1\n6\n") }
{}

/// Which bounds the flags decide, by programs that print bounds of members and elements: as narrowing is without further flags,
/// with the flag that decides them, and with all further flags where narrowing is off, which then have no effect.
pub fn flags_decide_bounds_so()
    ensures first_members { SaysSo prints_members narrowing first_object 4096 0 10 (Exit 0) (codes "536870912\n536870927\n536870916\n536870923\n") }
    ensures first_members_own { SaysSo prints_members (record narrowing { first_own = true }) first_object 4096 0 10 (Exit 0) (codes "536870912\n536870915\n536870916\n536870923\n") }
    ensures trailing_arrays { SaysSo trailing_array narrowing first_object 4096 0 10 (Exit 0) (codes "536870916\n") }
    ensures trailing_arrays_flexible { SaysSo trailing_array (record narrowing { flexible = true }) first_object 4096 0 10 (Exit 0) (codes "536870912\n") }
    ensures nested_arrays { SaysSo nested_array narrowing first_object 4096 0 10 (Exit 0) (codes "536870935\n") }
    ensures nested_arrays_innermost { SaysSo nested_array (record narrowing { innermost = true }) first_object 4096 0 10 (Exit 0) (codes "536870923\n") }
    ensures rows_pointed_to_innermost { SaysSo row_pointed_to (record narrowing { innermost = true }) first_object 4096 0 10 (Exit 0) (codes "536870935\n") }
    ensures first_members_not_narrowed { SaysSo prints_members other_flags_alone first_object 4096 0 10 (Exit 0) (codes "536870912\n536870927\n536870912\n536870927\n") }
    ensures trailing_arrays_not_narrowed { SaysSo trailing_array other_flags_alone first_object 4096 0 10 (Exit 0) (codes "536870912\n") }
    ensures nested_arrays_not_narrowed { SaysSo nested_array other_flags_alone first_object 4096 0 10 (Exit 0) (codes "536870935\n") }
{}

/// What is told of an access that leaves its bounds: `++` and `+=` read their operand first, and have its place; each side of the
/// assignment of a struct has its own place, and the size of the whole struct.
pub fn stops_tell_accesses_so()
    ensures stepped { SaysSo steps_element_4 narrowing objects_apart 4096 0 10 (Bounds 0x2000_0004 (pair 0x2000_0000 0x2000_0003) (read_of 1 (at 2 20))) [] }
    ensures added_to { SaysSo adds_to_element_4 narrowing objects_apart 4096 0 10 (Bounds 0x2000_0004 (pair 0x2000_0000 0x2000_0003) (read_of 1 (at 2 18))) [] }
    ensures struct_read { SaysSo copies_from_bytes narrowing objects_apart 4096 0 10 (Bounds 0x2000_0107 (pair 0x2000_0100 0x2000_0103) (read_of 8 (at 2 21))) [] }
    ensures struct_written { SaysSo copies_to_bytes narrowing objects_apart 4096 0 10 (Bounds 0x2000_0107 (pair 0x2000_0100 0x2000_0103) (write_of 8 (at 2 17))) [] }
{}

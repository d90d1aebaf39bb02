//! Laws of what a source breaks. The functions do nothing: their contracts are the laws.

ghost use Rattle.mx_base.specs.declared.places.Place.{Place};
ghost use Rattle.c_tree.specs.declared.tree.Tree.{Tree};
ghost use Rattle.std.specs.Prelude.{◌≡◌, ◌↔◌, ◌⊎◌, ◌≤◌, ◌++◌, ℕ, Bool, true, false, List, [], ◌∷◌, Option, None, Some, Contains, flat_map, map, option_map, length, codes, slice_get};
ghost use Rattle.c_tree.specs.declared.tree.ItemKind.TheVariants as k;
ghost use Rattle.c_tree.specs.declared.tree.Decl.{Decl};
ghost use Rattle.c_tree.specs.declared.tree.Expr.{Expr};
ghost use Rattle.c_tree.specs.declared.tree.Init.{Init};
ghost use Rattle.c_tree.specs.declared.tree.InitKind.TheVariants as i;
ghost use Rattle.c_tree.specs.declared.tree.Stmt.{Stmt};
ghost use Rattle.c_tree.specs.declared.tree.StmtKind.TheVariants as s;
ghost use Rattle.c_tree.specs.Formed.{IsFormed};
ghost use Rattle.c_types.specs.Types.{CType};
ghost use Rattle.c_types.specs.Layouts.{layout_of};
ghost use Rattle.c_check_rules.specs.declared.names.StructInfo.{StructInfo};
ghost use Rattle.c_check_rules.specs.Sizes.{size_in, align_in, is_sized};
ghost use Rattle.c_check_typing.specs.declared.fault.CheckKind.{CheckKind};
ghost use Rattle.c_check_typing.specs.declared.fault.Broken.{Broken};
ghost use Rattle.c_check_typing.specs.Refusals.{all_at, broken_at, FirstIs, InOrder};
ghost use Rattle.c_check_statements.specs.declared.initialisers.Filled.{Filled};
ghost use Rattle.c_check_statements.specs.declared.state.State.{State};
ghost use Rattle.c_check_statements.specs.Walks.{Walk, ◌then◌, at_node, inside, past, seen_in, reads, maybe_reads, maybe, walk_all};
ghost use Rattle.c_check_statements.specs.Declarations.{counts_of};
ghost use Rattle.c_check_statements.specs.Initialisers.{fills, one, parts, many_judged};
ghost use Rattle.c_check_statements.specs.Statements.{statement, maybe_statement, local, if_walk, while_walk, looped, tested, for_rest, jump, return_walk, block};
ghost use Rattle.c_check_statements.specs.Structs.{struct_walk};
ghost use Rattle.c_check_statements.specs.Functions.{parameter, ends_function, function_inner, function_walk};
ghost use Rattle.c_check_statements.specs.Sources.{item, global_walk};
ghost use Rattle.c_check.specs.Accepted.{broken, IsAccepted, after, is_too_large};
ghost use Rattle.c_check.specs.Nodes.{Role, Node, place_of, declared_as, parts_of, Listed, item_nodes};
ghost use Rattle.c_check.specs.NodeRules.{decl_rules, rules_of, broken_in, InTreeOrder, NodeBreaks, SourceBreaks, BreaksNoRule, NoneBreaks, FirstBreaks};
ghost use Rattle.c_check.specs.Rooms.{HaveRoom};
ghost use Rattle.c_check.specs.SmallSources.{calls_own, long_name, names_long, passes_text, uses_one};
ghost use Rattle.c_check.specs.Standing.{structs_seen, AreLaid, CanBeNumbered};
ghost use Rattle.c_check.specs.declared.symbols.Subject.TheVariants.{Global as TheGlobal, Function as TheFunction, Literals};
ghost use Rattle.c_check.specs.declared.symbols.SymbolKind.TheVariants.{Defined, Imported};
ghost use Rattle.c_check.specs.Symbols.{entry, has_symbol, symbols, HasNumber};
ghost use Rattle.c_check_rules.specs.declared.names.Variable.{Variable as VariableOf};
ghost use Rattle.c_check_rules.specs.declared.names.Function.{Function as FunctionOf};

/// A statement breaks what its parts break, in order, and then its own rules: what each form is beside its parts is said by a rule of its own.
pub fn statements_are_walked_by_their_parts()
    ensures value { (place : Place) (value : Option Expr) → statement (record { place = place; kind = s.Value value }) ≡ maybe_reads value }
    ensures local { (place : Place) (d : Decl) (init : Option Init) → statement (record { place = place; kind = s.Local d init }) ≡ local d init place }
    ensures test { (place : Place) (test : Expr) (a other : Stmt) → (statement (record { place = place; kind = s.If test a (Some other) }) ≡ if_walk test (statement a) (maybe (Some (statement other))) place) × (statement (record { place = place; kind = s.If test a None }) ≡ if_walk test (statement a) (maybe None) place) }
    ensures while_ { (place : Place) (test : Expr) (body : Stmt) → statement (record { place = place; kind = s.While test body }) ≡ while_walk test (statement body) place }
    ensures do_while { (place : Place) (body : Stmt) (test : Expr) → statement (record { place = place; kind = s.DoWhile body test }) ≡ (looped (statement body) then tested test place) }
    ensures for_ { (place : Place) (first test next : Option Expr) (body : Stmt) → statement (record { place = place; kind = s.For first test next body }) ≡ (maybe_reads first then for_rest test next (statement body) place) }
    ensures jumps { (place : Place) → (statement (record { place = place; kind = s.Break }) ≡ jump place) × (statement (record { place = place; kind = s.Continue }) ≡ jump place) }
    ensures return_ { (place : Place) (value : Option Expr) → statement (record { place = place; kind = s.Return value }) ≡ return_walk value place }
    ensures block { (place : Place) (all : List Stmt) → statement (record { place = place; kind = s.Block all }) ≡ block (walk_all (map statement all)) }
{}

/// An initialiser breaks what its parts break, in order, and then its own rules.
pub fn initialisers_are_walked_by_their_parts()
    ensures one { (place : Place) (x : Expr) (filled : Filled) (target : Option CType) → fills (record { place = place; kind = i.One x }) filled target ≡ one filled target place x }
    ensures many { (place : Place) (all : List Init) (filled : Filled) (target : Option CType) → fills (record { place = place; kind = i.Many all }) filled target ≡ (parts filled target 0 (map fills all) then many_judged target (length all) place) }
{}

/// What one part breaks comes before what the next one breaks, and the next one knows what the first declared; a node's own rules stand at its place;
/// what an expression breaks is what is seen of it.
pub fn walks_break_rules_in_order()
    ensures then_ { (a b : Walk) (state : State) → ((a then b) state).broken ≡ (a state).broken ++ (b (a state).state).broken }
    ensures node { (place : Place) (kinds : List CheckKind) (state : State) → (at_node place kinds state).broken ≡ all_at place kinds }
    ensures expression { (x : Expr) (state : State) → (reads x state).broken ≡ (seen_in state x).broken }
    ensures inner { (enter : State → State) (walk : Walk) (leave : State → State → State) (state : State) → (inside enter walk leave state).broken ≡ (walk (enter state)).broken }
{}

/// The sizes and alignments by which a source is checked are those of its types.
pub fn checked_sizes_are_those_of_types()
    ensures { (structs : List StructInfo) (kind : CType) → AreLaid [] structs → is_sized structs kind ≡ true → (size_in structs kind ≡ Some (layout_of (structs_seen structs) kind).size) × (align_in structs kind ≡ (layout_of (structs_seen structs) kind).align) }
{}

/// Whatever is known of an accepted source can be numbered: each of its types may stand, each struct is laid out by what stands before it, and there
/// are few types.
pub fn accepted_sources_can_be_numbered()
    ensures { (tree : Tree) (room : ℕ) → room ≤ 32768 → IsFormed tree → IsAccepted tree room → CanBeNumbered (after tree) }
{}

/// In an accepted source the variables of each function with a body have room, by all structs of the source.
pub fn accepted_frames_have_room()
    ensures { (tree : Tree) (room : ℕ) → room ≤ 32768 → IsFormed tree → IsAccepted tree room → HaveRoom (after tree).scope.structs (after tree).bodies }
{}

/// A struct breaks what its members break and then its own rules; a global what its declaration and then its initialiser break; a function what
/// its declaration, its parameters and its body break, each knowing what came before, and then its own rules; a declaration what its counts break
/// and then its own rules.
pub fn items_are_walked_by_their_parts()
    ensures struct_ { (place : Place) (tag : List ℕ) (members : List Decl) → item (record { place = place; kind = k.Struct tag members }) ≡ struct_walk tag members place }
    ensures global { (place : Place) (external : Bool) (d : Decl) (init : Option Init) → item (record { place = place; kind = k.Var external d init }) ≡ global_walk external d init }
    ensures function { (place : Place) (d : Decl) (params : List Decl) (body : Option Stmt) → item (record { place = place; kind = k.Fun d params body }) ≡ function_walk d params body place }
    ensures inner { (place : Place) (d : Decl) (params : List Decl) (body : Option Stmt) → function_inner d params body place ≡ (walk_all (map parameter params) then (maybe_statement body then ends_function d params body place)) }
    ensures declaration { (d : Decl) (role : Role) (state : State) → (declared_as role d state).broken ≡ (counts_of state d).broken ++ all_at d.place (decl_rules role d state) }
{}

/// What is broken in a node is what is broken in its parts, from left to right, and then its own rules at its place.
pub fn parts_of_a_node_come_first()
    ensures { (node : Node) → broken_in node ≡ flat_map broken_in (parts_of node) ++ all_at (place_of node) (rules_of node) }
{}

/// A pair of place and kind is in the list of all broken rules exactly where a node of the source at that place breaks that rule, or the source as a
/// whole does, at its first item.
pub fn broken_rules_are_those_of_nodes()
    ensures { (tree : Tree) (room : ℕ) (place : Place) (kind : CheckKind) → Contains (broken tree room) (broken_at place kind) ↔ NodeBreaks tree place kind ⊎ SourceBreaks tree room place kind }
{}

/// A source is accepted exactly where no node in it breaks a rule, and the source as a whole breaks none.
pub fn accepted_sources_break_no_rule()
    ensures { (tree : Tree) (room : ℕ) → IsAccepted tree room ↔ BreaksNoRule tree room }
{}

/// The nodes of a source stand in one list, the parts of a node before it and from left to right. Each node of the source is in it and no other, and
/// it is as long as the source has nodes. The list of all broken rules is what each node of it breaks by itself, in its order, between the first and
/// the last rule of the whole source.
pub fn broken_rules_are_in_tree_order()
    ensures one { (tree : Tree) → (nodes : List Node) × InTreeOrder tree nodes }
    ensures each { (tree : Tree) (nodes : List Node) → Listed (item_nodes tree) nodes → InTreeOrder tree nodes }
    ensures only { (nodes one other : List Node) → Listed nodes one → Listed nodes other → one ≡ other }
{}

/// The first pair of the list of all broken rules of a source that is not too large is the first rule of the first node in tree order that breaks
/// one; where no node does, it is a rule of the source as a whole.
pub fn first_broken_rule_is_of_the_first_node()
    ensures { (tree : Tree) (room : ℕ) (nodes : List Node) (first : Broken) → Listed (item_nodes tree) nodes → is_too_large tree room ≡ false → FirstIs (broken tree room) first → FirstBreaks nodes first ⊎ (NoneBreaks nodes × SourceBreaks tree room first.place first.kind) }
{}

/// Where one node breaks several rules, they are listed in the order of their kinds, and each once.
pub fn rules_of_each_node_are_in_order()
    ensures { (node : Node) → InOrder (rules_of node) }
{}

/// Each global and function that a source knows has a symbol, if the source defines it or uses it in an expression outside of `sizeof`.
pub fn what_is_defined_or_used_has_a_symbol()
    ensures globals { (tree : Tree) (n : ℕ) (v : VariableOf) → n ≤ 4294967295 → slice_get (after tree).scope.variables n ≡ Some v → has_symbol (after tree) (TheGlobal n) ≡ true → HasNumber tree (TheGlobal n) }
    ensures functions { (tree : Tree) (n : ℕ) (f : FunctionOf) → n ≤ 4294967295 → slice_get (after tree).scope.functions n ≡ Some f → has_symbol (after tree) (TheFunction n) ≡ true → HasNumber tree (TheFunction n) }
{}

/// The symbols of four small sources: what they define, what they take from elsewhere and use outside `sizeof`, and their text literals. They are
/// accepted.
pub fn small_sources_have_these_symbols()
    ensures one_import { symbols uses_one ≡ entry (TheGlobal 0) Imported (codes "a") (codes "d4") ∷ entry (TheGlobal 2) Defined (codes "c") (codes "d4") ∷ entry (TheFunction 1) Defined (codes "main") (codes "fi()") ∷ [] }
    ensures text { symbols passes_text ≡ entry (TheGlobal 0) Defined (codes "c") (codes "d4") ∷ entry (TheFunction 0) Imported (codes "f") (codes "fi(p)") ∷ entry (TheFunction 1) Defined (codes "main") (codes "fi()") ∷ entry Literals Defined (codes "__text_main") (codes "d3") ∷ [] }
    ensures no_import { symbols calls_own ≡ entry (TheFunction 0) Defined (codes "f") (codes "fi(p)") ∷ entry (TheFunction 1) Defined (codes "main") (codes "fi()") ∷ [] }
    ensures long { symbols names_long ≡ entry (TheFunction 0) Defined long_name (codes "fi()") ∷ entry Literals Defined (codes "__text_a123456789a123456789a123456789a123456789a123456789a12345") (codes "d2") ∷ [] }
    ensures accepted { IsAccepted uses_one 18 × IsAccepted passes_text 18 × IsAccepted calls_own 18 × IsAccepted names_long 18 }
{}

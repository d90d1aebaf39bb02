//! Laws of formed trees. The functions do nothing: their contracts are the laws.

ghost use Rattle.std.specs.Prelude.{◌≡◌, ℕ, Bool, true, false, ◌&&◌, not, nat_le, List, [], Option, codes};
ghost use Rattle.std.specs.Option.{option_map};
ghost use Rattle.std.specs.List.{list_all};
ghost use Rattle.mx_base.specs.declared.places.Place.{Place};
ghost use Rattle.mx_base.specs.declared.numbers.IntKind.{IntKind};
ghost use Rattle.mx_base.specs.declared.operators.Arithmetic.{Arithmetic};
ghost use Rattle.c_tree.specs.declared.operators.UnaryOp.{UnaryOp};
ghost use Rattle.c_tree.specs.declared.operators.BinaryOp.{BinaryOp};
ghost use Rattle.c_tree.specs.declared.tree.Base.{Base};
ghost use Rattle.c_tree.specs.declared.tree.Base.TheVariants.{Void};
ghost use Rattle.c_tree.specs.declared.tree.Expr.{Expr};
ghost use Rattle.c_tree.specs.declared.tree.ExprKind.TheVariants as v;
ghost use Rattle.c_tree.specs.declared.tree.InitKind.TheVariants as i;
ghost use Rattle.c_tree.specs.declared.tree.Tree.{Tree};
ghost use Rattle.c_tree.specs.declared.tree.Item.{Item};
ghost use Rattle.c_tree.specs.declared.tree.ItemKind.TheVariants as k;
ghost use Rattle.c_tree.specs.declared.tree.Decl.{Decl};
ghost use Rattle.c_tree.specs.declared.tree.Init.{Init};
ghost use Rattle.c_tree.specs.declared.tree.Stmt.{Stmt};
ghost use Rattle.c_tree.specs.declared.tree.StmtKind.TheVariants as s;
ghost use Rattle.c_tree.specs.Formed.{formed_expr, formed_base, formed_decl, formed_init, formed_stmt, formed_item, is_formed, is_number, stands, maybe_expr, maybe_init, seen_stmt, is_branch, maybe_branch, without_counts, formed_body, is_empty};
ghost use Rattle.c_tree.specs.Names.{is_name};
ghost use Rattle.mx_base.specs.declared.numbers.IntKind.TheVariants.{I8, U8, I16, U16, I32, U32, I64, U64};

/// The operands of each operator of a formed tree are formed.
pub fn operators_have_formed_operands()
    ensures unary { (place : Place) (op : UnaryOp) (a : Expr) → formed_expr (record { place = place; kind = v.Unary op a }) ≡ (stands place && formed_expr a) }
    ensures binary { (place : Place) (op : BinaryOp) (a b : Expr) → formed_expr (record { place = place; kind = v.Binary op a b }) ≡ (stands place && (formed_expr a && formed_expr b)) }
    ensures assign { (place : Place) (op : Option Arithmetic) (a b : Expr) → formed_expr (record { place = place; kind = v.Assign op a b }) ≡ (stands place && (formed_expr a && formed_expr b)) }
{}

/// A name of a formed tree is a name of the language, a number is the word of its type, and a cast has at most 255 stars.
pub fn names_and_numbers_are_of_the_language()
    ensures variable { (place : Place) (name : List ℕ) → formed_expr (record { place = place; kind = v.Var name }) ≡ (stands place && is_name name) }
    ensures number { (place : Place) (n : ℕ) (kind : IntKind) → formed_expr (record { place = place; kind = v.Number n kind }) ≡ (stands place && is_number n kind) }
    ensures member { (place : Place) (a : Expr) (name : List ℕ) → formed_expr (record { place = place; kind = v.Member a name }) ≡ (stands place && (formed_expr a && is_name name)) }
    ensures cast { (place : Place) (base : Base) (stars : ℕ) (a : Expr) → formed_expr (record { place = place; kind = v.Cast base stars a }) ≡ (stands place && (formed_base base && nat_le stars 255 && formed_expr a)) }
{}

/// An empty name, a name of 64 bytes and a reserved word are no names; a name of 63 bytes is one.
pub fn names_are_short_and_free()
    ensures empty { is_name (codes "") ≡ false }
    ensures word { is_name (codes "while") ≡ false }
    ensures free { is_name (codes "whiles") ≡ true }
    ensures digit { is_name (codes "1a") ≡ false }
    ensures long { is_name (codes "a123456789a123456789a123456789a123456789a123456789a123456789a123") ≡ false }
    ensures longest { is_name (codes "a123456789a123456789a123456789a123456789a123456789a123456789a12") ≡ true }
{}

/// A number has one of the four types of numbers, and is the word of a value of its type: the word of a negative `int` has its upper bits set.
pub fn numbers_are_words_of_their_types()
    ensures narrow { (n : ℕ) → (is_number n I8 ≡ false) × (is_number n U8 ≡ false) × (is_number n I16 ≡ false) × (is_number n U16 ≡ false) }
    ensures signed { (is_number 2147483647 I32 ≡ true) × (is_number 2147483648 I32 ≡ false) × (is_number 18446744071562067968 I32 ≡ true) }
    ensures unsigned { (is_number 4294967295 U32 ≡ true) × (is_number 4294967296 U32 ≡ false) }
    ensures long { (is_number 18446744073709551615 I64 ≡ true) × (is_number 18446744073709551615 U64 ≡ true) × (is_number 18446744073709551616 U64 ≡ false) }
{}

/// Lines and columns count from 1.
pub fn places_count_from_one()
    ensures { (file : ℕ) → (stands (record { file = file; line = 1; col = 1 }) ≡ true) × (stands (record { file = file; line = 0; col = 1 }) ≡ false) × (stands (record { file = file; line = 1; col = 0 }) ≡ false) }
{}

/// The part in braces of an initialiser is never empty.
pub fn braces_hold_a_part()
    ensures { (place : Place) → formed_init (record { place = place; kind = i.Many [] }) ≡ false }
{}

/// Every other expression of a formed tree has formed parts, and so on to the leaves.
pub fn expressions_have_formed_parts()
    ensures text { (place : Place) (bytes : List ℕ) → formed_expr (record { place = place; kind = v.Text bytes }) ≡ (stands place && true) }
    ensures step_by { (place : Place) (up before : Bool) (a : Expr) → formed_expr (record { place = place; kind = v.StepBy up before a }) ≡ (stands place && formed_expr a) }
    ensures cond { (place : Place) (a b c : Expr) → formed_expr (record { place = place; kind = v.Cond a b c }) ≡ (stands place && (formed_expr a && formed_expr b && formed_expr c)) }
    ensures call { (place : Place) (name : List ℕ) (all : List Expr) → formed_expr (record { place = place; kind = v.Call name all }) ≡ (stands place && (is_name name && list_all formed_expr all)) }
    ensures index { (place : Place) (a b : Expr) → formed_expr (record { place = place; kind = v.Index a b }) ≡ (stands place && (formed_expr a && formed_expr b)) }
    ensures arrow { (place : Place) (a : Expr) (name : List ℕ) → formed_expr (record { place = place; kind = v.Arrow a name }) ≡ (stands place && (formed_expr a && is_name name)) }
    ensures size_of_kind { (place : Place) (base : Base) (stars : ℕ) → formed_expr (record { place = place; kind = v.SizeOfKind base stars }) ≡ (stands place && (formed_base base && nat_le stars 255)) }
    ensures size_of_value { (place : Place) (a : Expr) → formed_expr (record { place = place; kind = v.SizeOfValue a }) ≡ (stands place && formed_expr a) }
{}

/// A declaration has formed parts and at most 255 stars, as the types of casts and `sizeof` have.
pub fn declarations_have_formed_parts()
    ensures parts { (place : Place) (base : Base) (stars : ℕ) (name : List ℕ) (counts : List Expr) → formed_decl (record { place = place; base = base; stars = stars; name = name; counts = counts }) ≡ (stands place && formed_base base && nat_le stars 255 && is_name name && list_all formed_expr counts) }
    ensures stars { (place : Place) → (formed_expr (record { place = place; kind = v.SizeOfKind Void 255 }) ≡ (stands place && true)) × (formed_expr (record { place = place; kind = v.SizeOfKind Void 256 }) ≡ false) }
{}

/// Each initialiser in braces has parts, all of them formed.
pub fn initialisers_have_formed_parts()
    ensures one { (place : Place) (x : Expr) → formed_init (record { place = place; kind = i.One x }) ≡ (stands place && formed_expr x) }
    ensures many { (place : Place) (all : List Init) → formed_init (record { place = place; kind = i.Many all }) ≡ (stands place && (not (is_empty all) && list_all formed_init all)) }
{}

/// Each statement of a formed tree has formed parts.
pub fn statements_have_formed_parts()
    ensures value { (place : Place) (value : Option Expr) → formed_stmt (record { place = place; kind = s.Value value }) ≡ (stands place && maybe_expr value) }
    ensures local { (place : Place) (d : Decl) (init : Option Init) → formed_stmt (record { place = place; kind = s.Local d init }) ≡ (stands place && (formed_decl d && maybe_init init)) }
    ensures test { (place : Place) (test : Expr) (then : Stmt) (other : Option Stmt) → formed_stmt (record { place = place; kind = s.If test then other }) ≡ (stands place && (formed_expr test && is_branch (seen_stmt then) && maybe_branch (option_map seen_stmt other))) }
    ensures while_ { (place : Place) (test : Expr) (body : Stmt) → formed_stmt (record { place = place; kind = s.While test body }) ≡ (stands place && (formed_expr test && is_branch (seen_stmt body))) }
    ensures do_while { (place : Place) (body : Stmt) (test : Expr) → formed_stmt (record { place = place; kind = s.DoWhile body test }) ≡ (stands place && (is_branch (seen_stmt body) && formed_expr test)) }
    ensures for_ { (place : Place) (first test next : Option Expr) (body : Stmt) → formed_stmt (record { place = place; kind = s.For first test next body }) ≡ (stands place && (maybe_expr first && maybe_expr test && maybe_expr next && is_branch (seen_stmt body))) }
    ensures jumps { (place : Place) → (formed_stmt (record { place = place; kind = s.Break }) ≡ (stands place && true)) × (formed_stmt (record { place = place; kind = s.Continue }) ≡ (stands place && true)) }
    ensures return_ { (place : Place) (value : Option Expr) → formed_stmt (record { place = place; kind = s.Return value }) ≡ (stands place && maybe_expr value) }
    ensures block { (place : Place) (all : List Stmt) → formed_stmt (record { place = place; kind = s.Block all }) ≡ (stands place && list_all formed_stmt all) }
{}

/// A branch, and the body of a loop, is any formed statement but a declaration, which stands there in a block of its own.
pub fn branches_declare_nothing()
    ensures declaration { (place : Place) (d : Decl) (init : Option Init) → is_branch (seen_stmt (record { place = place; kind = s.Local d init })) ≡ false }
    ensures block { (place : Place) (all : List Stmt) → is_branch (seen_stmt (record { place = place; kind = s.Block all })) ≡ formed_stmt (record { place = place; kind = s.Block all }) }
{}

/// Each item of a formed tree has formed parts: a struct has members, a function and its parameters have no counts, and the body of a function is
/// a block.
pub fn items_have_formed_parts()
    ensures tree { (items : List Item) → is_formed (record { items = items }) ≡ list_all formed_item items }
    ensures struct_ { (place : Place) (tag : List ℕ) (members : List Decl) → formed_item (record { place = place; kind = k.Struct tag members }) ≡ (stands place && (is_name tag && not (is_empty members) && list_all formed_decl members)) }
    ensures var { (place : Place) (external : Bool) (d : Decl) (init : Option Init) → formed_item (record { place = place; kind = k.Var external d init }) ≡ (stands place && (formed_decl d && maybe_init init)) }
    ensures fun { (place : Place) (d : Decl) (params : List Decl) (body : Option Stmt) → formed_item (record { place = place; kind = k.Fun d params body }) ≡ (stands place && (without_counts d && list_all without_counts params && formed_body body)) }
    ensures body { (place : Place) (value : Option Expr) → formed_body (Some (record { place = place; kind = s.Return value })) ≡ false }
{}

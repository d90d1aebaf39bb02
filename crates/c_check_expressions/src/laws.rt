//! Laws of what is seen of an expression. The functions do nothing: their contracts are the laws.

ghost use Rattle.std.specs.Prelude.{◌≡◌, ℕ, Bool, false, ◌++◌, List, Option, map};
ghost use Rattle.mx_base.specs.declared.places.Place.{Place};
ghost use Rattle.mx_base.specs.declared.numbers.IntKind.{IntKind};
ghost use Rattle.mx_base.specs.declared.operators.Arithmetic.{Arithmetic};
ghost use Rattle.c_tree.specs.declared.operators.UnaryOp.{UnaryOp};
ghost use Rattle.c_tree.specs.declared.operators.BinaryOp.{BinaryOp};
ghost use Rattle.c_tree.specs.declared.tree.Base.{Base};
ghost use Rattle.c_tree.specs.declared.tree.Expr.{Expr};
ghost use Rattle.c_tree.specs.declared.tree.ExprKind.TheVariants as v;
ghost use Rattle.c_types.specs.Types.{CType};
ghost use Rattle.c_check_rules.specs.declared.names.Scope.{Scope};
ghost use Rattle.c_check_rules.specs.declared.names.StructInfo.{StructInfo};
ghost use Rattle.c_check_rules.specs.declared.predeclared.Found.{Found};
ghost use Rattle.c_check_rules.specs.Names.{found_in};
ghost use Rattle.c_check_typing.specs.declared.typed.Typed.{Typed};
ghost use Rattle.c_check_typing.specs.Refusals.{all_at, InOrder};
ghost use Rattle.c_check_typing.specs.Notes.{Seen, Own, leaf, one, two, three, unevaluated, with_typed};
ghost use Rattle.c_check_typing.specs.Rules as rule;
ghost use Rattle.c_check_typing.specs.Expressions.{seen, arguments, call};

/// What is seen of an expression is what is seen of its parts and what it is by itself. What an expression is by itself is said by a rule of its
/// form, which knows of its parts their values alone.
pub fn expressions_are_seen_by_their_parts()
    ensures number { (place : Place) (n : ℕ) (kind : IntKind) (functions : Bool) (scope : Scope) → seen (record { place = place; kind = v.Number n kind }) functions scope ≡ leaf place (rule.number_own n kind) }
    ensures text { (place : Place) (bytes : List ℕ) (functions : Bool) (scope : Scope) → seen (record { place = place; kind = v.Text bytes }) functions scope ≡ leaf place (rule.text_own bytes) }
    ensures name { (place : Place) (name : List ℕ) (functions : Bool) (scope : Scope) → seen (record { place = place; kind = v.Var name }) functions scope ≡ leaf place (rule.name_own functions (found_in scope name)) }
    ensures unary { (place : Place) (op : UnaryOp) (a : Expr) (functions : Bool) (scope : Scope) → seen (record { place = place; kind = v.Unary op a }) functions scope ≡ one place (seen a false scope) (λ t. with_typed t (rule.unary_own scope.structs op)) }
    ensures binary { (place : Place) (op : BinaryOp) (a b : Expr) (functions : Bool) (scope : Scope) → seen (record { place = place; kind = v.Binary op a b }) functions scope ≡ two place (seen a false scope) (seen b false scope) (rule.binary_own scope.structs op) }
    ensures assign { (place : Place) (op : Option Arithmetic) (a b : Expr) (functions : Bool) (scope : Scope) → seen (record { place = place; kind = v.Assign op a b }) functions scope ≡ two place (seen a false scope) (seen b false scope) (rule.assign_own scope.structs op) }
    ensures step_by { (place : Place) (up before : Bool) (a : Expr) (functions : Bool) (scope : Scope) → seen (record { place = place; kind = v.StepBy up before a }) functions scope ≡ one place (seen a false scope) (λ t. with_typed t (rule.step_own scope.structs)) }
    ensures cond { (place : Place) (a b c : Expr) (functions : Bool) (scope : Scope) → seen (record { place = place; kind = v.Cond a b c }) functions scope ≡ three place (seen a false scope) (seen b false scope) (seen c false scope) rule.choice_own }
    ensures call { (place : Place) (name : List ℕ) (all : List Expr) (functions : Bool) (scope : Scope) → seen (record { place = place; kind = v.Call name all }) functions scope ≡ call place scope (found_in scope name) (map seen all) }
    ensures index { (place : Place) (a b : Expr) (functions : Bool) (scope : Scope) → seen (record { place = place; kind = v.Index a b }) functions scope ≡ two place (seen a false scope) (seen b false scope) (rule.index_own scope.structs) }
    ensures member { (place : Place) (a : Expr) (name : List ℕ) (functions : Bool) (scope : Scope) → seen (record { place = place; kind = v.Member a name }) functions scope ≡ one place (seen a false scope) (λ t. with_typed t (rule.member_own scope.structs name)) }
    ensures arrow { (place : Place) (a : Expr) (name : List ℕ) (functions : Bool) (scope : Scope) → seen (record { place = place; kind = v.Arrow a name }) functions scope ≡ one place (seen a false scope) (λ t. with_typed t (rule.arrow_own scope.structs name)) }
    ensures cast { (place : Place) (base : Base) (stars : ℕ) (a : Expr) (functions : Bool) (scope : Scope) → seen (record { place = place; kind = v.Cast base stars a }) functions scope ≡ one place (seen a false scope) (rule.cast_own scope base stars) }
    ensures size_of_kind { (place : Place) (base : Base) (stars : ℕ) (functions : Bool) (scope : Scope) → seen (record { place = place; kind = v.SizeOfKind base stars }) functions scope ≡ leaf place (rule.size_of_kind_own scope base stars) }
    ensures size_of_value { (place : Place) (a : Expr) (functions : Bool) (scope : Scope) → seen (record { place = place; kind = v.SizeOfValue a }) functions scope ≡ one place (unevaluated (seen a false scope)) (λ t. with_typed t (λ u. rule.size_own scope.structs u.kind)) }
{}

/// The broken rules of an expression are those of its parts, from left to right, and then its own, each at its place.
pub fn broken_rules_of_parts_come_first()
    ensures leaf { (place : Place) (own : Own) → (leaf place own).broken ≡ all_at place own.broken }
    ensures one { (place : Place) (a : Seen) (own : Option Typed → Own) → (one place a own).broken ≡ a.broken ++ all_at place (own a.typed).broken }
    ensures two { (place : Place) (a b : Seen) (own : Typed → Typed → Own) → (two place a b own).broken ≡ (a.broken ++ b.broken) ++ all_at place (with_typed a.typed (λ t. with_typed b.typed (own t))).broken }
    ensures three { (place : Place) (a b c : Seen) (own : Typed → Typed → Typed → Own) → (three place a b c own).broken ≡ (a.broken ++ (b.broken ++ c.broken)) ++ all_at place (with_typed a.typed (λ t. with_typed b.typed (λ u. with_typed c.typed (own t u)))).broken }
    ensures not_evaluated { (a : Seen) → (unevaluated a).broken ≡ a.broken }
{}

/// Where one node breaks several rules, they are listed in the order of their kinds, and each once.
pub fn rules_of_a_node_are_in_order()
    ensures text { (bytes : List ℕ) → InOrder (rule.text_own bytes).broken }
    ensures name { (functions : Bool) (found : Found) → InOrder (rule.name_own functions found).broken }
    ensures unary { (structs : List StructInfo) (op : UnaryOp) (a : Typed) → InOrder (rule.unary_own structs op a).broken }
    ensures binary { (structs : List StructInfo) (op : BinaryOp) (a b : Typed) → InOrder (rule.binary_own structs op a b).broken }
    ensures choice { (a b c : Typed) → InOrder (rule.choice_own a b c).broken }
    ensures assign { (structs : List StructInfo) (op : Option Arithmetic) (a b : Typed) → InOrder (rule.assign_own structs op a b).broken }
    ensures step { (structs : List StructInfo) (a : Typed) → InOrder (rule.step_own structs a).broken }
    ensures index { (structs : List StructInfo) (a i : Typed) → InOrder (rule.index_own structs a i).broken }
    ensures member { (structs : List StructInfo) (name : List ℕ) (a : Typed) → InOrder (rule.member_own structs name a).broken }
    ensures arrow { (structs : List StructInfo) (name : List ℕ) (a : Typed) → InOrder (rule.arrow_own structs name a).broken }
    ensures cast { (scope : Scope) (base : Base) (stars : ℕ) (a : Option Typed) → InOrder (rule.cast_own scope base stars a).broken }
    ensures size { (structs : List StructInfo) (kind : CType) → InOrder (rule.size_own structs kind).broken }
    ensures size_of_kind { (scope : Scope) (base : Base) (stars : ℕ) → InOrder (rule.size_of_kind_own scope base stars).broken }
    ensures call { (found : Found) (fit : Option Bool) → InOrder (rule.call_own found fit).broken }
{}

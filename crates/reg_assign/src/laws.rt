//! The law of homes. The function does nothing, and its contract is the law.

ghost use Rattle.std.specs.Prelude.{ℕ};
ghost use Rattle.fat_ir.specs.declared.program.FatFun.{FatFun as Fun};
ghost use Rattle.step_code.specs.Steps.{Plan};
ghost use Rattle.step_code.specs.Homes.{HaveHomes};
ghost use Rattle.reg_assign.specs.declared.homes.Homes.{Homes as HomesOf};
ghost use Rattle.reg_assign.specs.Homes.{AreHomes};
ghost use Rattle.reg_assign.specs.Laws.{HasHomes};

/// Homes that are assigned are such as the code of the steps asks for, in every plan that has them and a frame with room for
/// their words.
pub fn assigned_homes_are_had()
    ensures { (f : Fun) (h : HomesOf) (units : ℕ) (p : Plan) → HasHomes f h units p → (are : AreHomes f h) → HaveHomes f units p are.span }
{}

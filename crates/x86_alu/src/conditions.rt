ghost use Rattle.std.specs.Prelude.{◌≡◌, IsTrue};
ghost use Rattle.x86_forms.specs.Validity.{condition_ok};
ghost use Rattle.x86_forms.specs.Arithmetic.{holds as holds_by};
ghost use Rattle.x86_alu.specs.Alu.{flags_in};

use crate::op::Four;

/// Whether the condition of a code holds: o 0, no 1, b 2, ae 3, e 4, ne 5, be 6, a 7, s 8, ns 9, l 12, ge 13, le 14, g 15.
#[tactic(auto, unfolding(x86_forms::specs::Arithmetic::holds))]
#[inline(always)]
pub fn holds(cc: u8, f: Four) -> bool
    requires { IsTrue (condition_ok cc) }
    ensures { result ≡ holds_by cc (flags_in f) }
{
    match cc {
        0 => f.of,
        1 => !f.of,
        2 => f.cf,
        3 => !f.cf,
        4 => f.zf,
        5 => !f.zf,
        6 => f.cf | f.zf,
        7 => !(f.cf | f.zf),
        8 => f.sf,
        9 => !f.sf,
        12 => f.sf != f.of,
        13 => f.sf == f.of,
        14 => f.zf | (f.sf != f.of),
        _ => !(f.zf | (f.sf != f.of)),
    }
}

//! Instructions put at the end of bytes.

ghost use Rattle.std.specs.Prelude.{◌≡◌, ◌≤◌, ◌+◌, ◌++◌, length, IsTrue};
ghost use Rattle.std.specs.List.{list_all};
ghost use Rattle.arrayvec.specs.ArrayVec.{array_vec_len};
ghost use Rattle.x86_forms.specs.Validity.{valid_of};
ghost use Rattle.call_gates.specs.Gates.{spelled};

use arrayvec::ArrayVec;
use x86_encode::encode;
use x86_forms::Instr;

/// Room for a gate.
pub type Bytes = ArrayVec<u8, 128>;

pub fn append(out: &mut Bytes, bytes: &[u8])
    requires { array_vec_len out.old + length bytes.now ≤ 128 }
    ensures items { out.new.items ≡ out.old.items ++ bytes.now }
    ensures len { array_vec_len out.new ≡ array_vec_len out.old + length bytes.now }
{
    match out.try_extend_from_slice(bytes) {
        Ok(()) => {}
        Err(_) => unreachable!(),
    }
}

pub fn put(out: &mut Bytes, code: &[Instr])
    requires valid { IsTrue (list_all valid_of code.now) }
    requires room { array_vec_len out.old + length (spelled code.now) ≤ 128 }
    ensures items { out.new.items ≡ out.old.items ++ spelled code.now }
    ensures len { array_vec_len out.new ≡ array_vec_len out.old + length (spelled code.now) }
{
    'all: for instr in code {
        append(out, encode(instr).as_slice());
    }
}

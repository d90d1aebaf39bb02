//! The bytes of the gates of an image.

ghost use Rattle.std.specs.Prelude.{◌≡◌, ◌≤◌, length, true};
ghost use Rattle.call_sigs.specs.Signatures.{signature_of, HasRegisters};
ghost use Rattle.call_gates.specs.Gates.{InCode, InLegacyCode};
ghost use Rattle.obj_file.specs.Names.{is_function_sig};
ghost use Rattle.obj_linker.specs.Gating.{told_signature, mpx_gates};

use arrayvec::ArrayVec;
use call_gates::{Sig, landing, outer, start, stub};
use obj_file::is_function_sig;

/// The parameters' letters, of which there are at most six.
fn letters(params: &[u8]) -> ArrayVec<u8, 6>
    requires { length params.now ≤ 6 }
    ensures { result.items ≡ params.now }
{
    let mut out = ArrayVec::new();
    match out.try_extend_from_slice(params) {
        Ok(()) => out,
        Err(_) => unreachable!(),
    }
}

/// What a text tells that is the signature of a function.
#[tactic(auto, unfolding(obj_file::specs::Names::is_function_sig, obj_file::specs::Names::are_parameters, crate::specs::Gating::told_signature))]
fn function_sig(text: &[u8]) -> Sig
    requires { is_function_sig text.now ≡ true }
    ensures sig { signature_of result.result result.params.items ≡ told_signature text.now }
    ensures registers { HasRegisters (told_signature text.now) }
{
    Sig {
        result: text[1],
        params: letters(&text[3..text.len() - 1]),
    }
}

/// What a text tells; one that is no signature of a function tells of one without parameters and result.
#[tactic(auto, unfolding(crate::specs::Gating::told_signature))]
fn told_sig(text: &[u8]) -> Sig
    ensures sig { signature_of result.result result.params.items ≡ told_signature text.now }
    ensures registers { HasRegisters (told_signature text.now) }
{
    if is_function_sig(text) {
        function_sig(text)
    } else {
        Sig {
            result: b'v',
            params: ArrayVec::new(),
        }
    }
}

/// The start of an image whose `main` has this inner entry.
#[tactic(auto, unfolding(crate::specs::Gating::mpx_gates))]
pub fn start_code(main: u64) -> ArrayVec<u8, 256>
    requires { InCode main }
    ensures { result.items ≡ mpx_gates.start main }
{
    start(main)
}

/// The landing, to which legacy functions return.
#[tactic(auto, unfolding(crate::specs::Gating::mpx_gates))]
pub fn landing_code() -> ArrayVec<u8, 128>
    ensures { result.items ≡ mpx_gates.landing }
{
    landing()
}

/// The outer entry of a C function by the text of its signature.
#[tactic(auto, unfolding(crate::specs::Gating::mpx_gates))]
pub fn outer_code(sig: &[u8], inner: u64, at: u64) -> ArrayVec<u8, 128>
    requires inner { InCode inner }
    requires at { InCode at }
    ensures { result.items ≡ mpx_gates.outer sig.now inner at }
{
    outer(&told_sig(sig), inner, at)
}

/// The stub of a legacy function by the text of its signature.
#[tactic(auto, unfolding(crate::specs::Gating::mpx_gates))]
pub fn stub_code(sig: &[u8], target: u64, at: u64) -> ArrayVec<u8, 128>
    requires target { InLegacyCode target }
    requires at { InCode at }
    ensures { result.items ≡ mpx_gates.stub sig.now target at }
{
    stub(&told_sig(sig), target, at)
}

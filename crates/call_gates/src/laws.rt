//! Laws of the gates' code. Each function does nothing, and its contract is the law.

ghost use Rattle.std.specs.Prelude.{◌≡◌, ℕ};
ghost use Rattle.call_sigs.specs.Signatures.{Signature, HasRegisters};
ghost use Rattle.call_gates.specs.Gates.{size_of_code, start_gate, landing_gate, stub_gate, outer_gate, IsGate, InCode, InLegacyCode};

/// Each instruction of a gate is valid and has the size that is told, no jump of a gate leads to its own or a lower address, and a gate
/// has its room, for every signature whose parameters have registers: 128 bytes, of which the start takes 66 and the landing 32.
pub fn gates_have_their_room()
    ensures start { (main : ℕ) → InCode main → IsGate (start_gate main) 66 }
    ensures landing { IsGate landing_gate 32 }
    ensures stub { (sig : Signature) (target at : ℕ) → HasRegisters sig → InLegacyCode target → InCode at → IsGate (stub_gate sig target at) 122 }
    ensures outer { (sig : Signature) (inner at : ℕ) → HasRegisters sig → InCode inner → InCode at → IsGate (outer_gate sig inner at) 127 }
{}

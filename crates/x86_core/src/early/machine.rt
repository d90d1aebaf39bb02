//! Registers, bounds registers and memory, and one step of them.
ghost use Rattle.std.specs.Prelude.{◌≡◌, ◌%◌};
ghost use Rattle.std.specs.Int.{w64, cast_unsigned};

use crate::EarlyStop;
use mx_base::OutOfMemory;
use std::alloc::Global;
use x86_forms::{Instr, Mem, Reg, Rm, address_of, base_of};

/// Where code begins.
const CODE: u64 = 0x0100_0000;

/// Where memory begins.
const MEMORY: u64 = 0x2000_0000;

const RAX: Reg = Reg(0);

const RCX: Reg = Reg(1);

const RDI: Reg = Reg(7);

const R11: Reg = Reg(11);

const EXIT: u64 = 60;

const PUT: u64 = 0x1003;

/// The state between two instructions. An upper bound is held in one's complement.
#[derive(Drop)]
pub struct Machine {
    regs: [u64; 16],
    lower: [u64; 4],
    held: [u64; 4],
    rip: u64,
    array: Vec<u8>,
}

/// What one instruction led to.
pub enum Step {
    /// The next instruction is to run.
    On,
    /// A byte is to be put, and then the next instruction is to run.
    Put(u8),
    End(EarlyStop),
}

fn low_byte(imm: i64) -> u8
    ensures { result ≡ cast_unsigned w64 imm % 0x100 }
{
    (imm.cast_unsigned() % 0x100) as u8
}

impl Machine {
    ghost use Rattle.std.specs.Prelude.{◌≡◌, ◌<◌, ◌+◌, ◌-◌, ◌%◌, ◌^◌, IsTrue, IfOk, MatchOption, true, false, slice_index, slice_set, length};
    ghost use Rattle.x86_forms.specs.EarlyCode.{started};
    ghost use Rattle.x86_forms.specs.EarlyEffects.{memory_start, is_mapped, effect};
    ghost use Rattle.x86_forms.specs.Processor.{with_reg, with_bounds};
    ghost use Rattle.x86_forms.specs.Validity.{valid_of, mem_ok};
    ghost use Rattle.x86_core.specs.EarlyMachine.{seen, Does};
    ghost use Rattle.x86_forms.specs.declared.instr.Instr.TheVariants.{MovImm, MovMemImm, Movzx, Bndmk, Bndcl, Bndcu, Syscall};
    ghost use Rattle.x86_forms.specs.declared.instr.Rm.TheVariants.{Reg as InReg, Mem as InMem};
    ghost use Rattle.x86_core.specs.declared.early.EarlyStop.TheVariants.{Bounds};

    /// The state before the first instruction: registers and memory are 0, and the bounds registers allow every address.
    pub fn new(alloc: Global, size: u16) -> Result<Machine, OutOfMemory>
        ensures { IfOk result (λ m. seen m ≡ started size) }
    {
        Ok(Machine {
            regs: [0; 16],
            lower: [0; 4],
            held: [0; 4],
            rip: CODE,
            array: vec![in alloc; 0; size as usize]?,
        })
    }

    /// The address after an instruction of so many bytes.
    pub fn address_after(&self, length: u8) -> u64
        ensures { result ≡ ((seen self.now).processor.rip + length) % 2 ^ 64 }
    {
        self.rip.wrapping_add(u64::from(length))
    }

    fn set_reg(&mut self, r: Reg, n: u64)
        requires { r.0 < 16 }
        ensures { seen self.new ≡ record (seen self.old) { processor = record (seen self.old).processor { regs = with_reg (seen self.old).processor.regs r.0 n } } }
    {
        self.regs[r.0 as usize] = n;
    }

    fn set_bounds(&mut self, b: u8, lb: u64, ub: u64)
        requires { b < 4 }
        ensures { seen self.new ≡ record (seen self.old) { processor = record (seen self.old).processor { bounds = with_bounds (seen self.old).processor.bounds b (record { lb = lb; ub = ub }) } } }
    {
        self.lower[b as usize] = lb;
        self.held[b as usize] = !ub;
    }

    /// On to the next instruction.
    fn go(&mut self, next: u64) -> Step
        ensures value { result ≡ Step.On }
        ensures state { seen self.new ≡ record (seen self.old) { processor = record (seen self.old).processor { rip = next } } }
    {
        self.rip = next;
        Step::On
    }

    /// The place in the array of the byte at this address.
    fn place(&self, at: u64) -> Option<usize>
        ensures { MatchOption result (is_mapped at (seen self.now).array ≡ false)
            (λ k. (is_mapped at (seen self.now).array ≡ true) × (k ≡ at - memory_start) × (k < length self.now.array.items)) }
    {
        if at >= MEMORY && at - MEMORY < self.array.len() as u64 {
            Some((at - MEMORY) as usize)
        } else {
            None
        }
    }

    fn byte(&self, k: usize) -> u8
        requires { k < length (seen self.now).array }
        ensures { result ≡ slice_index (seen self.now).array k }
    {
        self.array[k]
    }

    fn set_byte(&mut self, k: usize, byte: u8)
        requires { k < length (seen self.old).array }
        ensures { seen self.new ≡ record (seen self.old) { array = slice_set (seen self.old).array k byte } }
    {
        self.array[k] = byte;
    }

    /// #BR with a value that is outside the bounds.
    fn violation(&self, b: u8, value: u64) -> EarlyStop
        requires { b < 4 }
        ensures { result ≡ Bounds value ((seen self.now).processor.bounds b).lb ((seen self.now).processor.bounds b).ub }
    {
        EarlyStop::Bounds {
            value,
            lb: self.lower[b as usize],
            ub: !self.held[b as usize],
        }
    }

    #[tactic(auto, unfolding(x86_forms::specs::EarlyEffects::effect, x86_forms::specs::EarlyEffects::row_effect, x86_forms::specs::Table::row, x86_forms::specs::Requests::run, x86_forms::specs::Processor::part_written))]
    fn load_number(&mut self, r: Reg, imm: i64, next: u64) -> Step
        requires { r.0 < 16 }
        ensures { Does (effect (MovImm 32 r imm) next (seen self.old)) result (seen self.new) }
    {
        self.set_reg(r, imm.cast_unsigned() % 0x1_0000_0000);
        self.go(next)
    }

    #[tactic(auto, unfolding(x86_forms::specs::EarlyEffects::effect, x86_forms::specs::EarlyEffects::row_effect, x86_forms::specs::Table::row, x86_forms::specs::Requests::run))]
    fn store(&mut self, m: Mem, imm: i64, next: u64) -> Step
        requires { IsTrue (mem_ok m) }
        ensures { Does (effect (MovMemImm 8 m imm) next (seen self.old)) result (seen self.new) }
    {
        let at = address_of(&self.regs, next, m);
        match self.place(at) {
            Some(k) => {
                self.set_byte(k, low_byte(imm));
                self.go(next)
            }
            None => Step::End(EarlyStop::Unmapped),
        }
    }

    #[tactic(auto, unfolding(x86_forms::specs::EarlyEffects::effect, x86_forms::specs::EarlyEffects::row_effect, x86_forms::specs::Table::row, x86_forms::specs::Requests::run, x86_forms::specs::Processor::part_written))]
    fn load(&mut self, r: Reg, m: Mem, next: u64) -> Step
        requires reg { r.0 < 16 }
        requires mem { IsTrue (mem_ok m) }
        ensures { Does (effect (Movzx 8 r (InMem m)) next (seen self.old)) result (seen self.new) }
    {
        let at = address_of(&self.regs, next, m);
        match self.place(at) {
            Some(k) => {
                let byte = self.byte(k);
                self.set_reg(r, u64::from(byte));
                self.go(next)
            }
            None => Step::End(EarlyStop::Unmapped),
        }
    }

    fn make_bounds(&mut self, b: u8, m: Mem, next: u64) -> Step
        requires bounds { b < 4 }
        requires mem { IsTrue (mem_ok m) }
        ensures { Does (effect (Bndmk b m) next (seen self.old)) result (seen self.new) }
    {
        let lb = base_of(&self.regs, next, m.base, m.index);
        let ub = address_of(&self.regs, next, m);
        self.set_bounds(b, lb, ub);
        self.go(next)
    }

    #[tactic(auto, unfolding(x86_forms::specs::EarlyEffects::effect, x86_forms::specs::EarlyEffects::row_effect, x86_forms::specs::Table::row, x86_forms::specs::Requests::run))]
    fn check_lower(&mut self, b: u8, r: Reg, next: u64) -> Step
        requires bounds { b < 4 }
        requires reg { r.0 < 16 }
        ensures { Does (effect (Bndcl b (InReg r)) next (seen self.old)) result (seen self.new) }
    {
        let value = self.regs[r.0 as usize];
        if value < self.lower[b as usize] {
            Step::End(self.violation(b, value))
        } else {
            self.go(next)
        }
    }

    #[tactic(auto, unfolding(x86_forms::specs::EarlyEffects::effect, x86_forms::specs::EarlyEffects::row_effect, x86_forms::specs::Table::row, x86_forms::specs::Requests::run))]
    fn check_upper(&mut self, b: u8, r: Reg, next: u64) -> Step
        requires bounds { b < 4 }
        requires reg { r.0 < 16 }
        ensures { Does (effect (Bndcu b (InReg r)) next (seen self.old)) result (seen self.new) }
    {
        let value = self.regs[r.0 as usize];
        if value > !self.held[b as usize] {
            Step::End(self.violation(b, value))
        } else {
            self.go(next)
        }
    }

    /// The service whose number is in rax, with its argument in rdi.
    #[tactic(auto, unfolding(x86_forms::specs::EarlyEffects::effect, x86_forms::specs::EarlyEffects::row_effect, x86_forms::specs::Table::row, x86_forms::specs::Requests::run, x86_forms::specs::Processor::part_written, x86_forms::specs::EarlyEffects::served))]
    fn serve(&mut self, next: u64) -> Step
        ensures { Does (effect Syscall next (seen self.old)) result (seen self.new) }
    {
        let low = (self.regs[RDI.0 as usize] % 0x100) as u8;
        match self.regs[RAX.0 as usize] {
            PUT => {
                self.set_reg(RCX, next);
                self.set_reg(R11, 0);
                self.set_reg(RAX, 0);
                self.rip = next;
                Step::Put(low)
            }
            EXIT => Step::End(EarlyStop::Exit(low)),
            _ => Step::End(EarlyStop::Undefined),
        }
    }

    /// Executes one instruction; `next` is the address of the one after it.
    #[tactic(auto, unfolding(x86_forms::specs::EarlyEffects::effect))]
    pub fn step(&mut self, instr: Instr, next: u64) -> Step
        requires { IsTrue (valid_of instr) }
        ensures { Does (effect instr next (seen self.old)) result (seen self.new) }
    {
        match instr {
            Instr::MovImm { w: 32, r, imm } => self.load_number(r, imm, next),
            Instr::MovMemImm { w: 8, m, imm } => self.store(m, imm, next),
            Instr::Movzx {
                from: 8,
                r,
                rm: Rm::Mem(m),
            } => self.load(r, m, next),
            Instr::Bndmk { b, m } => self.make_bounds(b, m, next),
            Instr::Bndcl { b, rm: Rm::Reg(r) } => self.check_lower(b, r, next),
            Instr::Bndcu { b, rm: Rm::Reg(r) } => self.check_upper(b, r, next),
            Instr::Syscall => self.serve(next),
            _ => Step::End(EarlyStop::Undefined),
        }
    }
}

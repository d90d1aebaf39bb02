use paged_memory::MemStop;
use x86_alu::Four;

/// The processor: the address of the next instruction, the registers by number, and the flags.
#[derive(Clone, Copy, Debug, PartialEq, Eq)]
pub struct Cpu {
    pub rip: u64,
    pub regs: [u64; 16],
    pub flags: Four,
}

/// How an instruction was done.
#[derive(Clone, Copy, Debug, PartialEq, Eq)]
pub enum Done {
    /// The next instruction follows.
    Next,
    /// A branch: whether it is a call, a return, taken, and has the BND prefix.
    Branch {
        call: bool,
        ret: bool,
        taken: bool,
        prefixed: bool,
    },
    /// A `syscall`, whose service comes after it.
    Service,
}

/// Why an instruction isn't done. It changed nothing.
#[derive(Clone, Copy, Debug, PartialEq, Eq)]
pub enum CoreStop {
    /// Memory refused an access.
    Mem(MemStop),
    /// #DE: a divisor of 0, or a quotient that its register doesn't hold.
    Divide,
    /// #UD.
    Undefined,
}

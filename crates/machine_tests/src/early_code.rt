//! Code that was assembled by GNU `as`, run into a small sink.
ghost use Rattle.std.specs.Prelude.{Some};

use mx_base::{Failed, Sink};
use std::test::Fail;
use x86_core::{EarlyStop, run_early};

/// A sink that takes one byte a call, and fails once it holds `room` bytes.
#[derive(Drop)]
struct Kept {
    bytes: Vec<u8>,
    room: usize,
    faults: u64,
}

impl Sink for Kept {
    ghost held = { λ s. Some s.bytes.items };

    ghost faults = { λ s. s.faults };

    fn put(&mut self, bytes: &[u8]) -> Result<usize, Failed> {
        let Some(first) = bytes.first() else {
            return Ok(0);
        };
        if self.bytes.len() < self.room && self.bytes.push(*first).is_ok() {
            return Ok(1);
        }
        self.faults = self.faults.saturating_add(1);
        Err(Failed)
    }

    fn faults(&self) -> u64 {
        self.faults
    }
}

/// `mov ebx, 0x20000000; bndmk bnd0, [rbx+3]; mov ecx, 0x20000003; bndcl bnd0, rcx; bndcu bnd0, rcx; mov byte [rcx], 1;`
/// the same address and checks again, `movzx edi, byte [rcx]; mov eax, 0x1003; syscall; mov edi, 0; mov eax, 60; syscall`
const LAST_BYTE: [u8; 61] = [
    0xBB, 0x00, 0x00, 0x00, 0x20, 0xF3, 0x0F, 0x1B, 0x43, 0x03, 0xB9, 0x03, 0x00, 0x00, 0x20, 0xF3,
    0x0F, 0x1A, 0xC1, 0xF2, 0x0F, 0x1A, 0xC1, 0xC6, 0x01, 0x01, 0xB9, 0x03, 0x00, 0x00, 0x20, 0xF3,
    0x0F, 0x1A, 0xC1, 0xF2, 0x0F, 0x1A, 0xC1, 0x0F, 0xB6, 0x39, 0xB8, 0x03, 0x10, 0x00, 0x00, 0x0F,
    0x05, 0xBF, 0x00, 0x00, 0x00, 0x00, 0xB8, 0x3C, 0x00, 0x00, 0x00, 0x0F, 0x05,
];

/// The same with the address 0x20000004 at first, one byte past the array.
const PAST_END: [u8; 26] = [
    0xBB, 0x00, 0x00, 0x00, 0x20, 0xF3, 0x0F, 0x1B, 0x43, 0x03, 0xB9, 0x04, 0x00, 0x00, 0x20, 0xF3,
    0x0F, 0x1A, 0xC1, 0xF2, 0x0F, 0x1A, 0xC1, 0xC6, 0x01, 0x01,
];

/// `mov edi, 7; mov eax, 0x1003; syscall` twice, so the second time with the answer of the first in rax, which is 0
const PUT_TWICE: [u8; 24] = [
    0xBF, 0x07, 0x00, 0x00, 0x00, 0xB8, 0x03, 0x10, 0x00, 0x00, 0x0F, 0x05, 0xBF, 0x08, 0x00, 0x00,
    0x00, 0xB8, 0x03, 0x10, 0x00, 0x00, 0x0F, 0x05,
];

/// `mov r9d, 0x20000000; mov ecx, 2; bndmk bnd1, [r9+rcx+1]; bndcl bnd1, r9; mov byte [r9+rcx+1], 7;
/// movzx edi, byte [r9*2-0x1FFFFFFD]; mov eax, 0x1003; syscall; mov edi, 0; mov eax, 60; syscall`: registers that need a
/// REX byte, and index registers. The load is of the byte that was stored.
const REX_AND_INDEX: [u8; 57] = [
    0x41, 0xB9, 0x00, 0x00, 0x00, 0x20, 0xB9, 0x02, 0x00, 0x00, 0x00, 0xF3, 0x41, 0x0F, 0x1B, 0x4C,
    0x09, 0x01, 0xF3, 0x41, 0x0F, 0x1A, 0xC9, 0x41, 0xC6, 0x44, 0x09, 0x01, 0x07, 0x42, 0x0F, 0xB6,
    0x3C, 0x4D, 0x03, 0x00, 0x00, 0xE0, 0xB8, 0x03, 0x10, 0x00, 0x00, 0x0F, 0x05, 0xBF, 0x00, 0x00,
    0x00, 0x00, 0xB8, 0x3C, 0x00, 0x00, 0x00, 0x0F, 0x05,
];

#[test]
fn runs(rt: HostRuntime) -> Result<(), Fail> {
    let past_end = EarlyStop::Bounds {
        value: 0x2000_0004,
        lb: 0x2000_0000,
        ub: 0x2000_0003,
    };
    let rows: [(&[u8], usize, EarlyStop, &[u8]); 12] = [
        (&LAST_BYTE, 9, EarlyStop::Exit(0), &[1]),
        (&PAST_END, 9, past_end, &[]),
        (&REX_AND_INDEX, 9, EarlyStop::Exit(0), &[7]),
        // Two bytes are put, and no instruction is left.
        (&PUT_TWICE, 9, EarlyStop::Undefined, &[7, 8]),
        // The sink has room for one.
        (&PUT_TWICE, 1, EarlyStop::WriteFault, &[7]),
        // mov byte [rax], 1, with 0 in rax
        (&[0xC6, 0x00, 0x01], 9, EarlyStop::Unmapped, &[]),
        // mov r9d, 0xFFFFFFFF; mov byte [r9+0x2000], 1: the address is past the array, and not modulo 2^32
        (
            &[
                0x41, 0xB9, 0xFF, 0xFF, 0xFF, 0xFF, 0x41, 0xC6, 0x81, 0x00, 0x20, 0x00, 0x00, 0x01,
            ],
            9,
            EarlyStop::Unmapped,
            &[],
        ),
        // nop, which is of another form
        (&[0x90], 9, EarlyStop::Undefined, &[]),
        // ud2
        (&[0x0F, 0x0B], 9, EarlyStop::Undefined, &[]),
        // a `mov byte [rcx], 1` with a displacement of 0, which is not its spelling
        (&[0xC6, 0x41, 0x00, 0x01], 9, EarlyStop::Undefined, &[]),
        // syscall, with no service's number in rax
        (&[0x0F, 0x05], 9, EarlyStop::Undefined, &[]),
        (&[], 9, EarlyStop::Undefined, &[]),
    ];
    for (code, room, stop, bytes) in rows {
        let mut out = Kept {
            bytes: Vec::new(rt.alloc()),
            room,
            faults: 0,
        };
        let found = run_early(rt.alloc(), code, 4, &mut out)?;
        assert_eq!(rt; (code, found, out.bytes.as_slice()), (code, stop, bytes));
    }
    Ok(())
}

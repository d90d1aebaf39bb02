//! One call many times, for scripts that time it.
use x86_decode::decode;
use x86_encode::encode;
use x86_forms::{Base, Instr, Mem, Reg, Rm};

/// Reads one of four instructions so many times, and answers how many were read.
pub fn decode_often(times: u32) -> u32 {
    let lines: [&[u8]; 4] = [
        &[0x48, 0x89, 0xF8],
        &[0xF3, 0x0F, 0x1B, 0x47, 0x07],
        &[0x0F, 0x1A, 0x5C, 0x13, 0x10],
        &[0x48, 0x81, 0xC0, 0x00, 0x10, 0x00, 0x00],
    ];
    let mut done = 0u32;
    for k in 0..times {
        if decode(lines[(k % 4) as usize]).is_ok() {
            done = done.saturating_add(1);
        }
    }
    done
}

/// Spells an instruction so many times, and answers how many had bytes.
pub fn encode_often(times: u32) -> u32 {
    let mut done = 0u32;
    for k in 0..times {
        let m = Mem {
            base: Base::Reg(Reg((k % 16) as u8)),
            index: None,
            disp: 7,
        };
        if 0 < encode(&Instr::Bndmk {
            b: (k % 4) as u8,
            m,
        })
        .len()
        {
            done = done.saturating_add(1);
        }
        let _ = Rm::Mem(m);
    }
    done
}

//! Stops of an image with three places.

use crate::print_bytes;
use fault_text::explain;
use mx_base::{Breach, Stop};
use obj_file::read_image;
use std::alloc::Global;
use std::io;

/// An image without segments: the file `a.c`, and the places of a write of 1 byte, a read of 4, and an access of unknown kind.
const IMAGE: [u8; 99] = [
    0x4D, 0x58, 0x49, 0x32, 0, 0, 0, 0, 0, 0, 0, 0, 1, 0, 0, 0, 3, b'a', b'.', b'c', 3, 0, 0, 0,
    0x10, 0, 0, 1, 0, 0, 0, 0, 0, 0, 0, 0, 7, 0, 0, 0, 5, 0, 0, 0, 2, 1, 0, 0, 0, 0x20, 0, 0, 1, 0,
    0, 0, 0, 0, 0, 0, 0, 8, 0, 0, 0, 11, 0, 0, 0, 1, 4, 0, 0, 0, 0x30, 0, 0, 1, 0, 0, 0, 0, 0, 0,
    0, 0, 9, 0, 0, 0, 1, 0, 0, 0, 0, 0, 0, 0, 0,
];

fn breach_at(rip: u64) -> Stop {
    Stop::Bounds(Breach {
        value: 0x3000_0010,
        lb: 0x3000_0000,
        ub: 0x3000_000f,
        rip,
    })
}

fn stops() -> [Stop; 14] {
    [
        Stop::Exit(7),
        breach_at(0x100_0010),
        breach_at(0x100_0020),
        breach_at(0x100_0030),
        breach_at(0x100_0040),
        Stop::Unmapped(0),
        Stop::Divide,
        Stop::Undefined(0x100_00ff),
        Stop::StackOver,
        Stop::OutOfTurns,
        Stop::Strayed(0x2000_0000),
        Stop::NoTable,
        Stop::NoFrames {
            in_use: 9,
            capacity: 10,
        },
        Stop::WriteFault,
    ]
}

/// The line of each stop.
pub fn print_stops<R: Print + Alloc<A = Global>>(rt: &R) -> io::Result<()> {
    match read_image(rt.alloc(), &IMAGE) {
        Ok(image) => {
            for stop in stops() {
                print_bytes(rt, explain(&stop, &image).as_slice())?;
            }
            Ok(())
        }
        Err(fault) => println!(rt; "{fault}"),
    }
}

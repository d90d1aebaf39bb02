//! Tables that are made on #BR, to the last one.

use bound_tables::{Entry, Walk, load_entry, store_entry};
use br_runtime::{Serve, Tables, serve};
use paged_memory::Memory;
use std::test::Fail;

const CFG: u64 = 0x4000_0000_0001;

fn entry_of(value: u64) -> Entry {
    Entry {
        lb: value,
        held: 0,
        value,
    }
}

#[test]
fn two_megabytes_get_two_tables(rt: HostRuntime) -> Result<(), Fail> {
    let mut m = Memory::make(rt.alloc(), 4)?;
    let mut t = Tables { made: 0 };
    let table = [
        (0x3000_0008, 0x4000_0000_1800, 0x5000_0000_0001),
        (0x3010_0000, 0x4000_0000_1808, 0x5000_0040_0001),
    ];
    for (la, entry, word) in table {
        let e = entry_of(la);
        let first = store_entry(&mut m, CFG, la, e);
        assert!(rt; t.made <= 1024 && (entry == 0x4000_0000_1800 || entry == 0x4000_0000_1808));
        serve(&mut m, &mut t, entry + 2)?;
        let second = store_entry(&mut m, CFG, la, e);
        let found = (first, second, m.load(entry, 8));
        assert_eq!(rt;
            (la, found),
            (la, (Err(Walk::Invalid { entry }), Ok(()), Ok(word)))
        );
    }
    let first = load_entry(&m, CFG, 0x3000_0008);
    assert_eq!(rt; (t.made, first), (2, Ok(entry_of(0x3000_0008))));
    Ok(())
}

#[test]
fn tables_and_frames_run_out(rt: HostRuntime) -> Result<(), Fail> {
    let mut m = Memory::make(rt.alloc(), 0)?;
    let none = Serve::NoFrames {
        in_use: 0,
        capacity: 0,
    };
    let mut last = Tables { made: 1023 };
    let without_frames = serve(&mut m, &mut last, 0x4000_0000_0002);
    assert_eq!(rt; (without_frames, last.made), (Err(none), 1023));
    let mut all = Tables { made: 1024 };
    let one_more = serve(&mut m, &mut all, 0x4000_7fff_fffa);
    let mut n = Memory::make(rt.alloc(), 1)?;
    serve(&mut n, &mut last, 0x4000_7fff_fffa)?;
    let found = (one_more, last.made, n.load(0x4000_7fff_fff8, 8));
    assert_eq!(rt; found, (Err(Serve::NoTable), 1024, Ok(0x5000_ffc0_0001)));
    Ok(())
}

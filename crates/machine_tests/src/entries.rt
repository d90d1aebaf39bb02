//! Entries of bounds tables: where they stand, and walks that are refused.

use bound_tables::{Entry, Walk, load_entry, store_entry};
use paged_memory::{MemStop, Memory};
use std::test::Fail;

const CFG: u64 = 0x4000_0000_0001;

const FOUR_BYTES: Entry = Entry {
    lb: 0x2000_0000,
    held: 0xffff_ffff_dfff_fffc,
    value: 0x2000_0000,
};

#[test]
fn an_entry_stands_in_the_table_of_its_megabyte(rt: HostRuntime) -> Result<(), Fail> {
    let mut m = Memory::make(rt.alloc(), 4)?;
    m.store(0x4000_0000_1800, 8, 0x5000_0000_0001)?;
    m.store(0x5000_0000_0038, 8, 7)?;
    store_entry(&mut m, CFG, 0x3000_0008, FOUR_BYTES)?;
    let table = [
        (0x5000_0000_0020, 0x2000_0000),
        (0x5000_0000_0028, 0xffff_ffff_dfff_fffc),
        (0x5000_0000_0030, 0x2000_0000),
        (0x5000_0000_0038, 7),
    ];
    for (at, word) in table {
        assert_eq!(rt; (at, m.load(at, 8)), (at, Ok(word)));
    }
    let found = load_entry(&m, 0x4000_0000_0003, 0x3000_000f);
    assert_eq!(rt; (found, m.touched()), (Ok(FOUR_BYTES), 2));
    Ok(())
}

#[test]
fn walks_are_refused_by_their_causes(rt: HostRuntime) -> Result<(), Fail> {
    let mut m = Memory::make(rt.alloc(), 1)?;
    let words = [0x1200_0001, 0x20ff_fff1, 0x5000_0000_0001];
    for (i, word) in words.into_iter().enumerate() {
        m.store(0x4000_0000_0000 + 8 * i as u64, 8, word)?;
    }
    let full = MemStop::NoFrames {
        in_use: 1,
        capacity: 1,
    };
    let none = Entry {
        lb: 0,
        held: 0,
        value: 0,
    };
    let table = [
        (0x0, Ok(none), Walk::Stop(MemStop::Unmapped(0x1200_0000))),
        (
            0x10_0000,
            Err(Walk::Stop(MemStop::Unmapped(0x2100_0000))),
            Walk::Stop(MemStop::Unmapped(0x2100_0000)),
        ),
        (0x20_0000, Ok(none), Walk::Stop(full)),
        (
            0x7fff_ffff_ffff,
            Err(Walk::Invalid {
                entry: 0x4000_3fff_fff8,
            }),
            Walk::Invalid {
                entry: 0x4000_3fff_fff8,
            },
        ),
        (
            0x8000_0000_0000,
            Err(Walk::Stop(MemStop::Unmapped(0x8000_0000_0000))),
            Walk::Stop(MemStop::Unmapped(0x8000_0000_0000)),
        ),
    ];
    for (la, loaded, stored) in table {
        let got = load_entry(&m, CFG, la);
        let put = store_entry(&mut m, CFG, la, FOUR_BYTES);
        assert_eq!(rt; (la, got, put), (la, loaded, Err(stored)));
    }
    assert_eq!(rt; m.touched(), 1);
    Ok(())
}

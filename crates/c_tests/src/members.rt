//! The bounds of members and elements.

use mx_base::Flags;
use narrowing::{Rule, of_element, of_member};

const NARROW: Flags = Flags {
    narrow: true,
    first_own: false,
    innermost: false,
    flexible: false,
};

const NARROW_BY_ALL: Flags = Flags {
    narrow: true,
    first_own: true,
    innermost: true,
    flexible: true,
};

const ALL_BUT_NARROW: Flags = Flags {
    narrow: false,
    first_own: true,
    innermost: true,
    flexible: true,
};

#[test]
fn narrows_members_by_flags(rt: HostRuntime) {
    // struct S { int a; int b[2]; int c; int d[3]; }
    let a = Rule::Meet { offset: 0, size: 4 };
    let b = Rule::Meet { offset: 4, size: 8 };
    let d = Rule::Meet {
        offset: 16,
        size: 12,
    };
    let table = [
        (true, false, 0, 4, NARROW, Rule::Keep),
        (true, false, 0, 4, NARROW_BY_ALL, a),
        (true, false, 0, 4, ALL_BUT_NARROW, Rule::Keep),
        (false, false, 4, 8, NARROW, b),
        (false, false, 4, 8, NARROW_BY_ALL, b),
        (false, false, 4, 8, ALL_BUT_NARROW, Rule::Keep),
        (false, true, 16, 12, NARROW, d),
        (false, true, 16, 12, NARROW_BY_ALL, Rule::Keep),
        (false, true, 16, 12, ALL_BUT_NARROW, Rule::Keep),
    ];
    for (first, trailing, offset, size, flags, want) in table {
        let found = of_member(first, trailing, offset, size, flags);
        assert_eq!(rt; (offset, size, found), (offset, size, want));
    }
}

#[test]
fn narrows_elements_by_flags(rt: HostRuntime) {
    // int a[2][3]
    let row = Rule::Meet {
        offset: 12,
        size: 12,
    };
    let table = [
        (true, 12, 12, NARROW, Rule::Keep),
        (true, 12, 12, NARROW_BY_ALL, row),
        (true, 12, 12, ALL_BUT_NARROW, Rule::Keep),
        (false, 16, 4, NARROW_BY_ALL, Rule::Keep),
    ];
    for (nested, offset, size, flags, want) in table {
        let found = of_element(nested, offset, size, flags);
        assert_eq!(rt; (offset, size, found), (offset, size, want));
    }
}

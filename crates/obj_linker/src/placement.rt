//! Where the parts of objects stand.

ghost use Rattle.std.specs.Prelude.{◌≡◌, ◌+◌, ◌-◌, ◌^◌, ◌<◌, ◌≤◌, length, IfOk};
ghost use Rattle.std.specs.List.{All};
ghost use Rattle.obj_linker.specs.Placement as spec;
ghost use Rattle.obj_linker.specs.Limits.{HasSmallParts, AreLow};

use crate::parts::{Ends, Spot};
use crate::plan::{Places, Spots};
use mx_base::OutOfMemory;
use obj_file::Object;
use std::alloc::Global;

/// The next multiple of a size.
pub fn aligned(size: u64, at: u64) -> u64
    requires some { 1 ≤ size }
    requires small { (size ≤ 128) × (at < 2 ^ 63) }
    ensures next { result ≡ spec.aligned size at }
    ensures after { result < at + size }
{
    (at + (size - 1)) / size * size
}

/// Where an object's parts stand after others.
fn spot_after(ends: Ends, o: &Object) -> Spot
    requires { (ends.code < 2 ^ 62) × ((ends.legacy < 2 ^ 62) × (ends.stored < 2 ^ 62)) }
    ensures place { result ≡ spec.spot_after ends o.now }
    ensures code { result.code < 2 ^ 62 + 16 }
    ensures stored { result.stored < 2 ^ 62 + 16 }
{
    Spot {
        code: aligned(16, if o.legacy { ends.legacy } else { ends.code }),
        stored: aligned(16, ends.stored),
    }
}

/// The addresses after an object's parts.
fn ends_with(spot: Spot, ends: Ends, o: &Object) -> Ends
    requires at { (spot.code < 2 ^ 62 + 16) × (spot.stored < 2 ^ 62 + 16) }
    requires few { (length o.now.code ≤ 2 ^ 28) × (length o.now.stored ≤ 2 ^ 28) }
    ensures { result ≡ spec.ends_with spot ends o.now }
{
    let code = spot.code + o.code.as_slice().len() as u64;
    let stored = spot.stored + o.stored.as_slice().len() as u64;
    if o.legacy {
        Ends {
            code: ends.code,
            legacy: code,
            stored,
        }
    } else {
        Ends {
            code,
            legacy: ends.legacy,
            stored,
        }
    }
}

/// Where no part stands yet.
const STARTS: Ends = Ends {
    code: 0x0200_0000,
    legacy: 0x1200_0000,
    stored: 0x2000_0000,
};

/// Where all parts stand.
pub fn places(alloc: Global, objects: &[Object]) -> Result<Places, OutOfMemory>
    requires few { length objects.now < 2 ^ 32 }
    requires small { All HasSmallParts objects.now }
    ensures spots { IfOk result (λ p. p.spots ≡ spec.spots objects.now) }
    ensures ends { IfOk result (λ p. p.ends ≡ spec.ends_of objects.now) }
    ensures small { IfOk result (λ p. AreLow p.ends) }
{
    let mut items = Vec::new(alloc);
    let mut ends = STARTS;
    'all: for k in 0..objects.len() {
        let object = &objects[k];
        let spot = spot_after(ends, object);
        items.push(spot)?;
        ends = ends_with(spot, ends, object);
    }
    Ok(Places {
        spots: Spots::from_vec(items),
        ends,
    })
}

/// The size of the instrumented code with its stubs.
pub fn code_size(stubs: u64, ends: u64, first: u64) -> u64
    requires { (stubs < 2 ^ 53) × (first < 2 ^ 63) }
    ensures { result ≡ spec.code_end stubs ends first - spec.starts.code }
{
    let end = if stubs == 0 {
        ends
    } else {
        first + 128 * stubs
    };
    end.saturating_sub(STARTS.code)
}

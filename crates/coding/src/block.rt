// A block, in two parts, or in one where render info is not sent (5.5.9).
ghost use Rattle.std.specs.Prelude.{◌++◌};
ghost use Rattle.bits.specs.Writes.{to_bits};
ghost use Rattle.coding.specs.Packing.{PacksIn, opening_bits, fore_bits, aft_bits};

use crate::Packed;
use crate::parts::{basic_if, distance, extent, position, screen, status, zone};
use bits::less;
use oamd::Scene;

// Whether it is active, and gain and priority.
fn opening(first: bool, s: Scene) -> Packed
    ensures { PacksIn 1 17 result (opening_bits first s) }
{
    let idle = less(1, s.active);
    let p = Packed::nothing().pack(1, idle as u64);
    let p = status(s.active == 1, first, p);
    basic_if(s.active == 1, p, s)
}

// Where render info is sent: up to the zone.
pub fn fore(first: bool, s: Scene) -> Packed
    ensures { PacksIn 1 47 result (fore_bits first s) }
{
    let p = opening(first, s);
    let p = status(true, first, p);
    let p = position(first, p, s.location);
    let p = distance(p, s.location.distance);
    zone(p, s.zone)
}

// And from the size on; no additional table data.
pub fn aft(s: Scene) -> Packed
    ensures { PacksIn 1 30 result (aft_bits s) }
{
    let p = extent(Packed::nothing(), s.volume);
    screen(p, s.screen).pack(1, s.snap as u64).pack(1, 0)
}

// A whole block whose render info is not sent.
pub fn short(first: bool, s: Scene) -> Packed
    ensures { PacksIn 1 18 result (opening_bits first s ++ to_bits 1 0) }
{
    opening(first, s).pack(1, 0)
}

// The value of each group of a block, by its own fields (5.6.1).
ghost use Rattle.std.specs.Prelude.{◌≡◌};
ghost use Rattle.oamd.specs.Meaning.{gain_of, priority_of, moved_by, across, upright, height_of, distance_of, location_of, volume_of};

use bits::{less, pick};
use oamd::{Distance, Extent, Gain, Location, Position, Priority, Volume};

// 0 dB, as a record has it.
const ZERO_DB: u8 = 50;

// z = 0, as a record has it.
const ZERO_Z: u32 = 64;

// The gain in dB plus 50, or 0 for minus infinity. Index 3 takes the gain of the object before in the same block (Tables 18 and 19).
pub fn gain_of(g: Gain, gainbefore: u8) -> u8
    ensures { result ≡ gain_of g gainbefore }
{
    let fine = less(pick(g.bits < 15, ZERO_DB + 15, ZERO_DB + 14), g.bits);
    let sent = pick(g.index == 2, fine, gainbefore);
    pick(g.index == 0, ZERO_DB, pick(g.index == 1, 0, sent))
}

// The priority in 32nds.
pub fn priority_of(p: Priority) -> u8
    ensures { result ≡ priority_of p }
{
    if p.bydefault == 1 { 32 } else { p.bits }
}

// A numerator of x or y, at most 62.
fn across_of(v: u32) -> u8
    ensures { result ≡ across v }
{
    v.min(62) as u8
}

// A numerator of z plus 64, between minus 15 and 15.
fn upright_of(v: u32) -> u8
    ensures { result ≡ upright v }
{
    v.clamp(ZERO_Z - 15, ZERO_Z + 15) as u8
}

// A coordinate moved by a difference of 3 bits in two's complement; below 0 it is 0.
fn moved_by(v: u8, d: u8) -> u32
    ensures { result ≡ moved_by v d }
{
    let sum = v as u32 + d as u32;
    pick(d < 4, sum, sum.saturating_sub(8))
}

// z by its sign, where 0 is minus.
fn height_of(sign: u8, z: u8) -> u32
    ensures { result ≡ height_of sign z }
{
    if sign != 0 {
        ZERO_Z + z as u32
    } else {
        ZERO_Z.saturating_sub(z as u32)
    }
}

// 0 not given, 1 infinity, else by the index.
pub fn distance_of(d: Distance) -> u8
    ensures { result ≡ distance_of d }
{
    if d.given != 1 {
        return 0;
    }
    if d.infinite == 1 {
        return 1;
    }
    oamd::distance_code(d.index)
}

// Coordinates as they stand, or moved from those of the block before; each stays within its range.
pub fn location_of(p: Position, distance: u8, locationbefore: Location) -> Location
    ensures { result ≡ location_of p distance locationbefore }
{
    match p {
        Position::Absolute(x, y, sign, z) => Location {
            x: across_of(x as u32),
            y: across_of(y as u32),
            z: upright_of(height_of(sign, z)),
            distance,
        },
        Position::Moved(x, y, z) => Location {
            x: across_of(moved_by(locationbefore.x, x)),
            y: across_of(moved_by(locationbefore.y, y)),
            z: upright_of(moved_by(locationbefore.z, z)),
            distance,
        },
    }
}

// Table 17.
pub fn volume_of(e: Extent) -> Volume
    ensures { result ≡ volume_of e }
{
    let all = pick(e.index == 1, e.all, 0);
    let each = e.index == 2;
    Volume {
        width: pick(each, e.width, all),
        depth: pick(each, e.depth, all),
        height: pick(each, e.height, all),
    }
}

// The groups of a block, each packed behind what stands before it, as it is coded (5.5.10, 5.5.11).
ghost use Rattle.bits.specs.Language.{pick};
ghost use Rattle.bits.specs.Writes.{to_bits, only};
ghost use Rattle.form.specs.Coded.{coded_gain, coded_priority, coded_distance, coded_extent};
ghost use Rattle.form.specs.Form.{status_bits, gain_bits, priority_bits, position_bits, distance_bits, zone_bits, extent_bits, screen_bits, basic_bits};
ghost use Rattle.coding.specs.Packing.{Room, Whole, Behind};

use crate::Packed;
use crate::choices::{z_bits, z_sign};
use bits::{less, pick};
use oamd::{Location, Scene, Screen, Volume, Zone};

// 0 dB, as a record has it.
const ZERO_DB: u8 = 50;

// Full status, in a later block of a group that is sent.
pub fn status(sent: bool, first: bool, p: Packed) -> Packed
    requires { Room 2 p }
    ensures { Behind 0 2 p result (status_bits sent first) }
{
    p.pack_if(sent & !first, 2, 1)
}

// w bits of v where a test holds, else x bits of y. A group whose fields hang on each other is one number of one width here, each computed whatever the
// test says: that costs less than a branch that is guessed wrong, and what stands before the group is shifted once, not field by field.
fn either(on: bool, p: Packed, w: u32, v: u64, x: u32, y: u64) -> Packed
    requires { Whole (pick on w x) (pick on v y) p }
    ensures { Behind (pick on w x) (pick on w x) p result (to_bits (pick on w x) (pick on v y)) }
{
    p.pack_whole(pick(on, w, x), pick(on, v, y))
}

// Index 0 for 0 dB, 1 for minus infinity, else 2 and how far it lies below +15 dB, 0 dB left out (Tables 18 and 19).
fn gain(p: Packed, v: u8) -> Packed
    requires { Room 8 p }
    ensures { Behind 2 8 p result (gain_bits (coded_gain v)) }
{
    let most = pick(ZERO_DB < v, ZERO_DB + 15, ZERO_DB + 14);
    let below = less(most, v);
    let width = pick(v == 0, 2, 8);
    let value = pick(v == 0, 1, 128 + below % 64);
    either(v == ZERO_DB, p, 2, 0, width, value as u64)
}

// The flag for 32 of 32, else 5 bits.
fn priority(p: Packed, v: u8) -> Packed
    requires { Room 6 p }
    ensures { Behind 1 6 p result (priority_bits (coded_priority v)) }
{
    either(v == 32, p, 1, 1, 6, v as u64 % 32)
}

// Gain and priority, of an object that is active.
pub fn basic_if(active: bool, p: Packed, s: Scene) -> Packed
    requires { Room 14 p }
    ensures { Behind 0 14 p result (only active (basic_bits s)) }
{
    p.kept_if(active, priority(gain(p, s.gain), s.priority))
}

// An absolute position; in a later block it says that it is one, by a 0 in front.
pub fn position(first: bool, p: Packed, l: Location) -> Packed
    requires { Room 18 p }
    ensures { Behind 17 18 p result (position_bits first l) }
{
    let sign = z_sign(l.z);
    let size = z_bits(l.z);
    let across = l.x as u64 % 64 * 64 + l.y as u64 % 64;
    let value = (across * 2 + sign as u64 % 2) * 16 + size as u64 % 16;
    either(first, p, 17, value, 18, value)
}

// Not given, at infinity, or an index.
pub fn distance(p: Packed, v: u8) -> Packed
    requires { Room 6 p }
    ensures { Behind 1 6 p result (distance_bits (coded_distance v)) }
{
    let index = less(v, 2);
    let width = pick(v == 1, 2, 6);
    let value = pick(v == 1, 3, 32 + index % 16);
    either(0 < v, p, width, value as u64, 1, 0)
}

pub fn zone(p: Packed, z: Zone) -> Packed
    requires { Room 4 p }
    ensures { Behind 4 4 p result (zone_bits z) }
{
    p.pack(3, z.index as u64).pack(1, z.elevation as u64)
}

// No size, one for all three behind index 1, or three behind index 2 (Table 17).
pub fn extent(p: Packed, v: Volume) -> Packed
    requires { Room 22 p }
    ensures { Behind 2 22 p result (extent_bits (coded_extent v)) }
{
    let even = (v.width == v.depth) & (v.width == v.height);
    let width = pick(v.width == 0, 2, 7);
    let value = pick(v.width == 0, 0, 32 + v.width % 32);
    let two = (64 + v.width as u64 % 32) * 32 + v.depth as u64 % 32;
    let three = two * 32 + v.height as u64 % 32;
    either(even, p, width, value as u64, 17, three)
}

// Whether it is used, and where it is, factor and depth.
pub fn screen(p: Packed, s: Screen) -> Packed
    requires { Room 6 p }
    ensures { Behind 1 6 p result (screen_bits s) }
{
    let value = (8 + s.factor as u64 % 8) * 4 + s.depth as u64 % 4;
    either(s.used == 1, p, 6, value, 1, s.used as u64 % 2)
}

// From a value of the tables to the coded fields that carry it.
ghost use Rattle.std.specs.Prelude.{◌≡◌, eqb, ltb};
ghost use Rattle.bits.specs.Language.{pick, both};
ghost use Rattle.form.specs.Coded.{coded_offset, ramp_code, z_sign, z_bits};

use bits::{as_flag, less, pick};
use oamd::Offset;

// z = 0, as a record has it.
const ZERO_Z: u8 = 64;

// Code 0 or 2 (Table 22).
#[tactic(auto, unfolding(form::specs::Coded::coded_offset))]
pub fn coded_offset(offset: u8) -> Offset
    ensures { result ≡ coded_offset offset }
{
    Offset {
        code: pick(offset == 0, 0, 2),
        index: 0,
        bits: offset,
    }
}

// Code 0, 1 or 2 if one gives the ramp (Table 24).
#[tactic(auto, unfolding(form::specs::Coded::ramp_code))]
pub fn ramp_code(ramp: u16) -> u8
    ensures { result ≡ ramp_code ramp }
{
    let long = pick(ramp == 1536, 2, 3);
    let more = pick(ramp == 512, 1, long);
    pick(ramp == 0, 0, more)
}

// Else 11 bits, but for 2,048, which they do not hold: that one goes by index 15 (Table 25).
pub fn ramp_indexed(ramp: u16) -> u8
    ensures { result ≡ pick (ltb ramp 2048) 0 1 }
{
    pick(ramp < 2048, 0, 1)
}

pub fn ramp_index(ramp: u16) -> u8
    ensures { result ≡ pick (ltb ramp 2048) 0 15 }
{
    pick(ramp < 2048, 0, 15)
}

pub fn ramp_bits(code: u8, ramp: u16) -> u16
    ensures { result ≡ pick (both (eqb code 3) (ltb ramp 2048)) ramp 0 }
{
    pick((code == 3) & (ramp < 2048), ramp, 0)
}

#[tactic(auto, unfolding(form::specs::Coded::z_sign))]
pub fn z_sign(z: u8) -> u8
    ensures { result ≡ z_sign z }
{
    as_flag(ZERO_Z < z)
}

#[tactic(auto, unfolding(form::specs::Coded::z_bits))]
pub fn z_bits(z: u8) -> u8
    ensures { result ≡ z_bits z }
{
    let up = less(z, ZERO_Z);
    let down = less(ZERO_Z, z);
    pick(ZERO_Z < z, up, down)
}

// The timing, packed: what stands before the updates, and an update (5.5.6, 5.5.7).
ghost use Rattle.std.specs.Prelude.{◌++◌, ◌-◌};
ghost use Rattle.bits.specs.Writes.{to_bits};
ghost use Rattle.form.specs.Coded.{coded_offset, coded_update};
ghost use Rattle.form.specs.Form.{offset_bits, update_bits};
ghost use Rattle.coding.specs.Packing.{PacksIn, Room, Behind, ramp_bits};

use crate::Packed;
use crate::choices::{coded_offset, ramp_bits, ramp_code, ramp_index, ramp_indexed};
use bits::less;
use oamd::Update;

// The sample offset of all blocks, and how many there are behind the first.
pub fn lead(first: u8, blocks: u8) -> Packed
    ensures { PacksIn 1 12 result (offset_bits (coded_offset first) ++ to_bits 3 (blocks - 1)) }
{
    let offset = coded_offset(first);
    let more = less(blocks, 1);
    Packed::nothing()
        .pack(2, offset.code as u64)
        .pack_if(offset.code == 1, 2, offset.index as u64)
        .pack_if(offset.code == 2, 5, offset.bits as u64)
        .pack(3, more as u64)
}

fn ramp(p: Packed, code: u8, indexed: u8, index: u8, bits: u16) -> Packed
    requires { Room 18 p }
    ensures { Behind 2 18 p result (ramp_bits code indexed index bits) }
{
    p.pack(2, code as u64)
        .pack_if(code == 3, 1, indexed as u64)
        .pack_if(indexed == 1, 4, index as u64)
        .pack_if((code == 3) & (indexed == 0), 11, bits as u64)
}

pub fn update(u: Update) -> Packed
    ensures { PacksIn 1 24 result (update_bits (coded_update u)) }
{
    let start = u.start.raw();
    let length = u.ramp.raw();
    let code = ramp_code(length);
    let indexed = ramp_indexed(length);
    let index = ramp_index(length);
    let bits = ramp_bits(code, length);
    let factor = start / 32;
    let p = Packed::nothing().pack(6, factor as u64);
    ramp(p, code, indexed, index, bits)
}

// The sample offset and the timing of a block (5.5.6, 5.5.7).
ghost use Rattle.bits.specs.Language.{bit};
ghost use Rattle.bits.specs.View.{Gave};
ghost use Rattle.oamd.specs.Timing.{sample_offset, block_update_info};

use bits::{Cur, Limit, Step};
use oamd::{BlockUpdate, Offset};

pub fn read_offset(s: &[u8], l: Limit, c: Cur) -> Step<Offset>
    ensures { Gave sample_offset (bit s.now) c l result.value result.cur }
{
    let code = bits::take_unless(true, s, l, c, 2, 3, 3);
    let index = bits::take_if(code.v == 1, s, l, code, 2);
    let more = bits::take_if(code.v == 2, s, l, index, 5);
    Step {
        value: Offset {
            code: code.v as u8,
            index: index.v as u8,
            bits: more.v as u8,
        },
        cur: bits::with_value(more, 0),
    }
}

pub fn read_update(s: &[u8], l: Limit, c: Cur) -> Step<BlockUpdate>
    ensures { Gave block_update_info (bit s.now) c l result.value result.cur }
{
    let factor = bits::take(s, l, c, 6);
    let code = bits::take(s, l, factor, 2);
    let indexed = bits::take_if(code.v == 3, s, l, code, 1);
    let index = bits::take_if(indexed.v == 1, s, l, indexed, 4);
    let ramp = bits::take_if((code.v == 3) & (indexed.v == 0), s, l, index, 11);
    Step {
        value: BlockUpdate {
            bits: ramp.v as u16,
            factor: factor.v as u8,
            code: code.v as u8,
            indexed: indexed.v as u8,
            index: index.v as u8,
        },
        cur: bits::with_value(ramp, 0),
    }
}

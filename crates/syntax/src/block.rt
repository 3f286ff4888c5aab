// A block of an object (5.5.9).
ghost use Rattle.std.specs.Prelude.{true, ◌≤◌};
ghost use Rattle.bits.specs.Language.{bit};
ghost use Rattle.bits.specs.View.{Gave};
ghost use Rattle.oamd.specs.Block.{additional_table_data, object_info_block};
ghost use Rattle.syntax.specs.Looks.{Passed};

use crate::levels::{read_basic, read_status};
use crate::render::read_render;
use bits::{Cur, Limit, Step};
use oamd::Block;
use units::{BitPos, ByteCount};

// Additional table data is passed over.
fn pass_additional(s: &[u8], l: Limit, c: Cur) -> Cur
    ensures { Gave additional_table_data (bit s.now) c l 0 result }
{
    let exists = bits::take(s, l, c, 1);
    let size = bits::take_if(exists.v == 1, s, l, exists, 4);
    bits::skip_if(exists.v == 1, s, l, size, ByteCount::new(size.v + 1))
}

// Where additional table data ends.
pub fn look_additional(s: &[u8], at: u32) -> u32
    requires { at ≤ 4000000200 }
    ensures { Passed true additional_table_data 133 (bit s.now) at 0 result }
{
    let x = bits::window(s, BitPos::new(at));
    let exists = bits::look(x, at % 8, 1);
    let size = bits::look_if(exists.value == 1, x, exists.off, 4);
    let behind = at - at % 8 + size.off;
    if exists.value == 1 {
        behind + 8 * (size.value + 1)
    } else {
        behind
    }
}

// Block blk of an object of a class, field by field, each held to the end.
pub fn read_block(s: &[u8], l: Limit, c: Cur, class: u8, blk: u32) -> Step<Block>
    ensures { Gave (object_info_block class blk) (bit s.now) c l result.value result.cur }
{
    let first = blk == 0;
    let idle = bits::take(s, l, c, 1);
    let level = read_status(s, l, idle, idle.v == 1, first);
    let basic = read_basic(s, l, level.cur, level.value);
    let anchored = (idle.v == 1) | (class != 2);
    let shown = read_status(s, l, basic.cur, anchored, first);
    let render = read_render(s, l, shown.cur, shown.value, first);
    Step {
        value: Block {
            class,
            active: (1 - idle.v) as u8,
            basic: basic.value,
            render: render.value,
        },
        cur: pass_additional(s, l, render.cur),
    }
}

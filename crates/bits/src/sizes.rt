// An element's size, 5.5.1.
ghost use Rattle.std.specs.Prelude.{◌≡◌, ◌≤◌};
ghost use Rattle.bits.specs.Language.{bit};
ghost use Rattle.bits.specs.Size.{size_of, variable_bits_max};
ghost use Rattle.bits.specs.View.{Gave, valued};

use crate::cursor::with_value;
use crate::leaf::take;
use crate::{Cur, Limit, Size, Step};

// variable_bits_max(4, 4)
const N: u32 = 4;

const MAX_NUM_GROUPS: u32 = 4;

// What `return value` gives: the value, the groups that it took, and the next bit position.
fn returned(value: u32, groups: u32, c: Cur) -> Step<Size>
    ensures { (result.value ≡ size_of value groups) × (result.cur ≡ valued c 0) }
{
    Step {
        value: Size { value, groups },
        cur: with_value(c, 0),
    }
}

// The steps of 5.5.1 in their printed order and under their names. The printed break stands before its own count is raised, so a fifth group is read, and
// the flag behind it is ignored. Not printed is the count of the groups, by which places are found: num_group is 1 behind one group and behind two.
pub fn read_size(s: &[u8], l: Limit, c: Cur) -> Step<Size>
    ensures { (result.value.value ≤ 19000000) × (result.value.groups ≤ 5) × Gave variable_bits_max (bit s.now) c l result.value result.cur }
{
    let mut value: u32 = 0;
    let mut num_group: u32 = 1;
    let mut read = take(s, l, c, N);
    value += read.v;
    let mut b_read_more = take(s, l, read, 1);
    let mut groups: u32 = 1;
    if MAX_NUM_GROUPS > num_group {
        if b_read_more.v != 0 {
            value <<= N;
            value += 1 << N;
        }
        loop {
            // while (b_read_more), as a break, since only a loop yields
            if b_read_more.v == 0 {
                break returned(value, groups, b_read_more);
            }
            read = take(s, l, b_read_more, N);
            value += read.v;
            b_read_more = take(s, l, read, 1);
            groups += 1;
            if num_group >= MAX_NUM_GROUPS {
                break returned(value, groups, b_read_more);
            }
            if b_read_more.v != 0 {
                value <<= N;
                value += 1 << N;
                num_group += 1;
            }
        }
    } else {
        returned(value, groups, b_read_more)
    }
}

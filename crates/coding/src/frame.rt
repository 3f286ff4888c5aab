// What stands before an element's fields, packed: its id, its size in the fewest groups, and the discard flag (5.5.4).
ghost use Rattle.std.specs.Prelude.{◌++◌};
ghost use Rattle.bits.specs.Writes.{to_bits, only};
ghost use Rattle.form.specs.Form.{group_bits, size_bits};
ghost use Rattle.coding.specs.Packing.{PacksIn, Room, Behind};

use crate::Packed;
use bits::minus;

fn group(p: Packed, digit: u32, more: u32) -> Packed
    requires { Room 5 p }
    ensures { Behind 5 5 p result (group_bits digit more) }
{
    p.pack(4, digit as u64).pack(1, more as u64)
}

// A group that another follows, where there is one.
fn group_if(on: bool, p: Packed, digit: u32) -> Packed
    requires { Room 5 p }
    ensures { Behind 0 5 p result (only on (group_bits digit 1)) }
{
    p.kept_if(on, group(p, digit, 1))
}

fn groups(p: Packed, v: u32) -> Packed
    requires { Room 20 p }
    ensures { Behind 5 20 p result (size_bits v) }
{
    let a = minus(v / 16, 1);
    let b = minus(a / 16, 1);
    let c = minus(b / 16, 1);
    let p = group_if(4368 <= v, p, c);
    let p = group_if(272 <= v, p, b % 16);
    let p = group_if(16 <= v, p, a % 16);
    group(p, v % 16, 0)
}

// An element's size.
pub fn size(v: u32) -> Packed
    ensures { PacksIn 1 20 result (size_bits v) }
{
    groups(Packed::nothing(), v)
}

// The id and the size, and nothing to discard.
pub fn front(id: u32, v: u32) -> Packed
    ensures { PacksIn 1 25 result (to_bits 4 id ++ (size_bits v ++ to_bits 1 0)) }
{
    groups(Packed::nothing().pack(4, id as u64), v).pack(1, 0)
}

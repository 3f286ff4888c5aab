// What stands before the elements, packed: up to the beds, a bed, and from behind them on (5.5.2, 5.5.3).
ghost use Rattle.std.specs.Prelude.{◌++◌};
ghost use Rattle.bits.specs.Writes.{only};
ghost use Rattle.form.specs.Form.{count_bits, bed_bits};
ghost use Rattle.coding.specs.Packing.{PacksIn, Room, Behind, content_bits, bed_field_bits, head_bits, tail_bits};

use crate::Packed;
use bits::{choice, less};
use oamd::{Bed, Programme};

// A count in 5 bits, and what it has above 31 in 7 more.
fn count(p: Packed, n: u8) -> Packed
    requires { Room 12 p }
    ensures { Behind 5 12 p result (count_bits n) }
{
    let low = choice(n < 31, n, 31);
    let more = less(n, 31);
    p.pack(5, low as u64).pack_if(!(n < 31), 7, more as u64)
}

fn count_if(on: bool, p: Packed, n: u8) -> Packed
    requires { Room 12 p }
    ensures { Behind 0 12 p result (only on (count_bits n)) }
{
    p.kept_if(on, count(p, n))
}

// Of the program assignment: up to the content.
fn content(p: Packed, programme: Programme) -> Packed
    requires { Room 6 p }
    ensures { Behind 1 6 p result (content_bits programme) }
{
    p.pack(1, programme.dynonly as u64)
        .pack_if(programme.dynonly == 1, 1, programme.lfe as u64)
        .pack_if(programme.dynonly == 0, 4, programme.content as u64)
}

// And what stands before the list of beds.
fn bed_fields(p: Packed, programme: Programme) -> Packed
    requires { Room 5 p }
    ensures { Behind 0 5 p result (bed_field_bits programme) }
{
    let on = oamd::has_beds(programme.content as u32);
    p.pack_if(on, 1, programme.distribute as u64)
        .pack_if(on, 1, programme.multiple as u64)
        .pack_if(programme.multiple == 1, 3, programme.instances as u64)
}

// Version 0, and what stands before the list of beds.
pub fn head(programme: Programme) -> Packed
    ensures { PacksIn 1 25 result (head_bits programme) }
{
    let more = less(programme.objects, 1);
    let p = count(Packed::nothing().pack(2, 0), more);
    bed_fields(content(p, programme), programme)
}

pub fn bed(b: Bed) -> Packed
    ensures { PacksIn 1 29 result (bed_bits b) }
{
    Packed::nothing()
        .pack(1, b.lfeonly as u64)
        .pack_if(b.lfeonly == 0, 1, b.standard as u64)
        .pack_if(b.standard == 1, 10, b.assignment as u64)
        .pack_if(
            (b.lfeonly == 0) & (b.standard == 0),
            17,
            b.assignment as u64,
        )
}

// What stands behind the list of beds, and no alternate ids.
pub fn tail(programme: Programme) -> Packed
    ensures { PacksIn 1 16 result (tail_bits programme) }
{
    let spatial = oamd::has_isf(programme.content as u32);
    let dynamic = oamd::has_dynamic(programme.content as u32);
    let p = Packed::nothing().pack_if(spatial, 3, programme.isf as u64);
    count_if(dynamic, p, programme.dynamics).pack(1, 0)
}

// What stands before the elements (5.5.2).
ghost use Rattle.bits.specs.Language.{bit};
ghost use Rattle.bits.specs.View.{Reads, Took};
ghost use Rattle.oamd.specs.Payload.{oa_md_version, object_count, oa_element_count};

use bits::{Cur, Limit, Refusal};

// The version must be 0, its extension added. Refusal 3 stands at the payload's first bit.
pub fn read_version(s: &[u8], l: Limit, c: Cur) -> Cur
    ensures { Took oa_md_version 1 (bit s.now) c l result }
{
    let version = bits::take(s, l, c, 2);
    let more = bits::take_if(version.v == 3, s, l, version, 3);
    let back = if version.v == 3 { 5 } else { 2 };
    let none = bits::with_value(more, 0);
    bits::refuse_if(version.v != 0, s, l, none, Refusal::Version, back)
}

// 1 to 159 objects.
pub fn read_object_count(s: &[u8], l: Limit, c: Cur) -> Cur
    ensures { Took object_count 160 (bit s.now) c l result }
{
    let count = bits::take(s, l, c, 5);
    let more = bits::take_if(count.v == 31, s, l, count, 7);
    bits::with_value(more, count.v + more.v + 1)
}

// 0 to 46 elements.
pub fn read_element_count(s: &[u8], l: Limit, c: Cur) -> Cur
    ensures { Took oa_element_count 47 (bit s.now) c l result }
{
    let count = bits::take(s, l, c, 4);
    let more = bits::take_if(count.v == 15, s, l, count, 5);
    bits::with_value(more, count.v + more.v)
}

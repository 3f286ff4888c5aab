// An element's size, and the room inside it (5.5.4).
ghost use Rattle.std.specs.Prelude.{◌≡◌, ◌+◌, ◌-◌, ◌*◌, ◌≤◌};
ghost use Rattle.laying.specs.Laying.{most_position};
ghost use Rattle.writer.specs.Parts.{Sized};

use bits::minus;
use units::{BitCount, ByteCount};

// The size of an element with n bits inside.
pub fn size_for(n: BitCount) -> u32
    requires { 1 ≤ n.0 }
    ensures { Sized n.0 result }
{
    minus(n.bytes().raw(), 1)
}

// The bits that an element of size v has inside: its size counts the bytes, less 1.
pub fn room_of(v: u32) -> BitCount
    requires { 8 * (v + 1) ≤ most_position }
    ensures { result.0 ≡ 8 * (v + 1) }
{
    ByteCount::new(v + 1).bit_count()
}

// The zeros behind n bits inside an element of size v.
pub fn padding(v: u32, n: BitCount) -> BitCount
    requires { 8 * (v + 1) ≤ most_position }
    ensures { result.0 ≡ 8 * (v + 1) - n.0 }
{
    room_of(v).minus(n)
}

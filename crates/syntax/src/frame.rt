// An element's frame (5.5.4).
ghost use Rattle.bits.specs.Language.{bit};
ghost use Rattle.bits.specs.View.{Gave};
ghost use Rattle.oamd.specs.Element.{frame};

use bits::{Cur, Limit, Step};
use oamd::Frame;
use units::ByteCount;

// What an element is known as, and its size; the cursor comes to its declared end.
pub fn read_frame(s: &[u8], l: Limit, c: Cur, alternate: u32) -> Step<Frame>
    ensures { Gave (frame alternate) (bit s.now) c l result.value result.cur }
{
    let id = bits::take(s, l, c, 4);
    let size = bits::read_size(s, l, id);
    let length = ByteCount::new(size.value.value + 1);
    let begun = bits::open(l, size.cur, length, 5 * size.value.groups);
    let held = bits::inner_of(l, size.cur, length);
    let other = bits::take_if(alternate == 1, s, held, begun, 4);
    let discard = bits::take(s, held, other, 1);
    Step {
        value: Frame {
            kind: oamd::kind_of(id.v, other.v),
            size: size.value,
        },
        cur: bits::with_value(bits::close(discard, held), 0),
    }
}

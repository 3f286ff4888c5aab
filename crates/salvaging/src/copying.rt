// Bits copied out of a payload into the lent buffer, from any position to any other.
ghost use Rattle.std.specs.Prelude.{◌+◌, ◌≤◌};
ghost use Rattle.bits.specs.Language.{slice, bit, widest_field};
ghost use Rattle.laying.specs.Laying.{Laid, most_position, reach};

use laying::Pen;
use units::{BitCount, BitPos};

// The widest field that is read at once.
const WIDEST: u32 = 24;

// A field of w bits.
fn copy_field(s: &[u8], from: BitPos, w: u32, out: &mut [u8], pen: Pen) -> Pen
    requires le_w { (1 ≤ w) × (w ≤ widest_field) }
    requires w_bound { reach out.old pen + w ≤ most_position }
    ensures { Laid w out.old out.new pen result (slice (bit s.now) from.0 w) }
{
    let window = bits::window(s, from);
    let seen = bits::look(window, from.raw() % 8, w);
    laying::put(out, pen, w, seen.value as u64)
}

// n bits, which may lie behind the payload's end: there they are 0.
pub fn copy_run(s: &[u8], from: BitPos, n: BitCount, out: &mut [u8], pen: Pen) -> Pen
    requires { (from.0 + n.0 ≤ most_position) × (reach out.old pen + n.0 ≤ most_position) }
    ensures { Laid n.0 out.old out.new pen result (slice (bit s.now) from.0 n.0) }
{
    let mut source = from;
    let mut next = pen;
    let mut rest = n.raw();
    while WIDEST <= rest {
        next = copy_field(s, source, WIDEST, out, next);
        source = source.after(BitCount::new(WIDEST));
        rest -= WIDEST;
    }
    if rest == 0 {
        return next;
    }
    copy_field(s, source, rest, out, next)
}

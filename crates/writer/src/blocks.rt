// A block of an object (5.5.9 to 5.5.11), laid in two parts, or in one where its render info is not sent.
ghost use Rattle.std.specs.Prelude.{◌++◌, ◌+◌, ◌≤◌};
ghost use Rattle.coding.specs.Packing.{fore_bits, aft_bits};
ghost use Rattle.form.specs.Form.{block_bits};
ghost use Rattle.laying.specs.Laying.{Laid, most_position, reach};
ghost use Rattle.writer.specs.Most.{most_block};
ghost use Rattle.writer.specs.Parts.{Wide};

use crate::putting::put_packed;
use laying::Pen;
use oamd::Scene;
use record::carries;
use units::BitCount;

// A block whose render info is sent.
fn put_full(first: bool, out: &mut [u8], pen: Pen, s: Scene) -> Pen
    requires { reach out.old pen + most_block ≤ most_position }
    ensures { Laid most_block out.old out.new pen result (fore_bits first s ++ aft_bits s) }
{
    let next = put_packed(out, pen, coding::fore(first, s));
    put_packed(out, next, coding::aft(s))
}

pub fn put_block(first: bool, out: &mut [u8], pen: Pen, s: Scene) -> Pen
    requires { reach out.old pen + most_block ≤ most_position }
    ensures { Laid most_block out.old out.new pen result (block_bits first s) }
{
    if carries(s) {
        put_full(first, out, pen, s)
    } else {
        put_packed(out, pen, coding::short(first, s))
    }
}

pub fn block_width(first: bool, s: Scene) -> BitCount
    ensures { Wide most_block result.0 (block_bits first s) }
{
    if carries(s) {
        coding::fore(first, s).width.plus(coding::aft(s).width)
    } else {
        coding::short(first, s).width
    }
}

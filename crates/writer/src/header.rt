// What stands before the elements (5.5.2, 5.5.3).
ghost use Rattle.std.specs.Prelude.{◌+◌, ◌≤◌, take};
ghost use Rattle.bits.specs.Writes.{each_bits};
ghost use Rattle.oamd.specs.Tables.{most_beds};
ghost use Rattle.form.specs.Form.{bed_bits, header_bits};
ghost use Rattle.laying.specs.Laying.{Laid, most_position, reach};
ghost use Rattle.writer.specs.Most.{most_bed_list, most_header};
ghost use Rattle.writer.specs.Parts.{Wide};

use crate::each::{each_width, put_each};
use crate::putting::put_packed;
use laying::Pen;
use oamd::{Bed, Programme};
use units::BitCount;

// The first n beds.
fn put_bed_list(out: &mut [u8], pen: Pen, n: u8, beds: [Bed; oamd::MOST_BEDS]) -> Pen
    requires most_bed_list_bound { reach out.old pen + most_bed_list ≤ most_position }
    requires n_le_most_beds { n ≤ most_beds }
    ensures { Laid most_bed_list out.old out.new pen result (each_bits (λ i b. bed_bits b) 0 (take n beds)) }
{
    put_each(out, pen, n as usize, |i| coding::bed(beds[i]))
}

pub fn put_header(out: &mut [u8], pen: Pen, programme: Programme) -> Pen
    requires most_header_bound { reach out.old pen + most_header ≤ most_position }
    requires bedcount_le_most_beds { programme.bedcount ≤ most_beds }
    ensures { Laid most_header out.old out.new pen result (header_bits programme) }
{
    let next = put_packed(out, pen, coding::head(programme));
    let next = put_bed_list(out, next, programme.bedcount, programme.beds);
    put_packed(out, next, coding::tail(programme))
}

// How many bits the first n beds take.
fn bed_list_width(n: u8, beds: [Bed; oamd::MOST_BEDS]) -> BitCount
    requires { n ≤ most_beds }
    ensures { Wide most_bed_list result.0 (each_bits (λ i b. bed_bits b) 0 (take n beds)) }
{
    each_width(n as usize, |i| coding::bed(beds[i]))
}

// And all of it.
pub fn header_width(programme: Programme) -> BitCount
    requires { programme.bedcount ≤ most_beds }
    ensures { Wide most_header result.0 (header_bits programme) }
{
    let head = coding::head(programme).width;
    let tail = coding::tail(programme).width;
    let list = bed_list_width(programme.bedcount, programme.beds);
    head.plus(list).plus(tail)
}

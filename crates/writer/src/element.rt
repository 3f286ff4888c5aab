// The elements: id, size, and inside it the discard flag 0, the fields, and zeros up to its end (5.5.1, 5.5.4).
ghost use Rattle.std.specs.Prelude.{◌++◌, ◌+◌, ◌-◌, ◌*◌, ◌≤◌, length, replicate};
ghost use Rattle.bits.specs.Writes.{to_bits, only};
ghost use Rattle.oamd.specs.Tables.{trim_fixed};
ghost use Rattle.form.specs.Form.{size_bits};
ghost use Rattle.record.specs.Bytes.{records_at};
ghost use Rattle.laying.specs.Laying.{Laid, most_position, reach};
ghost use Rattle.writer.specs.Most.{most_front, most_padding, most_object_element, most_extended_element, most_trim_element, most_object_fields, most_extended_fields, most_trim_fields};
ghost use Rattle.writer.specs.Parts.{object_bits, extended_bits, trim_bits, object_element_part, extended_element, trim_element_part, Blocks, Stand, Needed, Inside, Sized};

use crate::Groups;
use crate::extended::{extended_width, put_extended_fields};
use crate::objects::put_object_fields;
use crate::putting::{put_packed, put_zeros};
use crate::sizes::{padding, size_for};
use crate::trim::{put_trim_fields, trim_width};
use laying::Pen;
use oamd::{Programme, Timing};
use units::BitCount;

// What stands before the fields: id, size and the discard flag.
fn open_element(out: &mut [u8], pen: Pen, id: u32, v: u32) -> Pen
    requires { reach out.old pen + most_front ≤ most_position }
    ensures { Laid most_front out.old out.new pen result (to_bits 4 id ++ (size_bits v ++ to_bits 1 0)) }
{
    put_packed(out, pen, coding::front(id, v))
}

// What stands behind the fields: zeros up to the end of an element of size v, with n bits inside.
fn close_element(out: &mut [u8], pen: Pen, v: u32, n: BitCount) -> Pen
    requires most_padding_bound { reach out.old pen + most_padding ≤ most_position }
    requires most_padding_bound_2 { n.0 + most_padding ≤ most_position }
    requires sized { Sized n.0 v }
    ensures { Laid most_padding out.old out.new pen result (replicate (8 * (v + 1) - n.0) 0) }
{
    put_zeros(out, pen, padding(v, n))
}

// The bits inside the extended object element: the discard flag and its fields.
pub fn extended_inside(records: &[u8], count: usize, groups: Groups) -> BitCount
    requires stand { Stand count records.now }
    requires needed { Needed (records_at records.now count 0) groups }
    ensures { Inside (most_extended_fields count) result.0 (extended_bits records.now count) }
{
    BitCount::new(1).plus(extended_width(records, count, groups))
}

// The bits inside the trim element, likewise.
pub fn trim_inside(trim: &[u8], objects: u8) -> BitCount
    requires { trim_fixed + objects ≤ length trim.now }
    ensures { Inside (most_trim_fields objects) result.0 (trim_bits trim.now objects) }
{
    BitCount::new(1).plus(trim_width(trim, objects))
}

// The object element where it is there, with n bits inside.
pub fn put_object_element(
    on: bool,
    out: &mut [u8],
    pen: Pen,
    programme: Programme,
    timing: Timing,
    records: &[u8],
    n: BitCount,
) -> Pen
    requires objects_bound { reach out.old pen + most_object_element programme.objects ≤ most_position }
    requires blocks { Blocks programme.objects timing.blocks records.now }
    requires inside { Inside (most_object_fields programme.objects) n.0 (object_bits programme timing records.now) }
    ensures { Laid (most_object_element programme.objects) out.old out.new pen result (only on (object_element_part programme timing records.now)) }
{
    if on {
        let v = size_for(n);
        let next = open_element(out, pen, 1, v);
        let next = put_object_fields(out, next, programme, timing, records);
        return close_element(out, next, v, n);
    }
    pen
}

// The extended object element where it is there, with n bits inside.
pub fn put_extended_element(
    on: bool,
    out: &mut [u8],
    pen: Pen,
    records: &[u8],
    count: usize,
    groups: Groups,
    n: BitCount,
) -> Pen
    requires count_bound { reach out.old pen + most_extended_element count ≤ most_position }
    requires stand { Stand count records.now }
    requires needed { Needed (records_at records.now count 0) groups }
    requires inside { Inside (most_extended_fields count) n.0 (extended_bits records.now count) }
    ensures { Laid (most_extended_element count) out.old out.new pen result (only on (extended_element records.now count)) }
{
    if on {
        let v = size_for(n);
        let next = open_element(out, pen, 5, v);
        let next = put_extended_fields(out, next, records, count, groups);
        return close_element(out, next, v, n);
    }
    pen
}

// The trim element where it is there, with n bits inside.
pub fn put_trim_element(
    on: bool,
    out: &mut [u8],
    pen: Pen,
    trim: &[u8],
    objects: u8,
    n: BitCount,
) -> Pen
    requires objects_bound { reach out.old pen + most_trim_element objects ≤ most_position }
    requires objects_in_bounds { trim_fixed + objects ≤ length trim.now }
    requires inside { Inside (most_trim_fields objects) n.0 (trim_bits trim.now objects) }
    ensures { Laid (most_trim_element objects) out.old out.new pen result (only on (trim_element_part trim.now objects)) }
{
    if on {
        let v = size_for(n);
        let next = open_element(out, pen, 2, v);
        let next = put_trim_fields(out, next, trim, objects);
        return close_element(out, next, v, n);
    }
    pen
}

// The whole form: what stands before the elements, their count, and each where it is there (5.5.2).
ghost use Rattle.std.specs.Prelude.{◌≡◌, ◌+◌, ◌/◌, ◌≤◌, length};
ghost use Rattle.form.specs.Form.{form_bits, form};
ghost use Rattle.form.specs.Answer.{tables_of};
ghost use Rattle.laying.specs.Laying.{Laid, blank, most_position};
ghost use Rattle.writer.specs.Most.{most_padding, most_form};
ghost use Rattle.writer.specs.Parts.{Framed, Enough, Measured};
ghost use Rattle.writer.specs.Survey.{Gathered};

use crate::element::{
    extended_inside, put_extended_element, put_object_element, put_trim_element, trim_inside,
};
use crate::header::{header_width, put_header};
use crate::putting::put;
use crate::sizes::{room_of, size_for};
use crate::timing::timing_width;
use crate::{Found, Measures};
use bits::as_flag;
use laying::Pen;
use oamd::{Programme, Timing};
use units::BitCount;
use valid::record_count;

// The bits of an element with n bits inside: id, size, and the bytes that the size counts; 0 for one that is not there.
fn element_bits(on: bool, n: BitCount) -> BitCount
    requires { (1 ≤ n.0) × (n.0 + most_padding ≤ most_position) }
    ensures { Framed on n.0 result.0 }
{
    if !on {
        return BitCount::new(0);
    }
    let v = size_for(n);
    BitCount::new(4)
        .plus(coding::size(v).width)
        .plus(room_of(v))
}

// How long the form and its parts are, before a byte is written.
pub fn measure(
    programme: Programme,
    timing: Timing,
    records: &[u8],
    trim: &[u8],
    found: Found,
) -> Measures
    requires enough { Enough programme timing records.now trim.now }
    requires gathered { Gathered programme timing records.now found }
    ensures { Measured (tables_of programme timing records.now trim.now) result }
{
    let count = record_count(programme.objects, timing.blocks);
    let groups = found.groups;
    let object = BitCount::new(2)
        .plus(timing_width(timing))
        .plus(found.width);
    let extended = extended_inside(records, count, groups);
    let trims = trim_inside(trim, programme.objects);
    let first = element_bits(0 < timing.blocks, object);
    let second = element_bits(groups.some(), extended);
    let third = element_bits(trim[0] == 1, trims);
    let before = header_width(programme).plus(BitCount::new(4));
    Measures {
        count,
        groups,
        object,
        extended,
        trim: trims,
        whole: before.plus(first).plus(second).plus(third),
    }
}

// Lays the form from the buffer's first bit on.
fn put_form(
    out: &mut [u8],
    programme: Programme,
    timing: Timing,
    records: &[u8],
    trim: &[u8],
    m: Measures,
) -> Pen
    requires enough { Enough programme timing records.now trim.now }
    requires measured { Measured (tables_of programme timing records.now trim.now) m }
    ensures { Laid most_form out.old out.new blank result (form_bits (tables_of programme timing records.now trim.now)) }
{
    let some = m.groups.some();
    let there = trim[0] == 1;
    let one = as_flag(0 < timing.blocks);
    let two = as_flag(some);
    let three = as_flag(there);
    let header = put_header(out, laying::start(), programme);
    let count = put(out, header, 4, one as u32 + two as u32 + three as u32);
    let object = put_object_element(
        0 < timing.blocks,
        out,
        count,
        programme,
        timing,
        records,
        m.object,
    );
    let extended = put_extended_element(some, out, object, records, m.count, m.groups, m.extended);
    put_trim_element(there, out, extended, trim, programme.objects, m.trim)
}

// Lays the whole form into a buffer that has room for it and no more; the bits behind it, up to the end of its last byte, are 0.
pub fn fill(
    out: &mut [u8],
    programme: Programme,
    timing: Timing,
    records: &[u8],
    trim: &[u8],
    m: Measures,
)
    requires enough { Enough programme timing records.now trim.now }
    requires measured { Measured (tables_of programme timing records.now trim.now) m }
    requires out_len { length out.old ≡ (m.whole.0 + 7) / 8 }
    ensures { out.new ≡ form (tables_of programme timing records.now trim.now) }
{
    let end = put_form(out, programme, timing, records, trim, m);
    laying::finish(out, end);
}

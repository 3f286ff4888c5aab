// The trim element's fields, read from the bytes of the trim table (5.5.12).
ghost use Rattle.std.specs.Prelude.{◌+◌, ◌≤◌, length};
ghost use Rattle.bits.specs.Writes.{to_bits, only, each_bits};
ghost use Rattle.oamd.specs.Tables.{trim_configs, trim_head, trim_fixed, per_object_byte};
ghost use Rattle.form.specs.Form.{config_bits, trim_element_bits};
ghost use Rattle.record.specs.Bytes.{bytes_at};
ghost use Rattle.form.specs.Answer.{configs_at, trim_at};
ghost use Rattle.laying.specs.Laying.{Laid, most_position, reach};
ghost use Rattle.writer.specs.Most.{most_configs, most_trim_fields};
ghost use Rattle.writer.specs.Parts.{Wide};

use crate::each::{each_width, put_each};
use crate::putting::put;
use bits::pick;
use laying::Pen;
use oamd::{CONFIG_BYTES, PER_OBJECT_BYTE, TRIM_CONFIGS, TRIM_FIXED, TRIM_HEAD};
use units::BitCount;
use valid::config_at;

// The nine configurations, where they are sent.
fn put_configs(sent: bool, out: &mut [u8], pen: Pen, trim: &[u8]) -> Pen
    requires most_configs_bound { reach out.old pen + most_configs ≤ most_position }
    requires per_object_byte_in_bounds { per_object_byte ≤ length trim.now }
    ensures { Laid most_configs out.old out.new pen result (only sent (each_bits (λ cfg c. config_bits c) 0 (configs_at trim.now trim_configs trim_head))) }
{
    let n = pick(sent, TRIM_CONFIGS, 0);
    put_each(
        out,
        pen,
        n,
        |i| coding::config(config_at(trim, TRIM_HEAD + CONFIG_BYTES * i)),
    )
}

// The flags of the objects, where they are.
fn put_flags(sent: bool, out: &mut [u8], pen: Pen, trim: &[u8], objects: u8) -> Pen
    requires objects_bound { reach out.old pen + objects ≤ most_position }
    requires objects_in_bounds { trim_fixed + objects ≤ length trim.now }
    ensures { Laid objects out.old out.new pen result (only sent (each_bits (λ obj x. to_bits 1 x) 0 (bytes_at trim.now objects trim_fixed))) }
{
    let n = pick(sent, objects as usize, 0);
    put_each(
        out,
        pen,
        n,
        |i| coding::field(1, trim[TRIM_FIXED + i] as u64),
    )
}

// The configurations in mode 2 alone, and the flags where they are announced; the two reserved bits are 0.
pub fn put_trim_fields(out: &mut [u8], pen: Pen, trim: &[u8], objects: u8) -> Pen
    requires objects_bound { reach out.old pen + most_trim_fields objects ≤ most_position }
    requires objects_in_bounds { trim_fixed + objects ≤ length trim.now }
    ensures { Laid (most_trim_fields objects) out.old out.new pen result (trim_element_bits (trim_at objects trim.now)) }
{
    let mode = trim[2];
    let per_object = trim[PER_OBJECT_BYTE];
    let next = put(out, pen, 2, trim[1] as u32);
    let next = put(out, next, 2, 0);
    let next = put(out, next, 2, mode as u32);
    let next = put_configs(mode == 2, out, next, trim);
    let next = put(out, next, 1, per_object as u32);
    put_flags(per_object == 1, out, next, trim, objects)
}

// How many bits the nine configurations take, where they are sent.
fn configs_width(sent: bool, trim: &[u8]) -> BitCount
    requires { per_object_byte ≤ length trim.now }
    ensures { Wide most_configs result.0 (only sent (each_bits (λ cfg c. config_bits c) 0 (configs_at trim.now trim_configs trim_head))) }
{
    let n = pick(sent, TRIM_CONFIGS, 0);
    each_width(
        n,
        |i| coding::config(config_at(trim, TRIM_HEAD + CONFIG_BYTES * i)),
    )
}

// A bit for each object, where they are.
fn flags_width(sent: bool, trim: &[u8], objects: u8) -> BitCount
    requires { trim_fixed + objects ≤ length trim.now }
    ensures { Wide objects result.0 (only sent (each_bits (λ obj x. to_bits 1 x) 0 (bytes_at trim.now objects trim_fixed))) }
{
    BitCount::new(pick(sent, objects as u32, 0))
}

// And all fields: three of 2 bits, and the flag for the objects, are always there.
pub fn trim_width(trim: &[u8], objects: u8) -> BitCount
    requires { trim_fixed + objects ≤ length trim.now }
    ensures { Wide (most_trim_fields objects) result.0 (trim_element_bits (trim_at objects trim.now)) }
{
    let configs = configs_width(trim[2] == 2, trim);
    let flags = flags_width(trim[PER_OBJECT_BYTE] == 1, trim, objects);
    BitCount::new(7).plus(configs).plus(flags)
}

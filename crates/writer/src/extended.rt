// The extended object element's fields (5.5.13 to 5.5.15).
ghost use Rattle.std.specs.Prelude.{true, false, ◌+◌, ◌≤◌, length};
ghost use Rattle.oamd.specs.Tables.{record_stride};
ghost use Rattle.form.specs.Form.{extended_element_bits};
ghost use Rattle.record.specs.Bytes.{record_at, records_at};
ghost use Rattle.coding.specs.Packing.{PacksIn};
ghost use Rattle.laying.specs.Laying.{Laid, most_position, reach};
ghost use Rattle.writer.specs.Most.{most_extra, most_extended_fields};
ghost use Rattle.writer.specs.Parts.{extra_bits, Stand, Needed, Wide};

use crate::Groups;
use crate::each::{each_width, put_each};
use crate::putting::put;
use bits::{as_flag, pick};
use coding::Packed;
use laying::Pen;
use oamd::RECORD_STRIDE;
use record::{carries_at, divergence_at, precise_at};
use units::BitCount;

// The divergence of a record.
fn divergence(records: &[u8], k: usize) -> Packed
    requires { k + record_stride ≤ length records.now }
    ensures { PacksIn 0 most_extra result (extra_bits true (record_at records.now k)) }
{
    coding::divergence(carries_at(records, k), divergence_at(records, k))
}

// And its precise position.
fn precise(records: &[u8], k: usize) -> Packed
    requires { k + record_stride ≤ length records.now }
    ensures { PacksIn 0 most_extra result (extra_bits false (record_at records.now k)) }
{
    coding::precise(carries_at(records, k), precise_at(records, k))
}

// Each of its two groups only where some record needs it.
pub fn put_extended_fields(
    out: &mut [u8],
    pen: Pen,
    records: &[u8],
    n: usize,
    groups: Groups,
) -> Pen
    requires n_bound { reach out.old pen + most_extended_fields n ≤ most_position }
    requires stand { Stand n records.now }
    requires needed { Needed (records_at records.now n 0) groups }
    ensures { Laid (most_extended_fields n) out.old out.new pen result (extended_element_bits (records_at records.now n 0)) }
{
    let next = put(out, pen, 1, as_flag(groups.diverges) as u32);
    let next = put_each(out, next, pick(groups.diverges, n, 0), |i| {
        divergence(records, RECORD_STRIDE * i)
    });
    let next = put(out, next, 1, as_flag(groups.refines) as u32);
    put_each(
        out,
        next,
        pick(groups.refines, n, 0),
        |i| precise(records, RECORD_STRIDE * i),
    )
}

// And all fields: a flag for each of the two groups, and the group.
pub fn extended_width(records: &[u8], n: usize, groups: Groups) -> BitCount
    requires stand { Stand n records.now }
    requires needed { Needed (records_at records.now n 0) groups }
    ensures { Wide (most_extended_fields n) result.0 (extended_element_bits (records_at records.now n 0)) }
{
    let divergences = each_width(pick(groups.diverges, n, 0), |i| {
        divergence(records, RECORD_STRIDE * i)
    });
    let positions = each_width(
        pick(groups.refines, n, 0),
        |i| precise(records, RECORD_STRIDE * i),
    );
    BitCount::new(2).plus(divergences).plus(positions)
}

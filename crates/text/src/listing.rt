// The lines of the listing, laid one after the other.
ghost use Rattle.std.specs.Prelude.{◌≡◌, ◌+◌, ◌*◌, ◌≤◌, length, take, drop, eqb};
ghost use Rattle.oamd.specs.Tables.{record_stride, most_blocks};
ghost use Rattle.text.specs.Listing.{block_line, block_lines, record_line, object_lines, record_lines, share_lines, table_lines, listing_of};
ghost use Rattle.text.specs.Laying.{Laid, Holds};
ghost use Rattle.bits.specs.Refusals.{number_of};
ghost use Rattle.bits.specs.declared.Refusal.TheVariants.{EndsEarly};

use crate::laying::{lay_byte, lay_bytes, lay_hex, lay_line, lay_number};
use bits::Refusal;
use oamd::{Programme, RECORD_STRIDE, ReadAnswer, Timing, Update};

fn lay_update(text: &mut [u8], at: usize, blk: usize, u: Update) -> usize
    ensures { Laid text.old text.new at result (block_line blk u) }
{
    let to = lay_bytes(text, at, &keys::BLOCK);
    let to = lay_number(text, to, blk as u64, b',');
    let to = lay_number(text, to, u.start.raw() as u64, b',');
    lay_number(text, to, u.ramp.raw() as u64, b'\n')
}

fn lay_updates(text: &mut [u8], at: usize, t: Timing) -> usize
    requires { t.blocks ≤ most_blocks }
    ensures { Laid text.old text.new at result (block_lines t) }
{
    let mut to = at;
    let used = &t.updates[..t.blocks as usize];
    for (blk, u) in used.iter().enumerate() {
        to = lay_update(text, to, blk, *u);
    }
    to
}

// The record whose bytes begin at a place.
fn lay_record(
    text: &mut [u8],
    at: usize,
    object: usize,
    blk: usize,
    records: &[u8],
    from: usize,
) -> usize
    requires { from + record_stride ≤ length records.now }
    ensures { Laid text.old text.new at result (record_line object blk (take record_stride (drop from records.now))) }
{
    let end = from + RECORD_STRIDE;
    let to = lay_bytes(text, at, &keys::RECORD);
    let to = lay_number(text, to, object as u64, b',');
    let to = lay_number(text, to, blk as u64, b',');
    let to = lay_hex(text, to, &records[from..end]);
    lay_byte(text, to, b'\n')
}

// The records of an object, the first of which begins at a place.
fn lay_object(
    text: &mut [u8],
    at: usize,
    object: usize,
    blocks: usize,
    records: &[u8],
    from: usize,
) -> usize
    requires from_value { from ≡ record_stride * (object * blocks) }
    requires blocks_in_bounds { from + record_stride * blocks ≤ length records.now }
    ensures { Laid text.old text.new at result (object_lines blocks records.now object) }
{
    let mut to = at;
    for blk in 0..blocks {
        let place = from + RECORD_STRIDE * blk;
        to = lay_record(text, to, object, blk, records, place);
    }
    to
}

fn lay_objects(text: &mut [u8], at: usize, objects: usize, blocks: usize, records: &[u8]) -> usize
    requires blocks_le_most_blocks { blocks ≤ most_blocks }
    requires blocks_in_bounds { record_stride * (objects * blocks) ≤ length records.now }
    ensures { Laid text.old text.new at result (record_lines objects blocks records.now) }
{
    let mut to = at;
    for object in 0..objects {
        let place = RECORD_STRIDE * (object * blocks);
        to = lay_object(text, to, object, blocks, records, place);
    }
    to
}

// The objects, and those of each class.
fn lay_shares(text: &mut [u8], at: usize, p: Programme) -> usize
    ensures { Laid text.old text.new at result (share_lines p) }
{
    let of = meaning::shares(p);
    let to = lay_line(text, at, &keys::OBJECTS, p.objects as u64);
    let to = lay_line(text, to, &keys::BED, of.bed as u64);
    let to = lay_line(text, to, &keys::ISF, of.isf as u64);
    lay_line(text, to, &keys::DYNAMIC, of.dynamic as u64)
}

// What is listed of an accepted payload behind refusal and place.
fn lay_tables(text: &mut [u8], at: usize, a: ReadAnswer, records: &[u8]) -> usize
    requires { Holds a records.now }
    ensures { Laid text.old text.new at result (table_lines a records.now) }
{
    let objects = a.programme.objects as usize;
    let blocks = a.timing.blocks as usize;
    let to = lay_shares(text, at, a.programme);
    let to = lay_line(text, to, &keys::BLOCKS, blocks as u64);
    let to = lay_line(text, to, &keys::UNKNOWN, a.unknown as u64);
    let to = lay_updates(text, to, a.timing);
    lay_objects(text, to, objects, blocks, records)
}

// Whether a payload ended early.
fn ended_early(refusal: u8) -> bool
    ensures { result ≡ eqb refusal (number_of EndsEarly) }
{
    refusal == Refusal::EndsEarly.number()
}

// The whole listing.
pub fn lay_listing(text: &mut [u8], at: usize, a: ReadAnswer, records: &[u8]) -> usize
    requires { a.refusal ≡ 0 → Holds a records.now }
    ensures { Laid text.old text.new at result (listing_of a records.now) }
{
    let to = lay_line(text, at, &keys::REFUSAL, a.refusal as u64);
    let to = lay_line(text, to, &keys::PLACE, a.place);
    if a.refusal == 0 {
        return lay_tables(text, to, a, records);
    }
    if ended_early(a.refusal) {
        return lay_line(text, to, &keys::MISSING, a.missing as u64);
    }
    to
}

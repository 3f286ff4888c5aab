// A frame read back: its line, and its updates, each applied to the rows of the update before. These stand in an array; behind an update that was read its rows are kept, too.
ghost use Rattle.std.specs.Prelude.{◌≡◌, ◌≤◌, length, IfOk};
ghost use Rattle.oamd.specs.Tables.{most_objects, most_blocks, scratch_bytes};
ghost use Rattle.catalogue.specs.Sheets.{rows_bytes};
ghost use Rattle.catalogue.specs.Back.{update_back, updates_back, accepted_back, sheet_back};
ghost use Rattle.catalogue.specs.Parts.{front, came, runs};
ghost use Rattle.catalogue.specs.Writes.{change_by};
ghost use Rattle.catalogue.specs.BackCalls.{refused_page, RowsTaken, UpdatesRead, PageRead, refusal_back};

use crate::rows::read_entries;
use crate::{BadLine, Latest, MOST_OBJECTS, Objects, Page, Reader};
use oamd::{MOST_BLOCKS, RECORD_BYTES, Timing, Update};
use text::lay_bytes;
use units::SampleCount;

const MOST_FRAME: u64 = 4294967295;

const MOST_START: u64 = 2047;

const MOST_RAMP: u64 = 2048;

const MOST_REFUSAL: u64 = 12;

// The rows that the entries of an update are applied to, and whether it lists every field.
fn take_rows(rows: &mut Latest, objects: Objects) -> bool
    ensures { RowsTaken objects rows.old rows.new result }
{
    if rows.count.n == objects.n {
        return false;
    }
    rows.bytes[..RECORD_BYTES * objects.n].fill(0);
    rows.count = objects;
    true
}

#[tactic(auto, unfolding(crate::specs::Scan::run, crate::specs::Back::update_back))]
fn read_update(r: &mut Reader, objects: Objects, rows: &mut Latest) -> Result<Update, BadLine>
    ensures change { came (λ u. change_by u (front rows.new)) result r.new ≡ runs r.old (update_back objects.n (front rows.old)) }
    ensures count { IfOk result (λ u. rows.new.count.n ≡ objects.n) }
    ensures long { length rows.new.bytes ≡ rows_bytes most_objects }
{
    let start = r.take_value(&keys::START, 0, MOST_START)?;
    r.take_word(b",")?;
    let ramp = r.take_value(&keys::RAMP, 0, MOST_RAMP)?;
    r.take_end()?;
    let full = take_rows(rows, objects);
    read_entries(r, full, objects.n, &mut rows.bytes)?;
    Ok(Update {
        start: SampleCount::new(start as u16),
        ramp: SampleCount::new(ramp as u16),
    })
}

// The updates of a frame. Their rows are laid into the store, one behind the other.
fn read_updates(
    r: &mut Reader,
    objects: Objects,
    blocks: usize,
    rows: &mut Latest,
    store: &mut [u8],
) -> Result<Timing, BadLine>
    requires { (blocks ≤ most_blocks) × (length store.old ≡ scratch_bytes) }
    ensures { UpdatesRead objects.n blocks r.old r.new rows.old rows.new store.new result }
{
    let step = RECORD_BYTES * objects.n;
    let none = SampleCount::new(0);
    let mut updates = [Update {
        start: none,
        ramp: none,
    }; MOST_BLOCKS];
    for blk in 0..blocks {
        updates[blk] = read_update(r, objects, rows)?;
        lay_bytes(store, step * blk, &rows.bytes[..step]);
    }
    Ok(Timing {
        blocks: blocks as u8,
        updates,
    })
}

// What stands behind `refusal=`: the number of a refusal that a frame can have, to the line's end.
#[tactic(auto, unfolding(crate::specs::Scan::run))]
fn read_refusal(r: &mut Reader) -> Result<u8, BadLine>
    ensures { came (λ v. v) result r.new ≡ runs r.old refusal_back }
{
    let n = r.take_number(1, MOST_REFUSAL)?;
    r.check(!((9 <= n) & (n <= 11)))?;
    r.take_end()?;
    Ok(n as u8)
}

// A frame that is refused.
fn refused_page(frame: u32, refusal: u8) -> Page
    ensures { result ≡ refused_page frame refusal }
{
    let none = SampleCount::new(0);
    let timing = Timing {
        blocks: 0,
        updates: [Update {
            start: none,
            ramp: none,
        }; MOST_BLOCKS],
    };
    Page {
        frame,
        refusal,
        objects: 0,
        timing,
    }
}

// A frame that is accepted, behind its number.
#[tactic(auto, unfolding(crate::specs::Scan::run, crate::specs::Back::accepted_back))]
fn read_accepted(
    r: &mut Reader,
    frame: u32,
    rows: &mut Latest,
    store: &mut [u8],
) -> Result<Page, BadLine>
    requires { length store.old ≡ scratch_bytes }
    ensures { PageRead (accepted_back (front rows.old) frame) r.old r.new rows.old rows.new store.new result }
{
    let objects = r.take_value(&keys::OBJECTS, 1, MOST_OBJECTS as u64)?;
    r.take_word(b",")?;
    let blocks = r.take_value(&keys::BLOCKS, 0, MOST_BLOCKS as u64)?;
    r.take_end()?;
    let n = objects as usize;
    let timing = read_updates(r, Objects { n }, blocks as usize, rows, store)?;
    Ok(Page {
        frame,
        refusal: 0,
        objects: objects as u8,
        timing,
    })
}

// A frame: its number, and behind it what it is.
#[tactic(auto, unfolding(crate::specs::Scan::run, crate::specs::Back::sheet_back))]
pub fn read_sheet(r: &mut Reader, rows: &mut Latest, store: &mut [u8]) -> Result<Page, BadLine>
    requires { length store.old ≡ scratch_bytes }
    ensures { PageRead (sheet_back (front rows.old)) r.old r.new rows.old rows.new store.new result }
{
    let frame = r.take_value(&keys::FRAME, 0, MOST_FRAME)? as u32;
    r.take_word(b",")?;
    let Some(next) = r.behind(&keys::REFUSAL) else {
        return read_accepted(r, frame, rows, store);
    };
    *r = next;
    let refusal = read_refusal(r)?;
    Ok(refused_page(frame, refusal))
}

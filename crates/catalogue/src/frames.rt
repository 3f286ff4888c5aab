// The text of frames, laid one after the other, with the rows of the update before in an array.
ghost use Rattle.std.specs.Prelude.{◌≡◌, ◌++◌, ◌<◌, ◌≤◌};
ghost use Rattle.oamd.specs.Tables.{most_objects};
ghost use Rattle.text.specs.Lines.{texts_for};
ghost use Rattle.text.specs.Laying.{Laid};
ghost use Rattle.catalogue.specs.Sheets.{block_rows, rows_behind, rows_after};
ghost use Rattle.catalogue.specs.Text.{update_line, entry_line, update_lines, sheet_text, catalogue};
ghost use Rattle.catalogue.specs.Parts.{front, sheets_on};
ghost use Rattle.catalogue.specs.Writes.{RowsRoom, Within, Stepped, update_text, change_by, changes_from, sheet_by};

use crate::entries::lay_entries;
use crate::lines::{lay_accepted, lay_refused, lay_update_line};
use crate::{Latest, Objects, ROWS_BYTES, Shelf};
use oamd::{MOST_TRIM, RECORD_BYTES, RECORD_STRIDE, ROOM_BYTES, ReadAnswer, Timing, Update};
use text::lay_bytes;

// The rows of a block, out of the records of a payload.
fn gather(rows: &mut [u8], records: &[u8], objects: usize, blocks: usize, blk: usize) -> usize
    requires within { Within objects blocks records.now }
    requires blk_lt_blocks { blk < blocks }
    ensures { Laid rows.old rows.new 0 result (block_rows objects blocks records.now blk) }
{
    let mut to: usize = 0;
    for j in 0..objects {
        let from = RECORD_STRIDE * (j * blocks + blk);
        let end = from + RECORD_BYTES;
        to = lay_bytes(rows, to, &records[from..end]);
    }
    to
}

// An update's line, and its entries.
fn lay_change(
    text: &mut [u8],
    at: usize,
    u: Update,
    full: bool,
    before: &[u8],
    rows: &[u8],
    objects: usize,
) -> usize
    requires { (objects ≤ most_objects) × RowsRoom before.now × RowsRoom rows.now }
    ensures { Laid text.old text.new at result
        (update_line u.start.0 u.ramp.0 ++ texts_for objects (entry_line full before.now rows.now)) }
{
    let to = lay_update_line(text, at, u.start.raw(), u.ramp.raw());
    lay_entries(text, to, full, before, rows, objects)
}

// A block of a frame as an update, behind which its rows are the latest.
fn lay_update(
    text: &mut [u8],
    at: usize,
    latest: &mut Latest,
    records: &[u8],
    u: Update,
    objects: Objects,
    blocks: usize,
    blk: usize,
) -> usize
    requires within { Within objects.n blocks records.now }
    requires blk_lt_blocks { blk < blocks }
    ensures { Stepped text.old text.new at result latest.new
        (update_text objects.n (front latest.old) (change_by u (block_rows objects.n blocks records.now blk)))
        (block_rows objects.n blocks records.now blk) }
{
    let mut rows = [0u8; ROWS_BYTES];
    gather(&mut rows, records, objects.n, blocks, blk);
    let full = latest.count.n != objects.n;
    let to = lay_change(text, at, u, full, &latest.bytes, &rows, objects.n);
    lay_bytes(&mut latest.bytes, 0, &rows[..RECORD_BYTES * objects.n]);
    latest.count = objects;
    to
}

// The updates of a frame.
fn lay_updates(
    text: &mut [u8],
    at: usize,
    latest: &mut Latest,
    records: &[u8],
    t: Timing,
    objects: Objects,
) -> usize
    requires { Within objects.n t.blocks records.now }
    ensures { Stepped text.old text.new at result latest.new
        (update_lines objects.n (front latest.old) (changes_from objects.n t.blocks records.now t.updates 0))
        (rows_behind (front latest.old) (changes_from objects.n t.blocks records.now t.updates 0)) }
{
    let blocks = t.blocks as usize;
    let mut to = at;
    for blk in 0..blocks {
        let u = t.updates[blk];
        to = lay_update(text, to, latest, records, u, objects, blocks, blk);
    }
    to
}

// A frame, of which a read answered this and laid these records.
fn lay_sheet(
    text: &mut [u8],
    at: usize,
    latest: &mut Latest,
    records: &[u8],
    a: ReadAnswer,
    frame: u32,
) -> usize
    requires within { Within a.programme.objects a.timing.blocks records.now }
    requires blocks_value { (a.refusal ≡ 0 → ⊥) → a.timing.blocks ≡ 0 }
    ensures { Stepped text.old text.new at result latest.new
        (sheet_text (front latest.old) (sheet_by frame a records.now))
        (rows_behind (front latest.old) (sheet_by frame a records.now).updates) }
{
    if a.refusal != 0 {
        return lay_refused(text, at, frame, a.refusal);
    }
    let n = a.programme.objects as usize;
    let to = lay_accepted(text, at, frame, n, a.timing.blocks as usize);
    lay_updates(text, to, latest, records, a.timing, Objects { n })
}

// The catalogue of a shelf's entries. Each is read into the same room.
pub fn lay_catalogue(shelf: &Shelf, latest: &mut Latest, text: &mut [u8]) -> usize
    ensures { Stepped text.old text.new 0 result latest.new
        (catalogue (front latest.old) (sheets_on shelf.now))
        (rows_after (front latest.old) (sheets_on shelf.now)) }
{
    let mut room = [0u8; ROOM_BYTES];
    let mut trim = [0u8; MOST_TRIM];
    let mut to: usize = 0;
    for i in 0..shelf.starts.len() {
        let frame = shelf.frames[i];
        let (start, length) = (shelf.starts[i], shelf.lengths[i]);
        let a = batch::read_entry(shelf.store, start, length, frame, &mut room, &mut trim);
        to = lay_sheet(text, to, latest, &room, a, frame);
    }
    to
}

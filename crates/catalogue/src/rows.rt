// The entries of an update read back, applied to the rows of the update before, which stand in an array.
ghost use Rattle.std.specs.Prelude.{◌≡◌, ◌∷◌, ℕ, suc, ◌≤◌, ◌<◌, ◌+◌, IfOk, IfSome};
ghost use Rattle.oamd.specs.Tables.{most_objects, record_bytes};
ghost use Rattle.text.specs.Lines.{comma};
ghost use Rattle.catalogue.specs.Fields.{field_of};
ghost use Rattle.catalogue.specs.Sheets.{rows_bytes};
ghost use Rattle.catalogue.specs.Scan.{number, ◌>>=◌ as ◌then◌};
ghost use Rattle.catalogue.specs.Back.{field_back, fields_back, entry_back, next_object, entries_back};
ghost use Rattle.catalogue.specs.Parts.{Behind, came, goes, runs, next_of};

use crate::{BadLine, MOST_OBJECTS, ROWS_BYTES, Reader};
use oamd::RECORD_BYTES;

// What each field can be at the least and at the most, byte 0 first.
const LEAST: [u8; 24] = [
    0, 0, 0, 0, 0, 0, 49, 0, 0, 0, 0, 0, 0, 0, 0, 0, 0, 0, 0, 0, 0, 0, 0, 0,
];

const MOST: [u8; 24] = [
    1, 2, 65, 32, 62, 62, 79, 17, 31, 31, 31, 5, 1, 1, 7, 3, 1, 1, 2, 63, 7, 3, 3, 3,
];

// The reader behind a comma and the key of field k.
fn behind_key<'a>(r: &Reader<'a>, k: usize) -> Option<Reader<'a>>
    requires { k < record_bytes }
    ensures { Behind (comma ∷ (field_of k).key) r.now result }
{
    r.behind(b",")?.behind(keys::FIELDS[k])
}

// The value of field k.
fn take_value(r: &mut Reader, k: usize) -> Result<u8, BadLine>
    requires { k < record_bytes }
    ensures { came (λ v. v) result r.new ≡ runs r.old (number (field_of k).least (field_of k).most) }
{
    let v = r.take_number(LEAST[k] as u64, MOST[k] as u64)?;
    Ok(v as u8)
}

// Field k, whose byte of the rows stands at a place. Listed, it is another than before, if the update does not list every field; not listed, it stays, if the update does not.
#[tactic(auto, unfolding(crate::specs::Scan::run, crate::specs::Back::field_back))]
fn read_field(
    r: &mut Reader,
    full: bool,
    k: usize,
    at: usize,
    rows: &mut [u8; ROWS_BYTES],
) -> Result<(), BadLine>
    requires { (k < record_bytes) × (at < rows_bytes most_objects) }
    ensures { came (λ v. rows.new) result r.new ≡ runs r.old (field_back full k at rows.old) }
{
    let Some(next) = behind_key(r, k) else {
        return r.check(!full);
    };
    *r = next;
    let v = take_value(r, k)?;
    r.check(full | (rows[at] != v))?;
    rows[at] = v;
    Ok(())
}

// The fields of an object whose row begins at a place.
#[tactic(auto, unfolding(crate::specs::Scan::run, crate::specs::Back::fields_back))]
fn read_fields(
    r: &mut Reader,
    full: bool,
    at: usize,
    rows: &mut [u8; ROWS_BYTES],
) -> Result<(), BadLine>
    requires { at + record_bytes ≤ rows_bytes most_objects }
    ensures { came (λ v. rows.new) result r.new ≡ runs r.old (fields_back full 0 at record_bytes rows.old) }
{
    for k in 0..RECORD_BYTES {
        read_field(r, full, k, at + k, rows)?;
    }
    Ok(())
}

// The fields of object j, to the line's end.
#[tactic(auto, unfolding(crate::specs::Scan::run, crate::specs::Back::entry_back))]
fn read_entry_line(
    r: &mut Reader,
    full: bool,
    j: usize,
    rows: &mut [u8; ROWS_BYTES],
) -> Result<(), BadLine>
    requires { j < most_objects }
    ensures { came (λ v. rows.new) result r.new ≡ runs r.old (entry_back full j rows.old) }
{
    r.see(b',')?;
    read_fields(r, full, RECORD_BYTES * j, rows)?;
    r.take_end()
}

// The object of the entry that comes next, if an entry comes next.
#[tactic(auto, unfolding(crate::specs::Scan::run))]
fn next_object(r: &mut Reader) -> Result<Option<u64>, BadLine>
    ensures value { came next_of result r.new ≡ runs r.old next_object }
    ensures within { IfOk result (λ o. IfSome o (λ j. j < most_objects)) }
{
    let Some(next) = r.behind(&keys::OBJECT) else {
        return Ok(None);
    };
    *r = next;
    let j = r.take_number(0, MOST_OBJECTS as u64 - 1)?;
    Ok(Some(j))
}

// Object j, the next entry being that of an object: its entry, and the object of the entry behind it.
#[tactic(auto, unfolding(crate::specs::Scan::run, crate::specs::Back::entries_back))]
fn read_object(
    r: &mut Reader,
    next: Option<u64>,
    full: bool,
    j: usize,
    rows: &mut [u8; ROWS_BYTES],
) -> Result<Option<u64>, BadLine>
    requires inside { j < most_objects }
    requires within { IfSome next (λ i. i < most_objects) }
    ensures by_index { (m : ℕ) → goes (λ o. entries_back full (suc j) m (next_of o) rows.new) result r.new
        ≡ runs r.old (entries_back full j (suc m) (next_of next) rows.old) }
    ensures within { IfOk result (λ o. IfSome o (λ i. i < most_objects)) }
{
    if next != Some(j as u64) {
        r.check(!full)?;
        return Ok(next);
    }
    read_entry_line(r, full, j, rows)?;
    next_object(r)
}

// All objects of an update, behind its own line.
#[tactic(auto, unfolding(crate::specs::Scan::run, crate::specs::Back::entries_back))]
pub fn read_entries(
    r: &mut Reader,
    full: bool,
    objects: usize,
    rows: &mut [u8; ROWS_BYTES],
) -> Result<(), BadLine>
    requires { objects ≤ most_objects }
    ensures { came (λ v. rows.new) result r.new ≡ runs r.old (next_object then (λ next. entries_back full 0 objects next rows.old)) }
{
    let mut next = next_object(r)?;
    for j in 0..objects {
        next = read_object(r, next, full, j, rows)?;
    }
    r.check(next.is_none())
}

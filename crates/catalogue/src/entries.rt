// The entries of an update: of each object that has one, the fields that are listed.
ghost use Rattle.std.specs.Prelude.{◌≡◌, ◌∷◌, ◌<◌, ◌≤◌};
ghost use Rattle.oamd.specs.Tables.{record_bytes, most_objects};
ghost use Rattle.text.specs.Lines.{comma, texts_for};
ghost use Rattle.text.specs.Laying.{Laid};
ghost use Rattle.catalogue.specs.Fields.{field_of};
ghost use Rattle.catalogue.specs.Writes.{RowsRoom};
ghost use Rattle.catalogue.specs.Text.{pair, listed, changes, is_there, entry_line};

use oamd::RECORD_BYTES;
use text::{lay_byte, lay_bytes, lay_decimal};

// The name of byte k of a record.
fn lay_name(text: &mut [u8], at: usize, k: usize) -> usize
    requires { k < record_bytes }
    ensures { Laid text.old text.new at result (field_of k).key }
{
    lay_bytes(text, at, keys::FIELDS[k])
}

fn lay_field(text: &mut [u8], at: usize, k: usize, v: u8) -> usize
    requires { k < record_bytes }
    ensures { Laid text.old text.new at result (comma ∷ pair (field_of k).key v) }
{
    let to = lay_byte(text, at, b',');
    let to = lay_name(text, to, k);
    lay_decimal(text, to, v as u64)
}

fn lay_listed(text: &mut [u8], at: usize, full: bool, before: u8, v: u8, k: usize) -> usize
    requires { k < record_bytes }
    ensures { Laid text.old text.new at result (listed full before v k) }
{
    if full | (before != v) {
        return lay_field(text, at, k, v);
    }
    at
}

// All fields that are listed of object j.
fn lay_changes(
    text: &mut [u8],
    at: usize,
    full: bool,
    before: &[u8],
    rows: &[u8],
    j: usize,
) -> usize
    requires { (j < most_objects) × RowsRoom before.now × RowsRoom rows.now }
    ensures { Laid text.old text.new at result (changes full before.now rows.now j) }
{
    let from = RECORD_BYTES * j;
    let mut to = at;
    for k in 0..RECORD_BYTES {
        to = lay_listed(text, to, full, before[from + k], rows[from + k], k);
    }
    to
}

// Whether object j has a field to list.
fn has_changes(full: bool, before: &[u8], rows: &[u8], j: usize) -> bool
    requires { (j < most_objects) × RowsRoom before.now × RowsRoom rows.now }
    ensures { result ≡ is_there (changes full before.now rows.now j) }
{
    if full {
        return true;
    }
    let from = RECORD_BYTES * j;
    for k in 0..RECORD_BYTES {
        if before[from + k] != rows[from + k] {
            return true;
        }
    }
    false
}

// The entry of object j, if it has one.
fn lay_entry(text: &mut [u8], at: usize, full: bool, before: &[u8], rows: &[u8], j: usize) -> usize
    requires { (j < most_objects) × RowsRoom before.now × RowsRoom rows.now }
    ensures { Laid text.old text.new at result (entry_line full before.now rows.now j) }
{
    if !has_changes(full, before, rows, j) {
        return at;
    }
    let to = lay_bytes(text, at, &keys::OBJECT);
    let to = lay_decimal(text, to, j as u64);
    let to = lay_changes(text, to, full, before, rows, j);
    lay_byte(text, to, b'\n')
}

// The entries of an update, whose rows stand in an array, and those of the update before in another.
pub fn lay_entries(
    text: &mut [u8],
    at: usize,
    full: bool,
    before: &[u8],
    rows: &[u8],
    objects: usize,
) -> usize
    requires { (objects ≤ most_objects) × RowsRoom before.now × RowsRoom rows.now }
    ensures { Laid text.old text.new at result (texts_for objects (entry_line full before.now rows.now)) }
{
    let mut to = at;
    for j in 0..objects {
        to = lay_entry(text, to, full, before, rows, j);
    }
    to
}

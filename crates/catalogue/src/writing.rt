// The calls that lay a catalogue.
ghost use Rattle.std.specs.Prelude.{◌≡◌, ◌≤◌, length};
ghost use Rattle.bits.specs.Refusals.{number_of};
ghost use Rattle.text.specs.Laying.{capped};
ghost use Rattle.catalogue.specs.Text.{catalogue};
ghost use Rattle.catalogue.specs.Answer.{before_bytes, rows_in, catalogue_answer, catalogued, cataloguing};
ghost use Rattle.catalogue.specs.Writes.{Written};
ghost use Rattle.catalogue.specs.Parts.{sheets_on};
ghost use Rattle.catalogue.specs.Calls.{cataloguing_alone};

use crate::before::{keep_before, take_before};
use crate::frames::lay_catalogue;
use crate::{BEFORE_BYTES, CatalogueAnswer, Shelf};
use bits::Refusal;

fn refused(refusal: Refusal, place: u64) -> CatalogueAnswer
    ensures { result ≡ catalogue_answer (number_of refusal) place 0 }
{
    CatalogueAnswer {
        place,
        length: 0,
        refusal: refusal.number(),
    }
}

// The length of the text: over a short buffer nothing behind the end is stored.
fn measure(shelf: &Shelf, before: &[u8]) -> usize
    requires { before_bytes ≤ length before.now }
    ensures { result ≡ capped (length (catalogue (rows_in before.now) (sheets_on shelf.now))) }
{
    let mut latest = take_before(before);
    let mut none = [0u8; 1];
    lay_catalogue(shelf, &mut latest, &mut none)
}

// The text, and the last update for the next call.
fn lay_all(shelf: &Shelf, before: &mut [u8], text: &mut [u8])
    requires { before_bytes ≤ length before.old }
    ensures { Written text.old text.new before.old before.new (sheets_on shelf.now) }
{
    let mut latest = take_before(before);
    lay_catalogue(shelf, &mut latest, text);
    keep_before(before, &latest);
}

// Lays the text, if there is room for all of it: its length first.
fn write_sheets(shelf: &Shelf, before: &mut [u8], text: &mut [u8]) -> CatalogueAnswer
    requires { before_bytes ≤ length before.old }
    ensures { (record { answer = result; before = before.new; text = text.new })
        ≡ catalogued before.old text.old (sheets_on shelf.now) }
{
    let needed = measure(shelf, before);
    if text.len() < needed {
        return refused(Refusal::ShortText, needed as u64);
    }
    lay_all(shelf, before, text);
    CatalogueAnswer {
        place: 0,
        length: needed as u64,
        refusal: 0,
    }
}

// Lays the catalogue of a segment of frames, given as to a batch, behind the segment whose last update was lent; the last of this one stands there afterwards, for
// the next call. Refused: no byte of either buffer changes.
pub fn write_catalogue_on(
    store: &[u8],
    starts: &[u64],
    lengths: &[u64],
    frames: &[u32],
    before: &mut [u8],
    text: &mut [u8],
) -> CatalogueAnswer
    ensures { (record { answer = result; before = before.new; text = text.new })
        ≡ cataloguing store.now starts.now lengths.now frames.now before.old text.old }
{
    if lengths.len() != starts.len() {
        return refused(Refusal::Lists, starts.len() as u64);
    }
    if frames.len() != starts.len() {
        return refused(Refusal::Lists, starts.len() as u64);
    }
    if before.len() < BEFORE_BYTES {
        return refused(Refusal::Room, BEFORE_BYTES as u64);
    }
    let shelf = Shelf {
        store,
        starts,
        lengths,
        frames,
    };
    write_sheets(&shelf, before, text)
}

// Lays the catalogue of a segment by itself: its first update lists every field.
pub fn write_catalogue(
    store: &[u8],
    starts: &[u64],
    lengths: &[u64],
    frames: &[u32],
    text: &mut [u8],
) -> CatalogueAnswer
    ensures { (record { answer = result; text = text.new })
        ≡ cataloguing_alone store.now starts.now lengths.now frames.now text.old }
{
    let mut before = [0u8; BEFORE_BYTES];
    write_catalogue_on(store, starts, lengths, frames, &mut before, text)
}

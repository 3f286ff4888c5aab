// What a C program calls: the functions of host, exported with the same contracts. Numbers, byte slices and tables of numbers cross this border, and one answer by value; include/skriemelt.h declares the same for C.
#![tactic(auto)]

ghost use Rattle.std.specs.Prelude.{◌≡◌};
ghost use Rattle.oamd.specs.Answer.{reading};
ghost use Rattle.oamd.specs.Batch.{batching};
ghost use Rattle.form.specs.Answer.{writing};
ghost use Rattle.summary.specs.Summary.{summing};
ghost use Rattle.catalogue.specs.Answer.{cataloguing, reading_back};
ghost use Rattle.catalogue.specs.Calls.{cataloguing_alone, reading_back_alone};
ghost use Rattle.sources.specs.Explaining.{explaining};
ghost use Rattle.text.specs.Answer.{texted};
ghost use Rattle.text.specs.Listing.{listing};

use catalogue::{BackAnswer, CatalogueAnswer};
use oamd::{BatchAnswer, Programme, ReadAnswer, Timing, WriteAnswer};
use sources::WhyAnswer;
use summary::Summary;
use text::TextAnswer;

// The version of this interface: a thousand times the major number, plus the minor.
#[unsafe(no_mangle)]
pub extern "C" fn skriemelt_version() -> u32
    ensures { result ≡ 3004 }
{
    host::skriemelt_version()
}

// Reads the payload of a frame, by the frame's number. Accepted: the records, each with its time, and the trim table are the first bytes of their lent buffers, and no other
// byte of these changes. Refused: none changes.
#[unsafe(no_mangle)]
pub extern "C" fn skriemelt_read(
    payload: &[u8],
    frame: u32,
    records: &mut [u8],
    trim: &mut [u8],
) -> ReadAnswer
    ensures { (record { answer = result; buffer = records.new; trim = trim.new })
        ≡ reading frame payload.now records.old trim.old }
{
    host::skriemelt_read(payload, frame, records, trim)
}

// Reads each payload of a shelf as a part of the store, with the number of its frame: each entry's slots and place as a read of it alone would give them. Refused with 13: nothing is read, and no
// byte of the three lent buffers changes.
#[unsafe(no_mangle)]
pub extern "C" fn skriemelt_read_batch(
    store: &[u8],
    starts: &[u64],
    lengths: &[u64],
    frames: &[u32],
    recordslot: usize,
    trimslot: usize,
    records: &mut [u8],
    trims: &mut [u8],
    answers: &mut [u8],
) -> BatchAnswer
    ensures { (record { answer = result; shelf = record { records = records.new; trims = trims.new; answers = answers.new } })
        ≡ batching store.now starts.now lengths.now frames.now recordslot trimslot
        (record { records = records.old; trims = trims.old; answers = answers.old }) }
{
    host::skriemelt_read_batch(
        store, starts, lengths, frames, recordslot, trimslot, records, trims, answers,
    )
}

// Writes the tables of a frame, whose records have its times. Accepted: the payload is the first bytes of the lent buffer, and no other byte of it changes. Refused: none changes.
#[unsafe(no_mangle)]
pub extern "C" fn skriemelt_write(
    programme: Programme,
    timing: Timing,
    frame: u32,
    records: &[u8],
    trim: &[u8],
    payload: &mut [u8],
) -> WriteAnswer
    ensures { (record { answer = result; out = payload.new })
        ≡ writing frame programme timing records.now trim.now payload.old }
{
    host::skriemelt_write(programme, timing, frame, records, trim, payload)
}

// Lists a payload, as that of frame 0. Accepted: the listing is the first bytes of the lent buffer, and no other byte of it changes. Refused: none changes.
#[unsafe(no_mangle)]
pub extern "C" fn skriemelt_list_text(payload: &[u8], text: &mut [u8]) -> TextAnswer
    ensures { (record { answer = result; buffer = text.new }) ≡ texted (listing payload.now) text.old }
{
    host::skriemelt_list_text(payload, text)
}

// Sums up a shelf of payloads, each a part of the store. Refused with 13 or 16, all counts are 0.
#[unsafe(no_mangle)]
pub extern "C" fn skriemelt_summarise(store: &[u8], starts: &[u64], lengths: &[u64]) -> Summary
    ensures { result ≡ summing store.now starts.now lengths.now }
{
    host::skriemelt_summarise(store, starts, lengths)
}

// Lays the catalogue of a segment of frames. Accepted: the text is the first bytes of the lent buffer, and no other byte of it changes. Refused: none changes.
#[unsafe(no_mangle)]
pub extern "C" fn skriemelt_catalogue_write(
    store: &[u8],
    starts: &[u64],
    lengths: &[u64],
    frames: &[u32],
    text: &mut [u8],
) -> CatalogueAnswer
    ensures { (record { answer = result; text = text.new })
        ≡ cataloguing_alone store.now starts.now lengths.now frames.now text.old }
{
    host::skriemelt_catalogue_write(store, starts, lengths, frames, text)
}

// The same behind other calls, with the update before as the last of them left it. Accepted: it is the last update of this one. Refused: it stays.
#[unsafe(no_mangle)]
pub extern "C" fn skriemelt_catalogue_write_on(
    store: &[u8],
    starts: &[u64],
    lengths: &[u64],
    frames: &[u32],
    before: &mut [u8],
    text: &mut [u8],
) -> CatalogueAnswer
    ensures { (record { answer = result; before = before.new; text = text.new })
        ≡ cataloguing store.now starts.now lengths.now frames.now before.old text.old }
{
    host::skriemelt_catalogue_write_on(store, starts, lengths, frames, before, text)
}

// Reads a catalogue back. Accepted: the frames' lines and the records are the first bytes of their lent buffers, and no other byte of these changes. Refused: none changes.
#[unsafe(no_mangle)]
pub extern "C" fn skriemelt_catalogue_read(
    text: &[u8],
    lines: &mut [u8],
    records: &mut [u8],
) -> BackAnswer
    ensures { (record { answer = result; lines = lines.new; records = records.new })
        ≡ reading_back_alone text.now lines.old records.old }
{
    host::skriemelt_catalogue_read(text, lines, records)
}

// The same behind other pieces of a text, with the update before as the last of them left it.
#[unsafe(no_mangle)]
pub extern "C" fn skriemelt_catalogue_read_on(
    text: &[u8],
    before: &mut [u8],
    lines: &mut [u8],
    records: &mut [u8],
) -> BackAnswer
    ensures { (record { answer = result; before = before.new; lines = lines.new; records = records.new })
        ≡ reading_back text.now before.old lines.old records.old }
{
    host::skriemelt_catalogue_read_on(text, before, lines, records)
}

// Why a byte of the record of an object and a block is what it is: the steps back to what gave its value. Nothing is lent.
#[unsafe(no_mangle)]
pub extern "C" fn skriemelt_why(payload: &[u8], object: u32, block: u32, byte: u32) -> WhyAnswer
    ensures { result ≡ explaining payload.now object block byte }
{
    host::skriemelt_why(payload, object, block, byte)
}

// The calls that read a catalogue back.
ghost use Rattle.std.specs.Prelude.{◌≡◌, ◌≤◌, length, MatchResult};
ghost use Rattle.bits.specs.Refusals.{number_of};
ghost use Rattle.catalogue.specs.Answer.{before_bytes, rows_in, back_answer, reading_back};
ghost use Rattle.catalogue.specs.Calls.{reading_back_alone};
ghost use Rattle.catalogue.specs.BackCalls.{Readable, Lent};
ghost use Rattle.catalogue.specs.Back.{back};
ghost use Rattle.catalogue.specs.Scan.{bad};

use crate::before::{keep_before, take_before};
use crate::pages::read_frames;
use crate::{BEFORE_BYTES, BackAnswer, BadLine, Tally};
use bits::Refusal;

fn refused(refusal: Refusal, place: u64) -> BackAnswer
    ensures { result ≡ back_answer (number_of refusal) place 0 0 }
{
    BackAnswer {
        place,
        frames: 0,
        bytes: 0,
        refusal: refusal.number(),
    }
}

// What a text gives and needs: its frames laid into buffers of one byte, behind whose end nothing is stored.
fn measure(text: &[u8], before: &[u8]) -> Result<Tally, BadLine>
    requires { before_bytes ≤ length before.now }
    ensures { MatchResult result (λ t. Readable text.now before.now t) (λ e. back (rows_in before.now) text.now ≡ bad e.line) }
{
    let mut rows = take_before(before);
    let mut lines = [0u8; 1];
    let mut records = [0u8; 1];
    read_frames(text, &mut rows, &mut lines, &mut records)
}

// The frames laid into the lent buffers, and the last update for the next call.
fn lend(text: &[u8], before: &mut [u8], lines: &mut [u8], records: &mut [u8])
    requires { before_bytes ≤ length before.old }
    ensures { Lent text.now before.old before.new lines.old lines.new records.old records.new }
{
    let mut rows = take_before(before);
    if read_frames(text, &mut rows, lines, records).is_ok() {
        keep_before(before, &rows);
    }
}

// Reads a text back behind the one whose last update was lent; the last of this one stands there afterwards, for the next call. Each frame gives a line, and its records with their times.
// Refused: no byte of the three buffers changes.
pub fn read_catalogue_on(
    text: &[u8],
    before: &mut [u8],
    lines: &mut [u8],
    records: &mut [u8],
) -> BackAnswer
    ensures { (record { answer = result; before = before.new; lines = lines.new; records = records.new })
        ≡ reading_back text.now before.old lines.old records.old }
{
    if before.len() < BEFORE_BYTES {
        return refused(Refusal::Room, BEFORE_BYTES as u64);
    }
    let needed = match measure(text, before) {
        Ok(needed) => needed,
        Err(bad) => return refused(Refusal::BadLine, bad.line as u64),
    };
    if records.len() < needed.records {
        return refused(Refusal::Room, needed.records as u64);
    }
    if lines.len() < needed.lines {
        return refused(Refusal::Room, needed.lines as u64);
    }
    lend(text, before, lines, records);
    BackAnswer {
        place: 0,
        frames: needed.frames,
        bytes: needed.records as u64,
        refusal: 0,
    }
}

// Reads a text back by itself: its first update lists every field.
pub fn read_catalogue(text: &[u8], lines: &mut [u8], records: &mut [u8]) -> BackAnswer
    ensures { (record { answer = result; lines = lines.new; records = records.new })
        ≡ reading_back_alone text.now lines.old records.old }
{
    let mut before = [0u8; BEFORE_BYTES];
    read_catalogue_on(text, &mut before, lines, records)
}

// What a shelf of payloads holds, counted: records by gain, zone, class and activity, late blocks, ramps, and payloads by refusal.
#![tactic(auto)]

ghost use Rattle.std.specs.Prelude.{◌≡◌, ◌≤◌, length};
ghost use Rattle.bits.specs.Refusals.{number_of};
ghost use Rattle.summary.specs.Counting.{Fits, counted};
ghost use Rattle.summary.specs.Summary.{most_entries, outcomes, summary_of, refused_summary, summing};

use bits::Refusal;
use oamd::{MOST_TRIM, ROOM_BYTES, ReadAnswer};

mod columns; // columns.rt: a byte of each record, counted by its value
mod updates; // updates.rt: the blocks of a payload that start late, and the sum of their ramps

// The most entries that are summed up in one call, so that no count passes 32 bits.
const MOST_ENTRIES: usize = 65536;

// How many values the activity, the class, the gain and the zone of a record can have, and the refusal of an entry, the accepted among them.
const ACTIVITIES: usize = 2;

const CLASSES: usize = 3;

const GAINS: usize = 66;

const ZONES: usize = 6;

const REFUSALS: usize = 13;

// What is counted; on a refusal all counts are 0.
#[repr(C)]
#[derive(Clone, Copy)]
pub struct Summary {
    pub place: u64,
    pub refusal: u8,
    pub records: u32,
    pub gains: [u32; GAINS],
    pub zones: [u32; ZONES],
    pub classes: [u32; CLASSES],
    pub activity: [u32; ACTIVITIES],
    pub late: u32,
    pub ramps: u32,
    pub payloads: [u32; REFUSALS],
}

fn nothing() -> Summary
    ensures { result ≡ refused_summary 0 0 }
{
    Summary {
        place: 0,
        refusal: 0,
        records: 0,
        gains: [0; GAINS],
        zones: [0; ZONES],
        classes: [0; CLASSES],
        activity: [0; ACTIVITIES],
        late: 0,
        ramps: 0,
        payloads: [0; REFUSALS],
    }
}

fn refused(refusal: Refusal, place: u64) -> Summary
    ensures { result ≡ refused_summary (number_of refusal) place }
{
    Summary {
        place,
        refusal: refusal.number(),
        ..nothing()
    }
}

// What is counted of an entry, whose records stand in the room.
fn count_entry(s: &mut Summary, a: ReadAnswer, room: &[u8; ROOM_BYTES])
    requires { Fits s.old a room.now }
    ensures { s.new ≡ counted s.old a room.now }
{
    let n = a.programme.objects as usize * a.timing.blocks as usize;
    let updates = &a.timing.updates[..a.timing.blocks as usize];
    columns::count_one(&mut s.payloads, a.refusal);
    columns::count_records(s, room, n);
    s.records += n as u32;
    s.late += updates::late_blocks(updates);
    s.ramps += updates::all_ramps(updates);
}

// Each entry is read into the same room. A refused one has no objects and no blocks, so that nothing of it is counted but its refusal.
fn count_entries(store: &[u8], starts: &[u64], lengths: &[u64]) -> Summary
    requires { (length lengths.now ≡ length starts.now) × (length starts.now ≤ most_entries) }
    ensures { result ≡ summary_of (outcomes store.now starts.now lengths.now) }
{
    let mut room = [0u8; ROOM_BYTES];
    let mut trim = [0u8; MOST_TRIM];
    let mut s = nothing();
    for i in 0..starts.len() {
        let a = batch::read_entry(store, starts[i], lengths[i], 0, &mut room, &mut trim);
        count_entry(&mut s, a, &room);
    }
    s
}

// Sums up a shelf of payloads, each a part of the store. Refused with 13 where the lists are of unequal length, then with 16 where there are more than 65,536 entries: all
// counts are 0.
pub fn summarise(store: &[u8], starts: &[u64], lengths: &[u64]) -> Summary
    ensures { result ≡ summing store.now starts.now lengths.now }
{
    let n = starts.len();
    if lengths.len() != n {
        return refused(Refusal::Lists, n as u64);
    }
    if MOST_ENTRIES < n {
        return refused(Refusal::Many, n as u64);
    }
    count_entries(store, starts, lengths)
}

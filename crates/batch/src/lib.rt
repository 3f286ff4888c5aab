// A shelf of payloads, read all at once.
#![tactic(auto)]

ghost use Rattle.std.specs.Prelude.{◌≡◌, ◌*◌, leb, length};
ghost use Rattle.oamd.specs.Batch.{shelved, roomy, batched_with, batching};
ghost use Rattle.batch.specs.Parts.{Roomy};

use bits::Refusal;
use oamd::{ANSWER_BYTES, BatchAnswer};

mod answer; // answer.rt: an answer's bytes
mod entry; // entry.rt: one entry

pub use entry::read_entry;

// Whether n slots of a size have room. No product is made: it could pass 64 bits.
fn fits(n: usize, size: usize, room: usize) -> bool
    ensures { result ≡ leb (n * size) room }
{
    size == 0 || n <= room / size
}

// A length and a frame for each start, and room for the slots and places of all of them.
fn is_roomy(
    starts: usize,
    lengths: usize,
    frames: usize,
    recordslot: usize,
    trimslot: usize,
    records: usize,
    trims: usize,
    answers: usize,
) -> bool
    ensures { result ≡ roomy starts lengths frames recordslot trimslot records trims answers }
{
    let slots = fits(starts, recordslot, records);
    let trim_slots = fits(starts, trimslot, trims);
    let places = fits(starts, ANSWER_BYTES, answers);
    let lists = (lengths == starts) & (frames == starts);
    lists & (slots & (trim_slots & places))
}

fn batched(refusal: u8, place: u64) -> BatchAnswer
    ensures { result ≡ batched_with refusal place }
{
    BatchAnswer { place, refusal }
}

// The entries in list order, each into its slots and its place. The lists stand beside each other as they come in through the C interface.
fn read_entries(
    store: &[u8],
    starts: &[u64],
    lengths: &[u64],
    frames: &[u32],
    recordslot: usize,
    trimslot: usize,
    records: &mut [u8],
    trims: &mut [u8],
    answers: &mut [u8],
)
    requires { Roomy (length starts.now) (length lengths.now) (length frames.now) recordslot trimslot records.old trims.old answers.old }
    ensures { (record { records = records.new; trims = trims.new; answers = answers.new })
        ≡ shelved store.now starts.now lengths.now frames.now recordslot trimslot
        (record { records = records.old; trims = trims.old; answers = answers.old }) }
{
    let mut slot: usize = 0;
    let mut trim: usize = 0;
    let mut place: usize = 0;
    for i in 0..starts.len() {
        let slot_end = slot + recordslot;
        let trim_end = trim + trimslot;
        let place_end = place + ANSWER_BYTES;
        let a = read_entry(
            store,
            starts[i],
            lengths[i],
            frames[i],
            &mut records[slot..slot_end],
            &mut trims[trim..trim_end],
        );
        let page = answer::answer_bytes(a);
        answers[place..place_end].copy_from_slice(&page);
        slot = slot_end;
        trim = trim_end;
        place = place_end;
    }
}

// Reads each payload of a shelf as a part of the store, each with the number of its frame. Where the lists are of unequal length, or slots or places lack room, the whole call is refused with 13
// and nothing is read or written. Else each entry's place holds its answer; its slots hold what a read of it alone would lay there; bytes behind the last slots and places stay.
pub fn read_batch(
    store: &[u8],
    starts: &[u64],
    lengths: &[u64],
    frames: &[u32],
    recordslot: usize,
    trimslot: usize,
    records: &mut [u8],
    trims: &mut [u8],
    answers: &mut [u8],
) -> BatchAnswer
    ensures { (record { answer = result; shelf = record { records = records.new; trims = trims.new; answers = answers.new } })
        ≡ batching store.now starts.now lengths.now frames.now recordslot trimslot
        (record { records = records.old; trims = trims.old; answers = answers.old }) }
{
    let n = starts.len();
    if !is_roomy(
        n,
        lengths.len(),
        frames.len(),
        recordslot,
        trimslot,
        records.len(),
        trims.len(),
        answers.len(),
    ) {
        return batched(Refusal::Lists.number(), n as u64);
    }
    read_entries(
        store, starts, lengths, frames, recordslot, trimslot, records, trims, answers,
    );
    batched(0, 0)
}

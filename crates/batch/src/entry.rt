// One entry of a shelf.
ghost use Rattle.std.specs.Prelude.{◌≡◌};
ghost use Rattle.bits.specs.declared.Refusal.TheVariants.{Outside};
ghost use Rattle.bits.specs.Refusals.{number_of};
ghost use Rattle.oamd.specs.Answer.{refused};
ghost use Rattle.oamd.specs.Batch.{entry};

use bits::Refusal;
use oamd::ReadAnswer;

// Refusal 12, at the start: both lent buffers stay as they came.
fn outside(start: u64, records: &mut [u8], trim: &mut [u8]) -> ReadAnswer
    ensures { (record { answer = result; buffer = records.new; trim = trim.new })
        ≡ refused records.old trim.old (number_of Outside) start 0 }
{
    reader::refused_with(Refusal::Outside, start)
}

// Reads the part of a store that begins at a start, as the payload of a frame by itself; one that leaves the store is refused before it is looked at. No sum is made that could
// pass 64 bits.
pub fn read_entry(
    store: &[u8],
    start: u64,
    len: u64,
    frame: u32,
    records: &mut [u8],
    trim: &mut [u8],
) -> ReadAnswer
    ensures { (record { answer = result; buffer = records.new; trim = trim.new })
        ≡ entry frame store.now start len records.old trim.old }
{
    let all = store.len() as u64;
    if all < start || all - start < len {
        return outside(start, records, trim);
    }
    let from = start as usize;
    let to = (start + len) as usize;
    reader::read(&store[from..to], frame, records, trim)
}

// What is read of a payload is kept in a scratch, and lent when all of it is accepted: so a refusal touches nothing.
ghost use Rattle.std.specs.Prelude.{◌≡◌, ◌*◌, ◌≤◌};
ghost use Rattle.oamd.specs.Answer.{reading};
ghost use Rattle.oamd.specs.Tables.{record_bytes, most_blocks, scratch_bytes};
ghost use Rattle.reader.specs.Rooms.{ElementRoom};
ghost use Rattle.reader.specs.Steps.{Headed};

use crate::lending::lend_records;
use crate::payload::read_payload;
use crate::trim::no_trim;
use crate::{Header, answers};
use bits::Step;
use oamd::{RECORD_STRIDE, ReadAnswer, TRIM_FIXED};

// Behind the header, with a scratch that has room for the records.
fn read_kept(
    payload: &[u8],
    head: Step<Header>,
    frame: u32,
    scratch: &mut [u8],
    records: &mut [u8],
    trim: &mut [u8],
) -> ReadAnswer
    requires { Headed payload.now head × ElementRoom head.value.programme.objects scratch.old }
    ensures { (record { answer = result; buffer = records.new; trim = trim.new })
        ≡ reading frame payload.now records.old trim.old }
{
    let mut table = no_trim();
    let step = read_payload(payload, head, scratch, &mut table);
    let cur = step.cur;
    if cur.no != 0 {
        let missing = answers::missing_bits(cur.no, cur.missing);
        return answers::refused(cur.no, cur.at.raw() as u64, missing);
    }
    let programme = step.value.programme;
    let state = step.value.state;
    let timing = state.timing;
    let count = programme.objects as usize * timing.blocks as usize;
    let need = RECORD_STRIDE * count;
    if records.len() < need {
        return answers::no_room(need, records, trim);
    }
    let taken = TRIM_FIXED + programme.objects as usize;
    if trim.len() < taken {
        return answers::no_room(taken, records, trim);
    }
    lend_records(scratch, count, frame, timing, records);
    trim[..taken].copy_from_slice(&table[..taken]);
    answers::accepted(programme, timing, state.unknown)
}

// With a scratch of N bytes, which has that room.
pub fn read_in<const N: usize>(
    payload: &[u8],
    head: Step<Header>,
    frame: u32,
    records: &mut [u8],
    trim: &mut [u8],
) -> ReadAnswer
    requires headed { Headed payload.now head }
    requires room { (record_bytes * (head.value.programme.objects * most_blocks) ≤ N) × (N ≤ scratch_bytes) }
    ensures { (record { answer = result; buffer = records.new; trim = trim.new })
        ≡ reading frame payload.now records.old trim.old }
{
    let mut scratch = [0u8; N];
    read_kept(payload, head, frame, &mut scratch, records, trim)
}

// `salvage`: a payload with elements that a read refuses, to one that is accepted, without them.
#![tactic(auto)]

ghost use Rattle.std.specs.Prelude.{◌≡◌, Ok};
ghost use Rattle.reader.specs.Sifts.{sifted};
ghost use Rattle.salvaging.specs.Salvage.{salvaging};

use bits::Refusal;
use reader::Sifted;
use units::{BitPos, ByteCount};

mod copying; // copying.rt: bits, from any position to any other
mod runs; // runs.rt: the bits between the elements that go
mod left; // left.rt: all that is left
mod answer; // answer.rt: what is answered

// An element that was dropped: the refusal's place in the payload as it came, the element's id, the refusal.
#[repr(C)]
#[derive(Clone, Copy)]
pub struct Drop {
    pub place: BitPos,
    pub id: u8,
    pub refusal: u8,
}

// What a salvage answers, beside the payload that is left: its length, and the elements that were dropped, of which there are `drops`; entries past them are 0. On a refusal
// all but refusal and place is 0, and but the missing bits, where a reading ends early.
#[repr(C)]
#[derive(Clone, Copy)]
pub struct SalvageAnswer {
    pub place: u64,
    pub missing: u32,
    pub length: ByteCount,
    pub refusal: u8,
    pub drops: u8,
    pub dropped: [Drop; oamd::MOST_ELEMENTS],
}

// What is answered of a payload, by the elements of it that go.
fn finish(payload: &[u8], found: Sifted, out: &mut [u8]) -> SalvageAnswer
    requires { Ok found ≡ sifted payload.now }
    ensures { (record { answer = result; out = out.new }) ≡ salvaging payload.now out.old }
{
    let whole = left::left_width(payload, found);
    let length = whole.bytes();
    let bytes = length.raw();
    if out.len() < bytes as usize {
        return answer::refused(Refusal::NoFit.number(), bytes as u64, 0);
    }
    let n = bytes as usize;
    left::fill(&mut out[..n], payload, found);
    answer::accepted(length, found)
}

// Salvages a payload: the elements that a read refuses are dropped. Accepted: what is left is the first bytes of the lent buffer, and no other byte of it changes. Refused:
// none changes.
pub fn salvage(payload: &[u8], out: &mut [u8]) -> SalvageAnswer
    ensures { (record { answer = result; out = out.new }) ≡ salvaging payload.now out.old }
{
    match reader::sift(payload) {
        Ok(found) => finish(payload, found, out),
        Err(e) => answer::refused(e.refusal, e.place, e.missing),
    }
}

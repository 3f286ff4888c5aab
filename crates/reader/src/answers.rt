// What is answered.
ghost use Rattle.std.specs.Prelude.{◌≡◌};
ghost use Rattle.bits.specs.Refusals.{number_of};
ghost use Rattle.oamd.specs.Answer.{missing_of, refused_with, accepted_with};
ghost use Rattle.reader.specs.Steps.{NoRoom};

use bits::Refusal;
use oamd::{Bed, MOST_BEDS, Programme, ReadAnswer, Timing};

// The bits that are answered as missing: those of a payload that ends early, as far as 32 bits hold their number.
pub fn missing_bits(refusal: u8, missing: u64) -> u32
    ensures { result ≡ missing_of refusal missing }
{
    if refusal != Refusal::EndsEarly.number() {
        return 0;
    }
    u32::try_from(missing).unwrap_or(u32::MAX)
}

// A refusal, at its place, with the bits that were missing there: all else is 0.
pub fn refused(refusal: u8, place: u64, missing: u32) -> ReadAnswer
    ensures { result ≡ refused_with refusal place missing }
{
    let bed = Bed {
        assignment: 0,
        lfeonly: 0,
        standard: 0,
    };
    let programme = Programme {
        objects: 0,
        dynonly: 0,
        lfe: 0,
        content: 0,
        distribute: 0,
        multiple: 0,
        instances: 0,
        bedcount: 0,
        isf: 0,
        dynamics: 0,
        beds: [bed; MOST_BEDS],
    };
    ReadAnswer {
        place,
        refusal,
        unknown: 0,
        programme,
        timing: meaning::no_timing(),
        missing,
    }
}

// A refusal by its name, with no bits missing.
pub fn refused_with(refusal: Refusal, place: u64) -> ReadAnswer
    ensures { result ≡ refused_with (number_of refusal) place 0 }
{
    refused(refusal.number(), place, 0)
}

// Refusal 9, with the bytes that are needed: both lent buffers stay as they came.
pub fn no_room(needed: usize, records: &mut [u8], trim: &mut [u8]) -> ReadAnswer
    ensures { NoRoom needed result records.old records.new trim.old trim.new }
{
    refused_with(Refusal::Room, needed as u64)
}

pub fn accepted(programme: Programme, timing: Timing, unknown: u8) -> ReadAnswer
    ensures { result ≡ accepted_with programme timing unknown }
{
    ReadAnswer {
        place: 0,
        refusal: 0,
        unknown,
        programme,
        timing,
        missing: 0,
    }
}

// `read`: a payload's bytes, its frame's number, and two lent buffers, to an answer, records and the trim table.
#![tactic(auto)]

ghost use Rattle.std.specs.Prelude.{◌≡◌};
ghost use Rattle.oamd.specs.Answer.{reading};

use crate::layout::{FEW_BYTES, FEW_OBJECTS};
use bits::{Cur, Refusal};
use oamd::{Gone, MOST_BYTES, MOST_ELEMENTS, Programme, ReadAnswer, SCRATCH_BYTES, Shares, Timing};
use units::BitPos;

mod timing; // timing.rt: starts and ramps of all blocks
mod layout; // layout.rt: a record's bytes among the records
mod objects; // objects.rt: the object element
mod extended; // extended.rt: the extended object element
mod trim; // trim.rt: the trim element
mod element; // element.rt: one element after the other
mod payload; // payload.rt: the whole payload
mod lending; // lending.rt: the records with their times in the lent buffer
mod answers; // answers.rt: what is answered
mod keeping; // keeping.rt: what is read, kept until the payload is accepted
mod sifting; // sifting.rt: which elements salvage drops

pub use answers::refused_with;
pub use payload::{limit_of, read_head};
pub use sifting::sift;
pub use timing::read_timing;

// What the elements are read by: the object count, the objects of each class, and whether alternate ids are sent.
#[derive(Clone, Copy)]
pub struct Scope {
    pub objects: usize,
    pub shares: Shares,
    pub alternate: u32,
}

// What has been read of the elements, beside the records and the trim table.
#[derive(Clone, Copy)]
pub struct State {
    pub timing: Timing,
    pub object: bool,
    pub trim: bool,
    pub extended: bool,
    pub unknown: u8,
}

// What stands before the element count.
#[derive(Clone, Copy)]
pub struct Header {
    pub programme: Programme,
    pub alternate: u32,
}

// What the whole payload gives.
#[derive(Clone, Copy)]
pub struct Parsed {
    pub programme: Programme,
    pub state: State,
}

// An element of a pass that drops what is refused: what has been read behind it, where the next one begins or the refusal that ends the pass, and as what it is dropped,
// if it is.
#[derive(Clone, Copy)]
pub struct Turn {
    pub state: State,
    pub cur: Cur,
    pub gone: Option<Gone>,
}

// Which elements of a payload salvage drops: the first bit of the element count, the count, the first bit of the elements, and the elements that go, of which there are
// `drops`; entries past them are 0. An array with a count, since no memory is taken.
#[derive(Clone, Copy)]
pub struct Sifted {
    pub head: BitPos,
    pub count: u32,
    pub body: BitPos,
    pub drops: usize,
    pub gone: [Gone; MOST_ELEMENTS],
}

// The refusal that ends the pass: its number, its place, and how many bits were missing there.
#[derive(Clone, Copy)]
pub struct Refused {
    pub place: u64,
    pub missing: u32,
    pub refusal: u8,
}

// Reads the payload of a frame, by the frame's number. Accepted: the records, each with its time, and the trim table are the first bytes of the lent buffers, and no other
// byte of them changes. Refused: none changes.
pub fn read(payload: &[u8], frame: u32, records: &mut [u8], trim: &mut [u8]) -> ReadAnswer
    ensures { (record { answer = result; buffer = records.new; trim = trim.new })
        ≡ reading frame payload.now records.old trim.old }
{
    let len = payload.len();
    if MOST_BYTES < len {
        return answers::refused_with(Refusal::TooLong, len as u64);
    }
    let head = payload::read_head(payload);
    if head.value.programme.objects <= FEW_OBJECTS {
        keeping::read_in::<FEW_BYTES>(payload, head, frame, records, trim)
    } else {
        keeping::read_in::<SCRATCH_BYTES>(payload, head, frame, records, trim)
    }
}

// `write`: a programme, a timing, a frame number, record bytes and a trim table to a payload in a lent buffer, in the one form of documents 01 and 02. How long
// the form is, is found out first; then its parts are laid, clause by clause of the definition.
#![tactic(auto)]

ghost use Rattle.std.specs.Prelude.{◌≡◌, true, List, ℕ, IfOk, IfErr};
ghost use Rattle.bits.specs.Language.{pick};
ghost use Rattle.bits.specs.Refusals.{number_of};
ghost use Rattle.bits.specs.declared.Refusal.TheVariants.{NotValid};
ghost use Rattle.form.specs.Form.{form};
ghost use Rattle.form.specs.Answer.{tables_of, refused_write, refused_to, fitted, writing};
ghost use Rattle.writer.specs.Parts.{Enough};
ghost use Rattle.writer.specs.Survey.{Gathered, Judged};

use bits::{Refusal, either};
use oamd::{Programme, Timing, WriteAnswer};
use units::{BitCount, ByteCount};

mod putting; // putting.rt: a field
mod each; // each.rt: parts of one kind
mod blocks; // blocks.rt: a block
mod survey; // survey.rt: all records, before a bit is laid
mod header; // header.rt: what stands before the elements
mod timing; // timing.rt: the timing
mod objects; // objects.rt: the object element's fields
mod extended; // extended.rt: the extended object element's fields
mod trim; // trim.rt: the trim element's fields
mod sizes; // sizes.rt: an element's size
mod element; // element.rt: the elements
mod payload; // payload.rt: the whole form

// Which groups of the extended element some record needs.
#[derive(Clone, Copy)]
pub struct Groups {
    pub diverges: bool,
    pub refines: bool,
}

impl Groups {
    // Whether some record needs either.
    fn some(self) -> bool
        ensures { result ≡ pick self.diverges true self.refines }
    {
        either(self.diverges, self.refines)
    }
}

// What one pass over the records finds, where none is refused: which groups they need, and how many bits their blocks take.
#[derive(Clone, Copy)]
pub struct Found {
    pub groups: Groups,
    pub width: BitCount,
}

// Found before a bit is laid: how many records there are, which groups they need, the bits inside each element, and those of the whole form.
#[derive(Clone, Copy)]
pub struct Measures {
    pub count: usize,
    pub groups: Groups,
    pub object: BitCount,
    pub extended: BitCount,
    pub trim: BitCount,
    pub whole: BitCount,
}

fn refused(refusal: Refusal, place: u64) -> WriteAnswer
    ensures { result ≡ refused_write (number_of refusal) place }
{
    WriteAnswer {
        place,
        length: ByteCount::new(0),
        refusal: refusal.number(),
    }
}

// Writes the form of valid tables, if there is room for all of it.
fn write_form(
    programme: Programme,
    timing: Timing,
    records: &[u8],
    trim: &[u8],
    found: Found,
    payload: &mut [u8],
) -> WriteAnswer
    requires enough { Enough programme timing records.now trim.now }
    requires gathered { Gathered programme timing records.now found }
    ensures { (record { answer = result; out = payload.new }) ≡ fitted payload.old (form (tables_of programme timing records.now trim.now)) }
{
    let m = payload::measure(programme, timing, records, trim, found);
    let length = m.whole.bytes();
    let bytes = length.raw();
    let n = bytes as usize;
    if payload.len() < n || oamd::MOST_BYTES < n {
        return refused(Refusal::NoFit, bytes as u64);
    }
    payload::fill(&mut payload[..n], programme, timing, records, trim, m);
    WriteAnswer {
        place: 0,
        length,
        refusal: 0,
    }
}

// What a pass over the records finds; or the place of the first of the tables that is not valid.
fn judge(
    programme: Programme,
    timing: Timing,
    frame: u32,
    records: &[u8],
    trim: &[u8],
) -> Result<Found, u64>
    ensures found { IfOk result (λ found. Judged frame programme timing records.now trim.now found) }
    ensures refused { IfErr result (λ place. (out : List ℕ) → refused_to out (number_of NotValid) place ≡ writing frame programme timing records.now trim.now out) }
{
    let count = valid::record_count(programme.objects, timing.blocks);
    if !valid::programme_valid(programme) {
        return Err(0);
    }
    if !valid::timing_valid(timing) {
        return Err(0);
    }
    if records.len() < oamd::RECORD_STRIDE * count {
        return Err(0);
    }
    let found = survey::survey(meaning::shares(programme), timing, frame, records, count)?;
    if !valid::trim_valid(programme.objects, trim) {
        return Err(1 + count as u64);
    }
    Ok(found)
}

// Writes tables. `frame` is the number of the frame, from 0: bytes 24 to 31 of each record must be its block's time in that frame. The payload is the same for every frame.
// Accepted: the payload is the first bytes of the lent buffer, and no other byte of it changes. Refused: none changes.
pub fn write(
    programme: Programme,
    timing: Timing,
    frame: u32,
    records: &[u8],
    trim: &[u8],
    payload: &mut [u8],
) -> WriteAnswer
    ensures { (record { answer = result; out = payload.new }) ≡ writing frame programme timing records.now trim.now payload.old }
{
    match judge(programme, timing, frame, records, trim) {
        Ok(found) => write_form(programme, timing, records, trim, found, payload),
        Err(place) => refused(Refusal::NotValid, place),
    }
}

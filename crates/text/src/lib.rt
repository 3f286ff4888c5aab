// Text: bytes, numbers and lines laid into a lent buffer, and the listing of a payload.
#![tactic(auto)]

ghost use Rattle.std.specs.Prelude.{◌≡◌, ◌≤◌, length};
ghost use Rattle.text.specs.Listing.{listing_of, listing};
ghost use Rattle.text.specs.Answer.{text_answer, texted};
ghost use Rattle.text.specs.Most.{most_text};
ghost use Rattle.text.specs.Laying.{Holds};

use bits::Refusal;
use oamd::{MOST_TRIM, ROOM_BYTES, ReadAnswer};
use units::ByteCount;

mod laying; // laying.rt: bytes, numbers and lines laid from a position on
mod listing; // listing.rt: the lines of the listing

pub use laying::{lay_byte, lay_bytes, lay_decimal, lay_hex, lay_line, lay_number};

// What a call that lays a text answers: on a refusal the length is 0.
#[repr(C)]
#[derive(Clone, Copy)]
pub struct TextAnswer {
    pub place: u64,
    pub length: ByteCount,
    pub refusal: u8,
}

fn answered(refusal: u8, place: u64, bytes: u32) -> TextAnswer
    ensures { result ≡ text_answer refusal place bytes }
{
    TextAnswer {
        place,
        length: ByteCount::new(bytes),
        refusal,
    }
}

// Lays the listing of what a read answered, if there is room for all of it: its length first.
fn list_answer(a: ReadAnswer, records: &[u8], text: &mut [u8]) -> TextAnswer
    requires holds { a.refusal ≡ 0 → Holds a records.now }
    requires records_len_bound { length (listing_of a records.now) ≤ most_text }
    ensures { (record { answer = result; buffer = text.new }) ≡ texted (listing_of a records.now) text.old }
{
    let mut none = [0u8; 1];
    let needed = listing::lay_listing(&mut none, 0, a, records);
    if text.len() < needed {
        return answered(Refusal::ShortText.number(), needed as u64, 0);
    }
    listing::lay_listing(text, 0, a, records);
    answered(0, 0, needed as u32)
}

// Lists a payload, as that of frame 0. Accepted: the listing is the first bytes of the lent buffer, and no other byte of it changes. Refused: none changes.
pub fn list_text(payload: &[u8], text: &mut [u8]) -> TextAnswer
    ensures { (record { answer = result; buffer = text.new }) ≡ texted (listing payload.now) text.old }
{
    let mut records = [0u8; ROOM_BYTES];
    let mut trim = [0u8; MOST_TRIM];
    let a = reader::read(payload, 0, &mut records, &mut trim);
    list_answer(a, &records, text)
}

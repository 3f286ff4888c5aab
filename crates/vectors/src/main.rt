// Lists every payload of data/payloads: two bytes of length, the higher first, and the payload, one after the other. Of each that is accepted the trim
// table follows, if it is not all 0; its tables are written, and what is written is read back; tables with the reserved content flag have no written form.
// The frame is 0 throughout, as in the listing.
#![tactic(auto)]

use oamd::{MOST_BYTES, MOST_TRIM, ROOM_BYTES, ReadAnswer, TRIM_FIXED};
use std::fs::File;
use std::io;
use std::io::Print;

type Room = [u8; ROOM_BYTES];

type Trim = [u8; MOST_TRIM];

// The reserved content flag, the first of the four that are sent.
const RESERVED: u8 = 8;

// Whether a written payload gives the tables that it was written from, and no unknown element.
fn reads_back(a: ReadAnswer, records: &Room, trim: &Trim, payload: &[u8]) -> bool {
    let mut again = [0; ROOM_BYTES];
    let mut trim_again = [255; MOST_TRIM];
    let b = reader::read(payload, 0, &mut again, &mut trim_again);
    b.refusal == 0
        && b.unknown == 0
        && *trim == trim_again
        && a.programme == b.programme
        && a.timing == b.timing
        && *records == again
}

// Writes the tables of an accepted payload over ones, and reads them back.
fn write_back<P: Print>(out: &P, a: ReadAnswer, records: &Room, trim: &Trim) -> io::Result<()> {
    let mut payload = [255u8; MOST_BYTES];
    let w = writer::write(a.programme, a.timing, 0, records, trim, &mut payload);
    if w.refusal != 0 {
        return printing::not_written(out, w.refusal, w.place);
    }
    let Some(payload) = payload.get(..w.length.raw() as usize) else {
        return Ok(());
    };
    printing::written(out, payload)?;
    let back = reads_back(a, records, trim, payload);
    printing::line(out, &keys::READ_BACK, back as u64)
}

// The trim table of so many objects, unless it is all 0, as it is without a trim element.
fn list_trim<P: Print>(out: &P, objects: u8, trim: &Trim) -> io::Result<()> {
    match trim.get(..TRIM_FIXED + objects as usize) {
        Some(table) if table.iter().any(|byte| *byte != 0) => printing::trim(out, table),
        _ => Ok(()),
    }
}

// Lists a payload, reads it, and writes its tables again. The trim buffer holds ones before.
fn list_one<P: Print>(out: &P, payload: &[u8]) -> io::Result<()> {
    printing::list(out, payload)?;
    let mut records = [0; ROOM_BYTES];
    let mut trim = [255; MOST_TRIM];
    let a = reader::read(payload, 0, &mut records, &mut trim);
    if a.refusal == 0 {
        list_trim(out, a.programme.objects, &trim)?;
        if a.programme.content < RESERVED {
            write_back(out, a, &records, &trim)?;
        }
    }
    Ok(())
}

// The payloads of a store; a last one that is cut short is not listed.
fn list_all<P: Print>(out: &P, store: &[u8]) -> io::Result<()> {
    let mut rest = store;
    for number in 0..65536 {
        let [high, low, behind @ ..] = rest else {
            break;
        };
        let n = u16::from_be_bytes([*high, *low]) as usize;
        let (Some(payload), Some(next)) = (behind.get(..n), behind.get(n..)) else {
            break;
        };
        printing::line(out, &keys::VECTOR, number)?;
        list_one(out, payload)?;
        rest = next;
    }
    Ok(())
}

fn main(rt: HostRuntime) -> io::Result<()> {
    let mut file = File::open(&rt, "payloads")?;
    let mut store = [0u8; 65536];
    let got = printing::read_full(&mut file, &mut store)?;
    list_all(&rt, &store[..got])
}

// What the programs read and write: the bytes of an input, and texts that the crate `text` has laid.
#![tactic(auto)]

ghost use Rattle.std.specs.Prelude.{◌≤◌, length, IfOk};

use std::io;
use std::io::{Print, Read};

// The room for a payload that is read: one byte more than a payload may have, so that a longer one is told.
pub const ROOM: usize = 4097;

// Reads until the buffer is full or the input ends: how many bytes were read.
pub fn read_full<R: Read>(input: &mut R, buffer: &mut [u8]) -> io::Result<usize>
    ensures { IfOk result (λ n. n ≤ length buffer.new) }
{
    let mut done: usize = 0;
    while done < buffer.len() {
        match input.read(&mut buffer[done..])? {
            0 => break,
            n => done += n,
        }
    }
    Ok(done)
}

// The first n bytes of a text.
pub fn show<P: Print>(out: &P, text: &[u8], n: usize) -> io::Result<()> {
    match text.get(..n) {
        Some(first) => out.write_all(first),
        None => Ok(()),
    }
}

// The listing of a payload; there is room for every one.
pub fn list<P: Print>(out: &P, payload: &[u8]) -> io::Result<()> {
    let mut page = [0u8; 100000];
    let a = text::list_text(payload, &mut page);
    show(out, &page, a.length.raw() as usize)
}

// A line of a key and a number.
pub fn line<P: Print>(out: &P, key: &[u8], n: u64) -> io::Result<()> {
    let mut page = [0u8; 64];
    let to = text::lay_line(&mut page, 0, key, n);
    show(out, &page, to)
}

// A line of a key and bytes as hex digits.
fn hex_line<P: Print>(out: &P, key: &[u8], bytes: &[u8]) -> io::Result<()> {
    let mut page = [0u8; 8256];
    let to = text::lay_bytes(&mut page, 0, key);
    let to = text::lay_hex(&mut page, to, bytes);
    let to = text::lay_bytes(&mut page, to, b"\n");
    show(out, &page, to)
}

// A trim table.
pub fn trim<P: Print>(out: &P, table: &[u8]) -> io::Result<()> {
    hex_line(out, &keys::TRIM, table)
}

// A written payload.
pub fn written<P: Print>(out: &P, payload: &[u8]) -> io::Result<()> {
    hex_line(out, &keys::WRITTEN, payload)
}

// A refusal to write, and its place.
pub fn not_written<P: Print>(out: &P, refusal: u8, place: u64) -> io::Result<()> {
    let mut page = [0u8; 128];
    let to = text::lay_bytes(&mut page, 0, b"written ");
    let to = text::lay_bytes(&mut page, to, &keys::REFUSAL);
    let to = text::lay_decimal(&mut page, to, refusal as u64);
    let to = text::lay_bytes(&mut page, to, b" ");
    let to = text::lay_line(&mut page, to, &keys::PLACE, place);
    show(out, &page, to)
}

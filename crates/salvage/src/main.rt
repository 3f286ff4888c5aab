// Salvages a payload: without the known elements that reading refuses. The payload is on standard input, at most 4,097 bytes of it are read; what is left is also written to a file, if the first
// word of the arguments names one. Nothing is written of a payload that is refused.
#![tactic(auto)]

use bits::Refusal;
use oamd::MOST_BYTES;
use salvaging::{Drop, SalvageAnswer};
use std::env::{Env, FillError};
use std::io::Print;
use std::rt::Files;
use std::{fs, io};

// The lines of an element that was dropped.
fn show_drop<P: Print>(out: &P, d: Drop) -> io::Result<()> {
    printing::line(out, &keys::PLACE, d.place.raw() as u64)?;
    printing::line(out, &keys::ID, d.id as u64)?;
    printing::line(out, &keys::REFUSAL, d.refusal as u64)
}

fn show_drops<P: Print>(out: &P, a: SalvageAnswer) -> io::Result<()> {
    for dropped in a.dropped.iter().take(a.drops as usize) {
        show_drop(out, *dropped)?;
    }
    Ok(())
}

// The lines of an answer, up to the payload that is left.
fn show<P: Print>(out: &P, a: SalvageAnswer) -> io::Result<()> {
    printing::line(out, &keys::REFUSAL, a.refusal as u64)?;
    printing::line(out, &keys::PLACE, a.place)?;
    if a.refusal == Refusal::EndsEarly.number() {
        printing::line(out, &keys::MISSING, a.missing as u64)?;
    }
    if a.refusal == 0 {
        printing::line(out, &keys::LENGTH, a.length.raw() as u64)?;
        printing::line(out, &keys::DROPS, a.drops as u64)?;
        show_drops(out, a)?;
    }
    Ok(())
}

// A file's name is text.
fn name_of(word: &[u8]) -> io::Result<&str> {
    str::from_utf8(word).map_err(|_| io::Error::from(io::ErrorKind::InvalidData))
}

// Writes the payload that is left to the file that the first argument names, if there is one.
fn keep<R: Env + Files>(rt: &R, left: &[u8]) -> io::Result<()> {
    let mut word = [0u8; 4096];
    match rt.arg(1, &mut word) {
        Ok(n) => fs::write(rt, name_of(&word[..n])?, left),
        Err(FillError::NotPresent) => Ok(()),
        Err(FillError::TooLong) => Err(io::Error::from(io::ErrorKind::InvalidFilename)),
    }
}

fn main(rt: HostRuntime) -> io::Result<()> {
    let mut payload = [0; printing::ROOM];
    let n = printing::read_full(&mut rt.reader(), &mut payload)?;
    let mut out = [0u8; MOST_BYTES];
    let a = salvaging::salvage(&payload[..n], &mut out);
    show(&rt, a)?;
    if a.refusal != 0 {
        return Ok(());
    }
    match out.get(..a.length.raw() as usize) {
        Some(left) => {
            printing::written(&rt, left)?;
            keep(&rt, left)
        }
        None => Ok(()),
    }
}

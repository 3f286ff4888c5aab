// What is answered.
ghost use Rattle.std.specs.Prelude.{◌≡◌, ◌≤◌, length, replicate};
ghost use Rattle.oamd.specs.Tables.{most_elements};
ghost use Rattle.salvaging.specs.Salvage.{no_drop, drop_of, reported, refused_with, accepted_with};
ghost use Rattle.salvaging.specs.Parts.{gone_by};

use crate::{Drop, SalvageAnswer};
use oamd::{Gone, MOST_ELEMENTS};
use reader::Sifted;
use units::{BitPos, ByteCount};

// No drop.
fn no_drops() -> [Drop; MOST_ELEMENTS]
    ensures { result ≡ replicate most_elements no_drop }
{
    let none = Drop {
        place: BitPos::new(0),
        id: 0,
        refusal: 0,
    };
    [none; MOST_ELEMENTS]
}

// A refusal, at its place, with the bits that were missing there: all else is 0.
pub fn refused(refusal: u8, place: u64, missing: u32) -> SalvageAnswer
    ensures { result ≡ refused_with refusal place missing }
{
    let dropped = no_drops();
    SalvageAnswer {
        place,
        missing,
        length: ByteCount::new(0),
        refusal,
        drops: 0,
        dropped,
    }
}

// What is told of an element that goes.
fn drop_of(g: Gone) -> Drop
    ensures { result ≡ drop_of g }
{
    Drop {
        place: g.place,
        id: g.id,
        refusal: g.refusal,
    }
}

impl From<Gone> for Drop {
    fn from(g: Gone) -> Drop
        ensures { result ≡ drop_of g }
    {
        drop_of(g)
    }
}

// The elements that go, as they are reported.
fn report(found: Sifted) -> [Drop; MOST_ELEMENTS]
    requires { (found.drops ≤ most_elements) × (length found.gone ≡ most_elements) }
    ensures { result ≡ reported (gone_by found) }
{
    let gone = found.gone;
    let mut dropped = no_drops();
    for i in 0..found.drops {
        dropped[i] = drop_of(gone[i]);
    }
    dropped
}

// What is left has a length, and these go.
pub fn accepted(bytes: ByteCount, found: Sifted) -> SalvageAnswer
    requires { (found.drops ≤ most_elements) × (length found.gone ≡ most_elements) }
    ensures { result ≡ accepted_with bytes.0 (gone_by found) }
{
    let dropped = report(found);
    SalvageAnswer {
        place: 0,
        missing: 0,
        length: bytes,
        refusal: 0,
        drops: found.drops as u8,
        dropped,
    }
}

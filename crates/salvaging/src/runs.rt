// The bits between the elements that go: how many they are, and laid one run behind the other. Two loops, since one function over what is done with a run would be longer than both.
ghost use Rattle.std.specs.Prelude.{◌≡◌, ◌+◌, ◌*◌, ◌≤◌, length};
ghost use Rattle.oamd.specs.Tables.{most_bytes};
ghost use Rattle.laying.specs.Laying.{Laid, most_position, reach};
ghost use Rattle.salvaging.specs.Parts.{most_bits, runs_by, Fair};

use crate::copying::copy_run;
use laying::Pen;
use reader::Sifted;
use units::{BitCount, BitPos, ByteCount};

// The first bit behind a payload.
pub fn end_of(payload: &[u8]) -> BitPos
    requires { length payload.now ≤ most_bytes }
    ensures { result.0 ≡ 8 * length payload.now }
{
    let n = ByteCount::new(payload.len() as u32);
    BitPos::new(n.bits() as u32)
}

// How many bits they are.
pub fn runs_width(payload: &[u8], found: Sifted) -> BitCount
    requires { Fair payload.now found }
    ensures { result.0 ≡ length (runs_by payload.now found) }
{
    let gone = found.gone;
    let end = end_of(payload);
    let mut from = found.body;
    let mut width = BitCount::new(0);
    for i in 0..found.drops {
        let g = gone[i];
        width = width.plus(g.from.since(from));
        from = g.to;
    }
    width.plus(end.since(from))
}

// Lays them.
pub fn put_runs(out: &mut [u8], pen: Pen, payload: &[u8], found: Sifted) -> Pen
    requires fair { Fair payload.now found }
    requires most_bits_bound { reach out.old pen + most_bits ≤ most_position }
    ensures { Laid most_bits out.old out.new pen result (runs_by payload.now found) }
{
    let gone = found.gone;
    let end = end_of(payload);
    let mut from = found.body;
    let mut next = pen;
    for i in 0..found.drops {
        let g = gone[i];
        next = copy_run(payload, from, g.from.since(from), out, next);
        from = g.to;
    }
    copy_run(payload, from, end.since(from), out, next)
}

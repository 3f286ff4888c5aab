// Parts of one kind, one behind the other, each packed by its number: laid, and how many bits they take.
ghost use Rattle.std.specs.Prelude.{List, ℕ, ◌*◌, ◌<◌};
ghost use Rattle.laying.specs.Laying.{Laid, reach};
ghost use Rattle.writer.specs.Parts.{Wide, bits_below, PacksEach, Packable};

use crate::putting::put_some;
use coding::Packed;
use laying::Pen;
use units::BitCount;

// The parts of the numbers below n.
pub fn put_each<F: Fn(usize) -> Packed>(out: &mut [u8], pen: Pen, n: usize, part: F) -> Pen
    requires may { (i : ℕ) → i < n → F.pre part i }
    requires parts { Packable (F.post part) n (reach out.old pen) }
    ensures { (most : ℕ) (f : ℕ → List ℕ) → PacksEach (F.post part) most f n → Laid (most * n) out.old out.new pen result (bits_below f n) }
{
    let mut next = pen;
    for i in 0..n {
        next = put_some(out, next, part(i));
    }
    next
}

// How many bits they take.
pub fn each_width<F: Fn(usize) -> Packed>(n: usize, part: F) -> BitCount
    requires { (i : ℕ) → i < n → F.pre part i }
    ensures { (most : ℕ) (f : ℕ → List ℕ) → PacksEach (F.post part) most f n → most * n < 4294967296 → Wide (most * n) result.0 (bits_below f n) }
{
    let mut total = BitCount::new(0);
    for i in 0..n {
        total = total.plus(part(i).width);
    }
    total
}

// An answer's bytes: those of the C struct, numbers least byte first, padding 0.
ghost use Rattle.std.specs.Prelude.{◌≡◌, List, ℕ, ◌+◌, ◌*◌, ◌≤◌, length};
ghost use Rattle.oamd.specs.Tables.{answer_bytes};
ghost use Rattle.oamd.specs.Batch.{bed_bytes_of, update_bytes_of, answer_bytes_of};
ghost use Rattle.oamd.specs.Lengths.{length-bed, length-update};
ghost use Rattle.record.specs.Bytes.{set_from};
ghost use Rattle.batch.specs.Parts.{StoredEach};

use oamd::{ANSWER_BYTES, Bed, ReadAnswer, Update};

// Bytes, from a byte on.
fn lay<const N: usize>(out: &mut [u8; ANSWER_BYTES], at: usize, bytes: [u8; N])
    requires { at + N ≤ answer_bytes }
    ensures { out.new ≡ set_from at 0 bytes.entry out.old }
{
    out[at..at + N].copy_from_slice(&bytes);
}

// What an answer has several of, each in as many bytes.
trait Entry: Copy {
    const WIDTH: usize;

    ghost WIDTH: { ℕ };

    ghost bytes: { Self → List ℕ };

    fn store(self, out: &mut [u8; ANSWER_BYTES], at: usize)
        requires { at + WIDTH ≤ answer_bytes }
        ensures { out.new ≡ set_from at 0 (bytes self) out.old };

    ghost wide: { (x : Self) → length (bytes x) ≡ WIDTH };
}

impl Entry for Bed {
    const WIDTH: usize = 8;

    ghost WIDTH = { 8 };

    ghost bytes = { bed_bytes_of };

    fn store(self, out: &mut [u8; ANSWER_BYTES], at: usize) {
        lay(out, at, self.assignment.to_le_bytes());
        lay(out, at + 4, [self.lfeonly, self.standard, 0, 0]);
    }

    ghost wide = { length-bed };
}

impl Entry for Update {
    const WIDTH: usize = 4;

    ghost WIDTH = { 4 };

    ghost bytes = { update_bytes_of };

    fn store(self, out: &mut [u8; ANSWER_BYTES], at: usize) {
        lay(out, at, self.start.raw().to_le_bytes());
        lay(out, at + 2, self.ramp.raw().to_le_bytes());
    }

    ghost wide = { length-update };
}

// All of them, from a byte on, behind what stands before them.
fn store_each<T: Entry, const N: usize>(out: &mut [u8; ANSWER_BYTES], from: usize, entries: [T; N])
    requires { from + N * T.WIDTH ≤ answer_bytes }
    ensures { StoredEach T.bytes from N entries out.old out.new }
{
    let mut at = from;
    for i in 0..N {
        entries[i].store(out, at);
        at += T::WIDTH;
    }
}

// A whole answer.
pub fn answer_bytes(a: ReadAnswer) -> [u8; ANSWER_BYTES]
    ensures { (result ≡ answer_bytes_of a) × (length result ≡ answer_bytes) }
{
    let p = a.programme;
    let beds = p.beds;
    let timing = a.timing;
    let updates = timing.updates;
    let mut out = [0u8; ANSWER_BYTES];
    lay(&mut out, 0, a.place.to_le_bytes());
    lay(&mut out, 8, [a.refusal, a.unknown, 0, 0]);
    lay(
        &mut out,
        12,
        [
            p.objects,
            p.dynonly,
            p.lfe,
            p.content,
            p.distribute,
            p.multiple,
        ],
    );
    lay(
        &mut out,
        18,
        [p.instances, p.bedcount, p.isf, p.dynamics, 0, 0],
    );
    store_each(&mut out, 24, beds);
    lay(&mut out, 96, [timing.blocks, 0]);
    store_each(&mut out, 98, updates);
    lay(&mut out, 130, [0, 0]);
    lay(&mut out, 132, a.missing.to_le_bytes());
    out
}

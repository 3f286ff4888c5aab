// The extended object element (5.5.13), laid into the records that stand already.
ghost use Rattle.std.specs.Prelude.{◌≡◌, Bool, List, ℕ, ◌++◌, ◌+◌, ◌≤◌, length};
ghost use Rattle.bits.specs.Language.{P, bit};
ghost use Rattle.bits.specs.View.{Reads};
ghost use Rattle.oamd.specs.Extended.{obj_div_block, ext_prec_pos_block};
ghost use Rattle.oamd.specs.Record.{Record, record_bytes_of, divergence_bytes, precise_bytes};
ghost use Rattle.oamd.specs.Tables.{record_bytes};
ghost use Rattle.record.specs.Bytes.{set_from, divergence_byte, precise_byte};
ghost use Rattle.record.specs.Laws.{divergence-stored, precise-stored};
ghost use Rattle.reader.specs.Rooms.{RecordsRoom};
ghost use Rattle.reader.specs.Steps.{Passed, with_divergence, with_precise, ExtendedRead};

use bits::{Cur, Limit, Step};
use oamd::{Divergence, Precise, RECORD_BYTES};

// What the element has for each record: how it is read, and where it is laid in the record's bytes.
trait Extra: Copy {
    ghost block: { Bool → P Self };

    ghost given: { Record → Self → Record };

    ghost first: { ℕ };

    ghost bytes: { Self → List ℕ };

    fn read(s: &[u8], l: Limit, c: Cur, carries: bool) -> Step<Self>
        ensures { Reads (block carries) (bit s.now) c l result.value result.cur };

    fn store(self, records: &mut [u8], at: usize)
        requires { at + record_bytes ≤ length records.old }
        ensures { records.new ≡ set_from at first (bytes self) records.old };

    ghost lays: { (r : Record) (x : Self) (tail : List ℕ) → set_from 0 first (bytes x) (record_bytes_of r ++ tail) ≡ record_bytes_of (given r x) ++ tail };
}

impl Extra for Divergence {
    ghost block = { obj_div_block };

    ghost given = { with_divergence };

    ghost first = { divergence_byte };

    ghost bytes = { divergence_bytes };

    fn read(s: &[u8], l: Limit, c: Cur, carries: bool) -> Step<Divergence> {
        syntax::read_divergence(s, l, c, carries)
    }

    fn store(self, records: &mut [u8], at: usize) {
        record::store_divergence(records, at, self);
    }

    ghost lays = { divergence-stored };
}

impl Extra for Precise {
    ghost block = { ext_prec_pos_block };

    ghost given = { with_precise };

    ghost first = { precise_byte };

    ghost bytes = { precise_bytes };

    fn read(s: &[u8], l: Limit, c: Cur, carries: bool) -> Step<Precise> {
        syntax::read_precise(s, l, c, carries)
    }

    fn store(self, records: &mut [u8], at: usize) {
        record::store_precise(records, at, self);
    }

    ghost lays = { precise-stored };
}

// One for each of n records.
fn read_extras<X: Extra>(s: &[u8], l: Limit, c: Cur, n: usize, out: &mut [u8]) -> Cur
    requires { RecordsRoom n out.old }
    ensures { Passed X.block X.given n (bit s.now) c l out.old result out.new }
{
    let mut cur = c;
    for i in 0..n {
        if cur.no != 0 {
            return cur;
        }
        let at = RECORD_BYTES * i;
        let step = X::read(s, l, cur, record::carries_at(out, at));
        step.value.store(out, at);
        cur = step.cur;
    }
    cur
}

// Both blocks of each of n records, which stand at the front of out.
pub fn read_extended(s: &[u8], l: Limit, c: Cur, n: usize, out: &mut [u8]) -> Cur
    requires { RecordsRoom n out.old }
    ensures { ExtendedRead n (bit s.now) c l out.old result out.new }
{
    let diverging = bits::take(s, l, c, 1);
    let behind = if diverging.v == 1 {
        read_extras::<Divergence>(s, l, diverging, n, out)
    } else {
        diverging
    };
    let refined = bits::take(s, l, behind, 1);
    if refined.v == 1 {
        read_extras::<Precise>(s, l, refined, n, out)
    } else {
        refined
    }
}

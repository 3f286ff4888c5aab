// Which elements of a payload salvage drops: one pass over them, which passes over each that is refused.
ghost use Rattle.std.specs.Prelude.{◌≡◌, replicate};
ghost use Rattle.bits.specs.Language.{bit};
ghost use Rattle.oamd.specs.Tables.{most_elements};
ghost use Rattle.reader.specs.Sifts.{no_gone, refusal_of, sifted};
ghost use Rattle.reader.specs.Steps.{lent};
ghost use Rattle.reader.specs.Turns.{Turning, RefusedAt, Dropped, TurnRead, Counted};

use crate::answers::missing_bits;
use crate::element::{nothing_read, read_element};
use crate::payload::{limit_of, read_head, scope_of};
use crate::trim::no_trim;
use crate::{Header, Refused, Scope, Sifted, State, Turn};
use bits::{Cur, Limit, Refusal, Step};
use oamd::{Gone, MOST_BYTES, MOST_ELEMENTS, MOST_TRIM, SCRATCH_BYTES};
use units::BitPos;

// Room for all that can be dropped.
fn none_gone() -> [Gone; MOST_ELEMENTS]
    ensures { result ≡ replicate most_elements no_gone }
{
    let none = Gone {
        from: BitPos::new(0),
        to: BitPos::new(0),
        place: BitPos::new(0),
        id: 0,
        refusal: 0,
    };
    [none; MOST_ELEMENTS]
}

// The refusal that a cursor carries.
fn refused_at(c: Cur) -> Refused
    ensures { result ≡ refusal_of c.no c.at.0 c.missing }
{
    Refused {
        place: c.at.raw() as u64,
        missing: missing_bits(c.no, c.missing),
        refusal: c.no,
    }
}

// An element that begins at c and was refused, as d says: the pass ends if it passes the payload's end, and goes on behind its declared end else.
fn drop_element(s: &[u8], l: Limit, c: Cur, d: Cur, alternate: u32, state: State) -> Turn
    requires { RefusedAt l c d }
    ensures { Dropped alternate state (bit s.now) c l d result }
{
    if d.no == Refusal::EndsEarly.number() {
        return Turn {
            state,
            cur: d,
            gone: None,
        };
    }
    let id = bits::take(s, l, c, 4);
    let step = syntax::read_frame(s, l, c, alternate);
    let gone = Gone {
        from: c.at,
        to: step.cur.at,
        place: d.at,
        id: id.v as u8,
        refusal: d.no,
    };
    Turn {
        state,
        cur: step.cur,
        gone: Some(gone),
    }
}

// One element: where it is refused, what is held stands as it was before it.
fn sift_element(
    s: &[u8],
    l: Limit,
    c: Cur,
    scope: Scope,
    st: State,
    out: &mut [u8; SCRATCH_BYTES],
    table: &mut [u8; MOST_TRIM],
) -> Turn
    requires { Turning l c scope st (lent out.old table.old) }
    ensures { TurnRead scope st (bit s.now) c l (lent out.old table.old) result (lent out.new table.new) }
{
    let kept = *out;
    let kept_table = *table;
    let step = read_element(s, l, c, scope, st, out, table);
    if step.cur.no == 0 {
        return Turn {
            state: step.value,
            cur: step.cur,
            gone: None,
        };
    }
    *out = kept;
    *table = kept_table;
    drop_element(s, l, c, step.cur, scope.alternate, st)
}

// All elements, behind the header and their count.
fn sift_elements(s: &[u8], l: Limit, head: Step<Header>, count: Cur) -> Result<Sifted, Refused>
    requires { Counted s.now l head count }
    ensures { result ≡ sifted s.now }
{
    let scope = scope_of(head.value);
    let mut scratch = [0u8; SCRATCH_BYTES];
    let mut table = no_trim();
    let mut state = nothing_read();
    let mut gone = none_gone();
    let mut drops: usize = 0;
    let mut cur = count;
    for i in 0..count.v {
        let turn = sift_element(s, l, cur, scope, state, &mut scratch, &mut table);
        cur = turn.cur;
        if cur.no != 0 {
            return Err(refused_at(cur));
        }
        state = turn.state;
        if let Some(one) = turn.gone {
            gone[drops] = one;
            drops += 1;
        }
    }
    Ok(Sifted {
        head: head.cur.at,
        count: count.v,
        body: count.at,
        drops,
        gone,
    })
}

// Which elements salvage drops, or the refusal for which nothing can be salvaged.
pub fn sift(payload: &[u8]) -> Result<Sifted, Refused>
    ensures { result ≡ sifted payload.now }
{
    let len = payload.len();
    if MOST_BYTES < len {
        return Err(Refused {
            place: len as u64,
            missing: 0,
            refusal: Refusal::TooLong.number(),
        });
    }
    let head = read_head(payload);
    let l = limit_of(payload);
    let count = syntax::read_element_count(payload, l, head.cur);
    if count.no != 0 {
        return Err(refused_at(count));
    }
    sift_elements(payload, l, head, count)
}

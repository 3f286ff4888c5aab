// The whole payload (5.5.2).
ghost use Rattle.std.specs.Prelude.{◌≡◌, ◌≤◌, length};
ghost use Rattle.bits.specs.Language.{bit};
ghost use Rattle.oamd.specs.Tables.{most_bytes};
ghost use Rattle.reader.specs.Steps.{lent, scope_of, whole_of, Headed, Opening, HeaderRead, PayloadRead};

use crate::element::{nothing_read, read_elements};
use crate::{Header, Parsed, Scope};
use bits::{Cur, Limit, Refusal, Step};
use oamd::MOST_TRIM;
use units::{BitPos, ByteCount};

// What stands before the element count. The object counts are compared as soon as the program assignment has been read.
fn read_header(s: &[u8], l: Limit, c: Cur) -> Step<Header>
    ensures { HeaderRead (bit s.now) c l result }
{
    let version = syntax::read_version(s, l, c);
    let objects = syntax::read_object_count(s, l, version);
    let step = syntax::read_assignment(s, l, objects, objects.v as u8);
    let agreed = bits::refuse_if(
        !meaning::agrees(step.value),
        s,
        l,
        step.cur,
        Refusal::Counts,
        0,
    );
    let alternate = bits::take(s, l, agreed, 1);
    Step {
        value: Header {
            programme: step.value,
            alternate: alternate.v,
        },
        cur: alternate,
    }
}

// The limit of a payload: its last bit.
pub fn limit_of(s: &[u8]) -> Limit
    requires { length s.now ≤ most_bytes }
    ensures { result ≡ whole_of s.now }
{
    let n = ByteCount::new(s.len() as u32);
    Limit {
        end: BitPos::new(n.bits() as u32),
        inner: false,
    }
}

// The header of a payload.
pub fn read_head(s: &[u8]) -> Step<Header>
    requires { length s.now ≤ most_bytes }
    ensures { Headed s.now result }
{
    let l = limit_of(s);
    let c = Cur {
        missing: 0,
        v: 0,
        at: BitPos::new(0),
        no: 0,
    };
    read_header(s, l, c)
}

// What the elements behind a header are read by.
pub fn scope_of(head: Header) -> Scope
    ensures { result ≡ scope_of head }
{
    Scope {
        objects: head.programme.objects as usize,
        shares: meaning::shares(head.programme),
        alternate: head.alternate,
    }
}

// All of it, behind its header.
pub fn read_payload(
    s: &[u8],
    head: Step<Header>,
    out: &mut [u8],
    table: &mut [u8; MOST_TRIM],
) -> Step<Parsed>
    requires { Opening s.now head (lent out.old table.old) }
    ensures { PayloadRead s.now out.old result (lent out.new table.new) }
{
    let l = limit_of(s);
    let count = syntax::read_element_count(s, l, head.cur);
    let scope = scope_of(head.value);
    let step = read_elements(s, l, count, scope, nothing_read(), count.v, out, table);
    Step {
        value: Parsed {
            programme: head.value.programme,
            state: step.value,
        },
        cur: step.cur,
    }
}

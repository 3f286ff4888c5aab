// One element after the other (5.5.4).
ghost use Rattle.std.specs.Prelude.{◌≡◌};
ghost use Rattle.bits.specs.Language.{bit};
ghost use Rattle.reader.specs.Steps.{lent, nothing_read, seen, too_early, HeadLength, Underway, FieldsRead, KnownRead, BodyRead, OneRead, ElementsRead};

use crate::extended::read_extended;
use crate::objects::read_object_element;
use crate::trim::read_trim;
use crate::{Scope, State};
use bits::{Cur, Limit, Refusal, Step};
use oamd::{Kind, MOST_TRIM};
use units::ByteCount;

// ---- what a further kind of element adds a line to

// Whether an element of a kind has been read.
fn is_second(kind: Kind, st: State) -> bool
    ensures { result ≡ seen kind st }
{
    match kind {
        Kind::Unknown => false,
        Kind::Object => st.object,
        Kind::Trim => st.trim,
        Kind::Extended => st.extended,
    }
}

// Whether one that must stand before it has not been read.
fn is_early(kind: Kind, st: State) -> bool
    ensures { result ≡ too_early kind st }
{
    match kind {
        Kind::Unknown => false,
        Kind::Object => false,
        Kind::Trim => false,
        Kind::Extended => !st.object,
    }
}

// The fields of a known element: into the state, and into the buffer that takes them.
fn read_fields(
    s: &[u8],
    l: Limit,
    c: Cur,
    scope: Scope,
    st: State,
    kind: Kind,
    out: &mut [u8],
    table: &mut [u8; MOST_TRIM],
) -> Step<State>
    requires { Underway 1 scope st (lent out.old table.old) }
    ensures { FieldsRead kind scope st (bit s.now) c l (lent out.old table.old) result (lent out.new table.new) }
{
    match kind {
        Kind::Unknown => Step { value: st, cur: c },
        Kind::Object => {
            let step = read_object_element(s, l, c, scope, out);
            let mut state = st;
            state.timing = step.value;
            state.object = true;
            Step {
                value: state,
                cur: step.cur,
            }
        }
        Kind::Trim => {
            let cur = read_trim(s, l, c, scope.objects, table);
            let mut state = st;
            state.trim = true;
            Step { value: state, cur }
        }
        Kind::Extended => {
            let cur = read_extended(s, l, c, scope.objects * st.timing.blocks as usize, out);
            let mut state = st;
            state.extended = true;
            Step { value: state, cur }
        }
    }
}

// ---- the same for every kind

// A known element behind its discard flag, back bits behind the first of its id.
fn read_known(
    s: &[u8],
    l: Limit,
    c: Cur,
    scope: Scope,
    st: State,
    kind: Kind,
    back: u32,
    out: &mut [u8],
    table: &mut [u8; MOST_TRIM],
) -> Step<State>
    requires { Underway 1 scope st (lent out.old table.old) }
    ensures { KnownRead kind back scope st (bit s.now) c l (lent out.old table.old) result (lent out.new table.new) }
{
    let first = bits::refuse_if(is_second(kind, st), s, l, c, Refusal::Second, back);
    let timely = bits::refuse_if(is_early(kind, st), s, l, first, Refusal::Early, back);
    if timely.no != 0 {
        return Step {
            value: st,
            cur: timely,
        };
    }
    read_fields(s, l, timely, scope, st, kind, out, table)
}

// An element behind its discard flag: an unknown one is passed over and counted.
fn read_body(
    s: &[u8],
    l: Limit,
    c: Cur,
    scope: Scope,
    st: State,
    kind: Kind,
    back: u32,
    out: &mut [u8],
    table: &mut [u8; MOST_TRIM],
) -> Step<State>
    requires { Underway 1 scope st (lent out.old table.old) }
    ensures { BodyRead kind back scope st (bit s.now) c l (lent out.old table.old) result (lent out.new table.new) }
{
    if let Kind::Unknown = kind {
        let mut state = st;
        state.unknown += 1;
        return Step {
            value: state,
            cur: c,
        };
    }
    read_known(s, l, c, scope, st, kind, back, out, table)
}

// The bits that the alternate id, where there is one, and the discard flag take.
fn head_bits(alternate: u32) -> u32
    ensures { HeadLength alternate result }
{
    if alternate == 1 { 5 } else { 1 }
}

// An element: id, size, which must fit, and, held to its declared end, alternate id, discard flag and fields.
pub fn read_element(
    s: &[u8],
    l: Limit,
    c: Cur,
    scope: Scope,
    st: State,
    out: &mut [u8],
    table: &mut [u8; MOST_TRIM],
) -> Step<State>
    requires { Underway 1 scope st (lent out.old table.old) }
    ensures { OneRead scope st (bit s.now) c l (lent out.old table.old) result (lent out.new table.new) }
{
    let id = bits::take(s, l, c, 4);
    let step = bits::read_size(s, l, id);
    let size = step.value;
    let sized = step.cur;
    let length = ByteCount::new(size.value + 1);
    let counted = 5 * size.groups;
    let begun = bits::open(l, sized, length, counted);
    let held = bits::inner_of(l, sized, length);
    let other = bits::take_if(scope.alternate == 1, s, held, begun, 4);
    let discard = bits::take(s, held, other, 1);
    let kind = oamd::kind_of(id.v, other.v);
    let back = 4 + counted + head_bits(scope.alternate);
    let body = read_body(s, held, discard, scope, st, kind, back, out, table);
    Step {
        value: body.value,
        cur: bits::close(body.cur, held),
    }
}

// What has been read before the first element.
pub fn nothing_read() -> State
    ensures { result ≡ nothing_read }
{
    State {
        timing: meaning::no_timing(),
        object: false,
        trim: false,
        extended: false,
        unknown: 0,
    }
}

// n elements more, up to the first refusal.
pub fn read_elements(
    s: &[u8],
    l: Limit,
    c: Cur,
    scope: Scope,
    st: State,
    n: u32,
    out: &mut [u8],
    table: &mut [u8; MOST_TRIM],
) -> Step<State>
    requires { Underway n scope st (lent out.old table.old) }
    ensures { ElementsRead n scope st (bit s.now) c l (lent out.old table.old) result (lent out.new table.new) }
{
    let mut state = st;
    let mut cur = c;
    for i in 0..n {
        if cur.no != 0 {
            return Step { value: state, cur };
        }
        let step = read_element(s, l, cur, scope, state, out, table);
        state = step.value;
        cur = step.cur;
    }
    Step { value: state, cur }
}

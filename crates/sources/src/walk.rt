// From the first bit of a payload to a block of an object, and to what the extended element has for a record. The payload has been read, and nothing of it was refused.
ghost use Rattle.std.specs.Prelude.{◌≡◌, false};
ghost use Rattle.bits.specs.Language.{bit, for};
ghost use Rattle.oamd.specs.Element.{head_length};
ghost use Rattle.oamd.specs.Programme.{class_of};
ghost use Rattle.oamd.specs.ObjectElement.{object_data};
ghost use Rattle.oamd.specs.Extended.{obj_div_block, ext_prec_pos_block};
ghost use Rattle.reader.specs.Steps.{Headed};
ghost use Rattle.sources.specs.Asked.{Accepted, Asked, Recorded};
ghost use Rattle.sources.specs.Walks.{Went, wanted_by, inside_at, Begun, Sought, BlockFound, carries_at, Room, DivergenceFound, PreciseFound};

use crate::again::{read_divergence, read_precise};
use crate::telling::index_of;
use crate::{Extra, Inside, Placed};
use bits::{Cur, Limit, Step};
use oamd::{Kind, RECORD_STRIDE, Shares};
use reader::Header;
use units::BitPos;

// ---- to an element

// Whether an element is the extended one, or else the object element.
fn is_wanted(extended: bool, kind: Kind) -> bool
    ensures { result ≡ wanted_by extended kind }
{
    match kind {
        Kind::Unknown => false,
        Kind::Object => !extended,
        Kind::Trim => false,
        Kind::Extended => extended,
    }
}

// The bits that the alternate id, where there is one, and the discard flag take.
fn head_bits(alternate: u32) -> u32
    ensures { result ≡ head_length alternate }
{
    if alternate == 1 { 5 } else { 1 }
}

// What stands from a bit of an element on, up to its end.
fn inside(at: u32, end: BitPos) -> Inside
    ensures { result ≡ inside_at at end.0 }
{
    Inside {
        cur: Cur {
            missing: 0,
            v: 0,
            at: BitPos::new(at),
            no: 0,
        },
        held: Limit { end, inner: true },
    }
}

// The fields of the extended element, or else of the object element, among n that follow.
fn find_element(
    s: &[u8],
    l: Limit,
    c: Cur,
    alternate: u32,
    n: u32,
    extended: bool,
) -> Option<Inside>
    requires { Begun extended s.now alternate n c l }
    ensures { Sought extended s.now result }
{
    let mut cur = c;
    for i in 0..n {
        let step = syntax::read_frame(s, l, cur, alternate);
        let frame = step.value;
        if is_wanted(extended, frame.kind) {
            let head = 4 + 5 * frame.size.groups + head_bits(alternate);
            return Some(inside(cur.at.raw() + head, step.cur.at));
        }
        cur = step.cur;
    }
    None
}

// The same among all elements, behind the header.
fn find_fields(s: &[u8], head: Step<Header>, extended: bool) -> Option<Inside>
    requires { Accepted s.now × Headed s.now head }
    ensures { Sought extended s.now result }
{
    let l = reader::limit_of(s);
    let count = syntax::read_element_count(s, l, head.cur);
    find_element(s, l, count, head.value.alternate, count.v, extended)
}

// ---- to a block

// n blocks of an object.
fn pass_blocks(s: &[u8], l: Limit, c: Cur, class: u8, n: u32) -> Cur
    ensures { Went (object_data n class) (bit s.now) c l result }
{
    let mut cur = c;
    for i in 0..n {
        cur = syntax::read_block(s, l, cur, class, i).cur;
    }
    cur
}

// n objects, of so many blocks each.
fn pass_objects(s: &[u8], l: Limit, c: Cur, shares: Shares, blocks: u32, n: u32) -> Cur
    ensures { Went (for n (λ j. object_data blocks (class_of shares j))) (bit s.now) c l result }
{
    let mut cur = c;
    for j in 0..n {
        let class = meaning::class_of(shares, j);
        cur = pass_blocks(s, l, cur, class, blocks);
    }
    cur
}

// A block of an object, as coded, and its first bit.
pub fn find_block(s: &[u8], blocks: u32, object: u32, block: u32) -> Placed
    requires { Asked s.now blocks object block }
    ensures { BlockFound s.now blocks object block result }
{
    let head = reader::read_head(s);
    let inside = find_fields(s, head, false).unwrap();
    let held = inside.held;
    let timed = reader::read_timing(s, held, inside.cur);
    let absent = bits::take(s, held, timed.cur, 1);
    let reserved = bits::take_if(absent.v == 0, s, held, absent, 5);
    let shares = meaning::shares(head.value.programme);
    let before = pass_objects(s, held, reserved, shares, blocks, object);
    let class = meaning::class_of(shares, object);
    let begun = pass_blocks(s, held, before, class, block);
    let step = syntax::read_block(s, held, begun, class, block);
    Placed {
        block: step.value,
        at: begun.at.raw(),
    }
}

// ---- to what the extended element has for a record

// obj_div_block of the first n records. Apart from what is behind it for precise positions: one loop over both would need a trait, and that is longer.
fn pass_divergences(s: &[u8], l: Limit, c: Cur, records: &[u8], n: usize) -> Cur
    requires { Room records.now n }
    ensures { Went (for n (λ i. obj_div_block (carries_at records.now i))) (bit s.now) c l result }
{
    let mut cur = c;
    for i in 0..n {
        let carries = record::carries_at(records, RECORD_STRIDE * i);
        cur = read_divergence(s, l, cur, carries).cur;
    }
    cur
}

// ext_prec_pos_block of the first n records.
fn pass_precises(s: &[u8], l: Limit, c: Cur, records: &[u8], n: usize) -> Cur
    requires { Room records.now n }
    ensures { Went (for n (λ i. ext_prec_pos_block (carries_at records.now i))) (bit s.now) c l result }
{
    let mut cur = c;
    for i in 0..n {
        let carries = record::carries_at(records, RECORD_STRIDE * i);
        cur = read_precise(s, l, cur, carries).cur;
    }
    cur
}

fn unsent() -> Extra
    ensures { result ≡ (record { sent = false; at = 0 }) }
{
    Extra { sent: false, at: 0 }
}

// obj_div_block for the record of a block of an object: whether b_object_divergence was sent, and where it begins.
pub fn find_divergence(s: &[u8], records: &[u8], blocks: u32, object: u32, block: u32) -> Extra
    requires { Asked s.now blocks object block × Recorded s.now records.now }
    ensures { DivergenceFound s.now blocks object block result }
{
    let head = reader::read_head(s);
    let Some(inside) = find_fields(s, head, true) else {
        return unsent();
    };
    let held = inside.held;
    let present = bits::take(s, held, inside.cur, 1);
    if present.v != 1 {
        return unsent();
    }
    let k = index_of(blocks, object, block);
    let begun = pass_divergences(s, held, present, records, k);
    Extra {
        sent: record::carries_at(records, RECORD_STRIDE * k),
        at: begun.at.raw(),
    }
}

// ext_prec_pos_block for it: whether ext_prec_pos_presence[] was sent, and where the block begins.
pub fn find_precise(s: &[u8], records: &[u8], blocks: u32, object: u32, block: u32) -> Extra
    requires { Asked s.now blocks object block × Recorded s.now records.now }
    ensures { PreciseFound s.now blocks object block result }
{
    let head = reader::read_head(s);
    let Some(inside) = find_fields(s, head, true) else {
        return unsent();
    };
    let held = inside.held;
    let count = head.value.programme.objects as usize * blocks as usize;
    let diverging = bits::take(s, held, inside.cur, 1);
    let behind = if diverging.v == 1 {
        pass_divergences(s, held, diverging, records, count)
    } else {
        diverging
    };
    let present = bits::take(s, held, behind, 1);
    if present.v != 1 {
        return unsent();
    }
    let k = index_of(blocks, object, block);
    let begun = pass_precises(s, held, present, records, k);
    let carries = record::carries_at(records, RECORD_STRIDE * k);
    let given = bits::take_if(carries, s, held, begun, 1);
    Extra {
        sent: given.v == 1,
        at: begun.at.raw(),
    }
}

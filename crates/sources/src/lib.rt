// Where each byte of a record comes from: its source, and that of the value which the source hands on, back to a field, the programme, a default or nothing carried.
// The definitions are in specs/.
#![tactic(auto)]

ghost use Rattle.std.specs.Prelude.{◌≡◌};
ghost use Rattle.sources.specs.Explaining.{explaining};

use bits::{Cur, Limit};
use oamd::{Block, MOST_TRIM, RECORD_BYTES, ROOM_BYTES};

mod finding; // finding.rt: the source of a byte, by what was coded; the numbers of sources and fields
mod offset; // offset.rt: where a field stands in its clause
mod again; // again.rt: divergence and precise positions, read for a walk
mod walk; // walk.rt: to a block, and to what the extended element has for a record
mod telling; // telling.rt: the source of a byte in one block, and the bit of its field
mod answer; // answer.rt: the refusals, and the steps one after the other

// The steps of an answer, at the most: each goes back by one block or by one object, from block 7 of object 158 to block 0 of object 0.
pub const MOST_STEPS: usize = 166;

// The fields that a byte of a record can come from (5.5.9 to 5.5.11, 5.5.14, 5.5.15). Their numbers, from 1 on in this order, and their lines are in specs/Sources.antt.
#[derive(Clone, Copy)]
pub enum Field {
    NotActive = 1,
    GainIdx,
    GainBits,
    DefaultPriority,
    PriorityBits,
    DiffX,
    DiffY,
    DiffZ,
    PosX,
    PosY,
    PosZ,
    DistanceSpecified,
    AtInfinity,
    DistanceIdx,
    ZoneIdx,
    Elevation,
    SizeIdx,
    SizeBits,
    Width,
    Depth,
    Height,
    ScreenRef,
    ScreenFactor,
    DepthIdx,
    Snap,
    ObjectDivergence,
    DivMode,
    DivTable,
    DivCode,
    Presence,
    PreciseX,
    PreciseY,
    PreciseZ,
}

// Where a byte comes from: a field, the last one read for it; the programme; a default of Table 28 or of Table 29; nothing carried; the block before, as it is there or moved by
// the difference in a field; the object before, in the same block.
#[derive(Clone, Copy)]
pub enum Source {
    ByField(Field),
    ByProgramme,
    ByBasicDefault,
    ByRenderDefault,
    ByNothing,
    ByBlock,
    ByMove(Field, u8),
    ByObject,
}

// The line of a field, by its clause (specs/Sources.antt): the first of object_info_block; a line of object_basic_info in it; a group of object_render_info in it, and a line of
// that group, 0 for the group itself; a line of obj_div_block; a line of ext_prec_pos_block.
#[derive(Clone, Copy)]
pub enum Spot {
    InBlock,
    InBasic(u32),
    InRender(u32, u32),
    InDivergence(u32),
    InPrecise(u32),
}

// A step: the byte's value in a block of an object, the numbers of its source and of the field, that field's first bit, and the difference as carried; what there is not is 0.
#[repr(C)]
#[derive(Clone, Copy)]
pub struct WhyStep {
    pub bit: u32,
    pub object: u8,
    pub block: u8,
    pub value: u8,
    pub source: u8,
    pub field: u8,
    pub difference: u8,
}

// Why a byte is what it is: the steps from the one asked for to the last, of which there are count; entries past them are 0. On a refusal all but refusal and place is 0, and
// but the missing bits, where the payload ends early.
#[repr(C)]
#[derive(Clone, Copy)]
pub struct WhyAnswer {
    pub place: u64,
    pub missing: u32,
    pub refusal: u8,
    pub count: u8,
    pub steps: [WhyStep; MOST_STEPS],
}

// ---- what the functions on the way to an answer hand on

// A payload that was read, with its records, and how many blocks each of its objects has.
#[derive(Clone, Copy)]
pub struct Known<'a> {
    pub payload: &'a [u8],
    pub records: &'a [u8],
    pub blocks: u32,
}

// Where a byte comes from, and the first bit of the field that its source names, else 0.
#[derive(Clone, Copy)]
pub struct Told {
    pub source: Source,
    pub bit: u32,
}

// The field that a source names, and the difference in it, as carried.
#[derive(Clone, Copy)]
pub struct Named {
    pub field: Field,
    pub difference: u8,
}

// Which object and block a chain has come to, and how many steps it may have behind that one.
#[derive(Clone, Copy)]
pub struct Link {
    pub object: u32,
    pub block: u32,
    pub left: u32,
}

// The fields of an element: where they begin, and the end that they are held to.
#[derive(Clone, Copy)]
pub struct Inside {
    pub cur: Cur,
    pub held: Limit,
}

// A block, as coded, and its first bit.
#[derive(Clone, Copy)]
pub struct Placed {
    pub block: Block,
    pub at: u32,
}

// Whether a field of the extended element was sent for a record, and where the record's block there begins.
#[derive(Clone, Copy)]
pub struct Extra {
    pub sent: bool,
    pub at: u32,
}

// ---- the question

// Why a byte of the record of a block of an object is what it is. Refused as `read` refuses the payload; then with 14: at place 1 if there is no such object, 2 if there is
// no such block, 3 if there is no such byte.
pub fn why(payload: &[u8], object: u32, block: u32, byte: u32) -> WhyAnswer
    ensures { result ≡ explaining payload.now object block byte }
{
    let mut records = [0u8; ROOM_BYTES];
    let mut trim = [0u8; MOST_TRIM];
    let a = reader::read(payload, 0, &mut records, &mut trim);
    if a.refusal != 0 {
        return answer::refused(a.refusal, a.place, a.missing);
    }
    let blocks = a.timing.blocks as u32;
    if a.programme.objects as u32 <= object {
        return answer::no_such(1);
    }
    if blocks <= block {
        return answer::no_such(2);
    }
    if RECORD_BYTES as u32 <= byte {
        return answer::no_such(3);
    }
    let known = Known {
        payload,
        records: &records,
        blocks,
    };
    answer::explain(known, object, block, byte)
}

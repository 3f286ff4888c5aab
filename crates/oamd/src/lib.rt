// The format: the types that definitions and code share. The definitions are in specs/, a file for each clause of the standard.
#![tactic(auto)]

use bits::Size;
use units::{BitPos, ByteCount, SampleCount};

mod tables; // tables.rt: the standard's tables
mod limits; // limits.rt: the limits, as constants
mod kinds; // kinds.rt: what an element is known as
mod presence; // presence.rt: which fields are there

pub use kinds::kind_of;
pub use limits::{
    ANSWER_BYTES, CONFIG_BYTES, FRAME_SAMPLES, MOST_BEDS, MOST_BLOCKS, MOST_BYTES, MOST_ELEMENTS,
    MOST_TRIM, PER_OBJECT_BYTE, RECORD_BYTES, RECORD_STRIDE, ROOM_BYTES, SCRATCH_BYTES,
    TRIM_CONFIGS, TRIM_FIXED, TRIM_HEAD,
};
pub use presence::{
    has_beds, has_centre, has_dynamic, has_gain, has_height, has_isf, has_lis, has_position,
    has_priority, has_reserved, has_screen, has_size, has_surround, has_tb, has_x, has_y, has_z,
    has_zone,
};
pub use tables::{bed_labels, distance_code, isf_objects, ramp_code, ramp_duration, sample_offset};

// One bed of the program assignment, as carried (5.5.3).
#[repr(C)]
#[derive(Clone, Copy, PartialEq, Eq)]
pub struct Bed {
    pub assignment: u32,
    pub lfeonly: u8,
    pub standard: u8,
}

// The programme: the object count, and each field of the program assignment as carried; what is not carried is 0 (5.5.3).
#[repr(C)]
#[derive(Clone, Copy, PartialEq, Eq)]
pub struct Programme {
    pub objects: u8,
    pub dynonly: u8,
    pub lfe: u8,
    pub content: u8,
    pub distribute: u8,
    pub multiple: u8,
    pub instances: u8,
    pub bedcount: u8,
    pub isf: u8,
    pub dynamics: u8,
    pub beds: [Bed; MOST_BEDS],
}

// How many objects of each class a programme has.
#[derive(Clone, Copy)]
pub struct Shares {
    pub bed: u32,
    pub isf: u32,
    pub dynamic: u32,
}

// When an update starts, and how long it takes to take hold.
#[repr(C)]
#[derive(Clone, Copy, PartialEq, Eq)]
pub struct Update {
    pub start: SampleCount,
    pub ramp: SampleCount,
}

// The timing of each block; entries past the last block are 0.
#[repr(C)]
#[derive(Clone, Copy, PartialEq, Eq)]
pub struct Timing {
    pub blocks: u8,
    pub updates: [Update; MOST_BLOCKS],
}

// A sample offset, as coded (5.5.6).
#[derive(Clone, Copy)]
pub struct Offset {
    pub code: u8,
    pub index: u8,
    pub bits: u8,
}

// A block's timing, as coded (5.5.7).
#[derive(Clone, Copy)]
pub struct BlockUpdate {
    pub bits: u16,
    pub factor: u8,
    pub code: u8,
    pub indexed: u8,
    pub index: u8,
}

// How the values of a group are found (Tables 28 and 29).
#[derive(Clone, Copy)]
pub enum Status {
    Default,
    Full,
    Reuse,
    Mixed,
}

// A gain, as coded (5.5.10).
#[derive(Clone, Copy)]
pub struct Gain {
    pub index: u8,
    pub bits: u8,
}

// A priority, as coded (5.5.10).
#[derive(Clone, Copy)]
pub struct Priority {
    pub bydefault: u8,
    pub bits: u8,
}

// object_basic_info, as coded (5.5.10).
#[derive(Clone, Copy)]
pub struct Basic {
    pub status: Status,
    pub parts: u8,
    pub gain: Gain,
    pub priority: Priority,
}

// A position, as coded: x, y, z's sign and z; or three differences (5.5.11).
#[derive(Clone, Copy)]
pub enum Position {
    Absolute(u8, u8, u8, u8),
    Moved(u8, u8, u8),
}

// A distance, as coded (5.5.11).
#[derive(Clone, Copy)]
pub struct Distance {
    pub given: u8,
    pub infinite: u8,
    pub index: u8,
}

// Zone constraints, as coded and as meant (5.5.11).
#[derive(Clone, Copy)]
pub struct Zone {
    pub index: u8,
    pub elevation: u8,
}

// A size, as coded (5.5.11).
#[derive(Clone, Copy)]
pub struct Extent {
    pub index: u8,
    pub all: u8,
    pub width: u8,
    pub depth: u8,
    pub height: u8,
}

// The screen reference, as coded and as meant (5.5.11).
#[derive(Clone, Copy)]
pub struct Screen {
    pub used: u8,
    pub factor: u8,
    pub depth: u8,
}

// object_render_info, as coded (5.5.11).
#[derive(Clone, Copy)]
pub struct Render {
    pub status: Status,
    pub parts: u8,
    pub position: Position,
    pub distance: Distance,
    pub zone: Zone,
    pub extent: Extent,
    pub screen: Screen,
    pub snap: u8,
}

// object_info_block, as coded, of an object of a class: 0 bed, 1 ISF, 2 dynamic (5.5.9).
#[derive(Clone, Copy)]
pub struct Block {
    pub class: u8,
    pub active: u8,
    pub basic: Basic,
    pub render: Render,
}

// Where an object is: bytes 4 to 7 of a record.
#[derive(Clone, Copy)]
pub struct Location {
    pub x: u8,
    pub y: u8,
    pub z: u8,
    pub distance: u8,
}

// How large an object is: bytes 8 to 10 of a record.
#[derive(Clone, Copy)]
pub struct Volume {
    pub width: u8,
    pub depth: u8,
    pub height: u8,
}

// Divergence, as carried: bytes 17 to 19 of a record (5.5.14).
#[derive(Clone, Copy)]
pub struct Divergence {
    pub used: u8,
    pub mode: u8,
    pub value: u8,
}

// A precise position, as carried: bytes 20 to 23 of a record (5.5.15).
#[derive(Clone, Copy)]
pub struct Precise {
    pub presence: u8,
    pub x: u8,
    pub y: u8,
    pub z: u8,
}

// What an object is from a block on: a record but for its last seven bytes, which the extended element gives.
#[derive(Clone, Copy)]
pub struct Scene {
    pub active: u8,
    pub class: u8,
    pub gain: u8,
    pub priority: u8,
    pub location: Location,
    pub volume: Volume,
    pub zone: Zone,
    pub screen: Screen,
    pub snap: u8,
}

// One trim configuration, as carried; what is not carried is 0 (5.5.12).
#[derive(Clone, Copy)]
pub struct TrimConfig {
    pub bydefault: u8,
    pub disabled: u8,
    pub presence: u8,
    pub centre: u8,
    pub surround: u8,
    pub height: u8,
    pub tbsign: u8,
    pub tbamount: u8,
    pub lissign: u8,
    pub lisamount: u8,
}

// What an element is to this reader.
#[derive(Clone, Copy)]
pub enum Kind {
    Unknown,
    Object,
    Trim,
    Extended,
}

// An element's frame: what it is known as, and its size.
#[derive(Clone, Copy)]
pub struct Frame {
    pub kind: Kind,
    pub size: Size,
}

// An element that salvage drops: its first bit, the first behind it, and the place, the id and the number of the refusal for which it goes.
#[derive(Clone, Copy)]
pub struct Gone {
    pub from: BitPos,
    pub to: BitPos,
    pub place: BitPos,
    pub id: u8,
    pub refusal: u8,
}

// What a read answers, beside the records. On a refusal all but refusal and place is 0, and but the missing bits, where the payload ends early.
#[repr(C)]
#[derive(Clone, Copy)]
pub struct ReadAnswer {
    pub place: u64,
    pub refusal: u8,
    pub unknown: u8,
    pub programme: Programme,
    pub timing: Timing,
    pub missing: u32,
}

// What a write answers, beside the payload: on a refusal the length is 0.
#[repr(C)]
#[derive(Clone, Copy)]
pub struct WriteAnswer {
    pub place: u64,
    pub length: ByteCount,
    pub refusal: u8,
}

// What a batch answers, beside the answers of its entries.
#[repr(C)]
#[derive(Clone, Copy)]
pub struct BatchAnswer {
    pub place: u64,
    pub refusal: u8,
}

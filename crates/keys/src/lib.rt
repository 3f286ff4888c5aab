// The key names of the listing, of the vectors, of the catalogue and of the programs, each with its sign of equality.
#![tactic(auto)]

pub const REFUSAL: [u8; 8] = *b"refusal=";

pub const PLACE: [u8; 6] = *b"place=";

pub const MISSING: [u8; 8] = *b"missing=";

pub const OBJECTS: [u8; 8] = *b"objects=";

pub const BED: [u8; 4] = *b"bed=";

pub const ISF: [u8; 4] = *b"isf=";

pub const DYNAMIC: [u8; 8] = *b"dynamic=";

pub const BLOCKS: [u8; 7] = *b"blocks=";

pub const UNKNOWN: [u8; 8] = *b"unknown=";

pub const BLOCK: [u8; 6] = *b"block=";

pub const RECORD: [u8; 7] = *b"record=";

pub const TRIM: [u8; 5] = *b"trim=";

pub const VECTOR: [u8; 7] = *b"vector=";

pub const WRITTEN: [u8; 8] = *b"written=";

pub const READ_BACK: [u8; 10] = *b"read back=";

pub const LENGTH: [u8; 7] = *b"length=";

pub const DROPS: [u8; 6] = *b"drops=";

pub const ID: [u8; 3] = *b"id=";

pub const FRAME: [u8; 6] = *b"frame=";

pub const START: [u8; 6] = *b"start=";

pub const RAMP: [u8; 5] = *b"ramp=";

pub const OBJECT: [u8; 7] = *b"object=";

// The names of a record's fields, byte 0 first.
pub const FIELDS: [&[u8]; 24] = [
    b"active=",
    b"class=",
    b"gain=",
    b"priority=",
    b"x=",
    b"y=",
    b"z=",
    b"distance=",
    b"width=",
    b"depth=",
    b"height=",
    b"zone=",
    b"elevation=",
    b"screen=",
    b"screen_factor=",
    b"screen_depth=",
    b"snap=",
    b"divergence=",
    b"divergence_mode=",
    b"divergence_value=",
    b"precise=",
    b"precise_x=",
    b"precise_y=",
    b"precise_z=",
];

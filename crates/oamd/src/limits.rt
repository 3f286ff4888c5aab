// The limits of specs/Tables.antt under the same names: contracts say those, code says these. Both are read by a proof wherever one meets the other.

// A payload's bytes, at the most.
pub const MOST_BYTES: usize = 4096;

// The elements of a payload, at the most.
pub const MOST_ELEMENTS: usize = 46;

// The update blocks, at the most.
pub const MOST_BLOCKS: usize = 8;

// The bed instances, at the most.
pub const MOST_BEDS: usize = 9;

// The bytes of a record that the payload gives.
pub const RECORD_BYTES: usize = 24;

// From one record to the next in a lent buffer: its time stands behind these bytes.
pub const RECORD_STRIDE: usize = 32;

// The samples of a frame.
pub const FRAME_SAMPLES: u16 = 1536;

// The bytes of an answer in a batch.
pub const ANSWER_BYTES: usize = 136;

// Room for the records of every payload.
pub const ROOM_BYTES: usize = 40960;

// The same without their times.
pub const SCRATCH_BYTES: usize = 30720;

// The configurations of the trim element.
pub const TRIM_CONFIGS: usize = 9;

// The bytes of a trim configuration in the trim table.
pub const CONFIG_BYTES: usize = 10;

// The bytes of the trim table before the configurations.
pub const TRIM_HEAD: usize = 3;

// The byte of the trim table that is b_disable_trim_per_obj.
pub const PER_OBJECT_BYTE: usize = 93;

// The bytes of the trim table before the flags of the objects.
pub const TRIM_FIXED: usize = 94;

// Room for the trim table of every payload.
pub const MOST_TRIM: usize = 253;

// The catalogue of a segment of frames: its text, and the text read back.
#![tactic(auto)]

ghost use Rattle.std.specs.Prelude.{◌≡◌, ◌≤◌, length};
ghost use Rattle.oamd.specs.Tables.{most_objects};

use oamd::{RECORD_BYTES, Timing};

mod before; // before.rt: the update before, as it is lent from call to call
mod entries; // entries.rt: the entries of an update
mod frames; // frames.rt: the text of frames
mod lending; // lending.rt: a frame that was read back, laid into the lent buffers
mod lines; // lines.rt: the lines of a frame and of an update
mod pages; // pages.rt: all frames of a text, read back
mod reading; // reading.rt: the calls that read a catalogue back
mod rows; // rows.rt: the entries of an update read back
mod scan; // scan.rt: the smallest steps of reading a text
mod sheets; // sheets.rt: the updates of a frame, and a frame, read back
mod writing; // writing.rt: the calls that lay a catalogue

pub use reading::{read_catalogue, read_catalogue_on};
pub use writing::{write_catalogue, write_catalogue_on};

// What a call that lays a catalogue answers: on a refusal the length is 0.
#[repr(C)]
#[derive(Clone, Copy)]
pub struct CatalogueAnswer {
    pub place: u64,
    pub length: u64,
    pub refusal: u8,
}

// What a call that reads one back answers: how many frames there are, and how many bytes of records; on a refusal both are 0.
#[repr(C)]
#[derive(Clone, Copy)]
pub struct BackAnswer {
    pub place: u64,
    pub frames: u64,
    pub bytes: u64,
    pub refusal: u8,
}

// The most objects of a frame.
const MOST_OBJECTS: u8 = 159;

// The rows of every update: 24 bytes for each of 159 objects.
pub const ROWS_BYTES: usize = RECORD_BYTES * MOST_OBJECTS as usize;

// And the number of objects in front of them, as the update before is lent.
pub const BEFORE_BYTES: usize = 1 + ROWS_BYTES;

// A text as far as it was read: what is left of it, and the number of the line there.
#[derive(Clone, Copy)]
pub(crate) struct Reader<'a> {
    pub rest: &'a [u8],
    pub line: usize,
}

// The number of a line that cannot stand where it does.
#[derive(Clone, Copy)]
pub(crate) struct BadLine {
    pub line: usize,
}

// A number of objects: no more than there can be.
#[derive(Clone, Copy)]
pub(crate) struct Objects {
    pub n: usize,
    ghost few: { n ≤ most_objects },
}

// The rows of the latest update, of so many objects, in front of an array with room for those of every update.
#[derive(Clone, Copy)]
pub(crate) struct Latest {
    pub count: Objects,
    pub bytes: [u8; ROWS_BYTES],
}

// A segment of frames, given as to a batch: a start, a length and a frame for each entry.
#[derive(Clone, Copy)]
pub(crate) struct Shelf<'a> {
    pub store: &'a [u8],
    pub starts: &'a [u64],
    pub lengths: &'a [u64],
    pub frames: &'a [u32],
    ghost each_length: { length lengths.now ≡ length starts.now },
    ghost each_frame: { length frames.now ≡ length starts.now },
}

// A frame as its lines gave it. The rows of its updates stand apart, one update behind the other.
#[derive(Clone, Copy)]
pub struct Page {
    pub frame: u32,
    pub refusal: u8,
    pub objects: u8,
    pub timing: Timing,
}

// The frames of a text: how many, and the places behind their lines and their records.
#[derive(Clone, Copy)]
pub struct Tally {
    pub frames: u64,
    pub lines: usize,
    pub records: usize,
}

// The records' room: how much of it is enough, and the gain that stands there of the object before.
ghost use Rattle.std.specs.Prelude.{◌≡◌, ◌+◌, ◌-◌, ◌≤◌, leb, length};
ghost use Rattle.bits.specs.Language.{pick};
ghost use Rattle.oamd.specs.Tables.{record_bytes};
ghost use Rattle.oamd.specs.Meaning.{zero_db};
ghost use Rattle.record.specs.Bytes.{scene_at};

// Up to so many objects, a payload's records are kept in less room: to clear all of it takes longer than to read them.
pub const FEW_OBJECTS: u8 = 16;

// The room of their records.
pub const FEW_BYTES: usize = 3072;

// The gain of 0 dB.
const ZERO_DB: u8 = 50;

// The gain that stands `back` bytes before a record, or 0 dB where no object stands before it.
pub fn gain_of_object_before(out: &[u8], at: usize, back: usize) -> u8
    requires { at + record_bytes ≤ length out.now }
    ensures { result ≡ pick (leb back at) (scene_at out.now (at - back)).gain zero_db }
{
    if back <= at {
        record::gain_at(out, at - back)
    } else {
        ZERO_DB
    }
}

// Where a byte comes from in one block of an object, and at which bit the field stands that its source names.
ghost use Rattle.std.specs.Prelude.{◌≡◌, ◌+◌, ◌*◌, ◌<◌};
ghost use Rattle.oamd.specs.Tables.{record_bytes};
ghost use Rattle.record.specs.Bytes.{divergence_byte, precise_byte};
ghost use Rattle.sources.specs.Given.{scene_count};
ghost use Rattle.sources.specs.Asked.{most_records, Asked, Recorded, named_by, told_at};

use crate::finding::{divergence_sources, precise_sources, scene_sources, source_in};
use crate::offset::{offset_in_block, offset_in_divergence, offset_in_precise};
use crate::walk::{find_block, find_divergence, find_precise};
use crate::{Known, Named, Source, Told};
use oamd::RECORD_STRIDE;

// The bytes of a record at which the divergence and the precise position begin.
const DIVERGENCE_BYTE: u32 = 17;

const PRECISE_BYTE: u32 = 20;

// Which of the records is that of a block of an object.
pub fn index_of(blocks: u32, object: u32, block: u32) -> usize
    requires { object * blocks + block < most_records }
    ensures { result ≡ object * blocks + block }
{
    (object * blocks + block) as usize
}

impl Source {
    // The field that it names, if it names one.
    pub fn named(self) -> Option<Named>
        ensures { result ≡ named_by self }
    {
        match self {
            Source::ByField(field) => Some(Named {
                field,
                difference: 0,
            }),
            Source::ByMove(field, difference) => Some(Named { field, difference }),
            _ => None,
        }
    }
}

impl Known<'_> {
    // Bytes 0 to 16.
    fn told_of_scene(self, object: u32, block: u32, byte: u32) -> Told
        requires { Asked self.payload.now self.blocks object block × (byte < scene_count) }
        ensures { result ≡ told_at self.entry.payload.now self.entry.blocks byte object block }
    {
        let placed = find_block(self.payload, self.blocks, object, block);
        let coded = placed.block;
        let source = source_in(&scene_sources(object == 0, coded), byte);
        // The first bit of the field that the source names, by where its clause begins; 0 for none.
        let bit = source.named().map_or(0, |named| {
            placed.at + offset_in_block(named.field, block == 0, coded)
        });
        Told { source, bit }
    }

    // Bytes 17 to 19, counted from 0.
    fn told_of_divergence(self, object: u32, block: u32, k: u32) -> Told
        requires { Asked self.payload.now self.blocks object block × Recorded self.payload.now self.records.now × (k < 3) }
        ensures { result ≡ told_at self.entry.payload.now self.entry.blocks (divergence_byte + k) object block }
    {
        let at = RECORD_STRIDE * index_of(self.blocks, object, block);
        let d = record::divergence_at(self.records, at);
        let extra = find_divergence(self.payload, self.records, self.blocks, object, block);
        let source = source_in(&divergence_sources(extra.sent, d), k);
        let bit = source
            .named()
            .map_or(0, |named| extra.at + offset_in_divergence(named.field, d));
        Told { source, bit }
    }

    // Bytes 20 to 23, counted from 0. Beside the last: another clause, with an entry and an offset of its own.
    fn told_of_precise(self, object: u32, block: u32, k: u32) -> Told
        requires { Asked self.payload.now self.blocks object block × Recorded self.payload.now self.records.now × (k < 4) }
        ensures { result ≡ told_at self.entry.payload.now self.entry.blocks (precise_byte + k) object block }
    {
        let at = RECORD_STRIDE * index_of(self.blocks, object, block);
        let p = record::precise_at(self.records, at);
        let extra = find_precise(self.payload, self.records, self.blocks, object, block);
        let source = source_in(&precise_sources(extra.sent, p), k);
        let bit = source
            .named()
            .map_or(0, |named| extra.at + offset_in_precise(named.field, p));
        Told { source, bit }
    }

    // Every byte of a record.
    pub fn told_at(self, object: u32, block: u32, byte: u32) -> Told
        requires { Asked self.payload.now self.blocks object block × Recorded self.payload.now self.records.now × (byte < record_bytes) }
        ensures { result ≡ told_at self.entry.payload.now self.entry.blocks byte object block }
    {
        if byte < DIVERGENCE_BYTE {
            self.told_of_scene(object, block, byte)
        } else if byte < PRECISE_BYTE {
            self.told_of_divergence(object, block, byte - DIVERGENCE_BYTE)
        } else {
            self.told_of_precise(object, block, byte - PRECISE_BYTE)
        }
    }
}

// The answer: a refusal, or the steps of the chain.
ghost use Rattle.std.specs.Prelude.{◌≡◌, ◌<◌};
ghost use Rattle.oamd.specs.Tables.{record_bytes};
ghost use Rattle.bits.specs.declared.Refusal.TheVariants.{NoSuch};
ghost use Rattle.bits.specs.Refusals.{number_of};
ghost use Rattle.sources.specs.Explaining.{unexplained, explained, steps_told};
ghost use Rattle.sources.specs.Asked.{payload_in, Asked, Recorded, link_of, step_of};

use crate::telling::index_of;
use crate::{Known, Link, MOST_STEPS, Source, Told, WhyAnswer, WhyStep};
use bits::{Refusal, minus};
use oamd::RECORD_STRIDE;

const NO_STEP: WhyStep = WhyStep {
    bit: 0,
    object: 0,
    block: 0,
    value: 0,
    source: 0,
    field: 0,
    difference: 0,
};

// A refusal, at its place, with the bits that were missing there.
pub fn refused(refusal: u8, place: u64, missing: u32) -> WhyAnswer
    ensures { result ≡ unexplained refusal place missing }
{
    WhyAnswer {
        place,
        missing,
        refusal,
        count: 0,
        steps: [NO_STEP; MOST_STEPS],
    }
}

// Refusal 14: of what is asked for, what stands in a place is not there.
pub fn no_such(place: u64) -> WhyAnswer
    ensures { result ≡ unexplained (number_of NoSuch) place 0 }
{
    refused(Refusal::NoSuch.number(), place, 0)
}

impl Link {
    // Where a chain goes on behind a step with a source, if it does.
    fn behind(self, source: Source) -> Option<Link>
        ensures { result ≡ link_of source self.object self.block self.left }
    {
        let left = self.left.checked_sub(1)?;
        match source {
            Source::ByBlock | Source::ByMove(..) => Some(Link {
                block: minus(self.block, 1),
                left,
                ..self
            }),
            Source::ByObject => Some(Link {
                object: minus(self.object, 1),
                left,
                ..self
            }),
            _ => None,
        }
    }
}

// A step of the answer.
fn step_of(told: Told, object: u32, block: u32, value: u8) -> WhyStep
    requires { (object < 256) × (block < 256) }
    ensures { result ≡ step_of told object block value }
{
    let named = told.source.named();
    WhyStep {
        bit: told.bit,
        object: object as u8,
        block: block as u8,
        value,
        source: told.source.number(),
        field: named.map_or(0, |n| n.field.number()),
        difference: named.map_or(0, |n| n.difference),
    }
}

// The chain from a byte of a block of an object back: a step for each object and block that it comes to. Each goes back by one object or by one block.
pub fn explain(known: Known, object: u32, block: u32, byte: u32) -> WhyAnswer
    requires { Asked known.payload.now known.blocks object block × Recorded known.payload.now known.records.now × (byte < record_bytes) }
    ensures { result ≡ explained (steps_told known.entry.payload.now (payload_in known.entry.payload.now) object block byte) }
{
    let mut steps = [NO_STEP; MOST_STEPS];
    let mut count: usize = 0;
    let mut next = Some(Link {
        object,
        block,
        left: object + block,
    });
    while let Some(link) = next {
        let told = known.told_at(link.object, link.block, byte);
        let at = RECORD_STRIDE * index_of(known.blocks, link.object, link.block) + byte as usize;
        steps[count] = step_of(told, link.object, link.block, known.records[at]);
        count += 1;
        next = link.behind(told.source);
    }
    WhyAnswer {
        place: 0,
        missing: 0,
        refusal: 0,
        count: count as u8,
        steps,
    }
}

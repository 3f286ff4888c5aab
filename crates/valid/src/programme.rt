// The programme: each field of the program assignment by what announces it (5.5.3).
ghost use Rattle.std.specs.Prelude.{◌≡◌};
ghost use Rattle.bits.specs.Language.{pick};
ghost use Rattle.oamd.specs.Programme.{set?, instance_count};
ghost use Rattle.form.specs.Valid.{bed_valid, programme_valid};
ghost use Rattle.valid.specs.Parts.{beds_valid, behind_beds_valid, assignment_valid};

use crate::ranges::{between, between_if, wide_between_if};
use crate::table::all_below;
use oamd::{Bed, MOST_BEDS, Programme};

// 10 flags of a standard bed, and 17 of one that is not.
const STANDARD_FLAGS: u32 = 1023;

const ALL_FLAGS: u32 = 131071;

// The indices of Table 11b up to the first reserved one.
const LAST_ISF: u8 = 5;

// 5 bits and 7 bits more.
const MOST_DYNAMICS: u8 = 158;

// num_bed_instances_bits of 3 bits.
const MOST_INSTANCES: u8 = 7;

// content_description of 4 bits with a meaning.
const MOST_CONTENT: u8 = 15;

// An assignment at the most.
fn most_assignment(standard: u8) -> u32
    ensures { result ≡ pick (set? standard) 1023 131071 }
{
    if standard == 1 {
        STANDARD_FLAGS
    } else {
        ALL_FLAGS
    }
}

// An entry of the beds: an assignment only where the bed is not the LFE channel alone. Most are not used, so that their three zeros are looked at all together.
#[tactic(auto, unfolding(form::specs::Valid::bed_valid, form::specs::Valid::between_if))]
fn bed_valid(used: bool, b: Bed) -> bool
    ensures { result ≡ bed_valid used b }
{
    if !used {
        return b.lfeonly as u64 + b.standard as u64 + b.assignment as u64 == 0;
    }
    let assigned = b.lfeonly == 0;
    let most = most_assignment(b.standard);
    let lfeonly = b.lfeonly <= 1;
    let standard = between_if(assigned, 0, 1, b.standard);
    let assignment = wide_between_if(assigned, 0, most, b.assignment);
    lfeonly & standard & assignment
}

// The first `count` of the beds are used.
fn beds_valid(beds: [Bed; MOST_BEDS], count: u8) -> bool
    ensures { result ≡ beds_valid count beds }
{
    let used = count as usize;
    all_below(MOST_BEDS, |i| bed_valid(i < used, beds[i]))
}

// num_bed_instances.
fn bed_instances(content: u8, multiple: u8, instances: u8) -> u32
    ensures { result ≡ instance_count content multiple instances }
{
    if !oamd::has_beds(content as u32) {
        return 0;
    }
    if multiple == 1 {
        instances as u32 + 2
    } else {
        1
    }
}

// The fields behind the beds, and that all together name the object count.
#[tactic(auto, unfolding(crate::specs::Parts::behind_beds_valid))]
fn behind_beds_valid(p: Programme) -> bool
    ensures { result ≡ behind_beds_valid p }
{
    let has_isf = oamd::has_isf(p.content as u32);
    let has_dynamic = oamd::has_dynamic(p.content as u32);
    let isf = between_if(has_isf, 0, LAST_ISF, p.isf);
    let dynamics = between_if(has_dynamic, 0, MOST_DYNAMICS, p.dynamics);
    isf & dynamics & meaning::agrees(p)
}

// The beds, and what stands behind them.
#[tactic(auto, unfolding(crate::specs::Parts::assignment_valid))]
fn assignment_valid(p: Programme) -> bool
    ensures { result ≡ assignment_valid p }
{
    let has_beds = oamd::has_beds(p.content as u32);
    let count = bed_instances(p.content, p.multiple, p.instances);
    let distribute = between_if(has_beds, 0, 1, p.distribute);
    let multiple = between_if(has_beds, 0, 1, p.multiple);
    let instances = between_if(p.multiple == 1, 0, MOST_INSTANCES, p.instances);
    let counted = p.bedcount as u32 == count;
    let entries = beds_valid(p.beds, p.bedcount);
    distribute & multiple & instances & counted & entries & behind_beds_valid(p)
}

// A programme such as some accepted payload gives, with the reserved content flag clear.
pub fn programme_valid(p: Programme) -> bool
    ensures { result ≡ programme_valid p }
{
    let reserved = oamd::has_reserved(p.content as u32);
    let objects = between(1, 159, p.objects);
    let dynonly = between(0, 1, p.dynonly);
    let lfe = between_if(p.dynonly == 1, 0, 1, p.lfe);
    let content = between_if(p.dynonly == 0, 0, MOST_CONTENT, p.content);
    objects & dynonly & lfe & content & !reserved & assignment_valid(p)
}

// How many objects of each class a programme has (5.6.0, 5.6.1.1, 5.6.4.8).
ghost use Rattle.std.specs.Prelude.{◌≡◌, ◌≤◌};
ghost use Rattle.oamd.specs.Tables.{bed_labels, nonstd_labels};
ghost use Rattle.oamd.specs.Programme.{labels, bed_objects, all_beds, named, agrees, shares, class_of};

use bits::pick;
use oamd::{Bed, MOST_BEDS, Programme, Shares};

// The speaker labels of bed_channel_assignment[].
fn standard_labels(v: u32) -> u32
    ensures { (result ≡ labels 10 0 bed_labels v) × (result ≤ 20) }
{
    let mut sum: u32 = 0;
    for k in 0..10 {
        if bits::flag(10, k, v) {
            sum += oamd::bed_labels(k) as u32;
        }
    }
    sum
}

// The channel labels of nonstd_bed_channel_assignment[], one for each of 17 flags that is set.
fn nonstd_labels(v: u32) -> u32
    ensures { (result ≡ labels 17 0 nonstd_labels v) × (result ≤ 17) }
{
    (v % (1 << 17)).count_ones()
}

// A bed without an assignment, as of an entry that is not used, has no labels to count.
fn bed_objects(b: Bed) -> u32
    ensures { (result ≡ bed_objects b) × (result ≤ 20) }
{
    if b.lfeonly == 1 {
        return 1;
    }
    if b.assignment == 0 {
        return 0;
    }
    if b.standard == 1 {
        return standard_labels(b.assignment);
    }
    nonstd_labels(b.assignment)
}

fn all_beds(beds: [Bed; MOST_BEDS]) -> u32
    ensures { (result ≡ all_beds beds) × (result ≤ 180) }
{
    let mut sum: u32 = 0;
    for b in beds {
        sum += bed_objects(b);
    }
    sum
}

// The objects that the assignment names. In a program of dynamic objects only, the LFE object, if it is there, is the one bed object.
fn named_by(p: Programme) -> Shares
    ensures { (result ≡ named p) × (result.bed ≤ 255) × (result.isf ≤ 255) × (result.dynamic ≤ 256) }
{
    if p.dynonly == 1 {
        return Shares {
            bed: p.lfe as u32,
            isf: 0,
            dynamic: p.objects.saturating_sub(p.lfe) as u32,
        };
    }
    let beds = p.beds;
    let content = p.content as u32;
    Shares {
        bed: all_beds(beds),
        isf: pick(oamd::has_isf(content), oamd::isf_objects(p.isf) as u32, 0),
        dynamic: pick(oamd::has_dynamic(content), p.dynamics as u32 + 1, 0),
    }
}

// Whether the objects named are the object count, or, with reserved content, no more.
pub fn agrees(p: Programme) -> bool
    ensures { result ≡ agrees p }
{
    let n = named_by(p);
    let total = n.bed + n.isf + n.dynamic;
    let objects = p.objects as u32;
    if oamd::has_reserved(p.content as u32) {
        total <= objects
    } else {
        total == objects
    }
}

// The objects of each class; what is left over counts as dynamic.
pub fn shares(p: Programme) -> Shares
    ensures { (result ≡ shares p) × (result.bed ≤ 255) × (result.isf ≤ 255) }
{
    let n = named_by(p);
    Shares {
        dynamic: (p.objects as u32).saturating_sub(n.bed + n.isf),
        ..n
    }
}

// The class of object j: beds stand first, then ISF, then dynamic objects.
pub fn class_of(s: Shares, j: u32) -> u8
    ensures { result ≡ class_of s j }
{
    if j < s.bed {
        return 0;
    }
    if j - s.bed < s.isf {
        return 1;
    }
    2
}

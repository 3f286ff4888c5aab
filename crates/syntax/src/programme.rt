// The program assignment (5.5.3).
ghost use Rattle.std.specs.Prelude.{◌≡◌, ◌≤◌, ◌<◌};
ghost use Rattle.bits.specs.Language.{bit};
ghost use Rattle.bits.specs.View.{Reads, Took, Gave};
ghost use Rattle.oamd.specs.Tables.{most_beds};
ghost use Rattle.oamd.specs.Programme.{instance_count, bed_assignment, intermediate_spatial_format, num_dynamic_objects, reserved_data, program_assignment};
ghost use Rattle.syntax.specs.Beds.{BedsRead};

use crate::Beds;
use bits::{Cur, Limit, Step};
use oamd::{Bed, MOST_BEDS, Programme};
use units::ByteCount;

fn read_bed(s: &[u8], l: Limit, c: Cur) -> Step<Bed>
    ensures { Reads bed_assignment (bit s.now) c l result.value result.cur }
{
    let lfe = bits::take(s, l, c, 1);
    let standard = bits::take_if(lfe.v == 0, s, l, lfe, 1);
    let usual = bits::take_if(standard.v == 1, s, l, standard, 10);
    let other = bits::take_if((lfe.v == 0) & (standard.v == 0), s, l, usual, 17);
    Step {
        value: Bed {
            assignment: usual.v + other.v,
            lfeonly: lfe.v as u8,
            standard: standard.v as u8,
        },
        cur: other,
    }
}

// How many beds there are: 0 to 9.
fn instances_of(content: u32, multiple: u32, instances: u32) -> u8
    requires { instances < 8 }
    ensures { (result ≡ instance_count content multiple instances) × (result ≤ most_beds) }
{
    if oamd::has_beds(content) {
        if multiple == 1 {
            instances as u8 + 2
        } else {
            1
        }
    } else {
        0
    }
}

fn read_beds(s: &[u8], l: Limit, c: Cur, content: u32) -> Step<Beds>
    ensures { BedsRead content (bit s.now) c l result }
{
    let has = oamd::has_beds(content);
    let distribute = bits::take_if(has, s, l, c, 1);
    let multiple = bits::take_if(has, s, l, distribute, 1);
    let instances = bits::take_if(multiple.v == 1, s, l, multiple, 3);
    let count = instances_of(content, multiple.v, instances.v);
    let none = Bed {
        assignment: 0,
        lfeonly: 0,
        standard: 0,
    };
    let mut beds = [none; MOST_BEDS];
    let mut cur = instances;
    for i in 0..count as usize {
        let step = read_bed(s, l, cur);
        beds[i] = step.value;
        cur = step.cur;
    }
    Step {
        value: Beds {
            distribute: distribute.v as u8,
            multiple: multiple.v as u8,
            instances: instances.v as u8,
            count,
            beds,
        },
        cur,
    }
}

fn read_isf(s: &[u8], l: Limit, c: Cur, content: u32) -> Cur
    ensures { Took (intermediate_spatial_format content) 8 (bit s.now) c l result }
{
    bits::take_unless(oamd::has_isf(content), s, l, c, 3, 6, 7)
}

fn read_dynamics(s: &[u8], l: Limit, c: Cur, content: u32) -> Cur
    ensures { Took (num_dynamic_objects content) 159 (bit s.now) c l result }
{
    let count = bits::take_if(oamd::has_dynamic(content), s, l, c, 5);
    let more = bits::take_if(count.v == 31, s, l, count, 7);
    bits::with_value(more, count.v + more.v)
}

// Reserved data is passed over.
fn pass_reserved(s: &[u8], l: Limit, c: Cur, content: u32) -> Cur
    ensures { Gave (reserved_data content) (bit s.now) c l 0 result }
{
    let has = oamd::has_reserved(content);
    let size = bits::take_if(has, s, l, c, 4);
    bits::skip_if(has, s, l, size, ByteCount::new(size.v + 1))
}

pub fn read_assignment(s: &[u8], l: Limit, c: Cur, objects: u8) -> Step<Programme>
    ensures { (result.value.objects ≡ objects) × Gave (program_assignment objects) (bit s.now) c l result.value result.cur }
{
    let dynonly = bits::take(s, l, c, 1);
    let lfe = bits::take_if(dynonly.v == 1, s, l, dynonly, 1);
    let content = bits::take_if(dynonly.v == 0, s, l, lfe, 4);
    let b = read_beds(s, l, content, content.v);
    let beds = b.value.beds;
    let isf = read_isf(s, l, b.cur, content.v);
    let dynamics = read_dynamics(s, l, isf, content.v);
    Step {
        value: Programme {
            objects,
            dynonly: dynonly.v as u8,
            lfe: lfe.v as u8,
            content: content.v as u8,
            distribute: b.value.distribute,
            multiple: b.value.multiple,
            instances: b.value.instances,
            bedcount: b.value.count,
            isf: isf.v as u8,
            dynamics: dynamics.v as u8,
            beds,
        },
        cur: pass_reserved(s, l, dynamics, content.v),
    }
}

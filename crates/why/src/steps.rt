// The line of a step: object, block, value, and where the value comes from.
use sources::WhyStep;
use std::io;
use std::io::Print;
use text::{lay_byte, lay_bytes, lay_decimal, lay_number};

const STEP: [u8; 5] = *b"step=";

// The source that is a field.
const FIELD: u8 = 1;

// The word of a source, by its number in an answer, which C reads, too.
fn word_of(source: u8) -> &'static str {
    match source {
        1 => "field",
        2 => "programme",
        3 => "default,28",
        4 => "default,29",
        5 => "nothing",
        6 => "block",
        _ => "object",
    }
}

// The name of a field in the standard, by its number from 1 on.
fn name_of(field: u8) -> &'static str {
    match field {
        1 => "b_object_not_active",
        2 => "object_gain_idx",
        3 => "object_gain_bits",
        4 => "b_default_object_priority",
        5 => "object_priority_bits",
        6 => "diff_pos3D_X_bits",
        7 => "diff_pos3D_Y_bits",
        8 => "diff_pos3D_Z_bits",
        9 => "pos3D_X_bits",
        10 => "pos3D_Y_bits",
        11 => "pos3D_Z_bits",
        12 => "b_object_distance_specified",
        13 => "b_object_at_infinity",
        14 => "distance_factor_idx",
        15 => "zone_constraints_idx",
        16 => "b_enable_elevation",
        17 => "object_size_idx",
        18 => "object_size_bits",
        19 => "object_width_bits",
        20 => "object_depth_bits",
        21 => "object_height_bits",
        22 => "b_object_use_screen_ref",
        23 => "screen_factor_bits",
        24 => "depth_factor_idx",
        25 => "b_object_snap",
        26 => "b_object_divergence",
        27 => "object_div_mode",
        28 => "object_div_table",
        29 => "object_div_code",
        30 => "ext_prec_pos_presence[]",
        31 => "ext_prec_pos3D_X",
        32 => "ext_prec_pos3D_Y",
        _ => "ext_prec_pos3D_Z",
    }
}

// A difference of 3 bits, as a number with its sign.
fn lay_difference(text: &mut [u8], at: usize, difference: u8) -> usize {
    match difference {
        4..=7 => {
            let to = lay_byte(text, at, b'-');
            lay_decimal(text, to, 8 - difference as u64)
        }
        _ => lay_decimal(text, at, difference as u64),
    }
}

// Behind the word of a source: the field and its bit, and the difference that moves the block before.
fn lay_field(text: &mut [u8], at: usize, s: WhyStep) -> usize {
    if s.field == 0 {
        return at;
    }
    let to = lay_byte(text, at, b',');
    let to = lay_bytes(text, to, name_of(s.field).as_bytes());
    let to = lay_byte(text, to, b',');
    let to = lay_decimal(text, to, s.bit as u64);
    if s.source == FIELD {
        return to;
    }
    let to = lay_byte(text, to, b',');
    lay_difference(text, to, s.difference)
}

pub fn show<P: Print>(out: &P, s: WhyStep) -> io::Result<()> {
    let mut page = [0u8; 128];
    let to = lay_bytes(&mut page, 0, &STEP);
    let to = lay_number(&mut page, to, s.object as u64, b',');
    let to = lay_number(&mut page, to, s.block as u64, b',');
    let to = lay_number(&mut page, to, s.value as u64, b',');
    let to = lay_bytes(&mut page, to, word_of(s.source).as_bytes());
    let to = lay_field(&mut page, to, s);
    let to = lay_byte(&mut page, to, b'\n');
    printing::show(out, &page, to)
}

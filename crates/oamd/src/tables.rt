// The standard's tables. A lookup past a table's end gives 0.
ghost use Rattle.std.specs.Prelude.{◌≡◌, ◌≤◌, get_or};
ghost use Rattle.oamd.specs.Tables.{isf_objects, bed_labels, distance_codes, sample_offsets, ramp_codes, ramp_durations};

// Table 11b: objects by intermediate_spatial_format_idx.
const ISF_OBJECTS: [u8; 6] = [4, 8, 10, 14, 15, 30];

// Table 12: labels by index of bed_channel_assignment[].
const BED_LABELS: [u8; 10] = [1, 2, 2, 2, 2, 2, 2, 1, 1, 2];

// Table 15: byte 7 of a record by distance_factor_idx.
const DISTANCE_CODES: [u8; 16] = [2, 3, 4, 5, 6, 7, 8, 9, 10, 11, 12, 13, 14, 15, 16, 17];

// Table 23: samples by sample_offset_idx.
const SAMPLE_OFFSETS: [u8; 4] = [8, 16, 18, 24];

// Table 24: samples by ramp_duration_code.
const RAMP_CODES: [u16; 3] = [0, 512, 1536];

// Table 25: samples by ramp_duration_idx.
const RAMP_DURATIONS: [u16; 16] = [
    32, 64, 128, 256, 320, 480, 1000, 1001, 1024, 1600, 1601, 1602, 1920, 2000, 2002, 2048,
];

pub fn isf_objects(i: u8) -> u8
    ensures { result ≡ get_or isf_objects i 0 }
{
    ISF_OBJECTS.get(i as usize).copied().unwrap_or(0)
}

pub fn bed_labels(i: u32) -> u8
    ensures { (result ≡ get_or bed_labels i 0) × (result ≤ 2) }
{
    BED_LABELS.get(i as usize).copied().unwrap_or(0)
}

pub fn distance_code(i: u8) -> u8
    ensures { result ≡ get_or distance_codes i 0 }
{
    DISTANCE_CODES.get(i as usize).copied().unwrap_or(0)
}

pub fn sample_offset(i: u8) -> u8
    ensures { result ≡ get_or sample_offsets i 0 }
{
    SAMPLE_OFFSETS.get(i as usize).copied().unwrap_or(0)
}

pub fn ramp_code(i: u8) -> u16
    ensures { result ≡ get_or ramp_codes i 0 }
{
    RAMP_CODES.get(i as usize).copied().unwrap_or(0)
}

pub fn ramp_duration(i: u8) -> u16
    ensures { result ≡ get_or ramp_durations i 0 }
{
    RAMP_DURATIONS.get(i as usize).copied().unwrap_or(0)
}

// Calls from outside, as tests, of exported methods that no other crate calls. What is wanted of a payload was worked by hand, field by field (crates/sources/specs/Worked.antt).
#![tactic(auto)]

#[cfg(test)]
mod tests {
    use oamd::{Gone, MOST_TRIM, RECORD_BYTES, ROOM_BYTES};
    use sources::{Field, Known, Source, Told};
    use units::BitPos;

    // Two dynamic objects, two blocks, and divergence.
    const DIVERGING: [u8; 25] = [
        0x03, 0x08, 0x42, 0x00, 0x40, 0x01, 0x29, 0x48, 0x2a, 0x54, 0x20, 0x58, 0xea, 0x81, 0x8f,
        0xf8, 0x0f, 0x08, 0x1c, 0x4c, 0x05, 0x22, 0xd0, 0xd0, 0x00,
    ];

    // A bed object and a dynamic one, four blocks, divergence and precise positions.
    const PRECISE: [u8; 41] = [
        0x03, 0xcc, 0x84, 0x20, 0x00, 0x21, 0xa0, 0x06, 0x00, 0x08, 0x10, 0x19, 0x70, 0x4e, 0x44,
        0xff, 0x95, 0x53, 0x27, 0x47, 0x27, 0x1b, 0x9e, 0x54, 0x3f, 0xd3, 0xe9, 0xe3, 0x04, 0x43,
        0xda, 0x6c, 0xa0, 0x02, 0xa9, 0xd9, 0x56, 0x87, 0x5c, 0x3d, 0xb0,
    ];

    // What is told of a byte, if the payload is accepted and has the object, the block and the byte.
    fn told(payload: &[u8], object: u32, block: u32, byte: u32) -> Option<Told> {
        let mut records = [0u8; ROOM_BYTES];
        let mut trim = [0u8; MOST_TRIM];
        let a = reader::read(payload, 0, &mut records, &mut trim);
        let blocks = a.timing.blocks as u32;
        if a.refusal != 0 {
            return None;
        }
        if a.programme.objects as u32 <= object {
            return None;
        }
        if blocks <= block {
            return None;
        }
        if RECORD_BYTES as u32 <= byte {
            return None;
        }
        let known = Known {
            payload,
            records: &records,
            blocks,
        };
        Some(known.told_at(object, block, byte))
    }

    // The numbers of a source and of the field that it names, the difference in it, and the field's first bit; what there is not is 0.
    fn numbers(told: Told) -> (u8, u8, u8, u32) {
        let source = told.source;
        let (field, difference) = match source.named() {
            Some(named) => (named.field.number(), named.difference),
            None => (0, 0),
        };
        (source.number(), field, difference, told.bit)
    }

    #[test]
    fn where_bytes_come_from(rt: HostRuntime) {
        let diverging: &[u8] = &DIVERGING;
        let precise: &[u8] = &PRECISE;
        let table = [
            (diverging, 1, 1, 2, (6, 0, 0, 0)),
            (diverging, 1, 0, 2, (7, 0, 0, 0)),
            (diverging, 0, 0, 2, (1, 3, 0, 54)),
            (diverging, 0, 1, 4, (6, 6, 5, 98)),
            (diverging, 0, 1, 16, (1, 25, 0, 108)),
            (diverging, 0, 0, 1, (2, 0, 0, 0)),
            (diverging, 0, 0, 17, (1, 26, 0, 175)),
            (diverging, 0, 0, 18, (5, 0, 0, 0)),
            (diverging, 0, 1, 19, (1, 29, 0, 179)),
            (precise, 0, 2, 2, (3, 0, 0, 0)),
            (precise, 0, 0, 4, (4, 0, 0, 0)),
            (precise, 1, 2, 6, (6, 8, 3, 214)),
            (precise, 1, 0, 20, (1, 30, 0, 304)),
            (precise, 1, 0, 21, (5, 0, 0, 0)),
            (precise, 1, 3, 23, (1, 33, 0, 322)),
        ];
        for (payload, object, block, byte, want) in table {
            let got = told(payload, object, block, byte).map(numbers);
            assert_eq!(rt;
                got,
                Some(want),
                "byte {byte} of object {object} in block {block}"
            );
        }
    }

    #[test]
    fn numbers_are_those_of_c(rt: HostRuntime) {
        let sources = [
            (Source::ByField(Field::PosX), 1),
            (Source::ByProgramme, 2),
            (Source::ByBasicDefault, 3),
            (Source::ByRenderDefault, 4),
            (Source::ByNothing, 5),
            (Source::ByBlock, 6),
            (Source::ByMove(Field::DiffX, 5), 6),
            (Source::ByObject, 7),
        ];
        for (source, number) in sources {
            assert_eq!(rt; source.number(), number);
        }
        let fields = [
            (Field::NotActive, 1),
            (Field::PosX, 9),
            (Field::SizeIdx, 17),
            (Field::Snap, 25),
            (Field::PreciseZ, 33),
        ];
        for (field, number) in fields {
            assert_eq!(rt; field.number(), number);
        }
    }

    #[test]
    fn what_is_told_of_a_drop(rt: HostRuntime) {
        let gone = Gone {
            from: BitPos::new(40),
            to: BitPos::new(72),
            place: BitPos::new(53),
            id: 5,
            refusal: 4,
        };
        let told = salvaging::Drop::from(gone);
        assert_eq!(rt; (told.place.raw(), told.id, told.refusal), (53, 5, 4));
    }
}

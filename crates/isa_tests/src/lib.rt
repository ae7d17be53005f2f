// Tests of the word codec at both ends of every range and one past them, against a table of their own.
#![tactic(auto)]

#[cfg(test)]
mod tests {
    use isa::codec::{compose, pack, unpack};
    use isa::fields::Fields;
    use isa::instruction::Instruction;
    use isa::refusal::WordRefusal;
    use std::process::Abort;
    use std::test::Fail;

    // The lowest and the highest number that a field may hold, where the kind uses it.
    type Ends = Option<(u64, u64)>;

    #[derive(Clone, Copy)]
    enum Field {
        Width,
        D,
        A,
        B,
        Imm,
    }

    // The fields that have ends in the table.
    const FIELDS: [Field; 5] = [Field::Width, Field::D, Field::A, Field::B, Field::Imm];

    const WIDTHS: Ends = Some((0, 2));

    const WRITTEN: Ends = Some((1, 31));

    const RESULT: Ends = Some((1, 63));

    const SOURCE: Ends = Some((0, 31));

    const SHADOW: Ends = Some((32, 63));

    const ANY: Ends = Some((0, 63));

    const NUMBER: Ends = Some((0, 65535));

    // A kind with a d, and with it the ends of width, d, a, b and imm. Kinds and refusals by their numbers, on which others
    // rely, and so not by the enums that are tested.
    const LEGAL: [(u64, u64, [Ends; 5]); 28] = [
        (0, 0, [None, None, None, None, None]),
        (1, 1, [None, WRITTEN, None, None, NUMBER]),
        (2, 1, [None, RESULT, SOURCE, SOURCE, None]),
        (2, 32, [None, RESULT, ANY, ANY, None]),
        (3, 2, [None, RESULT, SOURCE, SOURCE, None]),
        (3, 63, [None, RESULT, ANY, ANY, None]),
        (4, 31, [None, RESULT, SOURCE, SOURCE, None]),
        (4, 32, [None, RESULT, ANY, ANY, None]),
        (5, 31, [None, RESULT, SOURCE, SOURCE, None]),
        (5, 33, [None, RESULT, ANY, ANY, None]),
        (6, 1, [None, RESULT, SOURCE, SOURCE, None]),
        (6, 63, [None, RESULT, ANY, ANY, None]),
        (7, 1, [None, RESULT, SOURCE, SOURCE, None]),
        (7, 32, [None, RESULT, ANY, ANY, None]),
        (8, 31, [None, RESULT, SOURCE, SOURCE, None]),
        (8, 32, [None, RESULT, ANY, ANY, None]),
        (9, 31, [None, RESULT, SOURCE, SOURCE, None]),
        (9, 63, [None, RESULT, ANY, ANY, None]),
        (10, 1, [WIDTHS, WRITTEN, SOURCE, None, NUMBER]),
        (11, 0, [WIDTHS, None, SOURCE, SOURCE, NUMBER]),
        (12, 0, [None, None, SOURCE, SOURCE, NUMBER]),
        (13, 0, [None, None, SOURCE, SOURCE, NUMBER]),
        (14, 0, [None, None, None, None, NUMBER]),
        (15, 32, [WIDTHS, SHADOW, ANY, None, NUMBER]),
        (16, 1, [None, WRITTEN, SHADOW, None, NUMBER]),
        (17, 1, [None, WRITTEN, SHADOW, None, None]),
        (18, 1, [WIDTHS, WRITTEN, SOURCE, SHADOW, NUMBER]),
        (19, 0, [None, None, None, None, NUMBER]),
    ];

    // How many numbers each part of a word can hold, most significant first; the seventh is the zero bits.
    const SIZES: [u64; 8] = [
        1 << 5,
        1 << 2,
        1 << 6,
        1 << 6,
        1 << 6,
        1 << 10,
        1 << 13,
        1 << 16,
    ];

    // Values that break a rule, and the number of the first rule that they break.
    const BROKEN: [([u64; 7], u64); 9] = [
        ([20, 3, 64, 64, 64, 1024, 65536], 11),
        ([20, 0, 0, 0, 0, 0, 0], 11),
        ([31, 3, 0, 0, 0, 0, 0], 11),
        ([u64::MAX, 0, 0, 0, 0, 0, 0], 11),
        ([10, 3, 0, 32, 1, 1024, 65536], 12),
        ([1, 1, 0, 1, 1, 0, 0], 12),
        ([10, 0, 0, 0, 1, 0, 0], 13),
        ([2, 0, 1, 0, 32, 0, 1], 13),
        ([10, 0, 1, 0, 1, 0, 0], 14),
    ];

    // Words that take a set zero bit, and the number by which they are refused with one.
    const WORDS: [(u64, u64); 4] = [
        (0x0808_0000_0000_0005, 14),
        (0x0800_0000_0000_0005, 13),
        (0x0a08_0000_0000_0005, 12),
        (0xa800_0000_0000_0000, 11),
    ];

    impl Field {
        // The fields with x in this one.
        fn set(self, fields: Fields, x: u64) -> Fields {
            match self {
                Field::Width => Fields { width: x, ..fields },
                Field::D => Fields { d: x, ..fields },
                Field::A => Fields { a: x, ..fields },
                Field::B => Fields { b: x, ..fields },
                Field::Imm => Fields { imm: x, ..fields },
            }
        }

        // The number by which another number in the field is refused.
        fn refusal(self, ends: Ends) -> u64 {
            match (self, ends) {
                (Field::Width, _) => 12,
                (Field::D | Field::A | Field::B, Some(_)) => 13,
                _ => 14,
            }
        }
    }

    // The fields of an accepted instruction, or the refusal's number.
    fn told(answer: Result<Instruction, WordRefusal>) -> Result<Fields, u64> {
        answer.map(Fields::from).map_err(WordRefusal::number)
    }

    // The word of any fields that fit their bits, joined by multiplying up; nothing where one does not fit.
    fn word(f: &Fields) -> Option<u64> {
        [f.kind, f.width, f.d, f.a, f.b, f.home, 0, f.imm]
            .iter()
            .zip(SIZES.iter())
            .try_fold(0u64, |word, (part, size)| {
                (part < size).then_some(word.wrapping_mul(*size).wrapping_add(*part))
            })
    }

    // Composing and unpacking refuse the fields by this number, or give them and their word back.
    fn answers(rt: &impl Abort, f: Fields, expected: Result<(), u64>) -> Result<(), Fail> {
        let told_of = expected.map(|()| f);
        assert_eq!(rt; told(compose(&f)), told_of);
        let Some(w) = word(&f) else {
            assert!(rt; expected.is_err());
            return Ok(());
        };
        let unpacked = unpack(w);
        assert_eq!(rt; told(unpacked), told_of);
        if let Ok(i) = unpacked {
            assert_eq!(rt; pack(&i), w);
        }
        Ok(())
    }

    // The field at both ends, one past them, and at the largest number.
    fn edges(rt: &impl Abort, base: Fields, field: Field, ends: Ends) -> Result<(), Fail> {
        let (low, high) = ends.unwrap_or((0, 0));
        let refused = Err(field.refusal(ends));
        answers(rt, field.set(base, low), Ok(()))?;
        answers(rt, field.set(base, high), Ok(()))?;
        answers(rt, field.set(base, high.wrapping_add(1)), refused)?;
        if let Some(below) = low.checked_sub(1) {
            answers(rt, field.set(base, below), refused)?;
        }
        answers(rt, field.set(base, u64::MAX), refused)
    }

    // The kind with this d at the ends of every field, alone and together.
    fn kind_at_its_ends(rt: &impl Abort, kind: u64, d: u64, ends: [Ends; 5]) -> Result<(), Fail> {
        let [width, _, a, b, imm] = ends.map(|e| e.map_or(0, |(low, _)| low));
        let base = Fields {
            kind,
            width,
            d,
            a,
            b,
            home: 0,
            imm,
        };
        for (field, ends) in FIELDS.iter().zip(ends.iter()) {
            edges(rt, base, *field, *ends)?;
        }
        answers(rt, Fields { home: 1023, ..base }, Ok(()))?;
        answers(rt, Fields { home: 1024, ..base }, Err(14))?;
        let [width, _, a, b, imm] = ends.map(|e| e.map_or(0, |(_, high)| high));
        let top = Fields {
            width,
            a,
            b,
            home: 1023,
            imm,
            ..base
        };
        answers(rt, top, Ok(()))
    }

    #[test]
    fn every_kind_at_its_ends(rt: HostRuntime) -> Result<(), Fail> {
        for (kind, d, ends) in LEGAL {
            kind_at_its_ends(&rt, kind, d, ends)?;
        }
        Ok(())
    }

    #[test]
    fn the_first_broken_rule(rt: HostRuntime) -> Result<(), Fail> {
        for ([kind, width, d, a, b, home, imm], number) in BROKEN {
            let fields = Fields {
                kind,
                width,
                d,
                a,
                b,
                home,
                imm,
            };
            answers(&rt, fields, Err(number))?;
        }
        Ok(())
    }

    #[test]
    fn every_zero_bit(rt: HostRuntime) {
        for bit in 16..29u32 {
            for (word, number) in WORDS {
                assert_eq!(rt; told(unpack(word | 1 << bit)), Err(number));
            }
        }
    }
}

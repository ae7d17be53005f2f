// Tests of the text crate: words computed by hand from the layout, listings that pack again, and every message.
#![tactic(auto)]

#[cfg(test)]
mod tests {
    use std::alloc::{AllocError, Global};
    use std::process::Abort;
    use std::test::Fail;
    use text::assembler::assemble;
    use text::listing::Listed;

    // A line of each kind, without and with a home, and its word.
    const LINES: [(&str, u64); 44] = [
        ("halt", 0x0000000000000000),
        ("const r31 65535", 0x08f800000000ffff),
        ("add r1 r2 r3", 0x1008418000000000),
        ("sub r63 r62 r0", 0x19ffc00000000000),
        ("and r4 r5 r6", 0x2020a30000000000),
        ("or r7 r8 r9", 0x2839048000000000),
        ("xor r10 r11 r12", 0x3051660000000000),
        ("shl r13 r14 r15", 0x3869c78000000000),
        ("shr r16 r17 r18", 0x4082290000000000),
        ("below r19 r20 r21", 0x489a8a8000000000),
        ("load 1 r1 [r2]", 0x5008400000000000),
        ("load 2 r1 [r2+32767]", 0x5208400000007fff),
        ("load 4 r1 [r2-32768]", 0x5408400000008000),
        ("store 4 [r3-1] r4", 0x5c0062000000ffff),
        ("beq r1 r2 1023", 0x60002100000003ff),
        ("bne r30 r31 0", 0x6803cf8000000000),
        ("jump 65535", 0x700000000000ffff),
        ("early 4 r32 [r63+4]", 0x7d07e00000000004),
        ("check r1 r33 7", 0x800c200000000007),
        ("take r2 r34", 0x8814400000000000),
        ("reload 2 r5 [r6-4] r35", 0x9228d1800000fffc),
        ("back 12", 0x980000000000000c),
        ("halt @1", 0x0000000020000000),
        ("const r31 65535 @2", 0x08f800004000ffff),
        ("add r1 r2 r3 @3", 0x1008418060000000),
        ("sub r63 r62 r0 @4", 0x19ffc00080000000),
        ("and r4 r5 r6 @5", 0x2020a300a0000000),
        ("or r7 r8 r9 @6", 0x28390480c0000000),
        ("xor r10 r11 r12 @7", 0x30516600e0000000),
        ("shl r13 r14 r15 @8", 0x3869c78100000000),
        ("shr r16 r17 r18 @9", 0x4082290120000000),
        ("below r19 r20 r21 @10", 0x489a8a8140000000),
        ("load 1 r1 [r2] @11", 0x5008400160000000),
        ("load 2 r1 [r2+32767] @12", 0x5208400180007fff),
        ("load 4 r1 [r2-32768] @13", 0x54084001a0008000),
        ("store 4 [r3-1] r4 @14", 0x5c006201c000ffff),
        ("beq r1 r2 1023 @15", 0x60002101e00003ff),
        ("bne r30 r31 0 @16", 0x6803cf8200000000),
        ("jump 65535 @17", 0x700000022000ffff),
        ("early 4 r32 [r63+4] @18", 0x7d07e00240000004),
        ("check r1 r33 7 @19", 0x800c200260000007),
        ("take r2 r34 @20", 0x8814400280000000),
        ("reload 2 r5 [r6-4] r35 @1022", 0x9228d1ffc000fffc),
        ("back 12 @1023", 0x9800007fe000000c),
    ];

    // What is wrong with a text of at most three instructions.
    const MESSAGES: [(&str, &str); 23] = [
        ("halt\nlod 4 r1 [r2]", "line 2: unknown mnemonic 'lod'"),
        ("add r1 r2", "line 1: too few words: add takes 3 operands"),
        ("halt now", "line 1: too many words: halt takes 0 operands"),
        ("add r1 x2 r3", "line 1: 'x2' is not a register"),
        ("add r1 r64 r3", "line 1: 'r64': registers are r0 to r63"),
        ("const r1 12a", "line 1: '12a' is not a number"),
        (
            "const r1 65536",
            "line 1: '65536' is out of range, 0 to 65535",
        ),
        (
            "const r1 0x10000000000000001",
            "line 1: '0x10000000000000001' is out of range, 0 to 65535",
        ),
        ("halt @1024", "line 1: '1024' is out of range, 0 to 1023"),
        ("load 3 r1 [r2]", "line 1: '3' is not a width: 1, 2 or 4"),
        ("load 4 r1 r2", "line 1: 'r2' is not an address"),
        (
            "load 4 r1 [r2-32769]",
            "line 1: '[r2-32769]': the offset is out of range, -32768 to 32767",
        ),
        ("jump a-b", "line 1: 'a-b' is not a place or a label"),
        ("\n1a: halt", "line 2: '1a' is not a label name"),
        (
            "a: halt\na: halt",
            "line 2: label 'a' is defined in line 1 too",
        ),
        ("halt\njump there", "line 2: label 'there' is not defined"),
        ("halt\nhalt\nhalt\nhalt", "line 4: more than 3 instructions"),
        (
            "add r0 r1 r2",
            "line 1: refused 13: a register is outside the range of its kind",
        ),
        (
            "a: beq r40 r1 a",
            "line 1: refused 13: a register is outside the range of its kind",
        ),
        (
            "0x00000000000000000",
            "line 1: '0x00000000000000000' is not a word: 0x and 1 to 16 hex digits",
        ),
        ("1 0x0 halt", "line 1: '1' is not the place of this line, 0"),
        (
            "0 0x0 jump 0",
            "line 1: the text does not agree with the word 0x0000000000000000",
        ),
        (
            "0 0x0 refused 11: x",
            "line 1: the text does not agree with the word 0x0000000000000000",
        ),
    ];

    // The words of a text, or what is wrong with it.
    fn said(alloc: Global, text: &str) -> Result<String, AllocError> {
        match assemble(alloc, text, 3) {
            Ok(words) => format!(in alloc; "{words:?}"),
            Err(error) => format!(in alloc; "{error}"),
        }
    }

    // The text has one instruction, and this is its word.
    fn has_word(rt: &impl Abort, alloc: Global, text: &str, word: u64) -> Result<(), Fail> {
        let words = assemble(alloc, text, 1).map_err(|_| "refused")?;
        assert_eq!(rt; words.as_slice(), [word].as_slice());
        Ok(())
    }

    #[test]
    fn lines_to_words_and_back(rt: HostRuntime) -> Result<(), Fail> {
        let alloc = rt.alloc();
        for (line, word) in LINES {
            has_word(&rt, alloc, line, word)?;
            let listed = Listed { place: 0, word };
            let shown = format!(in alloc; "{listed}")?;
            let wanted = format!(in alloc; "0  0x{word:016x}  {line}")?;
            assert_eq!(rt; shown.as_str(), wanted.as_str());
            has_word(&rt, alloc, shown.as_str(), word)?;
        }
        Ok(())
    }

    #[test]
    fn messages(rt: HostRuntime) -> Result<(), Fail> {
        for (text, message) in MESSAGES {
            let said = said(rt.alloc(), text)?;
            assert_eq!(rt; said.as_str(), message);
        }
        Ok(())
    }

    #[test]
    fn labels_comments_and_words(rt: HostRuntime) -> Result<(), Fail> {
        let alloc = rt.alloc();
        let text = "# two labels\r\na: b_1:\tjump c # on\n\n0xFFFFFFFFFFFFFFFF\nc: jump b_1";
        let words = said(alloc, text)?;
        let wanted = format!(in alloc;
            "{:?}",
            [0x7000000000000002u64, u64::MAX, 0x7000000000000000]
        )?;
        assert_eq!(rt; words.as_str(), wanted.as_str());
        Ok(())
    }
}

// Tests of the memories: a table of accesses at every width and every fault, at the first and the last address and at
// 2^32 - 1, against expected answers of their own.
#![tactic(auto)]

#[cfg(test)]
mod tests {
    use memory::fault::Fault;
    use memory::flat::FlatMemory;
    use memory::interface::Memory;
    use memory::page::Page;
    use memory::paged::PagedMemory;
    use std::alloc::{AllocError, Global};
    use std::collections::VecDeque;
    use std::process::Abort;
    use std::test::Fail;

    const LAST: u32 = u32::MAX;

    // An access with what a read, a write and a peek answer. A fault by its number, on which others rely.
    #[derive(Clone, Copy)]
    struct Row {
        x: u32,
        w: u32,
        read: Result<u32, u64>,
        write: Result<(), u64>,
        peek: Option<u32>,
    }

    // Where nothing can be read or written, for the same reason.
    const fn refused(x: u32, w: u32, number: u64) -> Row {
        window(x, w, Err(number), number)
    }

    const fn plain(x: u32, w: u32, number: u32) -> Row {
        Row {
            x,
            w,
            read: Ok(number),
            write: Ok(()),
            peek: Some(number),
        }
    }

    const fn read_only(x: u32, w: u32, number: u32) -> Row {
        Row {
            write: Err(3),
            ..plain(x, w, number)
        }
    }

    // 256 * k + i, cut to a byte, plus 3 for each frame k, so that no two frames are alike.
    fn pattern(alloc: Global, length: u32) -> Result<Vec<u8>, AllocError> {
        (0..length)
            .map(|i| (i.wrapping_add(3 * (i / 256)) % 256) as u8)
            .collect(alloc)
    }

    // Every row on the same memory: peeks and reads first, since they leave the bytes as they are; then the writes of what
    // was there.
    fn holds<M: Memory>(rt: &impl Abort, memory: &mut M, row: Row) {
        let Row {
            x,
            w,
            read,
            write,
            peek,
        } = row;
        assert_eq!(rt; memory.peek(x, w), peek, "peek");
        assert_eq!(rt; memory.read(x, w).map_err(Fault::number), read, "read");
        let back = read.unwrap_or(0);
        assert_eq!(rt;
            memory.write(x, w, back).map_err(Fault::number),
            write,
            "write"
        );
    }

    #[test]
    fn flat_accesses(rt: HostRuntime) -> Result<(), Fail> {
        let bytes = [0x10, 0x32, 0x54, 0x76, 0x98, 0xba, 0xdc, 0xfe, 0x11, 0x22];
        let mut memory = FlatMemory::new(bytes.to_vec(rt.alloc())?);
        for row in [
            plain(0, 1, 0x10),
            plain(0, 2, 0x3210),
            plain(0, 4, 0x7654_3210),
            plain(3, 1, 0x76),
            plain(7, 1, 0xfe),
            plain(6, 2, 0xfedc),
            plain(4, 4, 0xfedc_ba98),
            refused(8, 1, 2),
            refused(8, 2, 2),
            refused(8, 4, 2),
            refused(9, 1, 2),
            refused(12, 4, 2),
            refused(1, 2, 1),
            refused(2, 4, 1),
            refused(9, 4, 1),
            refused(0, 0, 1),
            refused(0, 3, 1),
            refused(0, 8, 1),
            refused(0, LAST, 1),
            refused(LAST, 1, 2),
            refused(LAST, 2, 1),
            refused(LAST, 4, 1),
            refused(LAST - 1, 2, 2),
            refused(LAST - 3, 4, 2),
            refused(LAST, LAST, 1),
        ] {
            holds(&rt, &mut memory, row);
        }
        assert_eq!(rt; memory.bytes(), bytes.as_slice());
        let back = memory.into_bytes();
        assert_eq!(rt; back.as_slice(), bytes.as_slice());
        Ok(())
    }

    #[test]
    fn flat_without_a_granule(rt: HostRuntime) -> Result<(), Fail> {
        let mut memory = FlatMemory::new([1u8, 2, 3].to_vec(rt.alloc())?);
        for row in [refused(0, 1, 2), refused(0, 4, 2), refused(1, 2, 1)] {
            holds(&rt, &mut memory, row);
        }
        let mut empty = FlatMemory::new(Vec::new(rt.alloc()));
        holds(&rt, &mut empty, refused(0, 1, 2));
        Ok(())
    }

    #[test]
    fn flat_writes(rt: HostRuntime) -> Result<(), Fail> {
        let mut memory = FlatMemory::new(vec![in rt.alloc(); 0xeeu8; 9]?);
        memory.write(0, 1, 0xa1b2_c3d4)?;
        assert_eq!(rt;
            memory.bytes(),
            [0xd4, 0xee, 0xee, 0xee, 0xee, 0xee, 0xee, 0xee, 0xee].as_slice()
        );
        memory.write(6, 2, 0xa1b2_c3d4)?;
        assert_eq!(rt;
            memory.bytes(),
            [0xd4, 0xee, 0xee, 0xee, 0xee, 0xee, 0xd4, 0xc3, 0xee].as_slice()
        );
        memory.write(0, 4, 0xa1b2_c3d4)?;
        assert_eq!(rt;
            memory.bytes(),
            [0xd4, 0xc3, 0xb2, 0xa1, 0xee, 0xee, 0xd4, 0xc3, 0xee].as_slice()
        );
        assert_eq!(rt; memory.write(8, 1, 0).map_err(Fault::number), Err(2));
        assert_eq!(rt; memory.write(2, 4, 0).map_err(Fault::number), Err(1));
        assert_eq!(rt;
            memory.bytes(),
            [0xd4, 0xc3, 0xb2, 0xa1, 0xee, 0xee, 0xd4, 0xc3, 0xee].as_slice()
        );
        Ok(())
    }

    const fn page(frame: u32) -> Page {
        Page {
            present: true,
            writable: true,
            frame,
        }
    }

    const fn locked(frame: u32) -> Page {
        Page {
            writable: false,
            ..page(frame)
        }
    }

    // Over 1,124 bytes, which are four frames and a part of one: pages 0, 2, 6 and 63 are present; 1 and 7 have a lower
    // page's frame, 3 and 4 none that lies inside, 5 is given as absent, and the last one given is a 65th.
    fn paged(
        alloc: Global,
        window: Option<u32>,
        orders: VecDeque<u32>,
    ) -> Result<PagedMemory, AllocError> {
        let lowest = [
            page(1),
            page(1),
            locked(3),
            page(4),
            page(LAST),
            Page::ABSENT,
            page(0),
            page(0),
        ];
        let mut pages = lowest.to_vec(alloc)?;
        pages.resize(63, Page::ABSENT)?;
        pages.extend_from_slice(&[page(2), page(3)])?;
        Ok(PagedMemory::new(pattern(alloc, 1124)?, &pages, window, orders))
    }

    #[test]
    fn paged_accesses(rt: HostRuntime) -> Result<(), Fail> {
        let alloc = rt.alloc();
        let mut memory = paged(alloc, None, VecDeque::new(alloc))?;
        for row in [
            plain(0, 1, 3),
            plain(0, 2, 0x0403),
            plain(0, 4, 0x0605_0403),
            plain(255, 1, 2),
            plain(254, 2, 0x0201),
            plain(252, 4, 0x0201_00ff),
            refused(256, 1, 2),
            refused(508, 4, 2),
            read_only(512, 1, 9),
            read_only(514, 2, 0x0c0b),
            read_only(512, 4, 0x0c0b_0a09),
            read_only(767, 1, 8),
            refused(768, 4, 2),
            refused(1024, 4, 2),
            refused(1280, 4, 2),
            plain(1536, 1, 0),
            plain(1536, 4, 0x0302_0100),
            plain(1791, 1, 255),
            refused(1792, 4, 2),
            refused(2048, 4, 2),
        ] {
            holds(&rt, &mut memory, row);
        }
        for row in [
            refused(16124, 4, 2),
            plain(16128, 4, 0x0908_0706),
            plain(16383, 1, 5),
            plain(16382, 2, 0x0504),
            plain(16380, 4, 0x0504_0302),
            refused(16384, 1, 2),
            refused(16384, 4, 2),
            refused(16383, 2, 1),
            refused(16382, 4, 1),
            refused(0, 0, 1),
            refused(0, 3, 1),
            refused(513, 2, 1),
            refused(LAST, 1, 2),
            refused(LAST, 2, 1),
            refused(LAST, 4, 1),
            refused(LAST - 1, 2, 2),
            refused(LAST - 3, 4, 2),
        ] {
            holds(&rt, &mut memory, row);
        }
        let expected = pattern(alloc, 1124)?;
        assert_eq!(rt; memory.bytes(), expected.as_slice());
        Ok(())
    }

    #[test]
    fn paged_writes(rt: HostRuntime) -> Result<(), Fail> {
        let alloc = rt.alloc();
        let mut memory = paged(alloc, Some(520), VecDeque::new(alloc))?;
        let mut expected = pattern(alloc, 1124)?;
        assert!(rt; expected.len() == 1124);
        memory.write(255, 1, 0xa1b2_c3d4)?;
        expected[511] = 0xd4;
        assert_eq!(rt; memory.bytes(), expected.as_slice());
        memory.write(1538, 2, 0xa1b2_c3d4)?;
        expected[2] = 0xd4;
        expected[3] = 0xc3;
        assert_eq!(rt; memory.bytes(), expected.as_slice());
        memory.write(16380, 4, 0xa1b2_c3d4)?;
        expected[764] = 0xd4;
        expected[765] = 0xc3;
        expected[766] = 0xb2;
        expected[767] = 0xa1;
        assert_eq!(rt; memory.bytes(), expected.as_slice());
        for (x, w, number) in [(512, 4, 3), (520, 4, 3), (256, 1, 2), (1, 4, 1)] {
            assert_eq!(rt; memory.write(x, w, 0).map_err(Fault::number), Err(number));
        }
        assert_eq!(rt; memory.bytes(), expected.as_slice());
        Ok(())
    }

    const fn window(x: u32, w: u32, read: Result<u32, u64>, write: u64) -> Row {
        Row {
            x,
            w,
            read,
            write: Err(write),
            peek: None,
        }
    }

    #[test]
    fn window_in_a_writable_page(rt: HostRuntime) -> Result<(), Fail> {
        let alloc = rt.alloc();
        let mut memory = paged(alloc, Some(16), VecDeque::from_array(alloc, [7, LAST, 9])?)?;
        for row in [
            window(16, 4, Ok(7), 4),
            window(16, 1, Err(4), 4),
            window(19, 1, Err(4), 4),
            window(18, 2, Err(4), 4),
            refused(18, 4, 1),
            plain(12, 4, 0x1211_100f),
            plain(20, 4, 0x1a19_1817),
            window(16, 4, Ok(LAST), 4),
        ] {
            holds(&rt, &mut memory, row);
        }
        assert_eq!(rt; memory.waiting().len(), 1);
        assert_eq!(rt; memory.waiting().front().copied(), Some(9));
        for row in [
            window(16, 4, Ok(9), 4),
            window(16, 4, Err(5), 4),
            window(16, 2, Err(4), 4),
        ] {
            holds(&rt, &mut memory, row);
        }
        let expected = pattern(alloc, 1124)?;
        let (bytes, left) = memory.into_parts();
        assert_eq!(rt; bytes.as_slice(), expected.as_slice());
        assert!(rt; left.is_empty());
        Ok(())
    }

    #[test]
    fn window_in_another_page(rt: HostRuntime) -> Result<(), Fail> {
        let alloc = rt.alloc();
        let mut locked = paged(alloc, Some(520), VecDeque::from_array(alloc, [5])?)?;
        for row in [
            window(520, 1, Err(4), 3),
            window(520, 4, Ok(5), 3),
            window(520, 4, Err(5), 3),
        ] {
            holds(&rt, &mut locked, row);
        }
        let mut absent = paged(alloc, Some(256), VecDeque::from_array(alloc, [5])?)?;
        for row in [refused(256, 4, 2), refused(256, 1, 2), plain(0, 1, 3)] {
            holds(&rt, &mut absent, row);
        }
        let mut past = paged(alloc, Some(LAST - 3), VecDeque::from_array(alloc, [5])?)?;
        holds(&rt, &mut past, refused(LAST - 3, 4, 2));
        assert_eq!(rt; past.waiting().len(), 1);
        let mut odd = paged(alloc, Some(18), VecDeque::from_array(alloc, [5])?)?;
        for row in [plain(16, 4, 0x1615_1413), plain(18, 2, 0x1615)] {
            holds(&rt, &mut odd, row);
        }
        let (_, left) = odd.into_parts();
        assert_eq!(rt; left.len(), 1);
        Ok(())
    }

    #[test]
    fn few_pages_and_few_bytes(rt: HostRuntime) -> Result<(), Fail> {
        let alloc = rt.alloc();
        let mut one = PagedMemory::new(
            pattern(alloc, 256)?,
            &[page(0)],
            None,
            VecDeque::new(alloc),
        );
        for row in [
            plain(0, 4, 0x0302_0100),
            plain(255, 1, 255),
            refused(256, 1, 2),
        ] {
            holds(&rt, &mut one, row);
        }
        let mut short = PagedMemory::new(
            pattern(alloc, 255)?,
            &[page(0)],
            None,
            VecDeque::new(alloc),
        );
        holds(&rt, &mut short, refused(0, 1, 2));
        let mut none = PagedMemory::new(
            pattern(alloc, 256)?,
            &[],
            Some(0),
            VecDeque::from_array(alloc, [1])?,
        );
        holds(&rt, &mut none, refused(0, 4, 2));
        Ok(())
    }

    #[test]
    fn faults_in_words(rt: HostRuntime) -> Result<(), Fail> {
        for (fault, text) in [
            (
                Fault::Shape,
                "fault 1: the width is not 1, 2 or 4, or the address is not a multiple of it",
            ),
            (Fault::Absent, "fault 2: nothing is present at the address"),
            (Fault::ReadOnly, "fault 3: the address is not writable"),
            (
                Fault::Window,
                "fault 4: the order window is only read, and only in whole words",
            ),
            (Fault::NoOrder, "fault 5: no order word is waiting"),
        ] {
            assert_eq!(rt; fault.to_string(rt.alloc())?.as_str(), text);
        }
        Ok(())
    }
}

use crate::{ElfFault, Image, Segment, read};
use std::alloc::{AllocError, Global};
use std::test::Fail;

/// A nop and a stop at 0x10000.
const FILE: [u8; 92] = [
    0x7f, 0x45, 0x4c, 0x46, 1, 1, 1, 0, 0, 0, 0, 0, 0, 0, 0, 0, 2, 0, 0xf3, 0, 1, 0, 0, 0, 0, 0, 1,
    0, 0x34, 0, 0, 0, 0, 0, 0, 0, 0, 0, 0, 0, 0x34, 0, 0x20, 0, 1, 0, 0, 0, 0, 0, 0, 0, 1, 0, 0, 0,
    0x54, 0, 0, 0, 0, 0, 1, 0, 0, 0, 1, 0, 8, 0, 0, 0, 8, 0, 0, 0, 5, 0, 0, 0, 4, 0, 0, 0, 0x13, 0,
    0, 0, 0x73, 0, 0x10, 0,
];

/// The file with other bytes at some places.
fn changed(alloc: Global, changes: &[(usize, u8)]) -> Result<Vec<u8>, AllocError> {
    let mut file = FILE.to_vec(alloc)?;
    for (place, byte) in changes {
        if let Some(slot) = file.get_mut(*place) {
            *slot = *byte;
        }
    }
    Ok(file)
}

/// A loaded program header: its place in the file, its address, its bytes and its flags.
fn loaded(offset: u32, at: u32, size: u32, flags: u32) -> [u32; 8] {
    [1, offset, at, at, size, size, flags, 4]
}

/// A file of program headers, with words after them.
fn file_of(
    alloc: Global,
    entry: u32,
    headers: &[[u32; 8]],
    words: &[u32],
) -> Result<Vec<u8>, AllocError> {
    let mut file = FILE[..24].to_vec(alloc)?;
    file.extend_from_slice(&entry.to_le_bytes())?;
    file.extend_from_slice(&FILE[28..44])?;
    file.extend_from_slice(&headers.len().to_le_bytes()[..2])?;
    file.extend_from_slice(&FILE[46..52])?;
    for header in headers {
        for field in header {
            file.extend_from_slice(&field.to_le_bytes())?;
        }
    }
    for word in words {
        file.extend_from_slice(&word.to_le_bytes())?;
    }
    Ok(file)
}

/// The image of a file, which is small here.
fn small_image(alloc: Global, file: Vec<u8>) -> Result<Image, ElfFault> {
    if file.len() > 65536 {
        return Err(ElfFault::OutOfMemory);
    }
    read(alloc, file)
}

fn segment(at: u32, size: u32, offset: u32) -> Segment {
    Segment { at, size, offset }
}

#[test]
fn a_file_has_its_words(rt: HostRuntime) -> Result<(), Fail> {
    let image: Image = read(rt.alloc(), FILE.to_vec(rt.alloc())?)?;
    assert_eq!(rt; image.entry(), 0x10000);
    assert_eq!(rt; image.segments(), [segment(0x10000, 8, 84)].as_slice());
    for (at, word) in [
        (0x10000, Some(0x00000013)),
        (0x10004, Some(0x00100073)),
        (0x10002, None),
        (0x10008, None),
        (0xfffc, None),
    ] {
        assert_eq!(rt; image.word(at), word, "at {at}");
    }
    for (from, next) in [
        (0, Some(0x10000)),
        (0x10000, Some(0x10000)),
        (0x10001, Some(0x10004)),
        (0x10005, None),
        (u32::MAX, None),
    ] {
        assert_eq!(rt; image.word_from(from), next, "from {from}");
    }
    Ok(())
}

#[test]
fn a_cut_file_says_what_it_lacks(rt: HostRuntime) -> Result<(), Fail> {
    for n in 0..92usize {
        let have = n as u64;
        let fault = match n {
            0..52 => ElfFault::Truncated { need: 52, have },
            52..84 => ElfFault::Truncated { need: 84, have },
            _ => ElfFault::SegmentOutside { index: 0 },
        };
        let answer = read(rt.alloc(), FILE[..n].to_vec(rt.alloc())?).err();
        assert_eq!(rt; answer, Some(fault), "at {n}");
    }
    Ok(())
}

#[test]
fn a_changed_file_says_what_is_wrong(rt: HostRuntime) -> Result<(), Fail> {
    let far = ElfFault::Truncated {
        need: 4294967327,
        have: 92,
    };
    let cases: [(&[(usize, u8)], ElfFault); 18] = [
        (&[(0, 0)], ElfFault::NotElf),
        (&[(4, 2)], ElfFault::NotClass32),
        (&[(5, 2)], ElfFault::NotLittle),
        (&[(6, 0)], ElfFault::BadVersion),
        (&[(20, 2)], ElfFault::BadVersion),
        (&[(16, 3)], ElfFault::NotExecutable { kind: 3 }),
        (&[(18, 62)], ElfFault::NotRiscv { machine: 62 }),
        (&[(42, 40)], ElfFault::BadEntrySize { size: 40 }),
        (&[(44, 65)], ElfFault::TooManySegments { count: 65 }),
        (&[(44, 0), (42, 0)], ElfFault::NoText),
        (&[(28, 0xff), (29, 0xff), (30, 0xff), (31, 0xff)], far),
        (&[(56, 85)], ElfFault::SegmentOutside { index: 0 }),
        (
            &[(60, 0xfc), (61, 0xff), (62, 0xff), (63, 0xff)],
            ElfFault::SegmentWraps { index: 0 },
        ),
        (&[(76, 4)], ElfFault::NoText),
        (&[(52, 2)], ElfFault::NoText),
        (&[(68, 0)], ElfFault::NoText),
        // the first test that fails gives the answer
        (&[(5, 2), (4, 2)], ElfFault::NotClass32),
        (
            &[(63, 0xff), (62, 0xff), (61, 0xff), (60, 0xff), (56, 85)],
            ElfFault::SegmentOutside { index: 0 },
        ),
    ];
    for (changes, fault) in cases {
        let answer = small_image(rt.alloc(), changed(rt.alloc(), changes)?).err();
        assert_eq!(rt; answer, Some(fault), "at {changes:?}");
    }
    Ok(())
}

#[test]
fn a_segment_may_end_with_the_addresses_or_within_a_word(rt: HostRuntime) -> Result<(), Fail> {
    let top = [(24, 0xf8), (25, 0xff), (26, 0xff), (27, 0xff)];
    let placed = [(60, 0xf8), (61, 0xff), (62, 0xff), (63, 0xff)];
    let mut file = changed(rt.alloc(), &placed)?;
    for (place, byte) in top {
        if let Some(slot) = file.get_mut(place) {
            *slot = byte;
        }
    }
    let image = small_image(rt.alloc(), file)?;
    assert_eq!(rt; image.entry(), 0xfffffff8);
    assert_eq!(rt; image.segments(), [segment(0xfffffff8, 8, 84)].as_slice());
    assert_eq!(rt; image.word(0xfffffffc), Some(0x00100073));
    assert_eq!(rt; image.word_from(0xfffffff9), Some(0xfffffffc));
    assert_eq!(rt; image.word_from(0xfffffffd), None);
    let short = small_image(rt.alloc(), changed(rt.alloc(), &[(68, 7)])?)?;
    assert_eq!(rt; short.word(0x10000), Some(0x00000013));
    assert_eq!(rt; short.word(0x10004), None);
    assert_eq!(rt; short.word_from(0x10001), None);
    Ok(())
}

#[test]
fn segments_that_overlap_are_refused(rt: HostRuntime) -> Result<(), Fail> {
    let words = [0x00000013, 0x00100073];
    for (second, fault) in [
        (loaded(116, 0x10000, 8, 5), Some(1)),
        (loaded(116, 0x10007, 1, 5), Some(1)),
        (loaded(116, 0xfffc, 5, 5), Some(1)),
        (loaded(116, 0xfffc, 4, 5), None),
        (loaded(116, 0x10008, 8, 5), None),
        (loaded(116, 0x10000, 8, 6), None),
        (loaded(999, 0x10000, 0, 5), None),
    ] {
        let headers = [loaded(116, 0x10000, 8, 5), second];
        let file = file_of(rt.alloc(), 0x10000, &headers, &words)?;
        let answer = small_image(rt.alloc(), file).err();
        let wanted = fault.map(|index| ElfFault::SegmentsOverlap { index });
        assert_eq!(rt; answer, wanted, "at {second:?}");
    }
    Ok(())
}

#[test]
fn segments_out_of_order_are_kept_in_order_of_address(rt: HostRuntime) -> Result<(), Fail> {
    let headers = [
        loaded(180, 0x30000, 4, 5),
        loaded(184, 0x10000, 6, 5),
        loaded(190, 0x10006, 6, 7),
        loaded(196, 0x20002, 8, 5),
    ];
    let file = file_of(rt.alloc(), 0x30000, &headers, &[10, 11, 12, 13, 14, 15])?;
    let image = small_image(rt.alloc(), file)?;
    let segments = [
        segment(0x10000, 6, 184),
        segment(0x10006, 6, 190),
        segment(0x20002, 8, 196),
        segment(0x30000, 4, 180),
    ];
    assert_eq!(rt; image.segments(), segments.as_slice());
    for (from, next) in [
        (0, Some(0x10000)),
        (0x10001, Some(0x10008)),
        (0x10009, Some(0x20004)),
        (0x20005, Some(0x30000)),
        (0x30001, None),
    ] {
        assert_eq!(rt; image.word_from(from), next, "from {from}");
    }
    for (at, word) in [
        (0x10000, Some(11)),
        (0x10004, None),
        (0x10008, Some(13)),
        (0x20000, None),
        (0x20004, Some(0x000f0000)),
        (0x20008, None),
        (0x30000, Some(10)),
    ] {
        assert_eq!(rt; image.word(at), word, "at {at}");
    }
    Ok(())
}

#[test]
fn a_file_has_its_parcels_and_longs(rt: HostRuntime) -> Result<(), Fail> {
    let image = small_image(rt.alloc(), FILE.to_vec(rt.alloc())?)?;
    for (at, parcel, long) in [
        (0x10000, Some(0x0013), Some(0x00000013)),
        (0x10001, None, None),
        (0x10002, Some(0x0000), Some(0x00730000)),
        (0x10004, Some(0x0073), Some(0x00100073)),
        (0x10005, None, None),
        (0x10006, Some(0x0010), None),
        (0x10007, None, None),
        (0x10008, None, None),
        (0xfffe, None, None),
        (0xffff, None, None),
        (u32::MAX, None, None),
    ] {
        assert_eq!(rt; image.parcel(at), parcel, "at {at}");
        assert_eq!(rt; image.long(at), long, "at {at}");
    }
    for (from, next) in [
        (0, Some(0x10000)),
        (0x10000, Some(0x10000)),
        (0x10001, Some(0x10002)),
        (0x10006, Some(0x10006)),
        (0x10007, None),
        (u32::MAX, None),
    ] {
        assert_eq!(rt; image.parcel_from(from), next, "from {from}");
    }
    Ok(())
}

#[test]
fn a_segment_may_end_with_the_addresses_or_within_a_parcel(rt: HostRuntime) -> Result<(), Fail> {
    let placed = [(60, 0xf8), (61, 0xff), (62, 0xff), (63, 0xff)];
    let top = small_image(rt.alloc(), changed(rt.alloc(), &placed)?)?;
    assert_eq!(rt; top.parcel(0xfffffffe), Some(0x0010));
    assert_eq!(rt; top.long(0xfffffffc), Some(0x00100073));
    assert_eq!(rt; top.long(0xfffffffe), None);
    assert_eq!(rt; top.parcel_from(0xfffffffd), Some(0xfffffffe));
    assert_eq!(rt; top.parcel_from(u32::MAX), None);
    let short = small_image(rt.alloc(), changed(rt.alloc(), &[(68, 7)])?)?;
    assert_eq!(rt; short.parcel(0x10004), Some(0x0073));
    assert_eq!(rt; short.parcel(0x10006), None);
    assert_eq!(rt; short.long(0x10002), Some(0x00730000));
    assert_eq!(rt; short.long(0x10004), None);
    assert_eq!(rt; short.parcel_from(0x10003), Some(0x10004));
    assert_eq!(rt; short.parcel_from(0x10005), None);
    Ok(())
}

#[test]
fn no_long_or_parcel_reaches_across_two_segments(rt: HostRuntime) -> Result<(), Fail> {
    let headers = [
        loaded(180, 0x30000, 4, 5),
        loaded(184, 0x10000, 6, 5),
        loaded(190, 0x10006, 5, 7),
        loaded(195, 0x1000b, 5, 5),
    ];
    let words = [10, 0x12340011, 0x5678000c, 0x9abc000d, 0xdef0000e];
    let file = file_of(rt.alloc(), 0x30000, &headers, &words)?;
    let image = small_image(rt.alloc(), file)?;
    for (at, parcel, long) in [
        (0x10000, Some(0x0011), Some(0x12340011)),
        (0x10002, Some(0x1234), Some(0x000c1234)),
        (0x10004, Some(0x000c), None),
        (0x10006, Some(0x5678), Some(0x000d5678)),
        (0x10008, Some(0x000d), None),
        (0x1000a, None, None),
        (0x1000c, Some(0x000e), Some(0xdef0000e)),
        (0x1000e, Some(0xdef0), None),
        (0x30000, Some(0x000a), Some(0x0000000a)),
        (0x30002, Some(0x0000), None),
    ] {
        assert_eq!(rt; image.parcel(at), parcel, "at {at}");
        assert_eq!(rt; image.long(at), long, "at {at}");
    }
    for (from, next) in [
        (0x10003, Some(0x10004)),
        (0x10005, Some(0x10006)),
        (0x10009, Some(0x1000c)),
        (0x1000f, Some(0x30000)),
        (0x30003, None),
    ] {
        assert_eq!(rt; image.parcel_from(from), next, "from {from}");
    }
    Ok(())
}

#[test]
fn sixty_four_segments_are_kept(rt: HostRuntime) -> Result<(), Fail> {
    let mut headers = Vec::new(rt.alloc());
    let mut words = Vec::new(rt.alloc());
    for i in 0..64u32 {
        headers.push(loaded(2100 + 4 * i, 0x10000 + 8 * (63 - i), 4, 5))?;
        words.push(i)?;
    }
    let file = file_of(rt.alloc(), 0x10000, &headers, &words)?;
    let image = small_image(rt.alloc(), file)?;
    assert_eq!(rt; image.segments().len(), 64);
    for i in 0..64u32 {
        let at = 0x10000 + 8 * i;
        assert_eq!(rt; image.word(at), Some(63 - i), "at {at}");
        assert_eq!(rt; image.word(at + 4), None, "after {at}");
        assert_eq!(rt; image.long(at), Some(63 - i), "at {at}");
        assert_eq!(rt;
            image.parcel_from(at + 3),
            image.word_from(at + 3),
            "from after {at}"
        );
        let next = if i < 63 { Some(at + 8) } else { None };
        assert_eq!(rt; image.word_from(at + 1), next, "from after {at}");
    }
    Ok(())
}

#[test]
fn a_file_as_a_linker_lays_it_out_is_read(rt: HostRuntime) -> Result<(), Fail> {
    let headers = [
        loaded(0, 0x10000, 0xc8, 5),
        [1, 0xc8, 0x110c8, 0x110c8, 0, 0x100, 6, 0x1000],
    ];
    let words = [
        0x008000ef, 0x00100073, 0xff010113, 0x00112623, 0x00a00413, 0x018000ef, 0xfff40413,
        0xfe041ce3, 0x00c12083, 0x01010113, 0x00008067, 0x00147513, 0x00050663, 0x00158593,
        0x00008067, 0x00159593, 0x00008067, 0x00000513, 0x00050067, 0x6c6c6568, 0x0000006f,
    ];
    let image = small_image(rt.alloc(), file_of(rt.alloc(), 0x10074, &headers, &words)?)?;
    assert_eq!(rt; image.entry(), 0x10074);
    assert_eq!(rt; image.segments(), [segment(0x10000, 0xc8, 0)].as_slice());
    for (at, word) in [
        (0x10000, Some(0x464c457f)),
        (0x10074, Some(0x008000ef)),
        (0x100c4, Some(0x0000006f)),
        (0x100c8, None),
    ] {
        assert_eq!(rt; image.word(at), word, "at {at}");
    }
    Ok(())
}

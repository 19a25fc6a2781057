// Files with one thing changed, each with what is answered to it.
use crate::Status;
use crate::tests::{Ran, SMALL, run_on, wrap};
use elf_image::ElfFault;
use flow_spec::FlowFault;
use std::alloc::{AllocError, Global};
use std::test::Fail;

/// The address of the last two words there are.
const TOP: &[u8] = &[0xf8, 0xff, 0xff, 0xff];

/// The file of two words, a plain one and a stop, with some bytes changed: each change is a place and what stands there.
fn changed(alloc: Global, changes: &[(usize, &[u8])]) -> Result<Vec<u8>, AllocError> {
    let mut file = wrap(alloc, &[0x13, 0x100073])?;
    for (place, bytes) in changes {
        for (index, byte) in bytes.iter().enumerate() {
            if let Some(old) = file.get_mut(place.wrapping_add(index)) {
                *old = *byte;
            }
        }
    }
    Ok(file)
}

/// The file with its program header twice, and its words after that.
fn doubled(alloc: Global) -> Result<Vec<u8>, AllocError> {
    let file = changed(alloc, &[(44, &[2]), (56, &[116])])?;
    let mut whole = Vec::new(alloc);
    let (head, words) = file.split_at(84.min(file.len()));
    whole.extend_from_slice(head)?;
    whole.extend_from_slice(&head[52.min(head.len())..])?;
    whole.extend_from_slice(words)?;
    Ok(whole)
}

#[test]
fn a_file_cut_short_says_what_it_lacks(rt: HostRuntime) -> Result<(), Fail> {
    let alloc = rt.alloc();
    for size in 0..92 {
        let mut file = changed(alloc, &[])?;
        file.truncate(size);
        let have = size as u64;
        let fault = match size {
            0..=51 => ElfFault::Truncated { need: 52, have },
            52..=83 => ElfFault::Truncated { need: 84, have },
            _ => ElfFault::SegmentOutside { index: 0 },
        };
        let Ran { outcome, out, .. } = run_on(&rt, alloc, SMALL, file)?;
        assert_eq!(rt; outcome.status, Status::Elf(fault), "cut to {size}");
        assert!(rt; out.sent().is_empty());
    }
    Ok(())
}

#[test]
fn each_changed_file_has_its_answer(rt: HostRuntime) -> Result<(), Fail> {
    let alloc = rt.alloc();
    let left = FlowFault::BadTarget {
        at: 0x10000,
        target: 0x10004,
    };
    let wrapped = FlowFault::BadTarget {
        at: 0xfffffffc,
        target: 0,
    };
    let far = ElfFault::Truncated {
        need: 4294967327,
        have: 92,
    };
    let cases: [(&[(usize, &[u8])], Status); 22] = [
        (&[], Status::Done),
        (&[(0, &[0])], Status::Elf(ElfFault::NotElf)),
        (&[(4, &[2])], Status::Elf(ElfFault::NotClass32)),
        (&[(4, &[2]), (18, &[62])], Status::Elf(ElfFault::NotClass32)),
        (&[(5, &[2])], Status::Elf(ElfFault::NotLittle)),
        (&[(6, &[0])], Status::Elf(ElfFault::BadVersion)),
        (&[(20, &[2])], Status::Elf(ElfFault::BadVersion)),
        (
            &[(16, &[3])],
            Status::Elf(ElfFault::NotExecutable { kind: 3 }),
        ),
        (
            &[(18, &[62])],
            Status::Elf(ElfFault::NotRiscv { machine: 62 }),
        ),
        (
            &[(42, &[40])],
            Status::Elf(ElfFault::BadEntrySize { size: 40 }),
        ),
        (
            &[(44, &[65])],
            Status::Elf(ElfFault::TooManySegments { count: 65 }),
        ),
        (&[(44, &[0]), (42, &[0])], Status::Elf(ElfFault::NoText)),
        (&[(28, &[255, 255, 255, 255])], Status::Elf(far)),
        (
            &[(56, &[85])],
            Status::Elf(ElfFault::SegmentOutside { index: 0 }),
        ),
        (
            &[(60, &[0xfc, 0xff, 0xff, 0xff])],
            Status::Elf(ElfFault::SegmentWraps { index: 0 }),
        ),
        (&[(60, TOP), (24, TOP)], Status::Done),
        (
            &[(60, TOP), (24, TOP), (88, &[0x13, 0, 0, 0])],
            Status::Flow(wrapped),
        ),
        (&[(76, &[4])], Status::Elf(ElfFault::NoText)),
        (&[(52, &[2])], Status::Elf(ElfFault::NoText)),
        (&[(68, &[0])], Status::Elf(ElfFault::NoText)),
        (&[(68, &[7])], Status::Flow(left)),
        (
            &[(24, &[2])],
            Status::Flow(FlowFault::BadEntry { entry: 0x10002 }),
        ),
    ];
    for (changes, status) in cases {
        let Ran { outcome, .. } = run_on(&rt, alloc, SMALL, changed(alloc, changes)?)?;
        assert_eq!(rt; outcome.status, status);
    }
    let twice = ElfFault::SegmentsOverlap { index: 1 };
    let Ran { outcome, .. } = run_on(&rt, alloc, SMALL, doubled(alloc)?)?;
    assert_eq!(rt; outcome.status, Status::Elf(twice));
    Ok(())
}

#[test]
fn a_program_may_end_with_the_addresses(rt: HostRuntime) -> Result<(), Fail> {
    let alloc = rt.alloc();
    let file = changed(alloc, &[(60, TOP), (24, TOP)])?;
    let Ran { outcome, out, .. } = run_on(&rt, alloc, SMALL, file)?;
    assert_eq!(rt; outcome.status, Status::Done);
    let text = "0xfffffff8 always-miss\n0xfffffffc always-hit\n";
    assert_eq!(rt; out.sent(), text.as_bytes());
    Ok(())
}

use crate::{
    FlowFault, Frame, Instruction, Isa, Link, Next, instruction_at, is_target, next_of, parts,
};
use elf_image::{Image, read};
use std::alloc::Global;
use std::process::Abort;
use std::test::Fail;

/// What stands before the words of an executable of one block at 0x10000, without the sizes of the block.
const HEAD: [u8; 68] = [
    0x7f, 0x45, 0x4c, 0x46, 1, 1, 1, 0, 0, 0, 0, 0, 0, 0, 0, 0, 2, 0, 0xf3, 0, 1, 0, 0, 0, 0, 0, 1,
    0, 0x34, 0, 0, 0, 0, 0, 0, 0, 0, 0, 0, 0, 0x34, 0, 0x20, 0, 1, 0, 0, 0, 0, 0, 0, 0, 1, 0, 0, 0,
    0x54, 0, 0, 0, 0, 0, 1, 0, 0, 0, 1, 0,
];

fn image_with(rt: &impl Abort, alloc: Global, text: &[u8]) -> Result<Image, Fail> {
    assert!(rt; text.len() < 500);
    let size = text.len() as u32;
    let mut file = HEAD.to_vec(alloc)?;
    file.extend_from_slice(&size.to_le_bytes())?;
    file.extend_from_slice(&size.to_le_bytes())?;
    file.extend_from_slice(&[5, 0, 0, 0, 4, 0, 0, 0])?;
    file.extend_from_slice(text)?;
    assert!(rt; file.len() < 1000);
    Ok(read(alloc, file)?)
}

fn image_of(rt: &impl Abort, alloc: Global, words: &[u32]) -> Result<Image, Fail> {
    let mut text = Vec::new(alloc);
    for word in words {
        text.extend_from_slice(&word.to_le_bytes())?;
    }
    image_with(rt, alloc, &text)
}

fn image_of_parcels(rt: &impl Abort, alloc: Global, parcels: &[u16]) -> Result<Image, Fail> {
    let mut text = Vec::new(alloc);
    for parcel in parcels {
        text.extend_from_slice(&parcel.to_le_bytes())?;
    }
    image_with(rt, alloc, &text)
}

/// An address, the newest open call, and where control goes from there.
type Case = (u32, Option<Frame>, Result<Next, FlowFault>);

fn check(rt: &impl Abort, image: &Image, cases: &[Case]) {
    check_as(rt, image, Isa::Rv32i, cases);
}

fn check_as(rt: &impl Abort, image: &Image, isa: Isa, cases: &[Case]) {
    for (at, top, next) in cases {
        assert!(rt; instruction_at(image, isa, *at).is_some());
        assert_eq!(rt; next_of(image, isa, *at, *top), *next, "at {at:#010x}");
    }
}

const fn frame(back: u32, link: Link, callee: u32) -> Frame {
    Frame { back, link, callee }
}

const fn bad_target(at: u32, target: u32) -> Result<Next, FlowFault> {
    Err(FlowFault::BadTarget { at, target })
}

const fn illegal(at: u32, word: u32) -> Result<Next, FlowFault> {
    Err(FlowFault::Illegal { at, word })
}

const fn enters(target: u32, back: u32, link: Link) -> Result<Next, FlowFault> {
    let frame = frame(back, link, target);
    Ok(Next::Enter { target, frame })
}

#[test]
fn each_kind_leads_where_its_word_says(rt: HostRuntime) -> Result<(), Fail> {
    let words = [
        0x0000_0013, // addi
        0x0000_0463, // beq to the second next word
        0x0000_0263, // beq to the next word
        0x0080_006f, // jal x0 to the second next word
        0x00c0_00ef, // jal x1 to the third next word
        0x0080_02ef, // jal x5 to the second next word
        0x0000_0013,
        0x0005_0067, // jalr x0, 0(x10)
        0x0010_0073, // ebreak
        0xffff_ffff,
        0xfe05_1ee3, // bne to the word before
        0x0000_006f, // jal x0 to itself
    ];
    let image = image_of(&rt, rt.alloc(), &words)?;
    let cases = [
        (0x10000, None, Ok(Next::Go(0x10004))),
        (0x10004, None, Ok(Next::Fork(0x10008, 0x1000c))),
        (0x10008, None, Ok(Next::Go(0x1000c))),
        (0x1000c, None, Ok(Next::Go(0x10014))),
        (0x10010, None, enters(0x1001c, 0x10014, Link::X1)),
        (0x10014, None, enters(0x1001c, 0x10018, Link::X5)),
        (0x1001c, None, Err(FlowFault::ComputedJump { at: 0x1001c })),
        (0x10020, None, Ok(Next::Ends)),
        (0x10024, None, illegal(0x10024, 0xffff_ffff)),
        (0x10028, None, Ok(Next::Fork(0x1002c, 0x10024))),
        (0x1002c, None, Ok(Next::Go(0x1002c))),
    ];
    check(&rt, &image, &cases);
    Ok(())
}

#[test]
fn a_pair_leads_where_both_words_say(rt: HostRuntime) -> Result<(), Fail> {
    let words = [
        0x0000_0097, // auipc x1
        0x00c0_80e7, // jalr x1, 12(x1)
        0x0010_0073,
        0x0000_0317, // auipc x6
        0xffd3_0067, // jalr x0, -3(x6)
        0xfe05_1ee3, // bne onto the second half before it
        0x0003_0067, // jalr x0, 0(x6), which stands alone
        0x0000_0097, // auipc x1
        0x0000_8067, // jalr x0, 0(x1), which by itself is a return
    ];
    let image = image_of(&rt, rt.alloc(), &words)?;
    let cases = [
        (0x10000, None, Ok(Next::Go(0x10004))),
        (0x10004, None, enters(0x1000c, 0x10008, Link::X1)),
        (0x10010, None, Ok(Next::Go(0x10008))),
        (0x10014, None, bad_target(0x10014, 0x10010)),
        (0x10018, None, Err(FlowFault::ComputedJump { at: 0x10018 })),
        (0x10020, None, Ok(Next::Go(0x1001c))),
    ];
    check(&rt, &image, &cases);
    for (p, good) in [
        (0x10000, true),
        (0x10002, false),
        (0x10004, false),
        (0x10008, true),
        (0x10024, false),
        (0, false),
    ] {
        assert_eq!(rt; is_target(&image, Isa::Rv32i, p), good, "at {p:#010x}");
    }
    Ok(())
}

#[test]
fn a_return_closes_the_newest_call_by_its_own_register(rt: HostRuntime) -> Result<(), Fail> {
    let words = [0x0000_8067, 0x0002_8067, 0x0010_0073];
    let image = image_of(&rt, rt.alloc(), &words)?;
    let by_x1 = Some(frame(0x10008, Link::X1, 0x10000));
    let by_x5 = Some(frame(0x10008, Link::X5, 0x10000));
    let outside = Some(frame(0x1000c, Link::X1, 0x10000));
    let cases = [
        (0x10000, by_x1, Ok(Next::Back(0x10008))),
        (0x10000, by_x5, Err(FlowFault::ComputedJump { at: 0x10000 })),
        (0x10000, None, Ok(Next::Ends)),
        (0x10000, outside, bad_target(0x10000, 0x1000c)),
        (0x10004, by_x1, Err(FlowFault::ComputedJump { at: 0x10004 })),
        (0x10004, by_x5, Ok(Next::Back(0x10008))),
        (0x10004, None, Err(FlowFault::ComputedJump { at: 0x10004 })),
    ];
    check(&rt, &image, &cases);
    Ok(())
}

#[test]
fn a_place_outside_the_text_is_a_fault(rt: HostRuntime) -> Result<(), Fail> {
    let words = [
        0xf91f_f06f, // jal x0, 112 bytes back
        0xf91f_f0ef, // jal x1, 112 bytes back
        0x0605_0c63, // beq, 120 bytes on
        0x0605_0c63,
    ];
    let image = image_of(&rt, rt.alloc(), &words)?;
    let cases = [
        (0x10000, None, bad_target(0x10000, 0xff90)),
        (0x10004, None, bad_target(0x10004, 0xff94)),
        (0x10008, None, bad_target(0x10008, 0x10080)),
        (0x1000c, None, bad_target(0x1000c, 0x10010)),
    ];
    check(&rt, &image, &cases);
    let plain = image_of(&rt, rt.alloc(), &[0x0000_0013])?;
    check(
        &rt,
        &plain,
        &[(0x10000, None, bad_target(0x10000, 0x10004))],
    );
    Ok(())
}

#[test]
fn a_call_in_the_last_word_opens_a_frame(rt: HostRuntime) -> Result<(), Fail> {
    let image = image_of(&rt, rt.alloc(), &[0x0010_0073, 0xffdf_f0ef])?;
    let cases = [(0x10004, None, enters(0x10000, 0x10008, Link::X1))];
    check(&rt, &image, &cases);
    Ok(())
}

#[test]
fn an_instruction_has_the_length_of_its_parcel(rt: HostRuntime) -> Result<(), Fail> {
    let parcels = [0x0001, 0x0013, 0x0000, 0x001f, 0x0000, 0x0013];
    let image = image_of_parcels(&rt, rt.alloc(), &parcels)?;
    for (at, instruction) in [
        (0x10000, Some(Instruction::Parcel(0x0001))),
        (0x10001, None),
        (0x10002, Some(Instruction::Word(0x0000_0013))),
        (0x10004, Some(Instruction::Parcel(0x0000))),
        (0x10006, Some(Instruction::Cut(0x001f))),
        (0x1000a, Some(Instruction::Cut(0x0013))),
        (0x1000c, None),
    ] {
        assert_eq!(rt;
            instruction_at(&image, Isa::Rv32ic, at),
            instruction,
            "at {at:#010x}"
        );
    }
    assert_eq!(rt;
        instruction_at(&image, Isa::Rv32i, 0x10000),
        Some(Instruction::Word(0x0013_0001))
    );
    assert_eq!(rt; instruction_at(&image, Isa::Rv32i, 0x10002), None);
    Ok(())
}

#[test]
fn each_parcel_leads_where_it_says(rt: HostRuntime) -> Result<(), Fail> {
    let parcels = [
        0x0001, // c.nop
        0x2011, // c.jal to the second next parcel
        0x9002, // c.ebreak
        0xc111, // c.beqz to the second next parcel
        0xbffd, // c.j to the parcel before
        0x8082, // c.jr ra
        0x8502, // c.jr a0
        0x0000, // the parcel of zeros
        0x001f, // the first of more than two
        0x0013, // the first of two, of which the second is cut off
    ];
    let image = image_of_parcels(&rt, rt.alloc(), &parcels)?;
    let by_x1 = Some(frame(0x10004, Link::X1, 0x10006));
    let cases = [
        (0x10000, None, Ok(Next::Go(0x10002))),
        (0x10002, None, enters(0x10006, 0x10004, Link::X1)),
        (0x10004, None, Ok(Next::Ends)),
        (0x10006, None, Ok(Next::Fork(0x10008, 0x1000a))),
        (0x10008, None, Ok(Next::Go(0x10006))),
        (0x1000a, by_x1, Ok(Next::Back(0x10004))),
        (0x1000a, None, Ok(Next::Ends)),
        (0x1000c, None, Err(FlowFault::ComputedJump { at: 0x1000c })),
        (0x1000e, None, illegal(0x1000e, 0x0000)),
        (0x10010, None, illegal(0x10010, 0x001f)),
        (0x10012, None, illegal(0x10012, 0x0013)),
    ];
    check_as(&rt, &image, Isa::Rv32ic, &cases);
    Ok(())
}

#[test]
fn a_pair_may_end_in_two_bytes(rt: HostRuntime) -> Result<(), Fail> {
    let parcels = [
        0x0097, 0x0000, // auipc ra, 0
        0x9082, // c.jalr ra, which is a call of the auipc
        0x9002, // c.ebreak
        0x0317, 0x0001, // auipc t1, of which the second half is c.nop
        0x8302, // c.jr t1
        0xbff5, // c.j to the parcel of the auipc's second half
    ];
    let image = image_of_parcels(&rt, rt.alloc(), &parcels)?;
    let cases = [
        (0x10000, None, Ok(Next::Go(0x10004))),
        (0x10004, None, enters(0x10000, 0x10006, Link::X1)),
        (0x10008, None, Ok(Next::Go(0x1000c))),
        // Of two bytes, so that it doesn't stand before a second half as the AUIPC does.
        (0x1000a, None, bad_target(0x1000a, 0x1000c)),
        (0x1000c, None, bad_target(0x1000c, 0x20008)),
    ];
    check_as(&rt, &image, Isa::Rv32ic, &cases);
    for (p, good) in [
        (0x10000, true),
        (0x10004, false),
        (0x10006, true),
        (0x1000a, true),
        (0x1000c, false),
        (0x1000f, false),
    ] {
        assert_eq!(rt; is_target(&image, Isa::Rv32ic, p), good, "at {p:#010x}");
    }
    Ok(())
}

#[test]
fn two_parts_are_fetched_where_a_line_begins_in_the_middle(rt: HostRuntime) -> Result<(), Fail> {
    let parcels = [0x0001, 0x0013, 0x0000, 0x0001, 0x0013, 0x0000];
    let image = image_of_parcels(&rt, rt.alloc(), &parcels)?;
    for (isa, line, at, count) in [
        (Isa::Rv32ic, 4, 0x10000, 1),
        (Isa::Rv32ic, 4, 0x10002, 2),
        (Isa::Rv32ic, 4, 0x10008, 1),
        (Isa::Rv32ic, 8, 0x10002, 1),
        (Isa::Rv32i, 4, 0x10000, 1),
    ] {
        assert!(rt; instruction_at(&image, isa, at).is_some());
        assert_eq!(rt; parts(&image, isa, line, at), count, "at {at:#010x}");
    }
    Ok(())
}

ghost use Rattle.std.specs.Prelude.{◌<◌, ◌≤◌, length};

use crate::{Expanded, FlowFault, Frame, Image, Isa, Link, StackCell, expand, path_laws};
use std::alloc::{AllocError, Global};
use std::process::Abort;
use std::test::Fail;

const STOP: u32 = 0x00100073;

const PLAIN: u32 = 0x00000013;

const RETURN: u32 = 0x00008067;

// An executable of this text at 0x10000, where it begins.
fn wrap(alloc: Global, text: &[u8]) -> Result<Vec<u8>, AllocError>
    requires { length text.now ≤ 262144 }
{
    let mut file = [
        0x7f, 0x45, 0x4c, 0x46, 1, 1, 1, 0, 0, 0, 0, 0, 0, 0, 0, 0, 2, 0, 0xf3, 0, 1, 0, 0, 0, 0,
        0, 1, 0, 0x34, 0, 0, 0, 0, 0, 0, 0, 0, 0, 0, 0, 0x34, 0, 0x20, 0, 1, 0, 0, 0, 0, 0, 0, 0,
        1, 0, 0, 0, 0x54, 0, 0, 0, 0, 0, 1, 0, 0, 0, 1, 0,
    ]
    .to_vec(alloc)?;
    let size = (text.len() as u32).to_le_bytes();
    file.extend_from_slice(&size)?;
    file.extend_from_slice(&size)?;
    file.extend_from_slice(&[5, 0, 0, 0, 4, 0, 0, 0])?;
    file.extend_from_slice(text)?;
    Ok(file)
}

fn image_with(rt: &(impl Abort + AllocGlobal), text: &[u8]) -> Result<Image, Fail> {
    assert!(rt; text.len() <= 262_144);
    let file = wrap(rt.alloc(), text)?;
    assert!(rt; file.len() <= 16_777_216);
    Ok(elf_image::read(rt.alloc(), file)?)
}

fn image_of(rt: &(impl Abort + AllocGlobal), words: &[u32]) -> Result<Image, Fail> {
    let mut text = Vec::new(rt.alloc());
    for word in words {
        text.extend_from_slice(&word.to_le_bytes())?;
    }
    image_with(rt, &text)
}

fn expanded(
    rt: &(impl Abort + AllocGlobal),
    words: &[u32],
) -> Result<Result<Expanded, FlowFault>, Fail> {
    let image = image_of(rt, words)?;
    Ok(expand(rt.alloc(), &image, image.entry(), Isa::Rv32i, 32))
}

#[test]
fn a_refused_program_has_its_one_fault(rt: HostRuntime) -> Result<(), Fail> {
    let at = 0x10000;
    for (words, fault) in [
        ([0x000000ef].as_slice(), FlowFault::Recursion { at }),
        (
            [0x008000ef, STOP, 0x008000ef, RETURN, 0xff9ff0ef].as_slice(),
            FlowFault::Recursion { at: 0x10010 },
        ),
        ([0x00050067].as_slice(), FlowFault::ComputedJump { at }),
        (
            [0xffffffff].as_slice(),
            FlowFault::Illegal {
                at,
                word: 0xffffffff,
            },
        ),
        (
            [PLAIN].as_slice(),
            FlowFault::BadTarget {
                at,
                target: 0x10004,
            },
        ),
        (
            [0x00000463, 0x00000097, 0x00c080e7].as_slice(),
            FlowFault::BadTarget {
                at,
                target: 0x10008,
            },
        ),
        (
            [0x008002ef, STOP, RETURN].as_slice(),
            FlowFault::ComputedJump { at: 0x10008 },
        ),
    ] {
        assert!(rt; expanded(&rt, words)?.err() == Some(fault), "{words:?}");
    }
    Ok(())
}

#[test]
fn an_entry_outside_the_text_is_bad(rt: HostRuntime) -> Result<(), Fail> {
    let image = image_of(&rt, &[PLAIN, STOP])?;
    let entry = 0x10008;
    assert!(rt;
        expand(rt.alloc(), &image, entry, Isa::Rv32i, 32).err()
            == Some(FlowFault::BadEntry { entry })
    );
    Ok(())
}

// Address, depth and return address of a node, and its successors.
type Row = (u32, u32, Option<u32>, Option<u32>, Option<u32>);

fn row(expanded: &Expanded, number: u32) -> Row
    requires { number < length expanded.now.nodes }
{
    let node = expanded.graph().nodes()[number as usize];
    let config = expanded.config(number);
    let back = expanded.top(number).map(|frame| frame.back);
    (config.at, config.depth, back, node.first, node.second)
}

fn rows(alloc: Global, expanded: &Expanded) -> Result<Vec<Row>, AllocError> {
    let mut rows = Vec::new(alloc);
    for number in 0..expanded.graph().nodes().len() as u32 {
        rows.push(row(expanded, number))?;
    }
    Ok(rows)
}

#[test]
fn an_accepted_program_has_its_graph(rt: HostRuntime) -> Result<(), Fail> {
    for (words, expected) in [
        (
            [0x00c000ef, 0x008000ef, STOP, RETURN].as_slice(),
            [
                (0x10000, 0, None, Some(1), None),
                (0x1000c, 1, Some(0x10004), Some(2), None),
                (0x10004, 0, None, Some(3), None),
                (0x1000c, 1, Some(0x10008), Some(4), None),
                (0x10008, 0, None, None, None),
            ]
            .as_slice(),
        ),
        (
            [PLAIN, 0xfe051ee3, STOP].as_slice(),
            [
                (0x10000, 0, None, Some(1), None),
                (0x10004, 0, None, Some(2), Some(0)),
                (0x10008, 0, None, None, None),
            ]
            .as_slice(),
        ),
        (
            [0x00000097, 0x00c080e7, STOP, RETURN].as_slice(),
            [
                (0x10000, 0, None, Some(1), None),
                (0x10004, 0, None, Some(2), None),
                (0x1000c, 1, Some(0x10008), Some(3), None),
                (0x10008, 0, None, None, None),
            ]
            .as_slice(),
        ),
        (
            [0x008002ef, STOP, 0x00028067].as_slice(),
            [
                (0x10000, 0, None, Some(1), None),
                (0x10008, 1, Some(0x10004), Some(2), None),
                (0x10004, 0, None, None, None),
            ]
            .as_slice(),
        ),
        (
            [0x0000006f].as_slice(),
            [(0x10000, 0, None, Some(0), None)].as_slice(),
        ),
        // A call in the last word that never returns.
        (
            [0x0080006f, STOP, 0xffdff0ef].as_slice(),
            [
                (0x10000, 0, None, Some(1), None),
                (0x10008, 0, None, Some(2), None),
                (0x10004, 1, Some(0x1000c), None, None),
            ]
            .as_slice(),
        ),
        // Two ways to one function: the oldest frame decides which configuration comes first.
        (
            [
                0x00000463, 0x014000ef, 0x008000ef, STOP, 0x010000ef, RETURN, 0x008000ef, RETURN,
                RETURN,
            ]
            .as_slice(),
            [
                (0x10000, 0, None, Some(1), Some(2)),
                (0x10004, 0, None, Some(4), None),
                (0x10008, 0, None, Some(3), None),
                (0x10010, 1, Some(0x1000c), Some(6), None),
                (0x10018, 1, Some(0x10008), Some(5), None),
                (0x10020, 2, Some(0x1001c), Some(8), None),
                (0x10020, 2, Some(0x10014), Some(7), None),
                (0x10014, 1, Some(0x1000c), Some(9), None),
                (0x1001c, 1, Some(0x10008), Some(2), None),
                (0x1000c, 0, None, None, None),
            ]
            .as_slice(),
        ),
    ] {
        let graph = expanded(&rt, words)??;
        assert!(rt;
            rows(rt.alloc(), &graph)?.as_slice() == expected,
            "{words:?}"
        );
    }
    Ok(())
}

#[test]
fn equal_lists_of_open_calls_have_one_stack(rt: HostRuntime) -> Result<(), Fail> {
    let graph = expanded(&rt, &[0x00c000ef, 0x008000ef, STOP, RETURN])??;
    path_laws();
    let frame = Frame {
        back: 0x10004,
        link: Link::X1,
        callee: 0x1000c,
    };
    let second = Frame {
        back: 0x10008,
        ..frame
    };
    let cells = [
        StackCell { below: 0, frame },
        StackCell {
            below: 0,
            frame: second,
        },
    ];
    assert_eq!(rt; graph.cells(), cells.as_slice());
    for (number, stack) in [(0, 0), (1, 1), (2, 0), (3, 2), (4, 0)] {
        assert!(rt; graph.graph().nodes().len() == 5);
        assert_eq!(rt; graph.config(number).stack, stack);
    }
    Ok(())
}

// The two ways meet again after the branch, where jumps lead to and fro.
#[test]
fn branches_and_jumps_are_numbered_by_layer_and_address(rt: HostRuntime) -> Result<(), Fail> {
    let mut words = vec![in rt.alloc(); PLAIN; 66]?;
    for (index, word) in [
        (0, 0x0080006f),
        (1, STOP),
        (2, 0x06050c63),
        (3, 0x0f40006f),
        (4, 0x0740006f),
        (32, 0xf91ff06f),
        (33, 0x0800006f),
        (64, 0xf11ff06f),
        (65, 0xf01ff06f),
    ] {
        if let Some(slot) = words.get_mut(index) {
            *slot = word;
        }
    }
    let graph = expanded(&rt, &words)??;
    let expected = [
        (0x10000, 0, None, Some(1), None),
        (0x10008, 0, None, Some(2), Some(3)),
        (0x1000c, 0, None, Some(5), None),
        (0x10080, 0, None, Some(4), None),
        (0x10010, 0, None, Some(6), None),
        (0x10100, 0, None, Some(4), None),
        (0x10084, 0, None, Some(7), None),
        (0x10104, 0, None, Some(8), None),
        (0x10004, 0, None, None, None),
    ];
    assert!(rt; rows(rt.alloc(), &graph)?.as_slice() == expected.as_slice());
    Ok(())
}

// So many functions, each of which calls the next one twice.
fn calls(alloc: Global, functions: usize) -> Result<Vec<u32>, AllocError> {
    let mut words = [0x008000ef, STOP].to_vec(alloc)?;
    for _ in 0..functions {
        words.extend_from_slice(&[0x00c000ef, 0x008000ef, RETURN])?;
    }
    words.push(RETURN)?;
    Ok(words)
}

fn expanded_parcels(
    rt: &(impl Abort + AllocGlobal),
    parcels: &[u16],
    line: u32,
) -> Result<Result<Expanded, FlowFault>, Fail>
    requires { 0 < line }
{
    let mut text = Vec::new(rt.alloc());
    for parcel in parcels {
        text.extend_from_slice(&parcel.to_le_bytes())?;
    }
    let image = image_with(rt, &text)?;
    Ok(expand(rt.alloc(), &image, image.entry(), Isa::Rv32ic, line))
}

// What a node fetches: the address, its instruction's address and the part of that, and its successors.
type Fetch = (u32, u32, u8, Option<u32>, Option<u32>);

fn fetches(alloc: Global, expanded: &Expanded) -> Result<Vec<Fetch>, AllocError> {
    let mut fetches = Vec::new(alloc);
    for number in 0..expanded.graph().nodes().len() as u32 {
        let node = expanded.graph().nodes()[number as usize];
        let config = expanded.config(number);
        fetches.push((node.at, config.at, config.part, node.first, node.second))?;
    }
    Ok(fetches)
}

#[test]
fn an_instruction_across_two_lines_is_fetched_in_two_parts(rt: HostRuntime) -> Result<(), Fail> {
    // C.NOP, an ADDI of four bytes, and C.EBREAK or a C.J to the ADDI.
    let ends = [0x0001, 0x0013, 0x0000, 0x9002].as_slice();
    let loops = [0x0001, 0x0013, 0x0000, 0xbff5].as_slice();
    for (parcels, line, expected) in [
        (
            ends,
            4,
            [
                (0x10000, 0x10000, 0, Some(1), None),
                (0x10002, 0x10002, 0, Some(2), None),
                (0x10004, 0x10002, 1, Some(3), None),
                (0x10006, 0x10006, 0, None, None),
            ]
            .as_slice(),
        ),
        (
            ends,
            16,
            [
                (0x10000, 0x10000, 0, Some(1), None),
                (0x10002, 0x10002, 0, Some(2), None),
                (0x10006, 0x10006, 0, None, None),
            ]
            .as_slice(),
        ),
        (
            loops,
            4,
            [
                (0x10000, 0x10000, 0, Some(1), None),
                (0x10002, 0x10002, 0, Some(2), None),
                (0x10004, 0x10002, 1, Some(3), None),
                (0x10006, 0x10006, 0, Some(1), None),
            ]
            .as_slice(),
        ),
    ] {
        let graph = expanded_parcels(&rt, parcels, line)??;
        assert!(rt;
            fetches(rt.alloc(), &graph)?.as_slice() == expected,
            "{parcels:?} {line}"
        );
    }
    Ok(())
}

#[test]
fn a_parcel_that_is_no_instruction_is_named(rt: HostRuntime) -> Result<(), Fail> {
    let at = 0x10000;
    for (parcels, word) in [
        ([0x0000, 0x0000].as_slice(), 0x0000),
        ([0x001f, 0x0000].as_slice(), 0x001f),
    ] {
        assert!(rt;
            expanded_parcels(&rt, parcels, 32)?.err() == Some(FlowFault::Illegal { at, word }),
            "{parcels:?}"
        );
    }
    Ok(())
}

#[test]
fn calls_are_expanded_up_to_the_limit(rt: HostRuntime) -> Result<(), Fail> {
    let graph = expanded(&rt, &calls(rt.alloc(), 14)?)??;
    assert_eq!(rt; graph.graph().nodes().len(), 65_535);
    assert!(rt;
        expanded(&rt, &calls(rt.alloc(), 15)?)?.err()
            == Some(FlowFault::TooManyFetches { limit: 65_536 })
    );
    Ok(())
}

// A branch to two calls of one function of `plain` other words, linked by x5 and by x1, which returns by x1.
fn two_calls(alloc: Global, plain: usize) -> Result<Vec<u32>, AllocError> {
    let mut words = [PLAIN, 0x00000463, 0x00c002ef, 0x008000ef, STOP].to_vec(alloc)?;
    for _ in 0..plain {
        words.push(PLAIN)?;
    }
    words.push(RETURN)?;
    Ok(words)
}

#[test]
fn a_fault_counts_where_its_layer_comes_no_later_than_the_limit(
    rt: HostRuntime,
) -> Result<(), Fail> {
    assert!(rt;
        expanded(&rt, &two_calls(rt.alloc(), 32_765)?)?.err()
            == Some(FlowFault::ComputedJump {
                at: 0x10014 + 4 * 32_765,
            })
    );
    assert!(rt;
        expanded(&rt, &two_calls(rt.alloc(), 32_766)?)?.err()
            == Some(FlowFault::TooManyFetches { limit: 65_536 })
    );
    Ok(())
}

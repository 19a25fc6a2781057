use super::*;

#[test]
fn words_have_the_kinds_of_the_manual(rt: HostRuntime) {
    let cases = [
        (0x0000_0013, Kind::Plain),
        (0x0000_0073, Kind::Plain),
        (0x0000_000f, Kind::Plain),
        (0x0000_100f, Kind::Plain),
        (0x3052_9073, Kind::Plain),
        (0x02a5_8533, Kind::Plain),
        (0x4000_5013, Kind::Plain),
        (0x4000_0033, Kind::Plain),
        (0x0010_0073, Kind::Stop),
        (0x3020_0073, Kind::Stop),
        (0x1050_0073, Kind::Stop),
        (0xfe05_1ee3, Kind::Branch { offset: -4 }),
        (0x0605_0c63, Kind::Branch { offset: 120 }),
        (0xf91f_f06f, Kind::Jump { offset: -112 }),
        (0x0080_03ef, Kind::Jump { offset: 8 }),
        (0x0080_006f, Kind::Jump { offset: 8 }),
        (0x0000_8067, Kind::Return { link: Link::X1 }),
        (0x0002_8067, Kind::Return { link: Link::X5 }),
        (0x0005_0067, Kind::Computed),
        (0x0040_8067, Kind::Computed),
        (0x0000_80e7, Kind::Computed),
        (0x0000_2067, Kind::Illegal),
        (0x0000_2063, Kind::Illegal),
        (0x0000_3003, Kind::Illegal),
        (0x4000_1013, Kind::Illegal),
        (0x4000_1033, Kind::Illegal),
        (0x0000_4073, Kind::Illegal),
        (0x0020_0073, Kind::Illegal),
        (0x0000_0000, Kind::Illegal),
        (0xffff_ffff, Kind::Illegal),
        (
            0x00c0_00ef,
            Kind::Call {
                offset: 12,
                link: Link::X1,
            },
        ),
        (
            0x0080_02ef,
            Kind::Call {
                offset: 8,
                link: Link::X5,
            },
        ),
    ];
    for (word, kind) in cases {
        assert_eq!(rt; decode(word), kind, "at {word:#010x}");
    }
}

#[test]
fn a_pair_leads_to_the_sum_of_both_immediates(rt: HostRuntime) {
    assert_eq!(rt; pair(0x0000_0097, 0x00c0_80e7), Some(12));
    assert_eq!(rt; pair(0xffff_f317, 0xff03_0067), Some(-4112));
}

#[test]
fn words_of_two_registers_or_of_x0_are_no_pair(rt: HostRuntime) {
    assert_eq!(rt; pair(0x0000_0097, 0x0005_0067), None);
    assert_eq!(rt; pair(0x0000_0017, 0x0000_0067), None);
}

#[test]
fn only_x1_and_x5_are_link_registers(rt: HostRuntime) {
    assert_eq!(rt; link_of(1 << 7), Some(Link::X1));
    assert_eq!(rt; link_of(5 << 7), Some(Link::X5));
    assert_eq!(rt; link_of(6 << 7), None);
}

#[test]
fn the_laws_may_be_called_at_words_of_the_table(rt: HostRuntime) {
    jal_round_trip(0, -112);
    assert_eq!(rt; decode(0xf91f_f06f), Kind::Jump { offset: -112 });
    branch_round_trip(1, 10, 0, -4);
    assert_eq!(rt; decode(0xfe05_1ee3), Kind::Branch { offset: -4 });
    auipc_round_trip(6, -4096);
    jalr_round_trip(0, 6, -16);
    pair_round_trip(6, 0, -4096, -16);
    assert_eq!(rt; pair(0xffff_f317, 0xff03_0067), Some(-4112));
    worked_words();
}

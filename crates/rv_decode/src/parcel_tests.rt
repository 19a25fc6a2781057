use super::*;

fn call(offset: i32) -> Kind {
    Kind::Call {
        offset,
        link: Link::X1,
    }
}

fn jump(offset: i32) -> Kind {
    Kind::Jump { offset }
}

fn branch(offset: i32) -> Kind {
    Kind::Branch { offset }
}

fn returns(link: Link) -> Kind {
    Kind::Return { link }
}

/// The kind of a parcel, where it is an instruction by itself.
fn kind_alone(parcel: u16) -> Option<Kind> {
    match length_of(parcel) {
        Length::Two => Some(decode_parcel(parcel)),
        Length::Four | Length::Longer => None,
    }
}

#[test]
fn parcels_have_the_kinds_of_the_manual(rt: HostRuntime) {
    let cases = [
        (0x0000, Kind::Illegal),
        (0x0001, Kind::Plain),
        (0x0040, Kind::Plain),
        (0x1141, Kind::Plain),
        (0x4501, Kind::Plain),
        (0x6105, Kind::Plain),
        (0x6505, Kind::Plain),
        (0x8105, Kind::Plain),
        (0x8d09, Kind::Plain),
        (0x0506, Kind::Plain),
        (0x4108, Kind::Plain),
        (0xc108, Kind::Plain),
        (0x4502, Kind::Plain),
        (0xc02a, Kind::Plain),
        (0x852e, Kind::Plain),
        (0x952e, Kind::Plain),
        (0x9006, Kind::Plain),
        (0x8086, Kind::Plain),
        (0x8002, Kind::Plain),
        (0x2000, Kind::Plain),
        (0x8000, Kind::Plain),
        (0xa000, Kind::Plain),
        (0xe000, Kind::Plain),
        (0x2002, Kind::Plain),
        (0xa002, Kind::Plain),
        (0xe002, Kind::Plain),
        (0x8082, returns(Link::X1)),
        (0x8282, returns(Link::X5)),
        (0x8502, Kind::Computed),
        (0x8302, Kind::Computed),
        (0x8f82, Kind::Computed),
        (0x9502, Kind::Computed),
        (0x9082, Kind::Computed),
        (0x9282, Kind::Computed),
        (0x9f82, Kind::Computed),
        (0x9002, Kind::Stop),
    ];
    for (parcel, kind) in cases {
        assert_eq!(rt; kind_alone(parcel), Some(kind), "at {parcel:#06x}");
    }
}

#[test]
fn each_bit_of_an_offset_and_both_its_ends_are_read(rt: HostRuntime) {
    let cases = [
        (0x2011, call(4)),
        (0x2009, call(2)),
        (0x3ffd, call(-2)),
        (0x2ffd, call(2046)),
        (0x3001, call(-2048)),
        (0xa011, jump(4)),
        (0xbffd, jump(-2)),
        (0xa009, jump(2)),
        (0xa021, jump(8)),
        (0xa801, jump(16)),
        (0xa005, jump(32)),
        (0xa081, jump(64)),
        (0xa041, jump(128)),
        (0xa201, jump(256)),
        (0xa401, jump(512)),
        (0xa101, jump(1024)),
        (0xaffd, jump(2046)),
        (0xb001, jump(-2048)),
        (0xc111, branch(4)),
        (0xfd75, branch(-4)),
        (0xc009, branch(2)),
        (0xc401, branch(8)),
        (0xc801, branch(16)),
        (0xc005, branch(32)),
        (0xc021, branch(64)),
        (0xc041, branch(128)),
        (0xcc7d, branch(254)),
        (0xd001, branch(-256)),
        (0xe009, branch(2)),
        (0xec7d, branch(254)),
        (0xf001, branch(-256)),
        (0xc381, branch(0)),
    ];
    for (parcel, kind) in cases {
        assert_eq!(rt; kind_alone(parcel), Some(kind), "at {parcel:#06x}");
    }
}

#[test]
fn the_first_parcel_says_the_length(rt: HostRuntime) {
    let cases = [
        (0x0000, Length::Two),
        (0x0001, Length::Two),
        (0x8082, Length::Two),
        (0xfffe, Length::Two),
        (0xfffd, Length::Two),
        (0x0003, Length::Four),
        (0x0013, Length::Four),
        (0x0017, Length::Four),
        (0x001b, Length::Four),
        (0x000f, Length::Four),
        (0xffef, Length::Four),
        (0xffe3, Length::Four),
        (0x001f, Length::Longer),
        (0x003f, Length::Longer),
        (0x007f, Length::Longer),
        (0xffff, Length::Longer),
    ];
    for (parcel, length) in cases {
        assert_eq!(rt; length_of(parcel), length, "at {parcel:#06x}");
    }
}

#[test]
fn jumps_through_a_register_stand_for_a_jalr(rt: HostRuntime) {
    let cases = [
        (0x8082, Some(0x0000_8067)),
        (0x8282, Some(0x0002_8067)),
        (0x8502, Some(0x0005_0067)),
        (0x8f82, Some(0x000f_8067)),
        (0x9502, Some(0x0005_00e7)),
        (0x9082, Some(0x0000_80e7)),
        (0x9f82, Some(0x000f_80e7)),
        (0x8002, None),
        (0x9002, None),
        (0x852e, None),
        (0x952e, None),
        (0x8081, None),
        (0x8080, None),
        (0x8083, None),
        (0x0082, None),
        (0xa082, None),
    ];
    for (parcel, word) in cases {
        assert_eq!(rt; widen(parcel), word, "at {parcel:#06x}");
    }
}

#[test]
fn an_auipc_and_a_compressed_call_through_its_register_are_a_pair(rt: HostRuntime) {
    assert_eq!(rt;
        widen(0x9302).and_then(|word| pair(0x0000_1317, word)),
        Some(4096)
    );
    assert_eq!(rt;
        widen(0x9282).and_then(|word| pair(0x0000_1317, word)),
        None
    );
}

#[test]
fn the_laws_may_be_called_at_parcels_of_the_table(rt: HostRuntime) {
    cj_round_trip(5, -2);
    cj_encoded_again(0xbffd);
    assert_eq!(rt; kind_alone(0xbffd), Some(jump(-2)));
    cb_round_trip(7, 2, -4);
    cb_encoded_again(0xfd75);
    assert_eq!(rt; kind_alone(0xfd75), Some(branch(-4)));
    cr_round_trip(1, 10);
    cr_encoded_again(0x9502);
    assert_eq!(rt; widen(0x9502), Some(0x0005_00e7));
    worked_parcels();
}

use super::{A, request, same, says};
use abt_cell::{Answer, Cell, CellFault, Request, RmFault, Vc};
use abt_rate::Rate;
use std::process::Abort;
use std::test::Fail;

fn is_no_cell(rt: &impl Abort, octets: &[u8]) {
    same(rt, &Cell::from_octets(octets), &Err(CellFault::Length));
}

// Demands the VPI and VCI of a cell.
fn has_channel(rt: &impl Abort, cell: &Cell, channel: (u16, u16)) {
    same(rt, &(cell.vc().vpi(), cell.vc().vci()), &channel);
}

// Demands the payload type of a cell, and its loss priority.
fn is_marked(rt: &impl Abort, cell: &Cell, pti: u8, clp: bool) {
    same(rt, &cell.pti(), &pti);
    same(rt, &cell.clp(), &clp);
}

// Demands the first and the last octet of the payload, and all octets.
fn has_octets(rt: &impl Abort, cell: &Cell, ends: (u8, u8), octets: &[u8; 52]) {
    same(rt, &(cell.payload()[0], cell.payload()[47]), &ends);
    same(rt, &cell.to_octets(), octets);
}

#[test]
fn a_cell_has_52_octets(rt: HostRuntime) {
    let octets = [0x5a; 65_536];
    for length in 0..52 {
        is_no_cell(&rt, &octets[..length]);
    }
    is_no_cell(&rt, &octets[..53]);
    is_no_cell(&rt, &octets);
    assert!(rt; Cell::from_octets(&octets[..52]).is_ok());
}

// A header of 12, 16, 3 and 1 bits: fed, cba9, 011, 1.
#[test]
fn the_header_is_read_field_by_field(rt: HostRuntime) -> Result<(), Fail> {
    let mut octets = [0; 52];
    octets[..4].copy_from_slice(&[0xfe, 0xdc, 0xba, 0x97]);
    octets[4] = 0x11;
    octets[51] = 0x22;
    let cell = Cell::from_octets(&octets).ok().ok_or("52 octets")?;
    has_channel(&rt, &cell, (0xfed, 0xcba9));
    is_marked(&rt, &cell, 3, true);
    has_octets(&rt, &cell, (0x11, 0x22), &octets);
    is_marked(&rt, &A.cell(), 6, false);
    Ok(())
}

#[test]
fn a_channel_has_twelve_bits_of_vpi(rt: HostRuntime) -> Result<(), Fail> {
    let last = Vc::new(4095, 65535).ok_or("twelve bits")?;
    same(&rt, &(last.vpi(), last.vci()), &(4095, 65535));
    same(&rt, &Vc::new(4096, 0), &None);
    assert!(rt; Vc::new(1, 65535) < Vc::new(2, 0));
    Ok(())
}

#[test]
fn a_request_has_a_number_and_asks_for_its_floor_or_more(rt: HostRuntime) -> Result<(), Fail> {
    same(&rt, &request(100, 0, 0x0000, 0x5258), &None);
    same(&rt, &request(100, 1, 0x5258, 0x5120), &None);
    assert!(rt; request(100, 1, 0x5258, 0x5258).is_some());
    let last = request(100, u32::MAX, 0x5120, 0x5258).ok_or("a request")?;
    same(&rt, &Some(last.vc()), &Vc::new(1, 100));
    same(&rt, &last.seq(), &4_294_967_295);
    same(
        &rt,
        &(last.floor().code(), last.ask().code()),
        &(0x5120, 0x5258),
    );
    Ok(())
}

#[test]
fn an_answer_repeats_its_request(rt: HostRuntime) -> Result<(), Fail> {
    let vc = Vc::new(7, 8).ok_or("a channel")?;
    let request = Request::new(vc, 9, Rate::ZERO, Rate::from_code(0x4000)).ok_or("a request")?;
    for granted in [true, false] {
        answers(&rt, &request, granted, vc);
    }
    Ok(())
}

// Demands that the answer to request 9, for 4000 above 0000, has what the request has.
fn answers(rt: &impl Abort, request: &Request, granted: bool, vc: Vc) {
    let answer = Answer::of(request, granted);
    same(rt, &(answer.vc(), answer.seq()), &(vc, 9));
    same(
        rt,
        &(answer.floor().code(), answer.ask().code()),
        &(0x0000, 0x4000),
    );
    same(rt, &answer.granted(), &granted);
}

#[test]
fn faults_are_told_in_words(rt: HostRuntime) -> Result<(), Fail> {
    let rows = [
        (RmFault::NotRm, "not an RM cell"),
        (RmFault::Crc, "the check is wrong"),
        (RmFault::Protocol, "the protocol identifier is not 2"),
        (RmFault::Maintenance, "a maintenance cell"),
        (RmFault::Elastic, "elastic mode"),
        (
            RmFault::Direction,
            "a request is forward, an answer backward",
        ),
        (RmFault::SeqZero, "sequence number 0"),
        (RmFault::RateOrder, "the asked rate is below the floor"),
    ];
    for (fault, words) in rows {
        says(&rt, rt.alloc(), &fault, words)?;
    }
    says(&rt, rt.alloc(), &CellFault::Length, "a cell has 52 octets")
}

use super::{A, B, B2, LA, NB, YA, expect, joined};
use std::alloc::Global;
use std::process::Abort;
use std::test::Fail;

const FILLER: &str = "6a6a6a6a6a6a6a6a6a6a6a6a6a6a6a6a6a6a6a6a6a6a6a6a6a6a6a6a6a6a";

#[test]
fn the_test_cells_say_what_they_say(rt: HostRuntime) -> Result<(), Fail> {
    for (cell, text) in [
        (A, "request vpi 1 vci 100 seq 1 floor 0000 ask 5258\n"),
        (B, "request vpi 1 vci 101 seq 1 floor 0000 ask 5258\n"),
        (B2, "request vpi 1 vci 101 seq 2 floor 0000 ask 5120\n"),
        (NB, "answer no vpi 1 vci 101 seq 1 floor 0000 ask 5258\n"),
        (YA, "answer yes vpi 1 vci 100 seq 1 floor 0000 ask 5258\n"),
        (LA, "request vpi 1 vci 100 seq 2 floor 5120 ask 5120\n"),
    ] {
        expect(&rt, rt.alloc(), &["cell", cell], 0, text, "")?;
    }
    Ok(())
}

#[test]
fn a_changed_cell_has_its_first_fault(rt: HostRuntime) -> Result<(), Fail> {
    let alloc = rt.alloc();
    for (head, check, fault) in [
        (
            "0010064a02045258000000000000000000000001",
            "038c",
            "fault: NotRm\n",
        ),
        (
            "0010064c02005258000000000000000000000001",
            "038c",
            "fault: Crc\n",
        ),
        (
            "0010064c02005258000000000000000000000001",
            "023d",
            "fault: Elastic\n",
        ),
        (
            "0010064c01045258000000000000000000000001",
            "0085",
            "fault: Protocol\n",
        ),
        (
            "0010064c02145258000000000000000000000001",
            "037b",
            "fault: Maintenance\n",
        ),
        (
            "0010064c02845258000000000000000000000001",
            "0207",
            "fault: Direction\n",
        ),
        (
            "0010064c02045258000000000000000000000000",
            "0138",
            "fault: SeqZero\n",
        ),
        (
            "0010064c02040000525800000000000000000001",
            "00c7",
            "fault: RateOrder\n",
        ),
    ] {
        is_no_message(&rt, alloc, &[head, FILLER, check], fault)?;
    }
    Ok(())
}

// Demands the fault of a cell that is given in pieces.
fn is_no_message(rt: &impl Abort, alloc: Global, pieces: &[&str], fault: &str) -> Result<(), Fail> {
    let cell = joined(alloc, pieces)?;
    expect(rt, alloc, &["cell", cell.as_str()], 1, "", fault)
}

#[test]
fn ignored_bits_and_the_case_of_digits_say_nothing(rt: HostRuntime) -> Result<(), Fail> {
    let alloc = rt.alloc();
    for (head, check) in [
        ("0010064c02245258000000000000000000000001", "0262"),
        ("0010064c02445258000000000000000000000001", "0050"),
        ("0010064c02075258000000000000000000000001", "02b4"),
        ("0010064c0204d258000000000000000000000001", "01e9"),
        ("0010064C02045258000000000000000000000001", "038C"),
    ] {
        is_as_a(&rt, alloc, &[head, FILLER, check])?;
    }
    Ok(())
}

// Demands that a cell, given in pieces, says what A says, and is served as A is.
fn is_as_a(rt: &impl Abort, alloc: Global, pieces: &[&str]) -> Result<(), Fail> {
    let cell = joined(alloc, pieces)?;
    let said = "request vpi 1 vci 100 seq 1 floor 0000 ask 5258\n";
    expect(rt, alloc, &["cell", cell.as_str()], 0, said, "")?;
    let served = joined(alloc, &["1 pass ", A, "\ntotal 307200\n"])?;
    let words = ["port", "512000", cell.as_str()];
    expect(rt, alloc, &words, 0, served.as_str(), "")
}

#[test]
fn other_texts_are_no_cell(rt: HostRuntime) -> Result<(), Fail> {
    let alloc = rt.alloc();
    for text in ["zz", "0", "0z", "+0", "0 0"] {
        expect(&rt, alloc, &["cell", text], 1, "", "fault: hex\n")?;
    }
    for text in ["", "00"] {
        expect(&rt, alloc, &["cell", text], 1, "", "fault: Length\n")?;
    }
    is_no_message(
        &rt,
        alloc,
        &["0010064c02045258000000000000000000000001", FILLER, "03"],
        "fault: Length\n",
    )?;
    is_no_message(&rt, alloc, &[A, "00"], "fault: Length\n")
}

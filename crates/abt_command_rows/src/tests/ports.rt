use super::{A, B, B2, LA, NB, Narrow, YA, expect, joined};
use abt_cell::{Request, Rm, Vc};
use abt_perform::{Plan, message_hex, perform};
use abt_rate::Rate;
use std::alloc::Global;
use std::process::Abort;
use std::test::Fail;

// Demands what a port prints for some cells, a text that is given in pieces.
fn prints(rt: &impl Abort, alloc: Global, words: &[&str], pieces: &[&str]) -> Result<(), Fail> {
    let text = joined(alloc, pieces)?;
    expect(rt, alloc, words, 0, text.as_str(), "")
}

#[test]
fn a_port_answers_requests(rt: HostRuntime) -> Result<(), Fail> {
    let alloc = rt.alloc();
    prints(
        &rt,
        alloc,
        &["port", "512000", A, B, B2],
        &[
            "1 pass ",
            A,
            "\n2 refuse ",
            NB,
            "\n3 pass ",
            B2,
            "\ntotal 512000\n",
        ],
    )?;
    prints(
        &rt,
        alloc,
        &["port", "512000", A, A],
        &["1 pass ", A, "\n2 pass ", A, "\ntotal 307200\n"],
    )?;
    prints(
        &rt,
        alloc,
        &["port", "512000", LA],
        &["1 drop FloorAbove\ntotal 0\n"],
    )?;
    prints(
        &rt,
        alloc,
        &["port", "512000", A, LA, A],
        &[
            "1 pass ",
            A,
            "\n2 pass ",
            LA,
            "\n3 drop Stale\ntotal 204800\n",
        ],
    )?;
    prints(
        &rt,
        alloc,
        &["port", "512000", "zz", "00", A],
        &[
            "1 fault hex\n2 fault Length\n3 pass ",
            A,
            "\ntotal 307200\n",
        ],
    )?;
    prints(
        &rt,
        alloc,
        &["port", "512000", "", "0"],
        &["1 fault Length\n2 fault hex\ntotal 0\n"],
    )
}

#[test]
fn a_port_answers_answers(rt: HostRuntime) -> Result<(), Fail> {
    let alloc = rt.alloc();
    prints(
        &rt,
        alloc,
        &["port", "512000", B, NB, B],
        &[
            "1 pass ",
            B,
            "\n2 pass ",
            NB,
            "\n3 refuse ",
            NB,
            "\ntotal 0\n",
        ],
    )?;
    prints(
        &rt,
        alloc,
        &["port", "512000", A, B, NB, YA],
        &[
            "1 pass ",
            A,
            "\n2 refuse ",
            NB,
            "\n3 pass ",
            NB,
            "\n4 pass ",
            YA,
            "\ntotal 307200\n",
        ],
    )?;
    prints(
        &rt,
        alloc,
        &["port", "512000", A, LA, YA],
        &[
            "1 pass ",
            A,
            "\n2 pass ",
            LA,
            "\n3 drop Stale\ntotal 204800\n",
        ],
    )?;
    prints(
        &rt,
        alloc,
        &["port", "512000", NB, B],
        &["1 drop Conflict\n2 pass ", B, "\ntotal 307200\n"],
    )
}

#[test]
fn the_greatest_capacity_is_served(rt: HostRuntime) -> Result<(), Fail> {
    let alloc = rt.alloc();
    prints(
        &rt,
        alloc,
        &["port", "1152921504606846976", A, B],
        &["1 pass ", A, "\n2 pass ", B, "\ntotal 614400\n"],
    )?;
    prints(
        &rt,
        alloc,
        &["port", "0", B],
        &["1 refuse ", NB, "\ntotal 0\n"],
    )
}

// Request 1 of a connection for 512 units, as text.
fn request(alloc: Global, vci: u16) -> Result<String, Fail> {
    let vc = Vc::new(0, vci).ok_or("vc")?;
    let request = Request::new(vc, 1, Rate::ZERO, Rate::from_code(0x4000)).ok_or("request")?;
    Ok(message_hex(alloc, &Rm::Request(request))?)
}

// Requests of connections 0 to 1024, and again of 1023, and of one more.
fn crowd(alloc: Global) -> Result<Vec<String>, Fail> {
    let mut cells = Vec::new(alloc);
    for vci in 0..1025 {
        cells.push(request(alloc, vci)?)?;
    }
    cells.push(request(alloc, 1023)?)?;
    cells.push(request(alloc, 2000)?)?;
    Ok(cells)
}

// What a port of the greatest capacity prints for these cells.
fn printed(rt: &impl Abort, alloc: Global, cells: Vec<String>) -> Vec<u8> {
    let plan = Plan::Port {
        capacity: 1 << 60,
        cells,
    };
    let mut out = Vec::new(alloc);
    let mut errors = Narrow::new(512);
    let status = perform(alloc, &plan, &mut "".as_bytes(), &mut out, &mut errors);
    assert_eq!(rt; status, 0);
    out
}

#[test]
fn from_the_1025th_connection_on_the_port_is_full_and_known_ones_go_on(
    rt: HostRuntime,
) -> Result<(), Fail> {
    let alloc = rt.alloc();
    let out = printed(&rt, alloc, crowd(alloc)?);
    let known = request(alloc, 1023)?;
    let known = known.as_str();
    let end = joined(
        alloc,
        &[
            "\n1024 pass ",
            known,
            "\n1025 fault Full\n1026 pass ",
            known,
            "\n1027 fault Full\ntotal 524288\n",
        ],
    )?;
    assert!(rt; out.as_slice().ends_with(end.as_bytes()));
    Ok(())
}

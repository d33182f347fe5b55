use super::{A, cells_that_read_as_a, same, test_cells};
use abt_cell::{Cell, Rm, read_rm, write_rm};
use std::process::Abort;
use std::test::Fail;

fn writes(rt: &impl Abort, rm: &Rm, cell: Cell) {
    same(rt, &write_rm(rm), &cell);
}

// Demands that a cell is read, and that what it says is written as this cell.
fn is_written(rt: &impl Abort, read: &Cell, cell: Cell) -> Result<(), Fail> {
    let rm = read_rm(read).ok().ok_or("no fault")?;
    writes(rt, &rm, cell);
    Ok(())
}

#[test]
fn each_test_cell_is_written_as_it_is_spelled(rt: HostRuntime) -> Result<(), Fail> {
    for (spelled, rm) in test_cells().ok_or("a request")? {
        writes(&rt, &rm, spelled.cell());
    }
    Ok(())
}

#[test]
fn cell_a_is_written_octet_by_octet(rt: HostRuntime) -> Result<(), Fail> {
    let rm = read_rm(&A.cell()).ok().ok_or("no fault")?;
    let octets = write_rm(&rm).to_octets();
    same(
        &rt,
        &octets,
        &[
            0x00, 0x10, 0x06, 0x4c, 0x02, 0x04, 0x52, 0x58, 0x00, 0x00, 0x00, 0x00, 0x00, 0x00,
            0x00, 0x00, 0x00, 0x00, 0x00, 0x01, 0x6a, 0x6a, 0x6a, 0x6a, 0x6a, 0x6a, 0x6a, 0x6a,
            0x6a, 0x6a, 0x6a, 0x6a, 0x6a, 0x6a, 0x6a, 0x6a, 0x6a, 0x6a, 0x6a, 0x6a, 0x6a, 0x6a,
            0x6a, 0x6a, 0x6a, 0x6a, 0x6a, 0x6a, 0x6a, 0x6a, 0x03, 0x8c,
        ],
    );
    Ok(())
}

#[test]
fn whatever_reads_as_a_is_written_as_a(rt: HostRuntime) -> Result<(), Fail> {
    for cell in cells_that_read_as_a() {
        is_written(&rt, &cell, A.cell())?;
    }
    Ok(())
}

//! The ports of a net before a run, each under its lock, and its sources.
ghost use Rattle.std.specs.Prelude.{◌≡◌, ◌+◌, IfOk, length};
ghost use Rattle.abt_links.specs.Cells.{AreCellsOf};
ghost use Rattle.abt_links.specs.Lines.{HaveBegunFrom};

use crate::port_cell::PortCellOf;
use abt_history::{Book, Kept, Naming, Place, Site};
use abt_journal::PortState;
use abt_net::Net;
use abt_world::opening_port;
use std::alloc::{AllocError, Global};

// The ports of a net with the connections through them, by their numbers, as the first of a book.
pub(crate) fn opening_cells<N: Place, J: Naming>(
    alloc: Global,
    net: &Net,
    book: &mut Book<N, J>,
) -> Result<Vec<PortCellOf<Kept<N, J>>>, AllocError>
    requires net { N.net ≡ net.now }
    requires first { book.old ≡ 0 }
    ensures cells { IfOk result (λ cells. AreCellsOf net.now cells.items) }
    ensures next { IfOk result (λ cells. book.new ≡ length net.now.capacities) }
{
    let ports = net.capacities().len() as u16;
    let mut cells = Vec::with_capacity(alloc, usize::from(ports))?;
    for id in 0..ports {
        let port = opening_port(alloc, net, id)?;
        let station = book.station(PortState::new(alloc, port));
        cells.push(PortCellOf::of(station))?;
    }
    Ok(cells)
}

// The sources of a net, by the numbers of their connections, as the next ones of a book.
pub(crate) fn opening_sites<N: Place, J: Naming>(
    alloc: Global,
    net: &Net,
    book: &mut Book<N, J>,
) -> Result<Vec<Site<N, J>>, AllocError>
    requires net { N.net ≡ net.now }
    requires next { book.old ≡ length net.now.capacities }
    ensures count { IfOk result (λ sites. length sites.items ≡ length net.now.conns) }
    ensures begun { IfOk result (λ sites. HaveBegunFrom net.now 0 sites.items) }
{
    let conns = net.conns().len() as u16;
    let mut sites = Vec::with_capacity(alloc, usize::from(conns))?;
    for conn in 0..conns {
        let vc = net.conns()[usize::from(conn)].vc;
        sites.push(book.site(alloc, conn, vc))?;
    }
    Ok(sites)
}

//! The actors that have a lifeline, and their columns.
ghost use Rattle.std.specs.Prelude.{◌≡◌, ◌<◌, ◌≤◌, fold, length, IfOk, IfSome, IfNone, OnOk};
ghost use Rattle.abt_draw.specs.Columns as shown;
ghost use Rattle.abt_draw.specs.Places.{IsColumn, HasNoColumn};
ghost use Rattle.abt_draw.specs.Places as spec;

use abt_chart::Stop;
use abt_model::Sequence;
use abt_net::Net;
use std::alloc::{AllocError, Global};

/// How many columns a picture has at most.
pub const COLUMNS_MAX: usize = 1024;

/// An actor with a lifeline. Connections and ports are their places in the net, from 0.
#[derive(Clone, Copy, Debug, PartialEq, Eq)]
pub enum Actor {
    /// The source of a connection.
    Source(u16),
    /// A port.
    Port(u16),
    /// The end of a connection's path, behind its last hop.
    End(u16),
}

/// The actor on whose lifeline a stop of a connection is, if the net has that connection, and its path that hop.
pub fn actor_at(net: &Net, conn: u16, stop: Stop) -> Option<Actor>
    ensures { result ≡ spec.actor_at net.now conn stop }
{
    match stop {
        Stop::Source => Some(Actor::Source(conn)),
        Stop::Hop(hop) => {
            let conn = net.conns().get(usize::from(conn))?;
            let port = port_in(conn.path.as_slice(), hop)?;
            Some(Actor::Port(port))
        }
        Stop::End => Some(Actor::End(conn)),
    }
}

// The port of a hop, counted from 1.
fn port_in(path: &[u16], hop: u16) -> Option<u16>
    ensures { result ≡ spec.port_in path.now hop }
{
    if hop == 0 {
        return None;
    }
    path.get(usize::from(hop - 1)).copied()
}

/// The column of an actor: the first that is its own.
pub fn column_of(columns: &[Actor], who: Actor) -> Option<u32>
    requires { length columns.now ≤ 1024 }
    ensures some { IfSome result (IsColumn columns.now who) }
    ensures none { IfNone result (HasNoColumn columns.now who) }
{
    for column in 0..columns.len() {
        if columns[column] == who {
            return Some(column as u32);
        }
    }
    None
}

/// The columns of a picture, in the order of the paths: for each connection that is shown its source, the ports of
/// its path that have no column yet, and the end of its path. If `only` names none, all are shown. `None`
/// if there are more than [`COLUMNS_MAX`] columns.
///
/// # Errors
/// If memory is refused.
pub fn columns_of(
    alloc: Global,
    net: &Net,
    only: &[u16],
) -> Result<Option<Sequence<Actor>>, AllocError>
    ensures some { IfOk result
        (λ found. IfSome found (λ all. all ≡ shown.columns_of net.now only.now)) }
    ensures few { IfOk result (λ found. IfSome found (λ all. length all ≤ 1024)) }
    ensures none { IfOk result (λ found. IfNone found (1024 < length (shown.columns_of net.now only.now))) }
{
    let conns = net.conns();
    let mut columns = Sequence::new(alloc);
    for place in 0..conns.len() {
        let conn = place as u16;
        add_shown(&mut columns, only, conn, conns[place].path.as_slice())?;
        if columns.len() > COLUMNS_MAX {
            return Ok(None);
        }
    }
    Ok(Some(columns))
}

/// Whether a connection is shown.
pub(crate) fn is_shown(only: &[u16], conn: u16) -> bool
    ensures { result ≡ shown.is_shown only.now conn }
{
    only.is_empty() || only.contains(&conn)
}

// Adds the columns of the path of a connection, if that is shown.
fn add_shown(
    columns: &mut Sequence<Actor>,
    only: &[u16],
    conn: u16,
    path: &[u16],
) -> Result<(), AllocError>
    ensures { OnOk result (columns.new ≡ fold shown.with_column columns.old
        (shown.shown_along only.now conn path.now)) }
{
    if is_shown(only, conn) {
        add_path(columns, conn, path)
    } else {
        Ok(())
    }
}

// Adds the columns of a path.
fn add_path(columns: &mut Sequence<Actor>, conn: u16, path: &[u16]) -> Result<(), AllocError>
    ensures { OnOk result (columns.new ≡ fold shown.with_column columns.old (shown.along conn path.now)) }
{
    add_column(columns, Actor::Source(conn))?;
    for port in path {
        add_column(columns, Actor::Port(*port))?;
    }
    add_column(columns, Actor::End(conn))
}

// Adds a column for somebody who has none yet.
fn add_column(columns: &mut Sequence<Actor>, who: Actor) -> Result<(), AllocError>
    ensures { OnOk result (columns.new ≡ shown.with_column columns.old who) }
{
    if columns.as_slice().contains(&who) {
        return Ok(());
    }
    columns.push(who)
}

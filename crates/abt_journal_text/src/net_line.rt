//! The line of a net, and the line that ends a text.
ghost use Rattle.std.specs.Prelude.{◌≡◌, map, IfOk};
ghost use Rattle.json.specs.Json.{array};
ghost use Rattle.json.specs.Tree.{json_tokens};
ghost use Rattle.abt_entry.specs.Written.{Puts, number_json};
ghost use Rattle.abt_journal_text.specs.NetJson as written;
ghost use Rattle.abt_journal_text.specs.NetJson.{line_of};

use abt_entry::{Member, put_channel, put_number};
use abt_net::{Conn, Net};
use json::Writer;
use std::alloc::{AllocError, Global};

fn put_hops(writer: &mut Writer, hops: &[u16]) -> Result<(), AllocError>
    ensures { Puts result writer.old writer.new (written.all_tokens (map number_json hops.now)) }
{
    for hop in hops {
        writer.u64(u64::from(*hop))?;
    }
    Ok(())
}

fn put_path(writer: &mut Writer, hops: &[u16]) -> Result<(), AllocError>
    ensures { Puts result writer.old writer.new (json_tokens (written.numbers_json hops.now)) }
{
    writer.begin_array()?;
    put_hops(writer, hops)?;
    writer.end_array()
}

// Writes the path of a connection, and how late and how early its cells may come.
fn put_line_of(writer: &mut Writer, conn: &Conn) -> Result<(), AllocError>
    ensures { Puts result writer.old writer.new (written.access_tokens conn.now) }
{
    writer.key(Member::Path.name())?;
    put_path(writer, conn.path.as_slice())?;
    put_number(writer, Member::Delay, conn.delay)?;
    put_number(writer, Member::Tau, conn.tau)
}

fn put_conn(writer: &mut Writer, conn: &Conn) -> Result<(), AllocError>
    ensures { Puts result writer.old writer.new (json_tokens (written.conn_json conn.now)) }
{
    writer.begin_object()?;
    put_channel(writer, conn.vc)?;
    put_line_of(writer, conn)?;
    writer.end_object()
}

fn put_conns(writer: &mut Writer, conns: &[Conn]) -> Result<(), AllocError>
    ensures { Puts result writer.old writer.new (written.all_tokens (map written.conn_json conns.now)) }
{
    for conn in conns {
        put_conn(writer, conn)?;
    }
    Ok(())
}

fn put_units(writer: &mut Writer, capacities: &[u64]) -> Result<(), AllocError>
    ensures { Puts result writer.old writer.new (written.all_tokens (map number_json capacities.now)) }
{
    for units in capacities {
        writer.u64(*units)?;
    }
    Ok(())
}

fn put_capacities(writer: &mut Writer, capacities: &[u64]) -> Result<(), AllocError>
    ensures { Puts result writer.old writer.new (json_tokens (written.numbers_json capacities.now)) }
{
    writer.begin_array()?;
    put_units(writer, capacities)?;
    writer.end_array()
}

fn put_connections(writer: &mut Writer, conns: &[Conn]) -> Result<(), AllocError>
    ensures { Puts result writer.old writer.new (json_tokens (written.conns_json conns.now)) }
{
    writer.begin_array()?;
    put_conns(writer, conns)?;
    writer.end_array()
}

fn put_members(writer: &mut Writer, net: &Net) -> Result<(), AllocError>
    ensures { Puts result writer.old writer.new (written.net_tokens net.now) }
{
    writer.key(Member::Ports.name())?;
    put_capacities(writer, net.capacities())?;
    writer.key(Member::Connections.name())?;
    put_connections(writer, net.conns())
}

fn put_topology(writer: &mut Writer, net: &Net) -> Result<(), AllocError>
    ensures { Puts result writer.old writer.new (json_tokens (written.topology_json net.now)) }
{
    writer.begin_object()?;
    put_members(writer, net)?;
    writer.end_object()
}

fn put_net(writer: &mut Writer, net: &Net) -> Result<(), AllocError>
    ensures { Puts result writer.old writer.new (json_tokens (written.net_json net.now)) }
{
    writer.begin_object()?;
    writer.key(Member::Net.name())?;
    put_topology(writer, net)?;
    writer.end_object()
}

// The line of a net, without its line feed.
pub(crate) fn net_line(alloc: Global, net: &Net) -> Result<Vec<u8>, AllocError>
    ensures { IfOk result (λ line. line.items ≡ line_of (written.net_json net.now)) }
{
    let mut writer = Writer::new(Vec::new(alloc));
    put_net(&mut writer, net)?;
    Ok(writer.into_inner())
}

fn put_end(writer: &mut Writer) -> Result<(), AllocError>
    ensures { Puts result writer.old writer.new (json_tokens written.end_json) }
{
    writer.begin_object()?;
    writer.key(Member::End.name())?;
    writer.boolean(true)?;
    writer.end_object()
}

// The line that ends a text, without its line feed.
pub(crate) fn end_line(alloc: Global) -> Result<Vec<u8>, AllocError>
    ensures { IfOk result (λ line. line.items ≡ line_of written.end_json) }
{
    let mut writer = Writer::new(Vec::new(alloc));
    put_end(&mut writer)?;
    Ok(writer.into_inner())
}

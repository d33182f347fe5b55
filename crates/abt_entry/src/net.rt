//! The line of the net.
ghost use Rattle.std.specs.Prelude.{◌≡◌, ◌^◌};
ghost use Rattle.json.specs.Value.{value_view, items_view};
ghost use Rattle.abt_entry.specs.NetLines as lines;
ghost use Rattle.abt_text.specs.FirstFault.{listed};
ghost use Rattle.abt_entry.specs.Reading.{Gives};
ghost use Rattle.abt_entry.specs.declared.member.Member.TheVariants as of;

use crate::line::NetDraft;
use crate::{LineFault, Member, channel_in, member_at, number_at, number_of, short_of};
use abt_net::{Conn, Path};
use json::Value;
use std::alloc::Global;

// The array that a member is.
fn items_at<'v, 'a>(value: &'v Value<'a>, member: Member) -> Result<&'v [Value<'a>], LineFault>
    ensures { Gives
        (λ items. items_view items.now) (lines.items_at member (value_view value.entry.now)) result }
{
    match member_at(value, member)? {
        Value::Array(items) => Ok(items.as_slice()),
        _ => Err(LineFault::Member(member)),
    }
}

fn capacities_in(alloc: Global, items: &[Value<'_>]) -> Result<Vec<u64>, LineFault>
    ensures { Gives listed (lines.numbers_in (2 ^ 64) of.Ports (items_view items.now)) result }
{
    let mut numbers = Vec::new(alloc);
    for value in items {
        numbers.push(number_of(value, Member::Ports)?)?;
    }
    Ok(numbers)
}

fn hops_in(alloc: Global, items: &[Value<'_>]) -> Result<Vec<u16>, LineFault>
    ensures { Gives listed (lines.numbers_in (2 ^ 16) of.Path (items_view items.now)) result }
{
    let mut numbers = Vec::new(alloc);
    for value in items {
        numbers.push(short_of(value, Member::Path, 65536)?)?;
    }
    Ok(numbers)
}

fn conn_in(alloc: Global, value: &Value<'_>) -> Result<Conn, LineFault>
    ensures { Gives (λ conn. conn) (lines.conn_in (value_view value.now)) result }
{
    let vc = channel_in(value)?;
    let path = hops_in(alloc, items_at(value, Member::Path)?)?;
    let delay = number_at(value, Member::Delay)?;
    let tau = number_at(value, Member::Tau)?;
    Ok(Conn {
        vc,
        path: Path::from(path),
        delay,
        tau,
    })
}

fn conns_in(alloc: Global, items: &[Value<'_>]) -> Result<Vec<Conn>, LineFault>
    ensures { Gives listed (lines.each lines.conn_in (items_view items.now)) result }
{
    let mut conns = Vec::new(alloc);
    for value in items {
        conns.push(conn_in(alloc, value)?)?;
    }
    Ok(conns)
}

/// The ports and connections of a net.
pub(crate) fn net_in(alloc: Global, value: &Value<'_>) -> Result<NetDraft, LineFault>
    ensures { Gives (λ net. net) (lines.net_in (value_view value.now)) result }
{
    let capacities = capacities_in(alloc, items_at(value, Member::Ports)?)?;
    let conns = conns_in(alloc, items_at(value, Member::Connections)?)?;
    Ok(NetDraft { capacities, conns })
}

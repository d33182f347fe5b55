//! Whether what is reserved covers what is sent.
ghost use Rattle.std.specs.Prelude.{◌≡◌, ◌+◌, ◌≤◌, false, is_some, List, length};
ghost use Rattle.abt_node.specs.Table.{Table};
ghost use Rattle.abt_safety.specs.Holding.{is_held_along, looked_at, looked_after, ChangesOne};
ghost use Rattle.abt_safety.specs.Tallies.{one_if, over_at};
ghost use Rattle.abt_world.specs.Seen.{seen};
ghost use Rattle.abt_world.specs.Tallied.{shapes_above, is_broken};

use crate::connection_state::ConnectionState;
use abt_index::Lookups;
use abt_net::Conn;
use abt_node::Port;
use abt_safety::{Shaped, ViolationFlags, Violations, is_held, is_held_after, is_over};

// The violations of a port, and of a connection, given whether its source shapes above what a hop holds.
fn marks_of(
    above: bool,
    connection: &ConnectionState,
    port: Option<u16>,
    ports: &[Port],
    looks: &mut Lookups,
) -> ViolationFlags
    ensures above { result.above ≡ above }
    ensures over { result.over ≡ over_at port ports.now }
    ensures broken { result.broken ≡ is_broken (seen connection.now) }
    ensures looks { looks.new ≤ looks.old + 1 }
    ensures counted { looks.old + 1 ≤ u64.MAX → looks.new ≡ looks.old + one_if (is_some port) }
{
    let over = is_over(port, ports, looks);
    let broken = !connection.log.all_conform();
    ViolationFlags {
        above,
        over,
        broken,
    }
}

// The violations of a connection, and of the port that its event comes to.
pub(crate) fn marks(
    conn: &Conn,
    connection: &ConnectionState,
    port: Option<u16>,
    ports: &[Port],
    looks: &mut Lookups,
) -> ViolationFlags
    ensures above { result.above ≡ shapes_above ports.now (conn.now, seen connection.now) }
    ensures over { result.over ≡ over_at port ports.now }
    ensures broken { result.broken ≡ is_broken (seen connection.now) }
    ensures looks { looks.new ≤ looks.old + length conn.now.path + 1 }
    ensures counted { let looked = looked_at connection.now.actor.source.rate conn.now.vc ports.now
        conn.now.path in
        looks.old + looked + 1 ≤ u64.MAX → looks.new ≡ looks.old + looked + one_if (is_some port) }
{
    let path = conn.path.as_slice();
    let above = !is_held(connection.actor.rate(), conn.vc, path, ports, looks);
    marks_of(above, connection, port, ports, looks)
}

// The violations of a connection and a port, if any is counted. If none is, nothing is looked up.
pub(crate) fn counted_marks(
    violations: &Violations,
    conn: &Conn,
    connection: &ConnectionState,
    port: Option<u16>,
    ports: &[Port],
    looks: &mut Lookups,
) -> ViolationFlags
    ensures above { one_if (shapes_above ports.now (conn.now, seen connection.now)) ≤ violations.now.above →
        result.above ≡ shapes_above ports.now (conn.now, seen connection.now) }
    ensures over { one_if (over_at port ports.now) ≤ violations.now.over →
        result.over ≡ over_at port ports.now }
    ensures broken { one_if (is_broken (seen connection.now)) ≤ violations.now.broken →
        result.broken ≡ is_broken (seen connection.now) }
    ensures looks { looks.new ≤ looks.old + length conn.now.path + 1 }
    ensures safe { violations.now.above ≡ 0 → violations.now.over ≡ 0 → violations.now.broken ≡ 0 →
        result.above ≡ false }
    ensures counted { violations.now.above ≡ 0 → violations.now.over ≡ 0 → violations.now.broken ≡ 0 →
        looks.new ≡ looks.old }
{
    if violations.is_safe() {
        return ViolationFlags::none();
    }
    marks(conn, connection, port, ports, looks)
}

// The violations of a connection and of the port that its event came to, which alone can have changed, given the rate
// at which the source shaped before, and whether each hop held it.
pub(crate) fn marks_after(
    before: Shaped,
    conn: &Conn,
    connection: &ConnectionState,
    port: Option<u16>,
    ports: &[Port],
    looks: &mut Lookups,
) -> ViolationFlags
    ensures above { (tables : List Table) → ChangesOne port conn.now.vc conn.now.path tables ports.now →
        before.is_held ≡ is_held_along before.rate conn.now.vc tables conn.now.path →
        result.above ≡ shapes_above ports.now (conn.now, seen connection.now) }
    ensures over { result.over ≡ over_at port ports.now }
    ensures broken { result.broken ≡ is_broken (seen connection.now) }
    ensures looks { looks.new ≤ looks.old + length conn.now.path + 2 }
    ensures counted { let looked = looked_after before connection.now.actor.source.rate conn.now.vc ports.now
        conn.now.path port in
        looks.old + looked + 1 ≤ u64.MAX → looks.new ≡ looks.old + looked + one_if (is_some port) }
{
    let path = conn.path.as_slice();
    let rate = connection.actor.rate();
    let above = !is_held_after(before, rate, conn.vc, path, port, ports, looks);
    marks_of(above, connection, port, ports, looks)
}

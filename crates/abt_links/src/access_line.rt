//! Access lines.
use crate::{Carrying, PortCellOf, RouterOf};
use abt_net::Conn;
use std::collections::VecDeque;
use std::sync::Mutex;

/// The access line of a source: its connection, the first port of its path, the box of its answers, and where the port's replies go on
/// to.
#[derive(Drop)]
pub(crate) struct AccessLine<'net, K: Carrying, G> {
    pub(crate) conn: &'net Conn,
    pub(crate) cell: &'net PortCellOf<K>,
    pub(crate) answers: &'net Mutex<VecDeque<K::Told>>,
    pub(crate) router: RouterOf<'net, K>,
    pub(crate) gate: &'net G,
}

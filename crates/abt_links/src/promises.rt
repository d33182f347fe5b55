//! The promises of workers about their results.
use abt_history::{Keeping, SiteOf};
use abt_journal::{Seat, ServeFault};
use abt_model::{Operation, Script};
use abt_net::Net;
use std::snapshot::Snapshot;
use std::thread::Promise;

/// That an access worker ran its script, and has the receipts for the steps that its journal names.
#[derive(Drop)]
pub struct AccessOf {
    pub(crate) conn: u16,
    pub(crate) net: Snapshot<Net>,
    pub(crate) script: Snapshot<Script>,
}

impl<K: Keeping> Promise<Result<(Seat, SiteOf<K>), ServeFault>> for AccessOf {
    ghost use Rattle.abt_links.specs.Promises.{KeepsAccess};

    ghost kept_by = { λ p r. KeepsAccess p.net.value p.conn p.script.value r };
}

/// That a link worker's receipts are ones for requests and answers.
#[derive(Clone, Copy)]
pub struct LinkOf {
    pub(crate) caller: u16,
}

impl Promise<Result<Seat, ServeFault>> for LinkOf {
    ghost use Rattle.abt_links.specs.Promises.{KeepsLink};

    ghost kept_by = { λ p r. KeepsLink p.caller r };
}

/// That the operator's receipts are those for its list, in order.
#[derive(Clone, Copy)]
pub struct OperatorOf<'run> {
    pub(crate) caller: u16,
    pub(crate) operations: &'run [Operation],
}

impl<'run> Promise<Result<Seat, ServeFault>> for OperatorOf<'run> {
    ghost use Rattle.abt_links.specs.Promises.{KeepsOperator};

    ghost kept_by = { λ p r. KeepsOperator p.caller p.operations.now r };
}

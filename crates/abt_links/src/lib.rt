//! Ports under locks, and all that waits: links, sources at work, the operator, and runs of a net in threads.
#![tactic(auto)]

mod access;
mod access_line;
mod boxes;
mod carrying;
mod cell;
mod count;
mod emission;
mod ending;
mod fault;
mod gate;
mod gathered;
mod handles;
mod join;
mod link;
mod listening;
mod opening;
mod operator;
mod parcel;
mod plan;
mod port_cell;
mod ports;
mod promises;
mod request;
mod router;
mod run;
mod scripts;
mod source_worker;
mod start;
mod stop;
mod worker_results;
mod workers;

pub use abt_journal::{
    Entry, GatherFault, Journals, Next, PortInput, PortReply, PortState, Receipt, Seat, ServeFault,
    follow, gather,
};
pub use abt_model::{Command, Operation, Script, SourceEntry, SourceJournal};
pub use access::access_worker;
pub use carrying::Carrying;
pub use fault::RunFault;
pub use gate::{Gate, OpenGate};
pub use gathered::Gathered;
pub use link::link_worker;
pub use operator::operator_worker;
pub use parcel::{AnswerBox, Parcel, ParcelOf};
pub use plan::ThreadPlan;
pub use port_cell::{PortCell, PortCellOf};
pub use ports::are_for_ports;
pub use router::{Router, RouterOf};
pub use run::run_threads;

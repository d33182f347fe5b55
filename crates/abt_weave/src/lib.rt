//! Journals of ports and sources woven into one list of events.
#![tactic(auto)]

ghost use Rattle.abt_model.specs.declared.event.Event.{Event};
ghost use Rattle.abt_net.specs.Topology.{Topology};
ghost use Rattle.abt_weave.specs.Stuck.{StandsStill, RunJournals, PortMismatches, SourceMismatches};
ghost use Rattle.abt_weave.specs.Woven.{IsWoven};
ghost use Rattle.std.specs.Prelude.{◌≡◌, List};

mod actor;
mod actors;
mod asked;
mod candidate;
mod fault;
mod laws;
mod left;
mod look;
mod mismatch;
mod port;
mod progress;
mod queue;
mod same;
mod settle;
mod source;
mod trying;
mod waking;
mod weave_input;
mod weaving;

pub use abt_model::Sequence;
pub use actor::{Actor, Stuck};
pub use fault::WeaveFault;
pub use laws::{journals_have_one_fault, own_entries_decide_what_happens};
pub use weaving::weave;

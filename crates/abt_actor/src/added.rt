//! The facts that a step adds.
ghost use Rattle.std.specs.Prelude.{◌≡◌, ℕ, List, None, Some, IsSome, if◌then◌else◌};
ghost use Rattle.abt_keep.specs.declared.plan.StorePlan.{StorePlan};
ghost use Rattle.abt_facts.specs.Source.{writes, written_for};
ghost use Rattle.abt_facts.specs.Cells.{emitted_of};
ghost use Rattle.abt_facts.specs.declared.fact.Fact.{Fact};
ghost use Rattle.abt_model.specs.declared.event.Event.TheVariants.{Ask};
ghost use Rattle.abt_model.specs.declared.outcome.Outcome.TheVariants.{Asked, AskRefused};
ghost use Rattle.abt_model.specs.Outcomes.{facts_added};
ghost use Rattle.abt_actor.specs.Facts.{facts_in};

use abt_cell::Request;
use abt_facts::Fact;
use abt_keep::{Record, StorePlan};
use abt_source::AskFault;

/// The facts that a step adds to those of a connection, two at most.
#[derive(Clone, Copy, Debug, PartialEq, Eq)]
pub enum Added {
    /// No fact.
    Nothing,
    /// One fact.
    One(Fact),
    /// Two facts, the newer one first.
    Two(Fact, Fact),
}

impl Added {
    // The facts of a request that an ask sent, after so many cells, with the record that it wrote, if it wrote one.
    pub(crate) fn of_request(request: &Request, cells: u64, written: Option<Record>) -> Added
        ensures { (facts : List Fact) (plan : StorePlan) (rate : ℕ) → cells ≡ emitted_of facts →
            written ≡ (if writes facts rate then Some (written_for facts rate) else None) →
            facts_in result ≡ facts_added facts (Ask 0 rate plan) (Asked request.now) }
    {
        let asked = Fact::Asked {
            seq: request.seq(),
            floor: request.floor(),
            ask: request.ask(),
            mark: cells,
        };
        match written {
            Some(kept) => Added::Two(asked, Fact::Stored { kept }),
            None => Added::One(asked),
        }
    }

    // The facts of a refused ask, with the record that it had to write, if any: a write that failed may have been stored.
    pub(crate) fn of_refusal(fault: AskFault, plan: StorePlan, written: Option<Record>) -> Added
        requires { fault ≡ AskFault.Keep → IsSome written }
        ensures { (facts : List Fact) (rate : ℕ) →
            written ≡ (if writes facts rate then Some (written_for facts rate) else None) →
            facts_in result ≡ facts_added facts (Ask 0 rate plan) (AskRefused fault) }
    {
        match (fault, plan, written) {
            (AskFault::Keep, StorePlan::FailsAfter, Some(kept)) => {
                Added::One(Fact::Stored { kept })
            }
            _ => Added::Nothing,
        }
    }
}

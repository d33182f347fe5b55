//! A source takes an answer.
ghost use Rattle.std.specs.Prelude.{◌≡◌, ◌≢◌, List, Some, IsTrue, true, false};
ghost use Rattle.abt_facts.specs.Source as state;
ghost use Rattle.abt_facts.specs.declared.fact.Fact.{Fact};
ghost use Rattle.abt_source.specs.Calls.{same_terms};

use crate::source::Source;
use crate::state::{Asking, Idle};
use abt_cell::{Answer, Request};

/// The outcome of an answer at a source.
#[must_use]
#[derive(Debug, Drop)]
pub enum Answered {
    /// It was a yes to the newest request: the source shapes at the asked rate.
    Raised(Source<Idle>),
    /// It was a no to the newest request: the source stays at the floor.
    Refused(Source<Idle>),
    /// It was the answer to something else: the source still waits.
    Ignored(Source<Asking>),
}

impl Source<Asking> {
    ghost use Rattle.abt_source.specs.Calls.{result_of_answer};
    ghost use Rattle.abt_source.specs.SourceFacts.{StandsFor, AnsweredStandsFor};

    /// Takes an answer. It counts only if connection, number, floor and asked rate are those of the newest request.
    pub fn answer(self, answer: &Answer) -> Answered
        ensures value { result ≡ result_of_answer self answer.now }
        ensures raised { self.newest ≡ Some answer.now.terms → answer.now.granted ≡ true →
            result ≡ Answered.Raised (record self { rate = answer.now.terms.ask; newest = None }) }
        ensures refused { self.newest ≡ Some answer.now.terms → answer.now.granted ≡ false →
            result ≡ Answered.Refused (record self { newest = None }) }
        ensures ignored { self.newest ≢ Some answer.now.terms → result ≡ Answered.Ignored self }
        ensures facts { (facts : List Fact) → StandsFor facts (state.Asking self.last) self →
            AnsweredStandsFor facts result }
    {
        if !is_answer_to(&self.state.request, answer) {
            return Answered::Ignored(self);
        }
        let Source {
            vc,
            rate: floor,
            last,
            kept,
            gap,
            shaper,
            state: Asking { request },
        } = self;
        let granted = answer.granted();
        let source = Source {
            vc,
            rate: if granted { request.ask() } else { floor },
            last,
            kept,
            gap,
            shaper,
            state: Idle,
        };
        if granted {
            Answered::Raised(source)
        } else {
            Answered::Refused(source)
        }
    }
}

// Whether an answer is one to this request.
fn is_answer_to(request: &Request, answer: &Answer) -> bool
    ensures { result ≡ same_terms request.now answer.now.terms }
{
    answer.vc() == request.vc()
        && answer.seq() == request.seq()
        && answer.floor() == request.floor()
        && answer.ask() == request.ask()
}

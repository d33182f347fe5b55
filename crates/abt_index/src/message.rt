//! What happened to one request.
ghost use Rattle.std.specs.Prelude.{◌≡◌};
ghost use Rattle.abt_index.specs.Index.{blank, changed, HasFewHops};

use crate::hops::Hops;
use abt_facts::Fact;
use abt_rate::Rate;

/// What happened to a request and to the answers to it.
#[derive(Clone, Copy, Debug, PartialEq, Eq)]
pub(crate) struct Message {
    /// Whether it was asked. If it wasn't, the next three are 0.
    pub(crate) asked: bool,
    /// The floor.
    pub(crate) floor: Rate,
    /// The asked rate.
    pub(crate) ask: Rate,
    /// How many cells were emitted before the ask.
    pub(crate) mark: u64,
    /// Whether it came to the first hop.
    pub(crate) delivered: bool,
    /// Whether what the last hop passed was turned into a yes.
    pub(crate) turned: bool,
    /// The hops that passed it on.
    pub(crate) passed: Hops,
    /// The hops that shut it.
    pub(crate) shut: Hops,
    /// The hops that passed a yes back.
    pub(crate) back: Hops,
}

impl Message {
    // One to which nothing happened.
    pub(crate) fn blank() -> Message
        ensures { result ≡ blank }
    {
        Message {
            asked: false,
            floor: Rate::ZERO,
            ask: Rate::ZERO,
            mark: 0,
            delivered: false,
            turned: false,
            passed: Hops::none(),
            shut: Hops::none(),
            back: Hops::none(),
        }
    }

    // Notes one more fact of it.
    pub(crate) fn note(&mut self, fact: &Fact)
        ensures { HasFewHops fact.now → self.new ≡ changed fact.now self.old }
    {
        match *fact {
            Fact::Asked {
                floor,
                ask,
                mark,
                ..
            } => {
                self.asked = true;
                self.floor = floor;
                self.ask = ask;
                self.mark = mark;
            }
            Fact::Delivered { .. } => self.delivered = true,
            Fact::Passed { hop, .. } => self.passed = self.passed.with(hop),
            Fact::Shut { hop, .. } => self.shut = self.shut.with(hop),
            Fact::Turned { .. } => self.turned = true,
            Fact::Back { hop, .. } => self.back = self.back.with(hop),
            _ => {}
        }
    }
}

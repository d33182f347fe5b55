//! The chances of a play.
ghost use Rattle.std.specs.Prelude.{◌≡◌};
ghost use Rattle.abt_plans.specs.Chances as spec;

/// The seed of a play, and its chances (docs/SCENARIOS.md, "Plays").
#[derive(Clone, Copy, Debug, PartialEq, Eq)]
pub struct Chances {
    /// The seed of the generator whose words all draws are made with.
    pub seed: u64,
    /// How many of 100 messages are lost.
    pub loss: u8,
    /// How many of 100 messages that aren't lost come twice.
    pub repeat: u8,
    /// How many messages, of those under way when one comes, may have been sent before it.
    pub delay: u32,
}

/// What becomes of a message that is sent.
#[derive(Clone, Copy, Debug, PartialEq, Eq)]
pub enum Fate {
    /// It never comes.
    Lost,
    /// It comes.
    Once,
    /// It comes twice.
    Twice,
}

impl Chances {
    /// What becomes of a message for which these words were drawn.
    pub fn fate(&self, first: u32, second: u32) -> Fate
        ensures { result ≡ spec.fate_of self.now first second }
    {
        if first % 100 < u32::from(self.loss) {
            Fate::Lost
        } else if second % 100 < u32::from(self.repeat) {
            Fate::Twice
        } else {
            Fate::Once
        }
    }
}

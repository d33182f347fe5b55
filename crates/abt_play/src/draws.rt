//! Draws.
ghost use Rattle.std.specs.Prelude.{◌≡◌, ◌<◌, ◌%◌};
ghost use Rattle.rand_pcg.specs.Pcg.{pcg32};
ghost use Rattle.abt_play.specs.Draws.{generator_of};

use rand_core::SeedableRng;
use rand_core::utils::NextWord;
use rand_pcg::Pcg32;

/// The words that a play is drawn with.
#[derive(Debug, Drop)]
pub(crate) struct Draws {
    pub(crate) generator: Pcg32,
}

impl Draws {
    // The words of a seed.
    pub(crate) fn new(seed: u64) -> Draws
        ensures { result.generator ≡ generator_of seed }
    {
        Draws {
            generator: Pcg32::seed_from_u64(seed),
        }
    }

    // The next word.
    pub(crate) fn word(&mut self) -> u32
        ensures { (result, self.new.generator) ≡ pcg32 self.old.generator }
    {
        self.generator.next_word()
    }

    // One of so many numbers, from 0, by the next word.
    pub(crate) fn below(&mut self, count: usize) -> usize
        requires { 0 < count }
        ensures within { result < count }
        ensures value { result ≡ (pcg32 self.old.generator).0 % count }
        ensures next { self.new.generator ≡ (pcg32 self.old.generator).1 }
    {
        self.word() as usize % count
    }
}

//! What becomes of the messages of plays.
ghost use Rattle.std.specs.Prelude.{◌≡◌};
ghost use Rattle.abt_plans.specs.Chances.{fate_of};
ghost use Rattle.abt_plans.specs.declared.chances.Fate.TheVariants as fate;

use abt_plans::{Chances, Fate};

/// How often a message comes for which these words were drawn.
pub fn copies_of(chances: &Chances, first: u32, second: u32) -> usize
    ensures lost { fate_of chances.now first second ≡ fate.Lost → result ≡ 0 }
    ensures once { fate_of chances.now first second ≡ fate.Once → result ≡ 1 }
    ensures twice { fate_of chances.now first second ≡ fate.Twice → result ≡ 2 }
{
    match chances.fate(first, second) {
        Fate::Lost => 0,
        Fate::Once => 1,
        Fate::Twice => 2,
    }
}

//! A link whose sum is asked before anything is held of it.
ghost use Rattle.std.specs.Prelude.{◌≡◌, ◌+◌, ◌≤◌, ◌↔◌, IsTrue};

use abt_ledger::Ledger;
use abt_rate::Rate;

/// Whether a rate fits a link beside what is held of it. Nothing more is held afterwards.
pub fn would_fit(link: &mut Ledger, rate: Rate) -> bool
    ensures fits { IsTrue result ↔ (link.old.total + rate ≤ link.old.capacity) }
    ensures total { link.new.total ≡ link.old.total }
    ensures capacity { link.new.capacity ≡ link.old.capacity }
{
    let nothing = link.open();
    let changed = link.change(nothing, rate);
    let fits = changed.is_ok();
    let (Ok(hold) | Err(hold)) = changed;
    link.close(hold);
    fits
}

//! Whether the receipts of seats are entries of journals.
ghost use Rattle.std.specs.Prelude.{◌≡◌, ◌+◌, ◌<◌, ◌≤◌, ◌^◌, ◌↔◌, ℕ, IsTrue, IfNone, IfSome, length, slice_index, slice_set};
ghost use Rattle.abt_journal.specs.Receipts.{seen_at};
ghost use Rattle.abt_journal.specs.Gathered.{journals_of, IsEntryOf, AreDistinct, CountsFit};
ghost use Rattle.abt_journal.specs.Missing.{AreInOrder, AllInOrder, IsFirstMissing, NamesMissingIn};

use crate::{PortState, Receipt, Seat};

// Whether there are as many receipts as entries, of callers that differ. `taken` has a mark for each caller.
pub(super) fn counts_fit(states: &[PortState], seats: &[Seat], taken: &mut [bool]) -> bool
    requires { length taken.old ≡ 2 ^ 16 }
    ensures { IsTrue result ↔ CountsFit (journals_of states.now) seats.now }
{
    let mut entries: u128 = 0;
    for state in states {
        entries += state.entries().len() as u128;
    }
    let mut receipts: u128 = 0;
    for seat in seats {
        receipts += seat.receipts().len() as u128;
    }
    receipts == entries && callers_differ(seats, taken)
}

// Whether no two seats are of one caller. `taken` has a mark for each caller.
fn callers_differ(seats: &[Seat], taken: &mut [bool]) -> bool
    requires { length taken.old ≡ 2 ^ 16 }
    ensures { IsTrue result ↔ AreDistinct seats.now }
{
    taken.fill(false);
    for seat in seats {
        let caller = usize::from(seat.caller());
        if taken[caller] {
            return false;
        }
        taken[caller] = true;
    }
    true
}

// The port and the place of the first receipt, by seat and order, that isn't its caller's entry, or doesn't come after
// the one before it at this port. `seen` has room for each port.
pub(super) fn first_missing(
    states: &[PortState],
    seats: &[Seat],
    seen: &mut [u64],
) -> Option<(u16, u64)>
    requires { length seen.old ≡ length states.now }
    ensures none { IfNone result (AllInOrder (journals_of states.now) seats.now) }
    ensures some { IfSome result (λ at. IsFirstMissing (journals_of states.now) seats.now at.0 at.1) }
{
    for seat in seats {
        let missing = first_missing_in(states, seat, seen);
        if missing.is_some() {
            return missing;
        }
    }
    None
}

// The first receipt of one seat that is missing, if one is: its port and place.
fn first_missing_in(states: &[PortState], seat: &Seat, seen: &mut [u64]) -> Option<(u16, u64)>
    requires { length seen.old ≡ length states.now }
    ensures none { IfNone result (AreInOrder (journals_of states.now) seat.now) }
    ensures some { IfSome result (λ at. NamesMissingIn (journals_of states.now) seat.now at.0 at.1) }
    ensures len { length seen.new ≡ length seen.old }
{
    seen.fill(0);
    let caller = seat.caller();
    for receipt in seat.receipts() {
        if !sees(states, caller, seen, receipt) {
            return Some((receipt.port, receipt.entry.place));
        }
    }
    None
}

// Whether the receipt is this caller's entry, past what was seen of the port's journal. Then that much is seen of it.
fn sees(states: &[PortState], caller: u16, seen: &mut [u64], receipt: &Receipt) -> bool
    requires len { length seen.old ≡ length states.now }
    requires within { receipt.now.entry.place + 1 < 2 ^ 64 }
    ensures value { IsTrue result ↔ (IsEntryOf (journals_of states.now) caller receipt.now
        × (slice_index seen.old receipt.now.port ≤ receipt.now.entry.place)) }
    ensures seen { IsTrue result → (receipt.now.port < length seen.old)
        × (seen.new ≡ slice_set seen.old receipt.now.port (receipt.now.entry.place + 1)) }
    ensures len { length seen.new ≡ length seen.old }
{
    if !is_entry_of(states, caller, receipt) {
        return false;
    }
    let port = usize::from(receipt.port);
    if port >= seen.len() || receipt.entry.place < seen[port] {
        return false;
    }
    seen[port] = receipt.entry.place + 1;
    true
}

// Whether the receipt is this caller's entry, in the journal of its port and at its place.
fn is_entry_of(states: &[PortState], caller: u16, receipt: &Receipt) -> bool
    ensures { IsTrue result ↔ IsEntryOf (journals_of states.now) caller receipt.now }
{
    match states.get(usize::from(receipt.port)) {
        Some(state) => receipt.entry.caller == caller && state.has(&receipt.entry),
        None => false,
    }
}

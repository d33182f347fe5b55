use super::same;
use abt_ledger::{CapacityFault, Ledger};
use abt_rate::Rate;

/// The capacity of a link of 1,000 cells per second, in units.
const CAPACITY: u64 = 512000;

#[test]
fn two_connections_share_a_link(rt: HostRuntime) {
    // By docs/RULES.md, "Rates": code 5258 is 600 cells per second, 307,200 units, and 5120 is 400, 204,800 units.
    let (most, rest) = (Rate::from_code(0x5258), Rate::from_code(0x5120));
    let mut ledger = Ledger::new(CAPACITY);
    same(&rt, &ledger.capacity(), &512000);
    let first = ledger.open();
    let (Ok(first) | Err(first)) = ledger.change(first, most);
    same(&rt, &ledger.total(), &307200);
    let second = ledger.open();
    let second = match ledger.change(second, most) {
        Err(second) => second,
        Ok(second) => {
            ledger.close(second);
            ledger.close(first);
            panic!(rt; "twice 600 cells per second fit into 1,000")
        }
    };
    same(&rt, &second.rate(), &Rate::ZERO);
    let (Ok(second) | Err(second)) = ledger.change(second, rest);
    same(&rt, &second.rate(), &rest);
    same(&rt, &ledger.total(), &512000);
    let (Ok(first) | Err(first)) = ledger.change(first, Rate::ZERO);
    same(&rt, &first.rate(), &Rate::ZERO);
    same(&rt, &ledger.total(), &204800);
    ledger.close(first);
    ledger.close(second);
    same(&rt, &ledger.total(), &0);
}

#[test]
fn a_link_shrinks_to_what_is_held(rt: HostRuntime) {
    let mut ledger = Ledger::new(CAPACITY);
    let hold = ledger.open();
    let (Ok(hold) | Err(hold)) = ledger.change(hold, Rate::from_code(0x5258));
    let answers = (
        ledger.set_capacity(307199),
        ledger.capacity(),
        ledger.set_capacity(307200),
        ledger.capacity(),
        ledger.set_capacity(1152921504606846977),
        ledger.capacity(),
        ledger.set_capacity(1152921504606846976),
    );
    let (total, capacity) = (ledger.total(), ledger.capacity());
    ledger.close(hold);
    same(&rt, &answers.0, &Err(CapacityFault::BelowSum));
    same(&rt, &answers.1, &512000);
    same(&rt, &(answers.2, answers.3), &(Ok(()), 307200));
    same(
        &rt,
        &(answers.4, answers.5),
        &(Err(CapacityFault::AboveLimit), 307200),
    );
    same(
        &rt,
        &(answers.6, total, capacity),
        &(Ok(()), 307200, 1152921504606846976),
    );
    same(&rt, &ledger.set_capacity(0), &Ok(()));
}

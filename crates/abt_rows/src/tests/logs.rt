//! Facts that no connection of a world has, so that what looks for them is seen to find them.
use super::*;
use abt_facts::Fact;
use abt_index::{FactIndex, Lookups};

#[test]
fn a_cell_that_came_too_early_is_found(rt: HostRuntime) -> Result<(), Fail> {
    for verdict in [Verdict::Conforming, Verdict::TooEarly, Verdict::NoRate] {
        let mut log = FactIndex::new(rt.alloc());
        if log.reserve().is_err() {
            log.reserve()?;
        }
        log.note(
            Fact::Arrived {
                cell: 0,
                at: 5,
                rate: Rate::from_code(0x5120),
                verdict,
            },
            &mut Lookups::new(),
        );
        log.note(Fact::Crashed, &mut Lookups::new());
        same(&rt, &log.all_conform(), &(verdict == Verdict::Conforming));
    }
    Ok(())
}

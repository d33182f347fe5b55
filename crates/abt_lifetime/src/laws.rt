//! What is proved of every list of calls.
ghost use Rattle.abt_lifetime.specs.Numbers.{NumbersAreKept};

/// Over every store that keeps its promise and every list of calls: the numbers of the requests that go out rise, also over crashes, and none
/// is used twice; the store holds a number that isn't below any of them, and a spacing that isn't below any gap that may be running
/// (docs/RULES.md, "Source").
///
/// This is a law and does nothing. [`StoredSource`](crate::StoredSource) carries it in code.
pub fn numbers_rise_over_any_store()
    ensures kept { NumbersAreKept }
{}

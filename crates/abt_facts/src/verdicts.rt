//! The verdict on a cell is that of the windows.
ghost use Rattle.std.specs.Prelude.{ℕ, List};
ghost use Rattle.abt_gcra.specs.Windows.{IsVerdictAt};
ghost use Rattle.abt_facts.specs.Cells.{taken_of, verdict_at};
ghost use Rattle.abt_facts.specs.declared.fact.Fact.{Fact};

/// The verdict that the facts give a cell is the one by the windows with the cells that were taken before it.
///
/// This is a law and does nothing.
pub fn verdicts_keep_windows()
    ensures value { (tau at held : ℕ) (facts : List Fact) →
        IsVerdictAt tau (taken_of facts) at held (verdict_at tau facts at held) }
{}

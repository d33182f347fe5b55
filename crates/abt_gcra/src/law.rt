//! Laws above the machines: what verdicts say of cells, and of cells on their way from a shaper.
ghost use Rattle.std.specs.Prelude.{◌≡◌, ℕ, ◌↔◌, List, [], All, reverse};
ghost use Rattle.abt_gcra.specs.declared.verdict.Verdict.{Verdict};
ghost use Rattle.abt_gcra.specs.Finding.{verdict_of, verdict_at};
ghost use Rattle.abt_gcra.specs.Windows.{Arrival, Conforms, IsVerdict, IsVerdictAt, AreVerdicts};
ghost use Rattle.abt_gcra.specs.Passage.{Passage, arrivals_of};
ghost use Rattle.abt_gcra.specs.Passage.{AreShaped, AreDelayed, AreInOrder, AreHeldFor};

/// The verdict that is found from the windows is theirs, and the only one.
pub fn verdict_is_found()
    ensures of_cell { (tau : ℕ) (taken : List Arrival) (cell : Arrival) (verdict : Verdict) →
        IsVerdict tau taken cell verdict ↔ (verdict ≡ verdict_of tau taken cell) }
    ensures at_rate { (tau at held : ℕ) (taken : List Arrival) (verdict : Verdict) →
        IsVerdictAt tau taken at held verdict ↔ (verdict ≡ verdict_at tau taken at held) }
{}

/// Cells that conform are all found conforming, one after another.
pub fn conforming_cells_are_taken()
    ensures { (tau : ℕ) (cells : List Arrival) (verdicts : List Verdict) →
        Conforms tau cells → AreVerdicts tau [] (reverse cells) verdicts →
        All (λ verdict. verdict ≡ Verdict.Conforming) verdicts }
{}

/// What a shaper emits at a rate, and a line then delays by its delay and at most `tau` more, no cell
/// overtaking another, conforms within `tau` of a policer at that rate or a greater one, which so
/// finds each of the cells conforming.
pub fn shaped_cells_conform()
    ensures conform { (delay tau : ℕ) (cells : List Passage) →
        AreShaped cells → AreDelayed delay tau cells → AreInOrder cells → AreHeldFor cells →
        Conforms tau (arrivals_of cells) }
    ensures verdicts { (delay tau : ℕ) (cells : List Passage) (verdicts : List Verdict) →
        AreShaped cells → AreDelayed delay tau cells → AreInOrder cells → AreHeldFor cells →
        AreVerdicts tau [] (reverse (arrivals_of cells)) verdicts →
        All (λ verdict. verdict ≡ Verdict.Conforming) verdicts }
{}

//! What is proved of every text, whoever reads it.
ghost use Rattle.abt_text.specs.Text.{Text};
ghost use Rattle.abt_journal_text.specs.Books.{Told};
ghost use Rattle.abt_journal_text.specs.OneReading.{HasOneReading};
ghost use Rattle.abt_journal_text.specs.declared.spot.Spot.{Spot as SpotSpec};

/// A text tells one thing, behind what was told before.
///
/// This is a law and does nothing: callers take from it what its clause says.
pub fn each_text_tells_one_thing()
    ensures reading { (spot : SpotSpec) (told : Told) (text : Text) → HasOneReading spot told text }
{}

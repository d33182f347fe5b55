//! What is proved of every text, whoever reads it.
ghost use Rattle.abt_text.specs.Text.{Text};
ghost use Rattle.abt_scenario.specs.OneAnswer.{HasOneReading, HasOneReport};

/// A text says one scenario, or has one first fault.
///
/// This is a law and does nothing: callers take from it what its clause says.
pub fn each_text_has_one_reading()
    ensures reading { (text : Text) → HasOneReading text }
{}

/// A text that says a scenario has one report.
///
/// This is a law and does nothing.
pub fn each_text_has_one_report()
    ensures report { (text : Text) → HasOneReport text }
{}

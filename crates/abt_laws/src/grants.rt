//! What fits is granted.
ghost use Rattle.abt_model.specs.Promises.{EveryPast};
ghost use Rattle.abt_laws.specs.Granting.{WhatFitsIsGranted};

/// Whatever happened to a net: if a source is up, a number is left and its store works, a rate that fits at every hop of its path is granted
/// to it, provided that nothing else happens between its ask and the yes (docs/RULES.md, "Node"). So the headline isn't kept by refusing
/// everything.
///
/// This is a law and does nothing.
pub fn what_fits_is_granted()
    ensures granted { EveryPast WhatFitsIsGranted }
{}

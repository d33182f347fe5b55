//! The rule of the book.
ghost use Rattle.abt_history.specs.declared.deed.Deed.{Deed};

use crate::deed::Deed;
use crate::place::Place;
use logbook::{Gain, Opening, Plain, Play, Rule};
use std::marker::PhantomData;

/// Each word counts the deeds of its port or source in the history, which is legal.
pub struct Law<N: Place> {
    of: PhantomData<N>,
}

impl<N: Place> Rule<Deed, u64> for Law<N> {
    ghost use Rattle.std.specs.Prelude.{[]};
    ghost use base.Fml.{ftrue};
    ghost use Rattle.abt_history.specs.Rules.{IsKept};

    ghost holds = { λ cells log. IsKept N.net cells log };

    ghost first = { [] };

    ghost hinted = { λ n log. Unit {0} };

    ghost shows = { λ log. [] };

    ghost keeps = { λ names log. ftrue };

    ghost moves = { λ ask before after answer. Unit {0} };
}

/// Callers trade nothing.
pub(crate) struct Nothing;

impl Gain<Deed, u64> for Nothing {
    ghost use base.Fml.{ftrue};

    ghost after = { λ names about answer. ftrue };
}

/// A step that adds a deed.
pub(crate) struct Add<N: Place> {
    of: PhantomData<N>,
}

impl<N: Place> Play<Deed, u64> for Add<N> {
    ghost use Rattle.abt_history.specs.Rules.{Adds};

    ghost then = { Adds N.net };
}

/// What a step asks for: the deed.
impl<N: Place> Plain<Deed, Deed, u64> for Add<N> {
    ghost use Rattle.std.specs.Prelude.{None};

    ghost ask = { λ deed. deed };

    ghost state = { λ deed. None };
}

/// Nothing is in the history at first.
pub(crate) struct Begun;

impl Opening<u64, Deed> for Begun {
    ghost use Rattle.std.specs.Prelude.{[]};

    ghost log = { λ count about. [] };
}

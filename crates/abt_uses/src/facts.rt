//! Facts of a connection.
ghost use Rattle.std.specs.Prelude.{◌≡◌, [], ◌∷◌, true};
ghost use Rattle.abt_facts.specs.Requests.{was_asked, ask_of};

use abt_cell::Request;
use abt_facts::Fact;

/// The fact that a request leaves which is sent before any cell.
pub fn fact_of(request: &Request) -> Fact
    ensures asked { was_asked (result ∷ []) request.now.seq ≡ true }
    ensures rate { ask_of (result ∷ []) request.now.seq ≡ request.now.ask }
{
    Fact::Asked {
        seq: request.seq(),
        floor: request.floor(),
        ask: request.ask(),
        mark: 0,
    }
}

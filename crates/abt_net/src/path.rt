//! Paths.

ghost use Rattle.std.specs.Prelude.{◌≡◌, ◌==◌, ◌<◌, Some, IfSome, length, slice_get};
ghost use Rattle.abt_net.specs.Search.{NamesLeast};

use std::marker::Model;

/// The ports that a connection visits, by their numbers, in the order in which its requests visit
/// them.
#[derive(Debug, Drop)]
pub struct Path {
    ports: Vec<u16>,
}

impl Model for Path {
    ghost use Rattle.std.specs.Prelude.{List, ℕ};

    ghost Value = { List ℕ };

    ghost view = { λ p. p.ports.items };
}

impl From<Vec<u16>> for Path {
    ghost from_gives = { λ ports path. path ≡ ports.items };

    fn from(ports: Vec<u16>) -> Path {
        Path { ports }
    }
}

impl Path {
    ghost use Rattle.std.specs.Prelude.{◌↔◌, ◌≤◌, IsNone};
    ghost use Rattle.abt_net.specs.Paths.{hop_of};

    /// The ports, the first hop's first.
    pub fn as_slice(&self) -> &[u16]
        ensures { result.now ≡ self.now }
    {
        self.ports.as_slice()
    }

    /// How many hops the path has.
    pub fn len(&self) -> usize
        ensures { result ≡ length self.now }
    {
        self.ports.len()
    }

    /// Whether the path has no hop; no path of a net is so.
    pub fn is_empty(&self) -> bool
        ensures { result ≡ (length self.now == 0) }
    {
        self.ports.is_empty()
    }

    /// The hop at which the path visits a port, from 1, if it goes through it.
    pub fn hop_of(&self, port: u16) -> Option<usize>
        ensures none { IsNone result ↔ (hop_of self.now port ≡ 0) }
        ensures some { IfSome result (λ hop. hop ≡ hop_of self.now port) }
        ensures within { IfSome result (λ hop. hop ≤ length self.now) }
    {
        let place = place_of(self.as_slice(), port)?;
        Some(place + 1)
    }
}

// The first place at which a port stands.
fn place_of(ports: &[u16], port: u16) -> Option<usize>
    ensures value { NamesLeast (λ place. slice_get ports.now place ≡ Some port) result }
    ensures within { IfSome result (λ place. place < length ports.now) }
{
    ports.iter().position(|visited| *visited == port)
}

//! A line of JSON.
ghost use Rattle.std.specs.Prelude.{◌≡◌, IfOk};
ghost use Rattle.abt_entry.specs.ObjectMembers.{object_line, number_member};
ghost use Rattle.std.specs.Prelude.{codes};

use abt_entry::{begin, end, push_number};
use std::alloc::{AllocError, Global};

/// An object with one member, the number of a port, on a line of its own: `{"port":7}`.
pub fn port_object(alloc: Global, port: u16) -> Result<Vec<u8>, AllocError>
    ensures { IfOk result (λ text. text.items ≡ object_line (number_member (codes "port") port)) }
{
    let mut text = Vec::new(alloc);
    let mut object = begin(alloc, &mut text)?;
    push_number(&mut object, "port", u64::from(port))?;
    end(object, &mut text)?;
    Ok(text)
}

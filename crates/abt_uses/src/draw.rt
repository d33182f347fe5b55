//! A shape of a picture.
ghost use Rattle.std.specs.Prelude.{◌≡◌, IfOk, string_bytes, codes};
ghost use Rattle.abt_draw.specs.Elements as elements;

use abt_draw::{Point, push_line};
use std::alloc::{AllocError, Global};

/// The element of a line from the corner of a picture to a point.
pub fn line_to(alloc: Global, to: Point) -> Result<String, AllocError>
    ensures { IfOk result (λ text. string_bytes text
        ≡ elements.line_text (codes "arrow") (record { x = 0; y = 0 }) to) }
{
    let corner = Point { x: 0, y: 0 };
    let mut picture = String::new(alloc);
    push_line(alloc, &mut picture, "arrow", corner, to)?;
    Ok(picture)
}

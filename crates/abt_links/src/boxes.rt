//! The answer boxes of a run.
ghost use Rattle.std.specs.Prelude.{◌≡◌, IfOk, vec_len};

use std::alloc::{AllocError, Global};
use std::collections::VecDeque;
use std::sync::Mutex;

// So many empty boxes.
pub(crate) fn empty_boxes<T: Drop>(
    alloc: Global,
    count: usize,
) -> Result<Vec<Mutex<VecDeque<T>>>, AllocError>
    ensures { IfOk result (λ boxes. vec_len boxes ≡ count) }
{
    let mut boxes = Vec::with_capacity(alloc, count)?;
    for _made in 0..count {
        boxes.push(Mutex::new(VecDeque::new(alloc)))?;
    }
    Ok(boxes)
}

//! Lists by the numbers of actors.
ghost use Rattle.std.specs.Prelude.{◌≡◌, ◌<◌, [], length, replicate, IfOk, OnOk};
ghost use Rattle.abt_journal_text.specs.Books.{lists_of, appended_at};

use std::alloc::{AllocError, Global};

// So many empty lists.
pub(crate) fn empty_lists<T: Drop>(alloc: Global, count: usize) -> Result<Vec<Vec<T>>, AllocError>
    ensures { IfOk result (λ lists. lists_of lists ≡ replicate count []) }
{
    let mut lists = Vec::new(alloc);
    for _list in 0..count {
        lists.push(Vec::new(alloc))?;
    }
    Ok(lists)
}

// Adds an item at the end of the list of a number.
pub(crate) fn push_at<T: Drop>(
    lists: &mut Vec<Vec<T>>,
    number: u16,
    item: T,
) -> Result<(), AllocError>
    requires { number < length lists.old.items }
    ensures ok { OnOk result (lists_of lists.new ≡ appended_at (lists_of lists.old) number item) }
    ensures len { length (lists_of lists.new) ≡ length (lists_of lists.old) }
{
    Ok(lists[usize::from(number)].push(item)?)
}

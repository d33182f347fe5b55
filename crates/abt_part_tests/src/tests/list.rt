use super::{same, same_items};
use abt_model::Sequence;
use std::alloc::{AllocError, Global};
use std::process::Abort;
use std::test::Fail;

// Pushes three numbers, each again if memory is refused for it: then the list is as it was.
fn push_three(rt: &impl Abort, numbers: &mut Sequence<u64>) -> Result<(), AllocError> {
    for number in [4, 7, 4] {
        let before = numbers.len();
        if numbers.push(number).is_err() {
            same(rt, &numbers.len(), &before);
            numbers.push(number)?;
        }
    }
    same_items(rt, numbers.as_slice(), &[4, 7, 4]);
    same(rt, &numbers.len(), &3);
    Ok(())
}

// An empty list with room for two; if memory is refused, it is asked for again.
fn roomy(alloc: Global) -> Result<Sequence<u64>, AllocError> {
    match Sequence::with_room(alloc, 2) {
        Ok(numbers) => Ok(numbers),
        Err(_) => Sequence::with_room(alloc, 2),
    }
}

fn slice_of_three(alloc: Global) -> Result<Vec<u64>, AllocError> {
    match Vec::from_slice(alloc, &[4, 7, 4]) {
        Ok(numbers) => Ok(numbers),
        Err(_) => Vec::from_slice(alloc, &[4, 7, 4]),
    }
}

#[test]
fn what_is_pushed_stands_at_the_end(rt: HostRuntime) -> Result<(), Fail> {
    let mut numbers = Sequence::new(rt.alloc());
    assert!(rt; numbers.is_empty());
    push_three(&rt, &mut numbers)?;
    let mut roomy = roomy(rt.alloc())?;
    assert!(rt; roomy.is_empty());
    push_three(&rt, &mut roomy)?;
    let made: Sequence<u64> = slice_of_three(rt.alloc())?.into();
    same_items(&rt, made.as_slice(), numbers.as_slice());
    Ok(())
}

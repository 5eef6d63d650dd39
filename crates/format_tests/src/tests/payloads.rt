// Payload: parts of blocks.
use cm_base::Payload;
use std::test::Fail;

#[test]
fn parts_of_a_block_are_found_in_it_and_joined(rt: HostRuntime) -> Result<(), Fail> {
    let alloc = rt.alloc();
    let whole = Payload::copy_from_slice(alloc, &[1, 2, 3, 4, 5, 6])?;
    let front = whole.slice(..2)?;
    let next = whole.slice(2..4)?;
    let apart = Payload::copy_from_slice(alloc, &[3, 4])?;
    assert_eq!(rt; next.place_in(&whole), Some(2));
    assert_eq!(rt; apart.place_in(&whole), None);
    let joined = front.joined(&next)?;
    assert!(rt; joined.is_some_and(|both| both.as_slice() == [1, 2, 3, 4].as_slice()));
    assert!(rt; next.joined(&front)?.is_none());
    whole.set_hint(7);
    assert_eq!(rt; (front.hint(), next.hint()), (7, 7));
    assert_eq!(rt; apart.hint(), u64::MAX);
    Ok(())
}

// Bases that are offered one after another. Worked by hand from what bases are: the first lists of tokens that differ, as many as
// are wanted, each with the number that it was offered with first.

use cs_writing::Bases;
use std::test::Fail;

// The first list takes the one place there is.
#[test]
fn one_base_and_no_other(rt: HostRuntime) -> Result<(), Fail> {
    let mut bases = Bases::new(rt.alloc(), 1);
    assert!(rt; bases.offer(3, &[1, 2, 1])?);
    assert!(rt; !bases.offer(4, &[2])?);
    assert!(rt; !bases.offer(5, &[1, 2, 1])?);
    assert_eq!(rt; bases.len(), 1);
    let (goal, tokens) = bases.get(0);
    assert_eq!(rt; goal, 3);
    assert!(rt; tokens == [1, 2, 1].as_slice());
    Ok(())
}

// A list that is there is not taken again, another is; each keeps the number that it came with.
#[test]
fn each_list_once(rt: HostRuntime) -> Result<(), Fail> {
    let mut bases = Bases::new(rt.alloc(), 16);
    assert!(rt; bases.is_empty());
    assert!(rt; bases.offer(1, &[1, 2, 1])?);
    assert!(rt; bases.offer(2, &[1])?);
    assert!(rt; !bases.offer(3, &[1])?);
    assert!(rt; bases.offer(4, &[])?);
    assert_eq!(rt; bases.len(), 3);
    assert_eq!(rt; bases.get(1).0, 2);
    assert_eq!(rt; bases.get(2).0, 4);
    Ok(())
}

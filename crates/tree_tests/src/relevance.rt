use crate::games::{chicken, letters, one_card};
use crate::opened::pairs_of;
use std::test::Fail;

#[test]
fn all_pairs_of_chicken_are_relevant(rt: HostRuntime) -> Result<(), Fail> {
    let pairs = pairs_of(rt.alloc(), &chicken(rt.alloc())?)?;
    assert_eq!(rt; pairs.len(), 9);
    assert_eq!(rt; pairs.pair(0), (0, 0));
    assert_eq!(rt; pairs.pair(5), (1, 2));
    Ok(())
}

#[test]
fn letters_leave_some_pairs_out(rt: HostRuntime) -> Result<(), Fail> {
    assert_eq!(rt; pairs_of(rt.alloc(), &letters(rt.alloc())?)?.len(), 8);
    assert_eq!(rt; pairs_of(rt.alloc(), &one_card(rt.alloc())?)?.len(), 15);
    Ok(())
}

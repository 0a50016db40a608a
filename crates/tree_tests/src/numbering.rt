use crate::games::{chain, one_card};
use crate::opened::pairs_of;
use corr_game::{SetId, Side};
use std::test::Fail;

// One-card poker has five sequences and three.
#[test]
fn sequences_end_with_their_moves(rt: HostRuntime) -> Result<(), Fail> {
    let pairs = pairs_of(rt.alloc(), &one_card(rt.alloc())?)?;
    let seqs = pairs.seqs();
    assert!(rt; seqs.count(Side::One) == 5);
    assert!(rt; seqs.count(Side::Two) == 3);
    assert_eq!(rt; seqs.last(Side::One, 0), None);
    assert_eq!(rt; seqs.last(Side::One, 4), Some((SetId(1), 1)));
    let pairs = pairs_of(rt.alloc(), &chain(rt.alloc())?)?;
    let seqs = pairs.seqs();
    assert!(rt; seqs.count(Side::One) == 5);
    assert_eq!(rt; seqs.last(Side::One, 3), Some((SetId(1), 0)));
    Ok(())
}

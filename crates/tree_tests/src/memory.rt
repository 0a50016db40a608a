use crate::games::{chain, chicken, forgetful, one_card, repeated};
use corr_game::{SetId, Side};
use std::test::Fail;
use tree_recall::{RecallRefusal, recall};

#[test]
fn forgetting_is_told_at_its_two_nodes(rt: HostRuntime) -> Result<(), Fail> {
    let joined = RecallRefusal::Forgets {
        side: Side::One,
        set: SetId(1),
        first: 2,
        second: 5,
    };
    let game = forgetful(rt.alloc())?;
    assert_eq!(rt; recall(rt.alloc(), &game).err(), Some(joined));
    let again = RecallRefusal::Forgets {
        side: Side::One,
        set: SetId(0),
        first: 0,
        second: 1,
    };
    let game = repeated(rt.alloc())?;
    assert_eq!(rt; recall(rt.alloc(), &game).err(), Some(again));
    Ok(())
}

#[test]
fn last_moves_are_kept(rt: HostRuntime) -> Result<(), Fail> {
    let game = chain(rt.alloc())?;
    let recalled = recall(rt.alloc(), &game)?;
    assert_eq!(rt; game.sets(Side::One), 2);
    assert_eq!(rt; recalled.last(Side::One, SetId(0)), None);
    assert_eq!(rt; recalled.last(Side::One, SetId(1)), Some((SetId(0), 1)));
    assert!(rt; recall(rt.alloc(), &chicken(rt.alloc())?).is_ok());
    assert!(rt; recall(rt.alloc(), &one_card(rt.alloc())?).is_ok());
    Ok(())
}

use crate::games::one_card;
use corr_game::{Node, Side};
use std::test::Fail;

// Each colour is drawn half of the time, so that a stake of 1 counts 1 of the scale 2.
#[test]
fn one_card_has_whole_amounts(rt: HostRuntime) -> Result<(), Fail> {
    let game = one_card(rt.alloc())?;
    assert!(rt; game.len() == 11);
    assert_eq!(rt; (game.scale(Side::One), game.scale(Side::Two)), (2, 2));
    assert_eq!(rt; (game.sets(Side::One), game.sets(Side::Two)), (2, 1));
    assert!(rt; matches!(game.node(3), Node::Leaf { pay } if pay.one == 2 && pay.two == -2));
    assert!(rt; matches!(game.node(10), Node::Leaf { pay } if pay.one == -1 && pay.two == 1));
    Ok(())
}

use crate::games::{chicken, letters, one_card};
use crate::opened::pairs_of;
use corr_game::SetId;
use std::test::Fail;
use triangle_test::{Quad, public_chance, triangle};

#[test]
fn letters_make_a_triangle(rt: HostRuntime) -> Result<(), Fail> {
    let quad = Quad {
        one_a: SetId(0),
        one_b: SetId(1),
        two_a: SetId(0),
        two_b: SetId(1),
    };
    let game = letters(rt.alloc())?;
    assert_eq!(rt; triangle(&game, &pairs_of(rt.alloc(), &game)?), Some(quad));
    assert!(rt; !public_chance(&game));
    Ok(())
}

#[test]
fn poker_and_chicken_make_none(rt: HostRuntime) -> Result<(), Fail> {
    let poker = one_card(rt.alloc())?;
    assert_eq!(rt; triangle(&poker, &pairs_of(rt.alloc(), &poker)?), None);
    assert!(rt; !public_chance(&poker));
    let game = chicken(rt.alloc())?;
    assert_eq!(rt; triangle(&game, &pairs_of(rt.alloc(), &game)?), None);
    assert!(rt; public_chance(&game));
    Ok(())
}

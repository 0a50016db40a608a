use crate::games::{chain, chicken, forgetful, letters, one_card, repeated};
use corr_game::{Game, SetId, Side};
use plain_trees::{
    are_connected, are_relevant, has_public_chance, has_recall, is_above, least_triangle,
    own_sequence,
};
use std::alloc::{AllocError, Global};
use std::process::Abort;
use std::test::Fail;
use triangle_test::Quad;

/// The own moves on the path to a node that is there.
fn moves_to(
    rt: &impl Abort,
    alloc: Global,
    game: &Game,
    side: Side,
    n: u32,
) -> Result<Vec<(SetId, usize)>, AllocError> {
    assert!(rt; n < game.len());
    let moves = own_sequence(alloc, game, side, n)?;
    Ok(moves)
}

// In the chain player 1 goes on at both sets to the last leaf, and player 2 at one.
#[test]
fn own_moves_and_recall(rt: HostRuntime) -> Result<(), Fail> {
    let game = chain(rt.alloc())?;
    let one = moves_to(&rt, rt.alloc(), &game, Side::One, 6)?;
    assert_eq!(rt; one.as_slice(), [(SetId(1), 1), (SetId(0), 1)].as_slice());
    let two = moves_to(&rt, rt.alloc(), &game, Side::Two, 5)?;
    assert_eq!(rt; two.as_slice(), [(SetId(0), 1)].as_slice());
    assert!(rt; has_recall(rt.alloc(), &game, Side::One)?);
    assert!(rt; has_recall(rt.alloc(), &chicken(rt.alloc())?, Side::Two)?);
    assert!(rt; has_recall(rt.alloc(), &one_card(rt.alloc())?, Side::One)?);
    let game = forgetful(rt.alloc())?;
    assert!(rt; !has_recall(rt.alloc(), &game, Side::One)?);
    assert!(rt; has_recall(rt.alloc(), &game, Side::Two)?);
    assert!(rt; !has_recall(rt.alloc(), &repeated(rt.alloc())?, Side::One)?);
    Ok(())
}

// The second letter b goes with a and with b, the second letter a with a alone.
#[test]
fn connected_sets(rt: HostRuntime) -> Result<(), Fail> {
    let game = letters(rt.alloc())?;
    for (one, two, connected) in [(0, 0, true), (0, 1, true), (1, 0, false), (1, 1, true)] {
        assert_eq!(rt; are_connected(&game, SetId(one), SetId(two)), connected);
    }
    assert!(rt; game.len() == 10);
    assert!(rt; is_above(&game, 0, 9));
    assert!(rt; !is_above(&game, 1, 5));
    assert!(rt; !is_above(&game, 2, 1));
    let poker = one_card(rt.alloc())?;
    assert!(rt; are_connected(&poker, SetId(0), SetId(0)));
    assert!(rt; are_connected(&poker, SetId(1), SetId(0)));
    Ok(())
}

// The letters b of player 1 and a of player 2 never come together; the empty sequence goes with each.
#[test]
fn relevant_pairs(rt: HostRuntime) -> Result<(), Fail> {
    let game = letters(rt.alloc())?;
    let one_a = moves_to(&rt, rt.alloc(), &game, Side::One, 3)?;
    let one_b = moves_to(&rt, rt.alloc(), &game, Side::One, 9)?;
    let two_a = moves_to(&rt, rt.alloc(), &game, Side::Two, 3)?;
    let two_b = moves_to(&rt, rt.alloc(), &game, Side::Two, 9)?;
    let none = moves_to(&rt, rt.alloc(), &game, Side::Two, 7)?;
    assert!(rt; are_relevant(&game, &one_a, &two_a));
    assert!(rt; are_relevant(&game, &one_a, &two_b));
    assert!(rt; are_relevant(&game, &one_b, &two_b));
    assert!(rt; !are_relevant(&game, &one_b, &two_a));
    assert!(rt; are_relevant(&game, &one_b, &none));
    Ok(())
}

// The letters make a triangle, and each of them is drawn for one player alone.
#[test]
fn triangles_and_public_chance(rt: HostRuntime) -> Result<(), Fail> {
    let game = letters(rt.alloc())?;
    let quad = Quad {
        one_a: SetId(0),
        one_b: SetId(1),
        two_a: SetId(0),
        two_b: SetId(1),
    };
    assert_eq!(rt; least_triangle(rt.alloc(), &game)?, Some(quad));
    assert!(rt; !has_public_chance(&game));
    let poker = one_card(rt.alloc())?;
    assert_eq!(rt; least_triangle(rt.alloc(), &poker)?, None);
    assert!(rt; !has_public_chance(&poker));
    assert!(rt; has_public_chance(&chicken(rt.alloc())?));
    Ok(())
}

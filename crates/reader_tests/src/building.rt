ghost use Rattle.std.specs.Prelude.{◌≤◌, ◌^◌, length};

use corr_game::{NodeList, SetId, Side};
use efg_lines::{FileRefusal, read_lines};
use efg_reader::{RawGame, Shape, build};
use std::alloc::Global;
use std::process::Abort;
use std::test::Fail;

const POKER: &[u8] = b"EFG 2 R \"One card\" { \"Player 1\" \"Player 2\" }
\"\"
c \"\" 1 \"\" { \"Red\" 1/2 \"Black\" 1/2 } 0
p \"\" 1 1 \"\" { \"Raise\" \"Fold\" } 0
p \"\" 2 1 \"\" { \"Meet\" \"Pass\" } 0
t \"\" 1 \"Win Big\" { 2, -2 }
t \"\" 2 \"Win\" { 1, -1 }
t \"\" 2 \"Win\" { 1, -1 }
p \"\" 1 2 \"\" { \"Raise\" \"Fold\" } 0
p \"\" 2 1 \"\" { \"Meet\" \"Pass\" } 0
t \"\" 3 \"Lose Big\" { -2, 2 }
t \"\" 2 \"Win\" { 1, -1 }
t \"\" 4 \"Lose\" { -1, 1 }
";

fn game_of(alloc: Global, bytes: &[u8]) -> Result<RawGame, FileRefusal>
    requires { length bytes.now ≤ 2 ^ 30 }
{
    build(alloc, read_lines(alloc, bytes)?)
}

#[test]
fn a_file_is_refused_by_its_first_rule(rt: HostRuntime) {
    let bytes = b"EFG 2 R \"\" { \"\" \"\" } p \"\" 1 1 { \"\" \"\" } 0 t \"\" 0";
    assert_eq!(rt;
        game_of(rt.alloc(), bytes).err(),
        Some(FileRefusal::MissingNode { node: 2 })
    );
}

fn kids_of(shape: &Shape) -> Option<&NodeList> {
    match shape {
        Shape::Leaf => None,
        Shape::Chance { kids, .. } => Some(kids),
        Shape::Choice { kids, .. } => Some(kids),
    }
}

fn assert_kids(rt: &impl Abort, shape: &Shape, expected: &[u32]) {
    let Some(kids) = kids_of(shape) else {
        assert!(rt; expected.is_empty());
        return;
    };
    assert_eq!(rt; kids.len(), expected.len());
    for k in 0..expected.len() {
        assert_eq!(rt; *kids.at(k), expected[k]);
    }
}

#[test]
fn nodes_of_one_card_poker(rt: HostRuntime) -> Result<(), Fail> {
    let game = game_of(rt.alloc(), POKER)?;
    let kids: [&[u32]; 11] = [
        &[1, 6],
        &[2, 5],
        &[3, 4],
        &[],
        &[],
        &[],
        &[7, 10],
        &[8, 9],
        &[],
        &[],
        &[],
    ];
    assert_eq!(rt; game.len(), 11);
    for n in 0..11 {
        assert_kids(&rt, &game.node(n).shape, kids[n as usize]);
    }
    assert_eq!(rt; game.sets(Side::One), 2);
    assert_eq!(rt; game.sets(Side::Two), 1);
    assert_eq!(rt; game.set(Side::One, SetId(1)).file, 2);
    assert_eq!(rt; game.set(Side::Two, SetId(0)).actions, 2);
    let Shape::Choice {
        side: Side::One,
        set,
        ..
    } = &game.node(6).shape
    else {
        return Err(Fail::from("node 6 is player 1's"));
    };
    assert_eq!(rt; set.0, 1);
    let Shape::Chance { probs, .. } = &game.node(0).shape else {
        return Err(Fail::from("node 0 is a draw"));
    };
    assert_eq!(rt; probs.len(), 2);
    assert_eq!(rt; probs.at(1).den(), 2);
    assert_eq!(rt; game.node(9).one.num(), 1);
    assert_eq!(rt; game.node(9).two.num(), -1);
    Ok(())
}

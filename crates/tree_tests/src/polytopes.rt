use crate::games::{chicken, letters, one_card};
use crate::opened::pairs_of;
use corr_game::{Game, Side};
use lp_form::{Entry, Lp};
use plan_polytope::polytope;
use std::alloc::Global;
use std::test::Fail;
use tree_recall::RecallRefusal;

fn polytope_of(alloc: Global, game: &Game) -> Result<Lp, RecallRefusal> {
    let lp = polytope(alloc, game, &pairs_of(alloc, game)?)?;
    Ok(lp)
}

fn at(col: u32, value: i64) -> Entry {
    Entry { col, value }
}

// The rows and payoff rows of Chicken as they are published with the format; nine pairs.
#[test]
fn chicken_entry_by_entry(rt: HostRuntime) -> Result<(), Fail> {
    let lp = polytope_of(rt.alloc(), &chicken(rt.alloc())?)?;
    assert_eq!(rt; (lp.rows(), lp.cols()), (7, 9));
    assert_eq!(rt; lp.row(0), [at(0, 1)].as_slice());
    let rows = [
        [at(0, -1), at(3, 1), at(6, 1)],
        [at(1, -1), at(4, 1), at(7, 1)],
        [at(2, -1), at(5, 1), at(8, 1)],
        [at(0, -1), at(1, 1), at(2, 1)],
        [at(3, -1), at(4, 1), at(5, 1)],
        [at(6, -1), at(7, 1), at(8, 1)],
    ];
    for row in 1..7 {
        assert_eq!(rt; lp.row(row), rows[row as usize - 1].as_slice());
        assert_eq!(rt; lp.right(row), 0);
    }
    assert_eq!(rt; lp.right(0), 1);
    let first = [0, 0, 0, 0, 0, 7, 0, 2, 6];
    let second = [0, 0, 0, 0, 0, 2, 0, 7, 6];
    for col in 0..9 {
        assert_eq!(rt; lp.payoff(Side::One, col), first[col as usize]);
        assert_eq!(rt; lp.payoff(Side::Two, col), second[col as usize]);
    }
    Ok(())
}

// One-card poker has 6 rows at player 1's sets and 5 at player 2's. Of the letters' 9 pairs one isn't relevant.
#[test]
fn rows_of_connected_sets_alone(rt: HostRuntime) -> Result<(), Fail> {
    let poker = polytope_of(rt.alloc(), &one_card(rt.alloc())?)?;
    assert_eq!(rt; (poker.rows(), poker.cols()), (12, 15));
    let draws = polytope_of(rt.alloc(), &letters(rt.alloc())?)?;
    assert_eq!(rt; draws.cols(), 8);
    Ok(())
}

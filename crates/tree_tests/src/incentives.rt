ghost use Rattle.std.specs.Prelude.{◌<◌, length};

use crate::games::chicken;
use crate::opened::pairs_of;
use corr_game::{Game, Notion};
use incentive_rows::{incentives, program_size};
use lp_form::Lp;
use std::alloc::Global;
use std::process::Abort;
use std::test::Fail;
use tree_recall::RecallRefusal;

/// The incentive rows of a notion, whose program has this size.
fn rows_of(
    rt: &impl Abort,
    alloc: Global,
    game: &Game,
    notion: Notion,
    size: (u64, u64),
) -> Result<Lp, RecallRefusal> {
    let pairs = &pairs_of(alloc, game)?;
    let (rows, columns) = program_size(game, pairs, notion);
    assert_eq!(rt; (rows, columns), size);
    assert!(rt; rows <= 2048);
    assert!(rt; columns <= 8192);
    Ok(incentives(alloc, game, pairs, notion)?)
}

/// The value that these entries have in a column, and 0 elsewhere.
fn entry_at(entries: &[(u32, i64)], col: u32) -> i64 {
    for (at, value) in entries {
        if *at == col {
            return *value;
        }
    }
    0
}

fn row_is(rt: &impl Abort, lp: &Lp, row: u32, entries: &[(u32, i64)])
    requires { row < length lp.now.rows }
{
    for col in 0..lp.cols() {
        assert_eq!(rt; lp.coef(row, col), entry_at(entries, col), "at {row} {col}");
    }
}

// The incentive rows of Chicken as they are published with the format: nine pairs, two values, the floor, six slacks.
#[test]
fn chicken_entry_by_entry(rt: HostRuntime) -> Result<(), Fail> {
    let game = chicken(rt.alloc())?;
    let lp = rows_of(&rt, rt.alloc(), &game, Notion::Efcce, (13, 18))?;
    assert_eq!(rt; lp.rows(), 6);
    assert_eq!(rt; lp.cols(), 18);
    row_is(&rt, &lp, 0, &[(9, 1), (2, -7), (11, -1), (12, -1)]);
    row_is(&rt, &lp, 1, &[(9, 1), (1, -2), (2, -6), (11, -1), (13, -1)]);
    row_is(
        &rt,
        &lp,
        2,
        &[(5, 7), (7, 2), (8, 6), (9, -1), (11, 1), (14, -1)],
    );
    row_is(&rt, &lp, 3, &[(10, 1), (6, -7), (11, -1), (15, -1)]);
    row_is(
        &rt,
        &lp,
        4,
        &[(10, 1), (3, -2), (6, -6), (11, -1), (16, -1)],
    );
    row_is(
        &rt,
        &lp,
        5,
        &[(5, 2), (7, 7), (8, 6), (10, -1), (11, 1), (17, -1)],
    );
    Ok(())
}

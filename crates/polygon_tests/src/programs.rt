// The program of the tests: what its solutions pay is the triangle of (2, 1), (0, 3) and (0, 0).
ghost use Rattle.std.specs.Prelude.{◌^◌, ◌<◌, IfOk, OnOk, unsigned_abs};
ghost use Rattle.polygon_tests.specs.Tested.{IsTested};

use corr_game::Side;
use lp_form::Lp;
use std::alloc::{AllocError, Global};
use std::process::Abort;

/// Rows, columns and coefficients: the columns add up to 1, and the first is as much as the second.
const COEFFICIENTS: [(u32, u32, i8); 6] = [
    (0, 0, 1),
    (0, 1, 1),
    (0, 2, 1),
    (0, 3, 1),
    (1, 0, 1),
    (1, 1, -1),
];

/// Players, columns and payoffs.
const PAYOFFS: [(Side, u32, i8); 3] = [(Side::One, 0, 4), (Side::Two, 1, 2), (Side::Two, 3, 3)];

/// The program.
pub fn program(rt: &impl Abort, alloc: Global) -> Result<Lp, AllocError>
    ensures { IfOk result IsTested }
{
    let mut lp = empty_program(alloc)?;
    put_coefficients(rt, &mut lp)?;
    put_payoffs(rt, &mut lp)?;
    Ok(lp)
}

/// Two rows over four columns, with the right sides 1 and 0.
fn empty_program(alloc: Global) -> Result<Lp, AllocError>
    ensures { IfOk result IsTested }
{
    let mut lp = Lp::new(alloc, 2, 4)?;
    lp.set_right(0, 1);
    Ok(lp)
}

fn put_coefficients(rt: &impl Abort, lp: &mut Lp) -> Result<(), AllocError>
    requires { IsTested lp.old }
    ensures { OnOk result (IsTested lp.new) }
{
    for (row, col, value) in &COEFFICIENTS {
        assert!(rt; *row < 2);
        assert!(rt; *col < 4);
        put(lp, *row, *col, *value)?;
    }
    Ok(())
}

fn put_payoffs(rt: &impl Abort, lp: &mut Lp) -> Result<(), AllocError>
    requires { IsTested lp.old }
    ensures { OnOk result (IsTested lp.new) }
{
    for (side, col, value) in &PAYOFFS {
        assert!(rt; *col < 4);
        put_payoff(lp, *side, *col, *value)?;
    }
    Ok(())
}

fn put(lp: &mut Lp, row: u32, col: u32, value: i8) -> Result<(), AllocError>
    requires in_rows { row < 2 }
    requires in_columns { col < 4 }
    requires tested { IsTested lp.old }
    ensures { OnOk result (IsTested lp.new) }
{
    lp.set(row, col, wide(value))?;
    Ok(())
}

fn put_payoff(lp: &mut Lp, side: Side, col: u32, value: i8) -> Result<(), AllocError>
    requires in_columns { col < 4 }
    requires tested { IsTested lp.old }
    ensures { OnOk result (IsTested lp.new) }
{
    lp.set_payoff(side, col, wide(value))?;
    Ok(())
}

fn wide(value: i8) -> i64
    ensures { unsigned_abs result < 2 ^ 51 }
{
    i64::from(value)
}

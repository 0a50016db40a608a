// A program without a solution, at which the first phase ends: no game has one.
ghost use Rattle.std.specs.Prelude.{◌≡◌, ◌<◌, length, IfOk};
ghost use Rattle.lp_form.specs.Program.{IsProgram};

use bland_simplex::{Found, feasible};
use int_tableau::{Dense, PivotEnd, Tableau, starts_narrow};
use lp_form::Lp;
use std::alloc::{AllocError, Global};

/// The program with these coefficients, in which the first row's right side is 1 and the others' 0.
fn program(alloc: Global, coefficients: &[[i64; 2]]) -> Result<Lp, AllocError>
    requires some { 0 < length coefficients.now }
    requires few { length coefficients.now < 100 }
    ensures program { IfOk result IsProgram }
    ensures columns { IfOk result (λ lp. lp.cols ≡ 2) }
    ensures rows { IfOk result (λ lp. length lp.rows ≡ length coefficients.now) }
{
    let mut lp = Lp::new(alloc, coefficients.len() as u32, 2)?;
    lp.set_right(0, 1);
    for (row, [first, second]) in coefficients.iter().enumerate() {
        lp.set(row as u32, 0, *first)?;
        lp.set(row as u32, 1, *second)?;
    }
    Ok(lp)
}

#[test]
fn no_number_is_both_1_and_0(rt: HostRuntime) -> Result<(), PivotEnd> {
    let lp = program(rt.alloc(), &[[1, 0], [1, 0]])?;
    assert!(&rt; starts_narrow(&lp));
    let mut table = Dense::start(rt.alloc(), &lp)?;
    match feasible(rt.alloc(), &lp, &mut table)? {
        Found::Start => assert!(&rt; false, "a start was found"),
        Found::Empty { multipliers } => {
            assert_eq!(&rt; multipliers.len(), 2);
            let (one, zero) = (*multipliers.at(0), *multipliers.at(1));
            assert!(&rt; one > 0 && zero <= -one);
        }
    }
    Ok(())
}

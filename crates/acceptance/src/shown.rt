// Multipliers of a program of one row and two columns, by hand.
use corr_game::Side;
use lp_form::{Lp, NumList};
use plain_programs::{are_moderate, certifies, is_moderate, shows_empty};
use plane_hull::Dir;
use std::alloc::{AllocError, Global};
use std::process::Abort;
use std::test::Fail;

/// Two numbers of 0 or more that sum to 1, and what they pay: (3, 1) for the first and (1, 2) for the second.
fn segment(alloc: Global) -> Result<Lp, AllocError> {
    let mut lp = Lp::new(alloc, 1, 2)?;
    lp.set(0, 0, 1)?;
    lp.set(0, 1, 1)?;
    lp.set_right(0, 1);
    lp.set_payoff(Side::One, 0, 3)?;
    lp.set_payoff(Side::Two, 0, 1)?;
    lp.set_payoff(Side::One, 1, 1)?;
    lp.set_payoff(Side::Two, 1, 2)?;
    Ok(lp)
}

fn listed(alloc: Global, numbers: &[i128]) -> Result<NumList, AllocError> {
    let mut list = NumList::new(alloc);
    for number in numbers {
        list.push(*number)?;
    }
    Ok(list)
}

/// A direction, the multipliers of both payoff rows over 1, and whether they certify the direction.
const SIDES: [((i128, i128), &[i128], &[i128], bool); 7] = [
    ((1, 0), &[3], &[1], true),
    ((1, 2), &[3], &[1], true),
    ((1, 2), &[1], &[2], true),
    ((0, 1), &[1], &[2], true),
    ((0, 1), &[3], &[1], false),
    ((1, 0), &[2], &[1], false),
    ((1, 0), &[3, 0], &[1], false),
];

#[test]
fn certified_directions_of_a_segment(rt: HostRuntime) -> Result<(), Fail> {
    let lp = segment(rt.alloc())?;
    assert!(rt; is_moderate(&lp));
    for ((a, b), first, second, expected) in SIDES {
        let first = listed(rt.alloc(), first)?;
        let second = listed(rt.alloc(), second)?;
        assert!(rt; are_moderate(&first) && are_moderate(&second));
        assert!(rt; a < 3 && a >= 0 && b < 3 && b >= 0);
        assert_eq!(rt; certifies(&lp, &Dir { a, b }, 1, &first, &second), expected);
    }
    Ok(())
}

#[test]
fn denominators_of_multipliers(rt: HostRuntime) -> Result<(), Fail> {
    let lp = segment(rt.alloc())?;
    let first = listed(rt.alloc(), &[6])?;
    let second = listed(rt.alloc(), &[2])?;
    assert!(rt; is_moderate(&lp) && are_moderate(&first) && are_moderate(&second));
    let right = Dir { a: 1, b: 0 };
    assert!(rt; certifies(&lp, &right, 2, &first, &second));
    assert!(rt; !certifies(&lp, &right, 0, &first, &second));
    Ok(())
}

#[test]
fn programs_shown_to_be_empty(rt: HostRuntime) -> Result<(), Fail> {
    let feasible = segment(rt.alloc())?;
    let mut empty = Lp::new(rt.alloc(), 1, 2)?;
    empty.set(0, 0, -1)?;
    empty.set_right(0, 1);
    assert!(rt; is_moderate(&feasible) && is_moderate(&empty));
    let one = listed(rt.alloc(), &[1])?;
    let zero = listed(rt.alloc(), &[0])?;
    let none = listed(rt.alloc(), &[])?;
    assert!(rt; are_moderate(&one) && are_moderate(&zero) && are_moderate(&none));
    assert!(rt; shows_empty(&empty, &one));
    assert!(rt; !shows_empty(&empty, &zero));
    assert!(rt; !shows_empty(&empty, &none));
    assert!(rt; !shows_empty(&feasible, &one));
    Ok(())
}

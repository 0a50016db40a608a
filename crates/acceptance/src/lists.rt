// Lists of pairs of plans that were worked out by hand, held against the definition of equilibrium by a plain program.
use crate::games::{CHICKEN, COIN, DILEMMA, ENTRY, HEADS, ONE_CARD, SUMS};
use crate::opened::game_of;
use corr_game::{Notion, Pair, PairList, Plan};
use plain_programs::{PayoffPoint, Slack, are_entries, are_weights, is_equilibrium, payoff_point};
use std::alloc::{AllocError, Global};
use std::process::Abort;
use std::test::Fail;

const NONE: Slack = Slack { num: 0, den: 1 };

const BY_ALL: [bool; 3] = [true, true, true];

const BY_NONE: [bool; 3] = [false, false, false];

/// A plan by the digits of its actions, set by set, with a dash where it names none.
fn plan(alloc: Global, actions: &str) -> Result<Plan, AllocError> {
    let mut entries = Vec::new(alloc);
    for action in actions.as_bytes() {
        let entry = match action {
            b'0' => Some(0),
            b'1' => Some(1),
            b'2' => Some(2),
            _ => None,
        };
        entries.push(entry)?;
    }
    Ok(Plan::from_list(entries))
}

/// Pairs of plans with their weights.
fn listed(alloc: Global, entries: &[(&str, &str, i128)]) -> Result<PairList, AllocError> {
    let mut list = PairList::new(alloc);
    for (one, two, weight) in entries {
        let pair = Pair {
            one: plan(alloc, one)?,
            two: plan(alloc, two)?,
            weight: *weight,
        };
        list.push(pair)?;
    }
    Ok(list)
}

/// The list is an equilibrium list exactly under these of the three notions.
fn expect_by(
    rt: &impl Abort,
    alloc: Global,
    text: &str,
    entries: &[(&str, &str, i128)],
    slack: Slack,
    answers: [bool; 3],
) -> Result<(), Fail> {
    let game = game_of(rt, alloc, text)?;
    let list = listed(alloc, entries)?;
    assert!(rt; are_weights(&list));
    assert!(rt; slack.num <= 1 << 20);
    assert!(rt; slack.den <= 1 << 10);
    for (notion, answer) in [Notion::Efce, Notion::Efcce, Notion::Nfcce]
        .iter()
        .zip(&answers)
    {
        assert_eq!(rt;
            is_equilibrium(alloc, *notion, &game, slack, &list)?,
            *answer
        );
    }
    Ok(())
}

/// What the list pays in all, and its total weight.
fn expect_point(
    rt: &impl Abort,
    alloc: Global,
    text: &str,
    entries: &[(&str, &str, i128)],
    point: (i128, i128, i128),
) -> Result<(), Fail> {
    let game = game_of(rt, alloc, text)?;
    let list = listed(alloc, entries)?;
    assert!(rt; are_weights(&list));
    assert!(rt; are_entries(&game, &list));
    let (one, two, total) = point;
    assert_eq!(rt; payoff_point(&game, &list), PayoffPoint { one, two, total });
    Ok(())
}

// The corners (7, 2), (21/4, 21/4), (2, 7) and (18/5, 18/5), and two lists from which a player leaves.
#[test]
fn chicken(rt: HostRuntime) -> Result<(), Fail> {
    for (list, point) in [
        (&[("0", "1", 1)][..], (7, 2, 1)),
        (
            &[("0", "1", 1), ("1", "0", 1), ("1", "1", 2)][..],
            (21, 21, 4),
        ),
        (&[("1", "0", 1)][..], (2, 7, 1)),
        (
            &[("0", "0", 1), ("0", "1", 2), ("1", "0", 2)][..],
            (18, 18, 5),
        ),
    ] {
        expect_by(&rt, rt.alloc(), CHICKEN, list, NONE, BY_ALL)?;
        expect_point(&rt, rt.alloc(), CHICKEN, list, point)?;
    }
    let fearful = &[("1", "0", 1), ("1", "1", 3)][..];
    expect_by(&rt, rt.alloc(), CHICKEN, fearful, NONE, BY_NONE)?;
    Ok(())
}

// Who leaves cooperation gains 2. Where each leaves the other one time in three the gain is 3 in three plays.
#[test]
fn dilemma(rt: HostRuntime) -> Result<(), Fail> {
    let together = &[("0", "0", 1)][..];
    let in_turn = &[("0", "0", 1), ("0", "1", 1), ("1", "0", 1)][..];
    for (list, num, den, answers) in [
        (&[("1", "1", 1)][..], 0, 1, BY_ALL),
        (together, 0, 1, BY_NONE),
        (together, 3, 2, BY_NONE),
        (together, 4, 2, BY_ALL),
        (in_turn, 0, 1, BY_NONE),
        (in_turn, 1, 1, BY_ALL),
    ] {
        expect_by(&rt, rt.alloc(), DILEMMA, list, Slack { num, den }, answers)?;
    }
    Ok(())
}

// The coarse corner (9/4, 3/4): told B, player 1 would leave for T, but who leaves before that gets no more. On a coin,
// (5/2, 1/2) is reached only where nobody leaves after the start.
#[test]
fn coarser_notions(rt: HostRuntime) -> Result<(), Fail> {
    let sets = &[("2", "0", 3), ("1", "1", 1)][..];
    expect_by(&rt, rt.alloc(), HEADS, sets, NONE, [false, true, true])?;
    expect_point(&rt, rt.alloc(), HEADS, sets, (9, 3, 4))?;
    let mixed = &[("0", "0", 1), ("0", "1", 1), ("1", "0", 1), ("1", "1", 1)][..];
    expect_by(&rt, rt.alloc(), HEADS, mixed, NONE, BY_ALL)?;
    let after = &[("20", "00", 3), ("10", "10", 1)][..];
    expect_by(&rt, rt.alloc(), COIN, after, NONE, [false, true, true])?;
    expect_point(&rt, rt.alloc(), COIN, after, (21, 3, 4))?;
    let before = &[("20", "00", 1), ("21", "01", 1)][..];
    expect_by(&rt, rt.alloc(), COIN, before, NONE, [false, false, true])?;
    expect_point(&rt, rt.alloc(), COIN, before, (10, 2, 2))?;
    Ok(())
}

// Player 1 raises with black one time in three, and player 2 meets two times in three: (1/3, -1/3). A plan that names no
// action at a set to which it leads is no plan of a list.
#[test]
fn poker_entry_and_sums(rt: HostRuntime) -> Result<(), Fail> {
    let product = &[
        ("00", "0", 2),
        ("00", "1", 1),
        ("01", "0", 4),
        ("01", "1", 2),
    ][..];
    let all = &[("0", "0", 1), ("0", "1", 1), ("1", "0", 1), ("1", "1", 1)][..];
    for (text, list, answers) in [
        (ONE_CARD, product, BY_ALL),
        (ONE_CARD, &[("01", "1", 1)][..], BY_NONE),
        (ONE_CARD, &[("0-", "1", 1)][..], BY_NONE),
        (ONE_CARD, &[("00", "0", 0)][..], BY_NONE),
        (ONE_CARD, &[][..], BY_NONE),
        (ENTRY, &[("0", "0", 1)][..], BY_ALL),
        (ENTRY, &[("1", "1", 1)][..], BY_ALL),
        (ENTRY, &[("0", "1", 1)][..], BY_NONE),
        (SUMS, all, BY_ALL),
    ] {
        expect_by(&rt, rt.alloc(), text, list, NONE, answers)?;
    }
    expect_point(&rt, rt.alloc(), ONE_CARD, product, (6, -6, 9))?;
    expect_point(&rt, rt.alloc(), SUMS, all, (10, 8, 4))?;
    Ok(())
}

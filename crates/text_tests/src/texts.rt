use corr_game::{Notion, Pair, Plan, Side};
use corr_num::Frac;
use lp_form::{NumList, Place, RowName};
use plane_hull::{Dir, SideRow};
use report_form::{ColumnList, NodeRule, Refusal};
use report_text::{add_frac, add_multipliers, add_pair, add_place, add_side, write_refusal};
use std::alloc::{AllocError, Global};
use std::process::Abort;
use std::test::Fail;

fn numbers(alloc: Global, values: &[i128]) -> Result<NumList, AllocError> {
    let mut list = NumList::new(alloc);
    for value in values {
        list.push(*value)?;
    }
    Ok(list)
}

fn expect_text(rt: &impl Abort, out: &Vec<u8>, text: &[u8]) {
    assert_eq!(rt; out.as_slice(), text);
}

#[test]
fn fractions_a_pair_and_a_place(rt: HostRuntime) -> Result<(), Fail> {
    let alloc = rt.alloc();
    let mut out = Vec::new(alloc);
    add_frac(&mut out, &Frac::of(3, 1))?;
    add_frac(&mut out, &Frac::of(-3, 2))?;
    expect_text(&rt, &out, b"3-3/2");

    let one = Plan::from_list(vec![in alloc; None, Some(0)]?);
    let two = Plan::from_list(vec![in alloc; Some(63)]?);
    let mut out = Vec::new(alloc);
    add_pair(
        &mut out,
        &Pair {
            one,
            two,
            weight: 5,
        },
    )?;
    expect_text(&rt, &out, b"weight 5\none - 1\ntwo 64\n");

    let mut basis = ColumnList::new(alloc);
    basis.push(0)?;
    basis.push(4294967295)?;
    let place = Place {
        row: RowName::Second,
        col: 7,
    };
    let mut out = Vec::new(alloc);
    add_place(&mut out, &basis, &place)?;
    expect_text(&rt, &out, b"basis 0 4294967295\nat second 7\n");
    Ok(())
}

#[test]
fn numbers_of_a_side_and_multipliers(rt: HostRuntime) -> Result<(), Fail> {
    let alloc = rt.alloc();
    let side = SideRow {
        dir: Dir { a: -1, b: 2 },
        corner: 3,
        den: 7,
        first: numbers(alloc, &[1, -1])?,
        second: NumList::new(alloc),
    };
    let mut out = Vec::new(alloc);
    add_side(&mut out, &side)?;
    expect_text(&rt, &out, b"side -1 2 corner 3 den 7\nfirst 1 -1\nsecond\n");

    let mut out = Vec::new(alloc);
    add_multipliers(&mut out, &numbers(alloc, &[1, -1])?)?;
    expect_text(&rt, &out, b"multipliers 1 -1\n");
    Ok(())
}

#[test]
fn a_line_of_each_shape(rt: HostRuntime) -> Result<(), Fail> {
    let at_node = Refusal::AtNode {
        name: NodeRule::MissingNode,
        node: 7,
    };
    let forgets = Refusal::Forgets {
        side: Side::One,
        set: 4,
        first: 2,
        second: 5,
    };
    let triangle = Refusal::Triangle {
        one_a: 1,
        one_b: 3,
        two_a: 2,
        two_b: 0,
    };
    let size = Refusal::Size {
        notion: Notion::Efcce,
        rows: 2049,
        columns: 8192,
    };
    let scale = Refusal::ScaleTooLarge { side: Side::Two };
    let table: [(Refusal, &[u8]); 10] = [
        (
            Refusal::InputTooLong { limit: 4194304 },
            b"refused InputTooLong 4194304\n",
        ),
        (Refusal::Report { at: 0 }, b"refused Report byte 0\n"),
        (Refusal::Syntax { at: 6 }, b"refused Syntax byte 6\n"),
        (Refusal::Players { count: 3 }, b"refused Players 3\n"),
        (at_node, b"refused MissingNode node 7\n"),
        (scale, b"refused ScaleTooLarge player 2\n"),
        (forgets, b"refused Forgets player 1 set 4 nodes 2 5\n"),
        (triangle, b"refused Triangle sets 1 3 2 0\n"),
        (size, b"refused Size efcce rows 2049 columns 8192\n"),
        (
            Refusal::TooLarge { greatest: 30 },
            b"refused TooLarge n 30\n",
        ),
    ];
    for (refusal, line) in table.iter() {
        assert_eq!(rt; write_refusal(rt.alloc(), refusal)?.as_slice(), *line);
    }
    Ok(())
}

use command_words::{Command, Notions, read_words};
use corr_game::Notion;
use game_gen::Kind;
use std::alloc::Global;
use std::process::Abort;
use std::test::Fail;

// What the words mean.
fn meaning(alloc: Global, texts: &[&str]) -> Result<Option<Command>, Fail> {
    let mut words = Vec::new(alloc);
    for text in texts {
        words.push(String::from_str(alloc, text)?)?;
    }
    Ok(read_words(alloc, &words)?)
}

fn expect_none(rt: &impl Abort, alloc: Global, texts: &[&str]) -> Result<(), Fail> {
    assert_eq!(rt; meaning(alloc, texts)?, None);
    Ok(())
}

#[test]
fn words_of_the_table_mean_commands(rt: HostRuntime) -> Result<(), Fail> {
    let alloc = rt.alloc();
    let only = Notions::only(Notion::Nfcce);
    let all = Notions::all();
    let (kind, n, seed) = (Kind::Chain, 5, 7);
    let solve: &[&str] = &["solve", "--notion", "nfcce"];
    let made: &[&str] = &["gen", "--n", "0000000005", "--kind", "chain"];
    let work: &[&str] = &["work", "--seed", "007", "--kind", "chain", "--n", "5"];
    let last: &[&str] = &[
        "gen",
        "--n",
        "4294967295",
        "--kind",
        "dilemma",
        "--seed",
        "18446744073709551615",
    ];
    assert_eq!(rt;
        meaning(alloc, &["solve"])?,
        Some(Command::Solve { notions: all })
    );
    assert_eq!(rt;
        meaning(alloc, solve)?,
        Some(Command::Solve { notions: only })
    );
    assert_eq!(rt; meaning(alloc, &["check"])?, Some(Command::Check));
    assert_eq!(rt;
        meaning(alloc, made)?,
        Some(Command::Gen { kind, n, seed: 0 })
    );
    assert_eq!(rt;
        meaning(alloc, work)?,
        Some(Command::Work {
            kind,
            n,
            seed,
            notions: all
        })
    );
    let greatest = Command::Gen {
        kind: Kind::Dilemma,
        n: 4294967295,
        seed: 18446744073709551615,
    };
    assert_eq!(rt; meaning(alloc, last)?, Some(greatest));
    Ok(())
}

#[test]
fn other_words_mean_nothing(rt: HostRuntime) -> Result<(), Fail> {
    let alloc = rt.alloc();
    let cases: [&[&str]; 16] = [
        &[],
        &["sove"],
        &["gen", "--kind", "chain"],
        &["solve", "--notion=efce"],
        &["solve", "--"],
        &["solve", "--notion"],
        &["solve", "--notion", "efce", "--notion", "efce"],
        &["solve", "--seed", "1"],
        &["check", "--notion", "efce"],
        &["gen", "--kind", "chain", "--n", "0"],
        &["gen", "--kind", "chain", "--n", "+5"],
        &["gen", "--kind", "chain", "--n", "00000000005"],
        &["gen", "--kind", "chain", "--n", "4294967296"],
        &["gen", "--kind", "chain", "--n", "5", "--notion", "efce"],
        &[
            "work",
            "--kind",
            "chain",
            "--n",
            "5",
            "--seed",
            "18446744073709551616",
        ],
        &["work", "--kind", "chains", "--n", "5"],
    ];
    for case in cases {
        expect_none(&rt, alloc, case)?;
    }
    Ok(())
}

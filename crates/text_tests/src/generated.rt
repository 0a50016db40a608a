use game_gen::{GenRefusal, Kind, generate};
use std::test::Fail;

#[test]
fn the_texts_of_small_games(rt: HostRuntime) -> Result<(), Fail> {
    let dilemma =
        b"EFG 2 R \"dilemma\" { \"1\" \"2\" }\nc \"\" 1 { \"0\" 1/1 } 0\np \"\" 1 1 { \"C\" \"D\" } 0\np \"\" 2 1 { \"C\" \"D\" } 0\nt \"\" 1 { 1 1 }\nt \"\" 2 { -1 2 }\np \"\" 2 1 0\nt \"\" 3 { 2 -1 }\nt \"\" 4 { 0 0 }\n";
    let chain =
        b"EFG 2 R \"chain\" { \"1\" \"2\" }\np \"\" 1 1 { \"s\" \"g\" } 0\nt \"\" 1 { 7 4 }\np \"\" 2 1 { \"s\" \"g\" } 0\nt \"\" 2 { 7 6 }\nt \"\" 3 { 5 1 }\n";
    let public =
        b"EFG 2 R \"public\" { \"1\" \"2\" }\nc \"\" 1 { \"0\" 1/2 \"1\" 1/2 } 0\np \"\" 1 1 { \"C\" \"D\" } 0\np \"\" 2 1 { \"C\" \"D\" } 0\nt \"\" 1 { 8 1 }\nt \"\" 2 { 3 3 }\np \"\" 2 1 0\nt \"\" 3 { 5 9 }\nt \"\" 4 { 4 4 }\np \"\" 1 2 { \"C\" \"D\" } 0\np \"\" 2 2 { \"C\" \"D\" } 0\nt \"\" 5 { 9 6 }\nt \"\" 6 { 5 5 }\np \"\" 2 2 0\nt \"\" 7 { 2 0 }\nt \"\" 8 { 9 2 }\n";
    let rows = [
        (Kind::Dilemma, 1, 5, dilemma.as_slice()),
        (Kind::Chain, 2, 0, chain.as_slice()),
        (Kind::Public, 2, 7, public.as_slice()),
    ];
    for (kind, n, seed, want) in rows {
        match generate(rt.alloc(), kind, n, seed) {
            Ok(text) => assert_eq!(rt; text.as_slice(), want),
            Err(_) => assert!(rt; false),
        }
    }
    Ok(())
}

#[test]
fn a_size_above_the_greatest(rt: HostRuntime) -> Result<(), Fail> {
    match generate(rt.alloc(), Kind::Chain, 31, 0) {
        Err(GenRefusal::TooLarge { greatest }) => assert_eq!(rt; greatest, 30),
        _ => assert!(rt; false),
    }
    match generate(rt.alloc(), Kind::Public, 64, 3) {
        Ok(_) => {}
        Err(_) => assert!(rt; false),
    }
    Ok(())
}

// A file's game.
use corr_game::Game;
use efg_lines::read_lines;
use efg_reader::build;
use game_scale::scale;
use std::alloc::Global;
use std::process::Abort;
use std::test::Fail;

/// The game with whole amounts, which need not be one that is solved.
pub fn game_of(rt: &impl Abort, alloc: Global, text: &str) -> Result<Game, Fail> {
    let bytes = text.as_bytes();
    assert!(rt; bytes.len() <= 1_000_000);
    Ok(scale(alloc, build(alloc, read_lines(alloc, bytes)?)?)?)
}

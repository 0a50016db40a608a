ghost use Rattle.std.specs.Prelude.{◌≡◌, ◌<◌, length, slice_get, Some};

use crate::node_line::NodeLine;
use std::marker::Model;

/// A file by its tokens: how many players it names, and its node lines.
#[derive(Debug, Drop)]
pub struct RawFile {
    players: u32,
    lines: Vec<NodeLine>,
}

impl Model for RawFile {
    ghost use Rattle.efg_lines.specs.File.{FileView};

    ghost Value = { FileView };

    ghost view = { λ a. record { players = a.players; lines = a.lines.items } };
}

impl RawFile {
    pub(crate) fn of(players: u32, lines: Vec<NodeLine>) -> RawFile
        ensures made { result ≡ record { players = players; lines = lines.items } }
    {
        RawFile { players, lines }
    }

    /// How many players the file names.
    pub fn players(&self) -> u32
        ensures count { result ≡ self.now.players }
    {
        self.players
    }

    /// The node lines in file order.
    pub fn lines(&self) -> &[NodeLine]
        ensures items { result.now ≡ self.now.lines }
    {
        self.lines.as_slice()
    }
}

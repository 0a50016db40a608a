//! The node lines of a game file: `read_lines` keeps of each what later rules look at.
//!
//! It stands on the tokens of `efg_token` and on which words `number_words` calls numbers. The layer above may use that
//! `read_lines` gives the lines of exactly the files of the grammar, and that `Syntax` names the first token with which
//! no file goes on, or the number of bytes. `FileRefusal` is also how the layer above refuses what the lines say.
#![tactic(auto)]

mod byte_list;
mod draft;
mod grammar_laws;
mod lines;
mod node_line;
mod raw_file;
mod refusal;
mod state;

pub use byte_list::ByteList;
pub use grammar_laws::{
    bytes_are_one_file, every_state_can_be_completed, no_file_goes_on_in_one_place,
    the_machine_accepts_files,
};
pub use lines::read_lines;
pub use node_line::{ActLine, ActLines, LineKind, NodeLine, PayWords};
pub use raw_file::RawFile;
pub use refusal::FileRefusal;

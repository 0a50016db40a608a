ghost use Rattle.std.specs.Prelude.{◌≡◌, ◌+◌, ◌^◌, ◌<◌, ◌≤◌, length, OnOk, IfOk};
ghost use Rattle.efg_token.specs.Seen.{lexeme};
ghost use Rattle.efg_lines.specs.declared.state.State.TheVariants.{Format};
ghost use Rattle.efg_lines.specs.Draft.{start, is_player, ends_line, counted, line_ended, line_closed, gone_to, stepped, is_last_open, finished};
ghost use Rattle.efg_lines.specs.FileTokens.{IsFileOf, StopsAt};
ghost use Rattle.efg_lines.specs.Machine.{after, is_whole};
ghost use Rattle.efg_lines.specs.Refusal.{MatchSyntax, place_in};

use crate::draft::Draft;
use crate::node_line::NodeLine;
use crate::raw_file::RawFile;
use crate::refusal::FileRefusal;
use crate::state::{Letter, State};
use efg_token::{Token, TokenFault, Tokens};
use std::alloc::{AllocError as NoMemory, Global};
use std::marker::Model;
use std::mem;

/// The players' number and the node lines of a file, each name, whole and number as its token has it.
///
/// No answer but `Syntax` and `NoMemory` is an error. The place of `Syntax` is the start of the first token with which
/// no file begins, a text that doesn't end among them; where the bytes only end too early, it is their number.
pub fn read_lines(alloc: Global, bytes: &[u8]) -> Result<RawFile, FileRefusal>
    requires { length bytes.now ≤ 2 ^ 30 }
    ensures { MatchSyntax result (IsFileOf bytes.now) (StopsAt bytes.now) }
{
    let mut tokens = Tokens::new(bytes);
    let mut reader = Reader::new(alloc);
    while let Some(next) = tokens.next() {
        match next {
            Ok(spot) => {
                let Some(state) = reader.after(spot.token) else {
                    return Err(FileRefusal::Syntax { at: spot.at });
                };
                reader.step(spot.token, state)?;
            }
            Err(fault) => return Err(FileRefusal::Syntax {
                at: place_of(fault),
            }),
        }
    }
    if !reader.is_whole() {
        return Err(FileRefusal::Syntax { at: bytes.len() });
    }
    Ok(reader.finish()?)
}

/// What has been read of a file.
#[derive(Debug, Drop)]
struct Reader {
    alloc: Global,
    state: State,
    players: u32,
    lines: Vec<NodeLine>,
    draft: Draft,
}

impl Model for Reader {
    ghost use Rattle.efg_lines.specs.Draft.{Progress};

    ghost Value = { Progress };

    ghost view = { λ r. record { state = r.state; players = r.players; lines = r.lines.items; draft = r.draft } };
}

impl Reader {
    fn new(alloc: Global) -> Reader
        ensures { result ≡ start Format }
    {
        Reader {
            alloc,
            state: State::Format,
            players: 0,
            lines: Vec::new(alloc),
            draft: Draft::new(alloc, Letter::Leaf),
        }
    }

    /// The state behind one more token; none where no file goes on so.
    fn after(&self, token: Token) -> Option<State>
        ensures { result ≡ after self.now.state (lexeme token.entry) }
    {
        self.state.after(token)
    }

    /// Whether the tokens so far are a file.
    fn is_whole(&self) -> bool
        ensures { result ≡ is_whole self.now.state }
    {
        self.state.is_whole()
    }

    /// Takes a token, behind which the state is `next`.
    fn step(&mut self, token: Token, next: State) -> Result<(), NoMemory>
        requires { self.old.players + 1 < 2 ^ 32 }
        ensures { OnOk result (self.new ≡ stepped self.old.state (lexeme token.entry) next self.old) }
    {
        self.count_player(token);
        self.draft.keep(self.state, token)?;
        self.close_line(next)?;
        self.go_to(next);
        Ok(())
    }

    /// Counts the token where it is the name of a player.
    fn count_player(&mut self, token: Token)
        requires { self.old.players + 1 < 2 ^ 32 }
        ensures { self.new ≡ counted (lexeme token.entry) self.old }
    {
        if is_player(self.state, token) {
            self.players += 1;
        }
    }

    /// Puts the line that is read to the others, where it has all its tokens as the state goes over to `next`.
    fn close_line(&mut self, next: State) -> Result<(), NoMemory>
        ensures { OnOk result (self.new ≡ line_closed next self.old) }
    {
        if !ends_line(self.state, next) {
            return Ok(());
        }
        self.end_line()
    }

    /// Goes over to a state; a line that begins there has a draft of its own.
    fn go_to(&mut self, next: State)
        ensures { self.new ≡ gone_to next self.old }
    {
        self.state = next;
        if let State::Name(letter) = next {
            self.draft = Draft::new(self.alloc, letter);
        }
    }

    fn end_line(&mut self) -> Result<(), NoMemory>
        ensures { OnOk result (self.new ≡ line_ended self.old) }
    {
        let draft = mem::replace(&mut self.draft, Draft::new(self.alloc, Letter::Leaf));
        self.lines.push(draft.finish())?;
        Ok(())
    }

    /// The file, of which all tokens have been read.
    fn finish(mut self) -> Result<RawFile, NoMemory>
        ensures { IfOk result (λ file. file ≡ finished self.state self) }
    {
        if is_last_open(self.state) {
            self.end_line()?;
        }
        Ok(self.into_file())
    }

    fn into_file(self) -> RawFile
        ensures { result ≡ record { players = self.players; lines = self.lines } }
    {
        let Reader {
            alloc: _,
            state: _,
            players,
            lines,
            draft: _,
        } = self;
        RawFile::of(players, lines)
    }
}

/// Where the text begins that doesn't end.
fn place_of(fault: TokenFault) -> usize
    ensures { result ≡ place_in fault }
{
    let TokenFault::Unterminated { at } = fault;
    at
}

/// Whether the token is the name of a player.
fn is_player(state: State, token: Token) -> bool
    ensures { result ≡ is_player state (lexeme token.entry) }
{
    matches!((state, token), (State::Players, Token::Text(_)))
}

/// Whether the line that is read has all its tokens, where the state goes over to `next`.
fn ends_line(state: State, next: State) -> bool
    ensures { result ≡ ends_line state next }
{
    match state {
        State::OutcomeName | State::PayoffsBrace => matches!(next, State::Name(_)),
        State::Payoffs => matches!(next, State::Line),
        _ => false,
    }
}

/// Whether the end of the file ends the last line.
fn is_last_open(state: State) -> bool
    ensures { result ≡ is_last_open state }
{
    matches!(state, State::OutcomeName | State::PayoffsBrace)
}

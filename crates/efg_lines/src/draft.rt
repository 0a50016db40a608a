//! A node line while its tokens are read.

ghost use Rattle.std.specs.Prelude.{◌≡◌, OnOk};
ghost use Rattle.efg_token.specs.Seen.{lexeme};
ghost use Rattle.efg_lines.specs.Draft.{begun, with_action, keep_player, keep_set, keep_behind_set, keep_name, keep_action, keep_probability, keep_outcome, keep_brace, keep_payoff, kept, line_of};

use crate::byte_list::ByteList;
use crate::node_line::{ActLine, ActLines, LineKind, NodeLine, PayWords};
use crate::state::{Letter, Mover, State};
use efg_token::Token;
use std::alloc::{AllocError as NoMemory, Global};
use std::marker::Model;
use std::mem;

/// The parts of a line that have been read; those that come later are empty.
#[derive(Debug, Drop)]
pub struct Draft {
    alloc: Global,
    letter: Letter,
    player: ByteList,
    set: ByteList,
    acts: Option<ActLines>,
    action: ByteList,
    outcome: ByteList,
    pays: Option<PayWords>,
}

impl Model for Draft {
    ghost use Rattle.efg_lines.specs.Draft.{DraftView};

    ghost Value = { DraftView };

    ghost view = { λ d. record {
      letter = d.letter;
      player = d.player;
      set = d.set;
      acts = d.acts;
      action = d.action;
      outcome = d.outcome;
      pays = d.pays;
    } };
}

impl Draft {
    /// A line of which only the letter has been read.
    pub fn new(alloc: Global, letter: Letter) -> Draft
        ensures { result ≡ begun letter }
    {
        Draft {
            alloc,
            letter,
            player: ByteList::new(alloc),
            set: ByteList::new(alloc),
            acts: None,
            action: ByteList::new(alloc),
            outcome: ByteList::new(alloc),
            pays: None,
        }
    }

    /// Keeps what a token says that comes in this state.
    pub fn keep(&mut self, state: State, token: Token) -> Result<(), NoMemory>
        ensures { OnOk result (self.new ≡ kept state (lexeme token.entry) self.old) }
    {
        match state {
            State::PlayerNumber => self.keep_player(token),
            State::Set(_) => self.keep_set(token),
            State::SetName(_) | State::ActionsBrace(_) => self.keep_behind_set(token),
            State::Actions(mover) => self.keep_action(mover, token),
            State::Probability => self.keep_probability(token),
            State::Outcome => self.keep_outcome(token),
            State::OutcomeName | State::PayoffsBrace => self.keep_brace(token),
            State::Payoff | State::Payoffs => self.keep_payoff(token),
            _ => Ok(()),
        }
    }

    fn keep_player(&mut self, token: Token) -> Result<(), NoMemory>
        ensures { OnOk result (self.new ≡ keep_player (lexeme token.entry) self.old) }
    {
        match token {
            Token::Word(word) => {
                self.player = ByteList::of(self.alloc, word)?;
                Ok(())
            }
            _ => Ok(()),
        }
    }

    fn keep_set(&mut self, token: Token) -> Result<(), NoMemory>
        ensures { OnOk result (self.new ≡ keep_set (lexeme token.entry) self.old) }
    {
        match token {
            Token::Word(word) => {
                self.set = ByteList::of(self.alloc, word)?;
                Ok(())
            }
            _ => Ok(()),
        }
    }

    /// Behind a set's number: the brace before the actions, or the outcome's number.
    fn keep_behind_set(&mut self, token: Token) -> Result<(), NoMemory>
        ensures { OnOk result (self.new ≡ keep_behind_set (lexeme token.entry) self.old) }
    {
        match token {
            Token::BraceLeft => {
                self.acts = Some(ActLines::new(self.alloc));
                Ok(())
            }
            other => self.keep_outcome(other),
        }
    }

    fn keep_action(&mut self, mover: Mover, token: Token) -> Result<(), NoMemory>
        ensures { OnOk result (self.new ≡ keep_action mover (lexeme token.entry) self.old) }
    {
        match token {
            Token::Text(name) => self.keep_name(mover, name),
            _ => Ok(()),
        }
    }

    /// The name of an action: in a chance line its probability is still to come.
    fn keep_name(&mut self, mover: Mover, name: &[u8]) -> Result<(), NoMemory>
        ensures { OnOk result (self.new ≡ keep_name mover name.now self.old) }
    {
        let name = ByteList::of(self.alloc, name)?;
        match mover {
            Mover::Chance => {
                self.action = name;
                Ok(())
            }
            Mover::Player => self.add_action(ActLine { name, prob: None }),
        }
    }

    fn keep_probability(&mut self, token: Token) -> Result<(), NoMemory>
        ensures { OnOk result (self.new ≡ keep_probability (lexeme token.entry) self.old) }
    {
        match token {
            Token::Word(word) => {
                let prob = Some(ByteList::of(self.alloc, word)?);
                let name = mem::replace(&mut self.action, ByteList::new(self.alloc));
                self.add_action(ActLine { name, prob })
            }
            _ => Ok(()),
        }
    }

    fn keep_outcome(&mut self, token: Token) -> Result<(), NoMemory>
        ensures { OnOk result (self.new ≡ keep_outcome (lexeme token.entry) self.old) }
    {
        match token {
            Token::Word(word) => {
                self.outcome = ByteList::of(self.alloc, word)?;
                Ok(())
            }
            _ => Ok(()),
        }
    }

    /// The brace before the payoffs.
    fn keep_brace(&mut self, token: Token) -> Result<(), NoMemory>
        ensures { OnOk result (self.new ≡ keep_brace (lexeme token.entry) self.old) }
    {
        match token {
            Token::BraceLeft => {
                self.pays = Some(PayWords::new(self.alloc));
                Ok(())
            }
            _ => Ok(()),
        }
    }

    fn keep_payoff(&mut self, token: Token) -> Result<(), NoMemory>
        ensures { OnOk result (self.new ≡ keep_payoff (lexeme token.entry) self.old) }
    {
        match token {
            Token::Word(word) => {
                let word = ByteList::of(self.alloc, word)?;
                if let Some(pays) = &mut self.pays {
                    pays.push(word)?;
                }
                Ok(())
            }
            _ => Ok(()),
        }
    }

    fn add_action(&mut self, action: ActLine) -> Result<(), NoMemory>
        ensures { OnOk result (self.new ≡ with_action action self.old) }
    {
        if let Some(acts) = &mut self.acts {
            acts.push(action)?;
        }
        Ok(())
    }

    /// The line, of which all tokens have been read.
    pub fn finish(self) -> NodeLine
        ensures { result ≡ line_of self }
    {
        let Draft {
            alloc: _,
            letter,
            player,
            set,
            acts,
            action: _,
            outcome,
            pays,
        } = self;
        let kind = match letter {
            Letter::Chance => LineKind::Chance { set, acts },
            Letter::Player => LineKind::Player { player, set, acts },
            Letter::Leaf => LineKind::Leaf,
        };
        NodeLine {
            kind,
            outcome,
            pays,
        }
    }
}

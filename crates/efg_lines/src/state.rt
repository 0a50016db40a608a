//! The grammar of files as a machine that reads one token after the other.

ghost use Rattle.std.specs.Prelude.{◌≡◌};
ghost use Rattle.efg_token.specs.Seen.{lexeme};
ghost use Rattle.efg_lines.specs.Machine.{after, is_whole, behind_word, behind_text, behind_brace, behind_whole, behind_number, in_list, behind_comment, behind_line, behind_name, behind_set, behind_set_name, behind_action, behind_outcome, behind_outcome_name, behind_payoff};

use efg_token::Token;
use number_words::{is_number, is_whole};

/// What a node line begins with.
#[derive(Clone, Copy, Debug, PartialEq, Eq)]
pub enum Letter {
    Chance,
    Player,
    Leaf,
}

/// Who moves at a line with a set.
#[derive(Clone, Copy, Debug, PartialEq, Eq)]
pub enum Mover {
    Chance,
    Player,
}

/// What the tokens so far are the beginning of. Each state is named by what comes next.
#[derive(Clone, Copy, Debug, PartialEq, Eq)]
pub enum State {
    /// The word `EFG`.
    Format,
    /// The word `2`.
    Version,
    /// The word `R`.
    Numbers,
    Title,
    /// The brace before the players' names.
    PlayersBrace,
    /// A player's name, or the brace behind them.
    Players,
    /// A comment, or what a line begins with, or the end.
    Comment,
    /// What a line begins with, or the end.
    Line,
    /// The node's name.
    Name(Letter),
    /// The mover's number.
    PlayerNumber,
    /// The set's number.
    Set(Mover),
    /// The set's name, or the brace before the actions, or the outcome's number.
    SetName(Mover),
    /// The brace before the actions, or the outcome's number.
    ActionsBrace(Mover),
    /// An action's name, or the brace behind the actions.
    Actions(Mover),
    /// The probability of the action whose name stands before.
    Probability,
    /// The outcome's number.
    Outcome,
    /// The outcome's name, or the brace before the payoffs, or what a line begins with, or the end.
    OutcomeName,
    /// The brace before the payoffs, or what a line begins with, or the end.
    PayoffsBrace,
    /// A payoff.
    Payoff,
    /// A comma, or a payoff, or the brace behind them.
    Payoffs,
}

impl State {
    /// The state behind one more token; none where no file goes on so.
    pub fn after(self, token: Token) -> Option<State>
        ensures { result ≡ after self (lexeme token.entry) }
    {
        match self {
            State::Format => State::Version.behind_word(token, b"EFG"),
            State::Version => State::Numbers.behind_word(token, b"2"),
            State::Numbers => State::Title.behind_word(token, b"R"),
            State::Title => State::PlayersBrace.behind_text(token),
            State::PlayersBrace => State::Players.behind_brace(token),
            State::Players => in_list(State::Players, State::Comment, token),
            State::Comment => behind_comment(token),
            State::Line => behind_line(token),
            State::Name(letter) => behind_name(letter).behind_text(token),
            State::PlayerNumber => State::Set(Mover::Player).behind_whole(token),
            State::Set(mover) => State::SetName(mover).behind_whole(token),
            State::SetName(mover) => behind_set_name(mover, token),
            State::ActionsBrace(mover) => behind_set(mover, token),
            State::Actions(mover) => in_list(behind_action(mover), State::Outcome, token),
            State::Probability => State::Actions(Mover::Chance).behind_number(token),
            State::Outcome => State::OutcomeName.behind_whole(token),
            State::OutcomeName => behind_outcome_name(token),
            State::PayoffsBrace => behind_outcome(token),
            State::Payoff => State::Payoffs.behind_number(token),
            State::Payoffs => behind_payoff(token),
        }
    }

    /// Whether the tokens so far are a file.
    pub fn is_whole(self) -> bool
        ensures { result ≡ is_whole self }
    {
        matches!(
            self,
            State::Comment | State::Line | State::OutcomeName | State::PayoffsBrace
        )
    }

    fn behind_word(self, token: Token, expected: &[u8]) -> Option<State>
        ensures { result ≡ behind_word self (lexeme token.entry) expected.now }
    {
        match token {
            Token::Word(word) if word == expected => Some(self),
            _ => None,
        }
    }

    fn behind_text(self, token: Token) -> Option<State>
        ensures { result ≡ behind_text self (lexeme token.entry) }
    {
        match token {
            Token::Text(_) => Some(self),
            _ => None,
        }
    }

    fn behind_brace(self, token: Token) -> Option<State>
        ensures { result ≡ behind_brace self (lexeme token.entry) }
    {
        match token {
            Token::BraceLeft => Some(self),
            _ => None,
        }
    }

    fn behind_whole(self, token: Token) -> Option<State>
        ensures { result ≡ behind_whole self (lexeme token.entry) }
    {
        match token {
            Token::Word(word) if is_whole(word) => Some(self),
            _ => None,
        }
    }

    fn behind_number(self, token: Token) -> Option<State>
        ensures { result ≡ behind_number self (lexeme token.entry) }
    {
        match token {
            Token::Word(word) if is_number(word) => Some(self),
            _ => None,
        }
    }
}

/// In a list of texts: behind one more text, or behind the brace that ends the list.
fn in_list(item: State, end: State, token: Token) -> Option<State>
    ensures { result ≡ in_list item end (lexeme token.entry) }
{
    match token {
        Token::Text(_) => Some(item),
        Token::BraceRight => Some(end),
        _ => None,
    }
}

/// Behind the header: a comment or the first line.
fn behind_comment(token: Token) -> Option<State>
    ensures { result ≡ behind_comment (lexeme token.entry) }
{
    match token {
        Token::Text(_) => Some(State::Line),
        other => behind_line(other),
    }
}

/// The line that a token begins.
fn behind_line(token: Token) -> Option<State>
    ensures { result ≡ behind_line (lexeme token.entry) }
{
    match token {
        Token::Word(b"c") => Some(State::Name(Letter::Chance)),
        Token::Word(b"p") => Some(State::Name(Letter::Player)),
        Token::Word(b"t") => Some(State::Name(Letter::Leaf)),
        _ => None,
    }
}

/// What comes behind the name of a node.
fn behind_name(letter: Letter) -> State
    ensures { result ≡ behind_name letter }
{
    match letter {
        Letter::Chance => State::Set(Mover::Chance),
        Letter::Player => State::PlayerNumber,
        Letter::Leaf => State::Outcome,
    }
}

/// Behind a set, its name apart, an action list or the outcome's number.
fn behind_set(mover: Mover, token: Token) -> Option<State>
    ensures { result ≡ behind_set mover (lexeme token.entry) }
{
    match token {
        Token::BraceLeft => Some(State::Actions(mover)),
        other => State::OutcomeName.behind_whole(other),
    }
}

/// Behind a set: its name, an action list or the outcome's number.
fn behind_set_name(mover: Mover, token: Token) -> Option<State>
    ensures { result ≡ behind_set_name mover (lexeme token.entry) }
{
    match token {
        Token::Text(_) => Some(State::ActionsBrace(mover)),
        other => behind_set(mover, other),
    }
}

/// What comes behind the name of an action.
fn behind_action(mover: Mover) -> State
    ensures { result ≡ behind_action mover }
{
    match mover {
        Mover::Chance => State::Probability,
        Mover::Player => State::Actions(Mover::Player),
    }
}

/// Behind an outcome, its name apart, a payoff list or the next line.
fn behind_outcome(token: Token) -> Option<State>
    ensures { result ≡ behind_outcome (lexeme token.entry) }
{
    match token {
        Token::BraceLeft => Some(State::Payoff),
        other => behind_line(other),
    }
}

/// Behind an outcome: its name, a payoff list or the next line.
fn behind_outcome_name(token: Token) -> Option<State>
    ensures { result ≡ behind_outcome_name (lexeme token.entry) }
{
    match token {
        Token::Text(_) => Some(State::PayoffsBrace),
        other => behind_outcome(other),
    }
}

/// Behind a payoff: a comma, another payoff, or the end of the list.
fn behind_payoff(token: Token) -> Option<State>
    ensures { result ≡ behind_payoff (lexeme token.entry) }
{
    match token {
        Token::Comma => Some(State::Payoff),
        Token::BraceRight => Some(State::Line),
        other => State::Payoffs.behind_number(other),
    }
}

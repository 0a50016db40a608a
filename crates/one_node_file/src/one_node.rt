//! Files of one terminal node with two amounts.

ghost use Rattle.std.specs.Prelude.{◌≡◌, Some, List, IfSome, codes};
ghost use Rattle.std.specs.Cmp.Lexicographic.{pointwise};
ghost use Rattle.corr_game.specs.declared.payoffs.Pay.{Pay};
ghost use Rattle.efg_token.specs.Cursor.{left};
ghost use Rattle.efg_token.specs.Seen.{lexeme};
ghost use Rattle.one_node_file.specs.FirstForm.{HasFirstForm};
ghost use Rattle.one_node_file.specs.Reading.{Reads, Passes, token_at, word_at, passes_at, behind_text, behind_comma, is_text, is_word, is_brace_left, is_brace_right, header_at, outcome_at, pays_at, leaf_at, first_form_at};

use crate::amounts::{amount, short_number};
use corr_game::Pay;
use efg_token::{Token, Tokens};

/// The payoffs of a file of one terminal node with two amounts; none for every other file.
///
/// Such a file has these tokens and no other: the words `EFG`, `2` and `R`, the title, the two players' names in
/// braces, a comment or none, the word `t`, the node's name, the number of its outcome, which isn't 0, the outcome's
/// name or none, and in braces the two amounts, with a comma between them or none.
pub fn first_form(bytes: &[u8]) -> Option<Pay>
    ensures found { IfSome result (HasFirstForm bytes.now) }
    ensures only { (pay : Pay) → HasFirstForm bytes.now pay → result ≡ Some pay }
{
    let mut tokens = Tokens::new(bytes);
    whole(&mut tokens)
}

/// The payoffs, where what is left has the first form.
#[tactic(auto, unfolding(crate::specs::Reading::first_form_at))]
fn whole(tokens: &mut Tokens) -> Option<Pay>
    ensures { result ≡ first_form_at (left tokens.old) }
{
    header(tokens)?;
    let pay = leaf(tokens)?;
    if tokens.next().is_some() {
        return None;
    }
    Some(pay)
}

/// Passes what stands before the nodes.
#[tactic(auto, unfolding(crate::specs::Reading::header_at))]
fn header(tokens: &mut Tokens) -> Option<()>
    ensures { Passes result (left tokens.new) (header_at (left tokens.old)) }
{
    word(tokens, b"EFG")?;
    word(tokens, b"2")?;
    word(tokens, b"R")?;
    text(tokens)?;
    brace_left(tokens)?;
    text(tokens)?;
    text(tokens)?;
    brace_right(tokens)
}

/// The payoffs of a terminal node with an outcome of its own, behind a text or none.
#[tactic(auto, unfolding(crate::specs::Reading::leaf_at))]
fn leaf(tokens: &mut Tokens) -> Option<Pay>
    ensures { Reads (λ pay. pay) result (left tokens.new) (leaf_at (left tokens.old)) }
{
    let Token::Word(b"t") = skip_text(tokens)? else {
        return None;
    };
    text(tokens)?;
    outcome(tokens)?;
    pays(tokens)
}

/// Passes the number of an outcome other than 0.
#[tactic(auto, unfolding(crate::specs::Reading::outcome_at))]
fn outcome(tokens: &mut Tokens) -> Option<()>
    ensures { Passes result (left tokens.new) (outcome_at (left tokens.old)) }
{
    if short_number(any_word(tokens)?)? == 0 {
        return None;
    }
    Some(())
}

/// The two amounts in braces, behind a text or none.
#[tactic(auto, unfolding(crate::specs::Reading::pays_at))]
fn pays(tokens: &mut Tokens) -> Option<Pay>
    ensures { Reads (λ pay. pay) result (left tokens.new) (pays_at (left tokens.old)) }
{
    let Token::BraceLeft = skip_text(tokens)? else {
        return None;
    };
    let one = amount(any_word(tokens)?)?;
    let Token::Word(second) = skip_comma(tokens)? else {
        return None;
    };
    let two = amount(second)?;
    brace_right(tokens)?;
    Some(Pay { one, two })
}

/// The next token.
fn next<'a>(tokens: &mut Tokens<'a>) -> Option<Token<'a>>
    ensures { Reads lexeme result (left tokens.new) (token_at (left tokens.old)) }
{
    match tokens.next() {
        Some(Ok(spot)) => Some(spot.token),
        _ => None,
    }
}

/// The next token, or the one behind it where it is a text.
fn skip_text<'a>(tokens: &mut Tokens<'a>) -> Option<Token<'a>>
    ensures { Reads lexeme result (left tokens.new) (behind_text (left tokens.old)) }
{
    match next(tokens)? {
        Token::Text(_) => next(tokens),
        other => Some(other),
    }
}

/// The next token, or the one behind it where it is a comma.
fn skip_comma<'a>(tokens: &mut Tokens<'a>) -> Option<Token<'a>>
    ensures { Reads lexeme result (left tokens.new) (behind_comma (left tokens.old)) }
{
    match next(tokens)? {
        Token::Comma => next(tokens),
        other => Some(other),
    }
}

/// The next token, where it is a word.
fn any_word<'a>(tokens: &mut Tokens<'a>) -> Option<&'a [u8]>
    ensures { Reads (λ word. word.now) result (left tokens.new) (word_at (left tokens.old)) }
{
    match next(tokens)? {
        Token::Word(word) => Some(word),
        _ => None,
    }
}

/// Passes this word.
fn word(tokens: &mut Tokens, expected: &[u8]) -> Option<()>
    ensures { Passes result (left tokens.new) (passes_at (is_word expected.now) (left tokens.old)) }
{
    match next(tokens)? {
        Token::Word(word) if word == expected => Some(()),
        _ => None,
    }
}

/// Passes a text.
fn text(tokens: &mut Tokens) -> Option<()>
    ensures { Passes result (left tokens.new) (passes_at is_text (left tokens.old)) }
{
    match next(tokens)? {
        Token::Text(_) => Some(()),
        _ => None,
    }
}

/// Passes a left brace.
fn brace_left(tokens: &mut Tokens) -> Option<()>
    ensures { Passes result (left tokens.new) (passes_at is_brace_left (left tokens.old)) }
{
    match next(tokens)? {
        Token::BraceLeft => Some(()),
        _ => None,
    }
}

/// Passes a right brace.
fn brace_right(tokens: &mut Tokens) -> Option<()>
    ensures { Passes result (left tokens.new) (passes_at is_brace_right (left tokens.old)) }
{
    match next(tokens)? {
        Token::BraceRight => Some(()),
        _ => None,
    }
}

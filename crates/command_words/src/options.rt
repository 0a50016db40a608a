// The options behind a command word: pairs of an option and its value, in any order, each option at most once.
ghost use Rattle.std.specs.Prelude.{◌≡◌, ◌↔◌, IsTrue, ℕ, ◌^◌, ◌<◌, ◌≤◌, drop, length, map, MatchOption, string_bytes};
ghost use Rattle.corr_game.specs.declared.notions.Notion.{Notion};
ghost use Rattle.game_gen.specs.declared.kinds.Kind.{Kind};
ghost use Rattle.game_gen.specs.GameText.{kind_name};
ghost use Rattle.command_words.specs.declared.options.Given.{Given};
ghost use Rattle.command_words.specs.declared.options.Label.{Label};
ghost use Rattle.command_words.specs.Options.{Give, IsNumber, Takes, TakesPair, label_word, none_given, notion_word};

use corr_game::Notion;
use game_gen::Kind;

/// Which option a pair is of.
#[derive(Clone, Copy, PartialEq, Eq)]
pub(crate) enum Label {
    Kind,
    Size,
    Seed,
    Notion,
}

/// The values of the options that are given.
#[derive(Clone, Copy, PartialEq, Eq)]
pub(crate) struct Given {
    pub kind: Option<Kind>,
    pub size: Option<u32>,
    pub seed: Option<u64>,
    pub notion: Option<Notion>,
}

impl Given {
    ghost use Rattle.std.specs.Prelude.{◌≡◌, MatchOption, string_bytes};
    ghost use Rattle.command_words.specs.declared.options.Given.{Given};
    ghost use Rattle.command_words.specs.Options.{Takes, TakesPair, none_given};

    fn none() -> Given
        ensures { result ≡ none_given }
    {
        Given {
            kind: None,
            size: None,
            seed: None,
            notion: None,
        }
    }

    fn with_kind(self, value: &String) -> Option<Given>
        ensures { MatchOption result ((after : Given) → Takes Label.Kind self (string_bytes value.now) after → ⊥) (Takes Label.Kind self (string_bytes value.now)) }
    {
        if self.kind.is_some() {
            return None;
        }
        let Some(kind) = kind_of(value.as_str()) else {
            return None;
        };
        Some(Given {
            kind: Some(kind),
            ..self
        })
    }

    fn with_size(self, value: &String) -> Option<Given>
        ensures { MatchOption result ((after : Given) → Takes Label.Size self (string_bytes value.now) after → ⊥) (Takes Label.Size self (string_bytes value.now)) }
    {
        if self.size.is_some() {
            return None;
        }
        let Some(size) = size_of(value.as_str()) else {
            return None;
        };
        Some(Given {
            size: Some(size),
            ..self
        })
    }

    fn with_seed(self, value: &String) -> Option<Given>
        ensures { MatchOption result ((after : Given) → Takes Label.Seed self (string_bytes value.now) after → ⊥) (Takes Label.Seed self (string_bytes value.now)) }
    {
        if self.seed.is_some() {
            return None;
        }
        let Some(seed) = number_of(value.as_str(), 20) else {
            return None;
        };
        Some(Given {
            seed: Some(seed),
            ..self
        })
    }

    fn with_notion(self, value: &String) -> Option<Given>
        ensures { MatchOption result ((after : Given) → Takes Label.Notion self (string_bytes value.now) after → ⊥) (Takes Label.Notion self (string_bytes value.now)) }
    {
        if self.notion.is_some() {
            return None;
        }
        let Some(notion) = notion_of(value.as_str()) else {
            return None;
        };
        Some(Given {
            notion: Some(notion),
            ..self
        })
    }

    fn with_labelled(self, label: Label, value: &String) -> Option<Given>
        ensures { MatchOption result ((after : Given) → Takes label self (string_bytes value.now) after → ⊥) (Takes label self (string_bytes value.now)) }
    {
        match label {
            Label::Kind => self.with_kind(value),
            Label::Size => self.with_size(value),
            Label::Seed => self.with_seed(value),
            Label::Notion => self.with_notion(value),
        }
    }

    /// With the option of this word and value, or none where it is no such pair or was given before.
    fn with(self, word: &String, value: &String) -> Option<Given>
        ensures { MatchOption result ((after : Given) → TakesPair self (string_bytes word.now) (string_bytes value.now) after → ⊥) (TakesPair self (string_bytes word.now) (string_bytes value.now)) }
    {
        let Some(label) = label_of(word.as_str()) else {
            return None;
        };
        self.with_labelled(label, value)
    }
}

pub(crate) fn is_text(word: &str, text: &[u8]) -> bool
    ensures { IsTrue result ↔ (word.now ≡ text.now) }
{
    word.as_bytes() == text
}

fn label_of(word: &str) -> Option<Label>
    ensures { MatchOption result ((label : Label) → word.now ≡ label_word label → ⊥) (λ label. word.now ≡ label_word label) }
{
    if is_text(word, b"--kind") {
        return Some(Label::Kind);
    }
    if is_text(word, b"--n") {
        return Some(Label::Size);
    }
    if is_text(word, b"--seed") {
        return Some(Label::Seed);
    }
    if is_text(word, b"--notion") {
        return Some(Label::Notion);
    }
    None
}

/// The kind with this name.
pub(crate) fn kind_of(name: &str) -> Option<Kind>
    ensures { MatchOption result ((kind : Kind) → name.now ≡ kind_name kind → ⊥) (λ kind. name.now ≡ kind_name kind) }
{
    if is_text(name, b"public") {
        return Some(Kind::Public);
    }
    if is_text(name, b"dilemma") {
        return Some(Kind::Dilemma);
    }
    if is_text(name, b"chain") {
        return Some(Kind::Chain);
    }
    None
}

/// The notion with this name.
pub(crate) fn notion_of(name: &str) -> Option<Notion>
    ensures { MatchOption result ((notion : Notion) → name.now ≡ notion_word notion → ⊥) (λ notion. name.now ≡ notion_word notion) }
{
    if is_text(name, b"efce") {
        return Some(Notion::Efce);
    }
    if is_text(name, b"efcce") {
        return Some(Notion::Efcce);
    }
    if is_text(name, b"nfcce") {
        return Some(Notion::Nfcce);
    }
    None
}

/// The number that 1 to so many decimal digits say. A plus, which `parse` would take, is no digit.
pub(crate) fn number_of(text: &str, most: usize) -> Option<u64>
    ensures { MatchOption result ((n : ℕ) → n < 2 ^ 64 → IsNumber most text.now n → ⊥) (IsNumber most text.now) }
{
    let bytes = text.as_bytes();
    if bytes.is_empty() || bytes.len() > most {
        return None;
    }
    if bytes[0] == b'+' {
        return None;
    }
    match text.parse::<u64>() {
        Ok(number) => Some(number),
        Err(_) => None,
    }
}

/// The size that 1 to 10 digits say, from 1 to 2^32 - 1.
pub(crate) fn size_of(text: &str) -> Option<u32>
    ensures { MatchOption result ((n : ℕ) → IsNumber 10 text.now n → 1 ≤ n → n < 2 ^ 32 → ⊥) (λ n. IsNumber 10 text.now n × (1 ≤ n) × (n < 2 ^ 32)) }
{
    let Some(number) = number_of(text, 10) else {
        return None;
    };
    if number < 1 || number > 4294967295 {
        return None;
    }
    Some(number as u32)
}

/// What the words behind the first give, or none where they aren't pairs of an option and its value.
pub(crate) fn read_options(words: &Vec<String>) -> Option<Given>
    requires { 1 ≤ length words.now.items }
    ensures { MatchOption result ((given : Given) → Give none_given (drop 1 (map string_bytes words.now.items)) given → ⊥) (Give none_given (drop 1 (map string_bytes words.now.items))) }
{
    let mut given = Given::none();
    let mut at = 1;
    while at < words.len() {
        if at + 1 == words.len() {
            return None;
        }
        let Some(next) = given.with(&words[at], &words[at + 1]) else {
            return None;
        };
        given = next;
        at += 2;
    }
    Some(given)
}

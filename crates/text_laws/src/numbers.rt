// Laws of words that are numbers, of games that aren't made, of bytes not cut yet, and of the report on one node.
ghost use Rattle.std.specs.Prelude.{◌≡◌, ◌↔◌, ℕ, ◌+◌, ◌<◌, ◌++◌, List, [], drop, false, length, true};
ghost use Rattle.corr_game.specs.declared.payoffs.Pay.{Pay};
ghost use Rattle.command_words.specs.declared.commands.Notions.{Notions};
ghost use Rattle.corr_run.specs.OneNode.{one_node_report};
ghost use Rattle.efg_token.specs.Cursor.{Cursor, left};
ghost use Rattle.game_gen.specs.declared.kinds.GenRefusal.{GenRefusal};
ghost use Rattle.game_gen.specs.declared.kinds.GenRefusal.TheVariants.{NoMemory, TooLarge};
ghost use Rattle.game_gen.specs.declared.kinds.Kind.{Kind};
ghost use Rattle.game_gen.specs.GameText.{greatest};
ghost use Rattle.game_gen.specs.Refused.{IsRefused};
ghost use Rattle.number_words.specs.Words.{is_digits, is_number, is_whole};

/// A whole is a number, and digits behind digits are digits.
pub fn wholes_are_numbers()
    ensures number { (word : List ℕ) → is_whole word ≡ true → is_number word ≡ true }
    ensures joined { (front behind : List ℕ) → is_digits front ≡ true → is_digits behind ≡ true → is_digits (front ++ behind) ≡ true }
    ensures apart { (front behind : List ℕ) → is_digits (front ++ behind) ≡ true → is_digits behind ≡ true }
{}

/// A size is refused as too large with one number alone, exactly where it is above the greatest of its kind, and never for want of
/// memory too.
pub fn sizes_are_refused_once()
    ensures one { (kind : Kind) (n a b : ℕ) → IsRefused kind n (TooLarge a) → IsRefused kind n (TooLarge b) → a ≡ b }
    ensures apart { (kind : Kind) (n a : ℕ) → IsRefused kind n (TooLarge a) → IsRefused kind n NoMemory → ⊥ }
    ensures named { (kind : Kind) (n : ℕ) → IsRefused kind n (TooLarge (greatest kind)) ↔ (greatest kind < n) }
{}

/// At the end of some bytes none is left, and behind so many more bytes so many fewer are.
pub fn bytes_are_left_by_place()
    ensures end { (bytes : List ℕ) → left (record { bytes = bytes; at = length bytes }) ≡ [] }
    ensures further { (bytes : List ℕ) (at more : ℕ)
        → left (record { bytes = bytes; at = at + more }) ≡ drop more (left (record { bytes = bytes; at = at })) }
{}

/// The report on one node says the payoffs in its blocks alone: where no notion is selected any two payoffs have one report.
pub fn no_block_says_no_payoff()
    ensures { (notions : Notions) (a b : Pay) → notions.efce ≡ false → notions.efcce ≡ false → notions.nfcce ≡ false
        → one_node_report notions a ≡ one_node_report notions b }
{}

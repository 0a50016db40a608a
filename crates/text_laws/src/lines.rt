// Laws of a game file's bytes, tokens and lines and of the places in a report, as functions that do nothing.
ghost use Rattle.std.specs.Prelude.{◌≡◌, ◌≢◌, ◌⊎◌, ℕ, ◌-◌, ◌^◌, ◌<◌, ◌≤◌, ◌++◌, List, All, length, take, drop, Option, Some, None};
ghost use Rattle.std.specs.Prelude.{Result, Ok, Err, true, false};
ghost use Rattle.efg_lines.specs.declared.node_line.ActLine.{ActLine};
ghost use Rattle.efg_lines.specs.declared.node_line.LineKind.{LineKind};
ghost use Rattle.efg_lines.specs.declared.refusal.FileRefusal.{FileRefusal};
ghost use Rattle.efg_lines.specs.declared.refusal.FileRefusal.TheVariants as refusal;
ghost use Rattle.efg_lines.specs.File.{FileView};
ghost use Rattle.efg_lines.specs.FileTokens.{IsFileOf, StopsAt};
ghost use Rattle.efg_lines.specs.Refusal.{MatchSyntax, place_in};
ghost use Rattle.efg_reader.specs.declared.entry.Turn.{Turn};
ghost use Rattle.efg_reader.specs.Entry.{draws, mover_of, moves, nobody};
ghost use Rattle.efg_reader.specs.Turn.{IsTurnOf, acts_in};
ghost use Rattle.efg_token.specs.declared.token.Spot.{Spot};
ghost use Rattle.efg_token.specs.declared.token.Token.{Token};
ghost use Rattle.efg_token.specs.declared.token.Token.TheVariants.{BraceLeft, BraceRight, Comma};
ghost use Rattle.efg_token.specs.declared.token.TokenFault.{TokenFault};
ghost use Rattle.efg_token.specs.Bytes.{is_in_word, is_mark, is_white};
ghost use Rattle.efg_token.specs.Front.{found, front};
ghost use Rattle.efg_token.specs.Lexeme.{brace_left, brace_right, comma, word};
ghost use Rattle.efg_token.specs.Seen.{IfFound, IfUnended, lexeme};
ghost use Rattle.number_words.specs.Number.{NumberView};
ghost use Rattle.report_reader.specs.declared.refusals.ReportRefusal.{ReportRefusal};
ghost use Rattle.report_reader.specs.declared.refusals.ReportRefusal.TheVariants.{Syntax};
ghost use Rattle.report_reader.specs.Cursor.{Cursor};
ghost use Rattle.report_reader.specs.Place.{IsPlace};
ghost use Rattle.report_reader.specs.Syntax.{IsSyntaxAt};

/// White space is no mark, and is at most a space. Each byte from the minus on may stand in a word, but for the two braces; and a
/// word that stands first isn't empty, and all bytes of it may.
pub fn bytes_separate_or_stand_in_words()
    ensures apart { (byte : ℕ) → is_white byte ≡ true → is_mark byte ≡ false }
    ensures low { (byte : ℕ) → is_white byte ≡ true → byte ≤ 32 }
    ensures in_words { (byte : ℕ) → 45 ≤ byte → byte ≢ 123 → byte ≢ 125 → is_in_word byte ≡ true }
    ensures word { (bytes w rest : List ℕ) → front bytes ≡ found (word w) rest
        → (0 < length w) × All (λ (byte : ℕ). is_in_word byte ≡ true) w }
{}

/// Where neither a token nor a text without end was seen, nothing was. A brace and a comma stand for one token each.
pub fn what_is_seen_is_known()
    ensures nothing { (r : Option (Result Spot TokenFault)) → IfFound r (λ spot. ⊥) → IfUnended r (λ at. ⊥) → r ≡ None }
    ensures left { (token : Token) → lexeme token ≡ brace_left → token ≡ BraceLeft }
    ensures right { (token : Token) → lexeme token ≡ brace_right → token ≡ BraceRight }
    ensures comma { (token : Token) → lexeme token ≡ comma → token ≡ Comma }
{}

/// Reading lines is refused at a place of Syntax, or for want of memory; want of memory aside bytes are read in one way. And a token
/// has one fault at a place.
pub fn bytes_are_read_in_one_way()
    ensures refused { (bytes : List ℕ) (e : FileRefusal) → MatchSyntax (Err e) (IsFileOf bytes) (StopsAt bytes)
        → (e ≡ refusal.NoMemory) ⊎ ((at : ℕ) × (e ≡ refusal.Syntax at) × StopsAt bytes at) }
    ensures one { (bytes : List ℕ) (a b : Result FileView FileRefusal) → MatchSyntax a (IsFileOf bytes) (StopsAt bytes)
        → MatchSyntax b (IsFileOf bytes) (StopsAt bytes) → (a ≡ Err refusal.NoMemory → ⊥) → (b ≡ Err refusal.NoMemory → ⊥)
        → a ≡ b }
    ensures faults { (a b : TokenFault) → place_in a ≡ place_in b → a ≡ b }
{}

/// Lines that list the same actions have the same turns. Where actions are listed, chance draws one of as many; a player's set has
/// a number within its limit, and where nobody moves no actions are listed.
pub fn turns_go_by_the_actions_listed()
    ensures same { (a b : LineKind) (it : Turn) → acts_in a ≡ acts_in b → IsTurnOf a it → IsTurnOf b it }
    ensures drawn { (line : LineKind) (it : Turn) (set : ℕ) (probs : List NumberView) (acts : List ActLine)
        → acts_in line ≡ Some acts → IsTurnOf line it → mover_of it ≡ draws set probs → length probs ≡ length acts }
    ensures moved { (line : LineKind) (it : Turn) (player set : ℕ) → IsTurnOf line it → mover_of it ≡ moves player set
        → set < 2 ^ 31 }
    ensures over { (line : LineKind) (it : Turn) → IsTurnOf line it → mover_of it ≡ nobody → acts_in line ≡ None }
{}

/// A place among some bytes is one among more, no bytes have one place, and the place of Syntax is one.
pub fn places_stay_places()
    ensures more { (count more : ℕ) (refusal : ReportRefusal) → count ≤ more → IsPlace count refusal → IsPlace more refusal }
    ensures none { (at : ℕ) → IsPlace 0 (Syntax at) → at ≡ 0 }
    ensures syntax { (bytes : List ℕ) (at : ℕ) → IsSyntaxAt bytes at → IsPlace (length bytes) (Syntax at) }
{}

/// Among the cursors within some bytes one has what is left; and what is left at a cursor is what lies between it and a later one,
/// and what is left there.
pub fn cursors_cut_bytes()
    ensures one { (a b : Cursor) → a.bytes ≡ b.bytes → a.at ≤ length a.bytes → b.at ≤ length b.bytes
        → drop a.at a.bytes ≡ drop b.at b.bytes → a ≡ b }
    ensures between { (a b : Cursor) → a.bytes ≡ b.bytes → a.at ≤ b.at
        → drop a.at a.bytes ≡ take (b.at - a.at) (drop a.at a.bytes) ++ drop b.at b.bytes }
{}

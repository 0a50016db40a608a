// Games as the files that a user would write.

/// Chicken: both dare, or one, or none.
pub const CHICKEN: &str = r#"EFG 2 R "Chicken" { "Row" "Column" }
""
p "" 1 1 "" { "D" "C" } 0
p "" 2 1 "" { "D" "C" } 0
t "" 1 "" { 0, 0 }
t "" 2 "" { 7, 2 }
p "" 2 1 "" { "D" "C" } 0
t "" 3 "" { 2, 7 }
t "" 4 "" { 6, 6 }
"#;

/// The prisoners' dilemma, where each player's set has the number 1.
pub const DILEMMA: &str = r#"EFG 2 R "Dilemma" { "A" "B" }
p "" 1 1 { "C" "D" } 0
p "" 2 1 { "C" "D" } 0
t "" 1 { 3 3 }
t "" 2 { 0 5 }
p "" 2 1 0
t "" 3 { 5 0 }
t "" 4 { 1 1 }
"#;

/// A public coin, and a game on each of its sides.
pub const COIN: &str = r#"EFG 2 R "Coin" { "A" "B" }
c "" 1 { "Heads" 1/2 "Tails" 1/2 } 0
p "" 1 1 { "T" "M" "B" } 0
p "" 2 1 { "L" "R" } 0
t "" 1 { 3 0 }
t "" 2 { 0 0 }
p "" 2 1 0
t "" 3 { 0 0 }
t "" 4 { 3 0 }
p "" 2 1 0
t "" 5 { 2 1 }
t "" 6 { -1 1 }
p "" 1 2 { "T" "M" } 0
p "" 2 2 { "L" "R" } 0
t "" 7 { 3 0 }
t "" 8 { 0 0 }
p "" 2 2 0
t "" 9 { 0 0 }
t "" 10 { 3 0 }
"#;

/// The game on the coin's first side.
pub const HEADS: &str = r#"EFG 2 R "Heads" { "A" "B" }
p "" 1 1 { "T" "M" "B" } 0
p "" 2 1 { "L" "R" } 0
t "" 1 { 3 0 }
t "" 2 { 0 0 }
p "" 2 1 0
t "" 3 { 0 0 }
t "" 4 { 3 0 }
p "" 2 1 0
t "" 5 { 2 1 }
t "" 6 { -1 1 }
"#;

/// Entry into a market.
pub const ENTRY: &str = r#"EFG 2 R "Entry" { "A" "B" }
p "" 1 1 "" { "Out" "In" } 0
t "" 1 "" { 1, 5 }
p "" 2 1 "" { "Fight" "Accept" } 0
t "" 2 "" { 0, 0 }
t "" 3 "" { 2, 1 }
"#;

/// Poker with one card, as the usual tool writes it.
pub const ONE_CARD: &str = r#"EFG 2 R "One card" { "Player 1" "Player 2" }
""
c "" 1 "" { "Red" 1/2 "Black" 1/2 } 0
p "" 1 1 "" { "Raise" "Fold" } 0
p "" 2 1 "" { "Meet" "Pass" } 0
t "" 1 "Win Big" { 2, -2 }
t "" 2 "Win" { 1, -1 }
t "" 2 "Win" { 1, -1 }
p "" 1 2 "" { "Raise" "Fold" } 0
p "" 2 1 "" { "Meet" "Pass" } 0
t "" 3 "Lose Big" { -2, 2 }
t "" 2 "Win" { 1, -1 }
t "" 4 "Lose" { -1, 1 }
"#;

/// Payoffs at a node inside, numbers with commas, and lists that are left out.
pub const SUMS: &str = r#"EFG 2 R "Sums" { "A" "B" }
p "" 1 1 "" { "A" "B" } 1 "base" { 1, 1 }
p "" 2 1 "" { "l" "r" } 0
t "" 2 "" { 0, 2 }
t "" 3 "" { 3.0, 0 }
p "" 2 1 "" 0
t "" 3
t "" 2
"#;

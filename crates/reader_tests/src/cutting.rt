use efg_token::{Token, TokenFault, Tokens};

fn content<'a>(token: Token<'a>) -> &'a [u8] {
    match token {
        Token::Text(content) => content,
        Token::Word(word) => word,
        Token::BraceLeft => b"{",
        Token::BraceRight => b"}",
        Token::Comma => b",",
    }
}

#[test]
fn tokens_with_their_places(rt: HostRuntime) {
    let rows: [(&[u8], usize, usize); 6] = [
        (b"EFG", 0, 3),
        (b"a\\\"b", 4, 10),
        (b"{", 10, 11),
        (b"x", 11, 12),
        (b",", 12, 13),
        (b"}", 14, 15),
    ];
    let mut tokens = Tokens::new(b"EFG\t\"a\\\"b\"{x, }\"c }");
    for (expected, at, end) in rows {
        match tokens.next() {
            Some(Ok(spot)) => {
                assert_eq!(rt; content(spot.token), expected);
                assert_eq!(rt; spot.at, at);
                assert_eq!(rt; spot.end, end);
            }
            _ => assert!(rt; false, "a token is missing"),
        }
    }
    let unended = matches!(
        tokens.next(),
        Some(Err(TokenFault::Unterminated { at: 15 }))
    );
    assert!(rt; unended);
    assert!(rt; tokens.next().is_none());
}

#[test]
fn white_space_alone(rt: HostRuntime) {
    assert!(rt; Tokens::new(b"\t\n\x0b\x0c\r ").next().is_none());
}

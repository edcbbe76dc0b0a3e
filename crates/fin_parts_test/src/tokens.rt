//! Tokens of short texts.
use fin_base::{Fail as Refused, Rule};
use fin_lex::{Token, TokenKind, lex};
use std::alloc::Global;
use std::test::Fail;

/// The tokens of a short text.
fn tokens(alloc: Global, text: &[u8]) -> Result<Vec<Token>, Refused> {
    if text.len() > 4096 {
        return Ok(Vec::new(alloc));
    }
    lex(alloc, text, 1)
}

/// The line where a text is refused, or 0.
fn refused_line(alloc: Global, text: &[u8]) -> u32 {
    match tokens(alloc, text) {
        Err(Refused::Refused(refusal)) => {
            if refusal.rule == Rule::S1 {
                refusal.line
            } else {
                0
            }
        }
        _ => 0,
    }
}

#[test]
fn knows_each_symbol_and_reserved_word(rt: HostRuntime) -> Result<(), Fail> {
    let symbols = b"[ ] ( ) { } , ~ + - * < <= > >= == != = += *= .= .. min= max= and= or= xor=";
    let words =
        b"in out tmp fill shape for par if let freeze thaw walk gallop follow min max and or xor dense list runs band dict element atomic mutex shard";
    let symbols = tokens(rt.alloc(), symbols)?;
    assert_eq!(rt; symbols.len(), 27);
    for (place, token) in (0u8..27).zip(symbols.iter()) {
        assert_eq!(rt; token.kind, TokenKind::Symbol(place));
    }
    let words = tokens(rt.alloc(), words)?;
    assert_eq!(rt; words.len(), 28);
    for (place, token) in (0u8..28).zip(words.iter()) {
        assert_eq!(rt; token.kind, TokenKind::Reserved(place));
    }
    Ok(())
}

#[test]
fn takes_the_longest_piece(rt: HostRuntime) -> Result<(), Fail> {
    let table: [(&[u8], &[TokenKind]); 8] = [
        (b"<==", &[TokenKind::Symbol(12), TokenKind::Symbol(17)]),
        (b"min==", &[TokenKind::Symbol(22), TokenKind::Symbol(17)]),
        (b"min =", &[TokenKind::Reserved(14), TokenKind::Symbol(17)]),
        (b"mins=", &[TokenKind::Name, TokenKind::Symbol(17)]),
        (
            b"0..9",
            &[
                TokenKind::Number(0),
                TokenKind::Symbol(21),
                TokenKind::Number(9),
            ],
        ),
        (b"5_", &[TokenKind::Number(5), TokenKind::Name]),
        (
            b"9223372036854775808 abcdefghijklmnopqrstuvwxyz_ABC12",
            &[TokenKind::Number(1 << 63), TokenKind::Name],
        ),
        (
            b"a#!\xff\x00'\"@\xc3\n\tb#",
            &[TokenKind::Name, TokenKind::Name],
        ),
    ];
    for (text, kinds) in table {
        let tokens = tokens(rt.alloc(), text)?;
        assert_eq!(rt; tokens.len(), kinds.len());
        for (token, kind) in tokens.iter().zip(kinds.iter()) {
            assert_eq!(rt; token.kind, *kind);
        }
    }
    Ok(())
}

#[test]
fn refuses_at_the_line_of_the_piece(rt: HostRuntime) -> Result<(), Fail> {
    let table: [(&[u8], u32); 10] = [
        (b"", 0),
        (b"ok", 0),
        (b"a # @\n\n @", 3),
        (b"!", 1),
        (b"a\n.", 2),
        (b"01", 1),
        (b"\n5a", 2),
        (b"9223372036854775809", 1),
        (b"18446744073709551616", 1),
        (b"\n\nabcdefghijklmnopqrstuvwxyz_ABC123", 3),
    ];
    for (text, line) in table {
        assert_eq!(rt; refused_line(rt.alloc(), text), line);
    }
    Ok(())
}

#[test]
fn gives_spans_and_lines(rt: HostRuntime) -> Result<(), Fail> {
    let tokens = tokens(rt.alloc(), b"in A # x\n  += 7\n")?;
    assert_eq!(rt; tokens.len(), 4);
    let name = Token {
        kind: TokenKind::Name,
        from: 3,
        to: 4,
        line: 1,
    };
    let number = Token {
        kind: TokenKind::Number(7),
        from: 14,
        to: 15,
        line: 2,
    };
    assert_eq!(rt; tokens[1], name);
    assert_eq!(rt; tokens[3], number);
    Ok(())
}

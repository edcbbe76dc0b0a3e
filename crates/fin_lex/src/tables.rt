//! The reserved words and the symbols, each known by its place in its table.

/// The words that are no names.
pub const RESERVED: [&[u8]; 28] = [
    b"in", b"out", b"tmp", b"fill", b"shape", b"for", b"par", b"if", b"let", b"freeze", b"thaw",
    b"walk", b"gallop", b"follow", b"min", b"max", b"and", b"or", b"xor", b"dense", b"list",
    b"runs", b"band", b"dict", b"element", b"atomic", b"mutex", b"shard",
];

/// The symbols that begin with no letter.
pub const SYMBOLS: [&[u8]; 22] = [
    b"[", b"]", b"(", b")", b"{", b"}", b",", b"~", b"+", b"-", b"*", b"<", b"<=", b">", b">=",
    b"==", b"!=", b"=", b"+=", b"*=", b".=", b"..",
];

/// The words that make a symbol with a `=` directly behind them; their places follow those of the symbols.
pub const WORD_SYMBOLS: [&[u8]; 5] = [b"min", b"max", b"and", b"or", b"xor"];

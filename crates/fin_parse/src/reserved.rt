//! The places of reserved words in their table.

pub const IN: u8 = 0;

pub const OUT: u8 = 1;

pub const DENSE: u8 = 19;

pub const LIST: u8 = 20;

pub const RUNS: u8 = 21;

pub const BAND: u8 = 22;

pub const DICT: u8 = 23;

pub const ELEMENT: u8 = 24;

pub const ATOMIC: u8 = 25;

pub const MUTEX: u8 = 26;

pub const SHARD: u8 = 27;

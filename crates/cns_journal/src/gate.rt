//! How a record of a journal begins in its file: a gate byte, and the length of its payload in four bytes. (This project's own layout.)

/// The gate byte of a record that counts.
pub const OPEN: u8 = 0xA5;

/// The gate byte behind the last record.
pub const CLOSED: u8 = 0;

/// How many bytes stand before the payload of a record.
pub const HEADER: u64 = 5;

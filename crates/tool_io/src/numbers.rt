//! The program's own error codes. Those of texts, specifications, files, code and parts are in the crates that define
//! these faults.

/// The session does not exist, or has left.
pub const STRANGER_SESSION: u8 = 61;
/// The continuation does not exist, is spent, or belongs to another session or table.
pub const STRANGER_CONTINUATION: u8 = 62;
/// The limit is below 1.
pub const BAD_LIMIT: u8 = 63;
/// The input has not the number or kind of terms that the command reads, or a term is not a command.
pub const BAD_INPUT: u8 = 65;
/// The reader failed.
pub const READ_FAILED: u8 = 70;
/// The writer failed.
pub const WRITE_FAILED: u8 = 71;

// The calls that make a table: start and resize. Each is lent the two bucket buffers and the entry buffer, and promises
// exactly its definition in model, for any numbers and any memory.
#![tactic(auto)]

mod clear;
pub mod init;
pub mod resize;

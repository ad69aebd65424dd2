// Requests and answers as a stream of bytes: what `ribbon_batch` and `replay` read and write. All numbers are big-endian.
#![tactic(auto)]

pub mod buffers;
pub mod patterns;
pub mod requests;
pub mod sink;

//! The text of a summary.

ghost use Rattle.std.specs.Prelude.{◌≡◌, string_bytes, IfOk};
ghost use Rattle.load_summary.specs.Summaries.{summary_text};

use sha2::{Digest, Sha256};
use smbd_base::NoMemory;
use std::alloc::Global;

/// The line of a put of `length` bytes by `requests` requests, which brought these bytes: both numbers in decimal, the SHA-256 of the bytes
/// in lower-case hex, and a line feed at its end.
pub fn summary_of(
    alloc: Global,
    length: u64,
    requests: u32,
    bytes: &[u8],
) -> Result<String, NoMemory>
    ensures { IfOk result (λ text. string_bytes text ≡ summary_text length requests bytes.now) }
{
    let digest = hex::encode(alloc, Sha256::digest(bytes))?;
    Ok(format!(in alloc; "length {length} requests {requests} sha256 {digest}\n")?)
}

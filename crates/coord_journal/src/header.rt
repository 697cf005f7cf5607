//! Reads a journal's header.

ghost use Rattle.std.specs.Prelude.{◌≡◌, ◌+◌, ◌<◌, ◌^◌, ℕ, List, ◌∷◌, ◌++◌, None, IfSome, length};
ghost use Rattle.coord_journal.specs.Text.{HasHeader, magic};
ghost use Rattle.std.specs.Int.{w64, to_be_bytes};

use crate::layout::{HEADER, MAGIC, MAX_HALF, MIN_HALF};

/// The header of a device, and the bytes after it.
#[derive(Clone, Copy)]
pub struct Header<'a> {
    pub selector: u8,
    pub half_size: u64,
    pub rest: &'a [u8],
}

// Returns the number that eight bytes encode.
fn read_size(bytes: &[u8]) -> u64
    requires { length bytes.now ≡ 8 }
    ensures { to_be_bytes w64 result ≡ bytes.now }
{
    u64::from_be_bytes([
        bytes[0], bytes[1], bytes[2], bytes[3], bytes[4], bytes[5], bytes[6], bytes[7],
    ])
}

// Splits the bytes into a header and the bytes after it, without checking the half size in the
// header. Returns None if the bytes do not begin with a selector, the magic bytes and a size.
fn split_header(bytes: &[u8]) -> Option<Header<'_>>
    ensures some { IfSome result (λ header. bytes.now ≡
        (header.selector ∷ magic) ++ (to_be_bytes w64 header.half_size ++ header.rest.now)) }
    ensures range { IfSome result (λ header. header.half_size < 2 ^ 64) }
    ensures none { result ≡ None → (selector half_size : ℕ) (rest : List ℕ) → half_size < 2 ^ 64 →
        bytes.now ≡ (selector ∷ magic) ++ (to_be_bytes w64 half_size ++ rest) → ⊥ }
{
    if bytes.len() < HEADER || bytes[1..9] != MAGIC[..] {
        return None;
    }
    Some(Header {
        selector: bytes[0],
        half_size: read_size(&bytes[9..HEADER]),
        rest: &bytes[HEADER..],
    })
}

/// Returns the header and the bytes after it, or None if the bytes do not begin with a header.
pub fn read_header(bytes: &[u8]) -> Option<Header<'_>>
    ensures some { IfSome result (λ header.
        HasHeader bytes.now header.selector header.half_size header.rest.now) }
    ensures long { IfSome result (λ header. length bytes.now ≡ 17 + length header.rest.now) }
    ensures none { result ≡ None → (selector half_size : ℕ) (rest : List ℕ) →
        HasHeader bytes.now selector half_size rest → ⊥ }
{
    let Some(header) = split_header(bytes) else {
        return None;
    };
    if header.half_size < MIN_HALF || MAX_HALF < header.half_size {
        return None;
    }
    Some(header)
}

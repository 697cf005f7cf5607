//! Finds a header, and the client that it names.

ghost use Rattle.std.specs.Prelude.{◌≡◌, ◌+◌, ◌≤◌, ℕ, IfNone, IfSome, List, length, slice_index};
ghost use Rattle.std.specs.Option.{option_copied};
ghost use Rattle.proxy_header.specs.Fields.{length_in};
ghost use Rattle.proxy_header.specs.Headers.{BeginsWith, NamesClient, address_length};
ghost use Rattle.proxy_header.specs.Scanning.{is_verified, name_after, name_after_signature, name_in, ssl_name};

use crate::fields::only_value;
use crate::names::is_common_name;

/// The maximum number of bytes of an accepted header.
pub const MOST_HEADER_BYTES: usize = 2048;

/// The first bytes of every header of version 2.
const SIGNATURE: [u8; 12] = *b"\r\n\r\n\0\r\nQUIT\n";

/// The result of a search for a header in the first bytes of a connection.
#[derive(Clone, Copy, Debug, PartialEq, Eq)]
pub enum HeaderLength {
    /// A part of a header. More bytes have to arrive.
    Unfinished,
    /// Not a header of version 2, or a header of more than `MOST_HEADER_BYTES`.
    Refused,
    /// A whole header of this many bytes. More bytes may follow.
    Whole(usize),
}

/// Returns the length of the header at the start of these bytes, `Unfinished` if more bytes have to arrive, or
/// `Refused`.
#[tactic(auto, using(crate::proofs::Lengths::refused_signature, crate::proofs::Lengths::refused_other, crate::proofs::Lengths::unfinished_signature, crate::proofs::Lengths::refused_long, crate::proofs::Lengths::unfinished, crate::proofs::Lengths::whole))]
pub fn header_length(bytes: &[u8]) -> HeaderLength
    ensures { BeginsWith bytes.now result }
{
    let signature = SIGNATURE.as_slice();
    if bytes.len() < 12 {
        return if signature.starts_with(bytes) {
            HeaderLength::Unfinished
        } else {
            HeaderLength::Refused
        };
    }
    if !bytes.starts_with(signature) {
        return HeaderLength::Refused;
    }
    let length = least_length(&bytes[12..]);
    if length > MOST_HEADER_BYTES {
        HeaderLength::Refused
    } else if bytes.len() < length {
        HeaderLength::Unfinished
    } else {
        HeaderLength::Whole(length)
    }
}

/// Returns the length of a header whose signature is followed by these bytes. A missing length byte counts as 0, so the
/// result is then the least possible length.
fn least_length(rest: &[u8]) -> usize
    ensures { result ≡ 16 + length_in (slice_index rest.now 2) (slice_index rest.now 3) }
{
    let high = rest.get(2).copied().unwrap_or(0);
    let low = rest.get(3).copied().unwrap_or(0);
    16 + high as usize * 256 + low as usize
}

/// Returns the common name of the client's verified certificate from a whole header, or None if the
/// header names no such client.
#[tactic(auto, using(crate::proofs::Clients::found_is_named))]
pub fn common_name(header: &[u8]) -> Option<&[u8]>
    ensures found { IfSome result (λ name. NamesClient header.now name.now) }
    ensures none { IfNone result ((name : List ℕ) → NamesClient header.now name → ⊥) }
{
    name_in(header)
}

fn name_in(header: &[u8]) -> Option<&[u8]>
    ensures { option_copied result ≡ name_in header.now }
{
    if header.starts_with(SIGNATURE.as_slice()) {
        name_after_signature(&header[12..])
    } else {
        None
    }
}

/// Returns the common name in the bytes after the signature.
fn name_after_signature(bytes: &[u8]) -> Option<&[u8]>
    ensures { option_copied result ≡ name_after_signature bytes.now }
{
    if bytes.len() < 4 {
        return None;
    }
    let rest = &bytes[4..];
    let length = bytes[2] as usize * 256 + bytes[3] as usize;
    if bytes[0] == 0x21 && length == rest.len() {
        name_after(rest, address_length(bytes[1])?)
    } else {
        None
    }
}

/// Returns the common name in the fields that follow the addresses. `addresses` is the number of bytes of the
/// addresses.
fn name_after(rest: &[u8], addresses: usize) -> Option<&[u8]>
    ensures { option_copied result ≡ name_after rest.now addresses }
{
    if rest.len() < addresses {
        return None;
    }
    ssl_name(only_value(&rest[addresses..], 0x20, None)?)
}

/// Returns the number of bytes of the addresses for a header's family byte, or None if the family or the protocol is
/// unknown.
fn address_length(family: u8) -> Option<usize>
    ensures { result ≡ address_length family }
{
    if family % 16 > 2 {
        return None;
    }
    match family / 16 {
        0 => Some(0),
        1 => Some(12),
        2 => Some(36),
        3 => Some(216),
        _ => None,
    }
}

/// Returns the common name in the value of an SSL field. Returns None unless the certificate was verified and the field
/// has exactly one common name.
fn ssl_name(value: &[u8]) -> Option<&[u8]>
    ensures { option_copied result ≡ ssl_name value.now }
{
    if value.len() < 5 || !is_verified(value[0], &value[1..5]) {
        return None;
    }
    let name = only_value(&value[5..], 0x22, None)?;
    if is_common_name(name) {
        Some(name)
    } else {
        None
    }
}

/// Tests whether the client used TLS and showed a certificate, and the certificate was verified.
fn is_verified(client: u8, verify: &[u8]) -> bool
    ensures { result ≡ is_verified client verify.now }
{
    client % 2 == 1 && client / 2 % 4 != 0 && verify == [0, 0, 0, 0].as_slice()
}

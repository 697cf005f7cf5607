//! The names of principals.

ghost use Rattle.std.specs.Prelude.{◌≡◌};
ghost use Rattle.proxy_policy.specs.Names.{is_principal, is_socket_byte, is_socket_name};

use proxy_header::{MOST_NAME_BYTES, is_common_name};

/// Tests whether these bytes are the name of a principal: either the name of a socket, or `certificate:` followed by a
/// certificate's common name.
#[tactic(auto, unfolding(crate::specs::Names::is_principal))]
pub fn is_principal(name: &[u8]) -> bool
    ensures { result ≡ is_principal name.now }
{
    if name.starts_with(b"certificate:") {
        is_common_name(&name[12..])
    } else {
        is_socket_name(name)
    }
}

/// Tests whether these bytes are the name of a socket: 1 to 64 bytes of `a-z A-Z 0-9 . _ -`.
pub fn is_socket_name(name: &[u8]) -> bool
    ensures { result ≡ is_socket_name name.now }
{
    if name.is_empty() || name.len() > MOST_NAME_BYTES {
        return false;
    }
    for byte in name {
        if !is_socket_byte(*byte) {
            return false;
        }
    }
    true
}

fn is_socket_byte(byte: u8) -> bool
    ensures { result ≡ is_socket_byte byte }
{
    (b'a' <= byte && byte <= b'z')
        || (b'A' <= byte && byte <= b'Z')
        || (b'0' <= byte && byte <= b'9')
        || byte == b'.'
        || byte == b'_'
        || byte == b'-'
}

//! The common names of certificates.

ghost use Rattle.std.specs.Prelude.{◌≡◌};
ghost use Rattle.proxy_header.specs.Names.{is_common_byte, is_common_name};

/// The maximum number of bytes of a common name.
pub const MOST_NAME_BYTES: usize = 64;

/// Tests whether these bytes are a common name that the proxy accepts: 1 to 64 bytes of printable
/// ASCII.
pub fn is_common_name(name: &[u8]) -> bool
    ensures { result ≡ is_common_name name.now }
{
    if name.is_empty() || name.len() > MOST_NAME_BYTES {
        return false;
    }
    for byte in name {
        if !is_common_byte(*byte) {
            return false;
        }
    }
    true
}

fn is_common_byte(byte: u8) -> bool
    ensures { result ≡ is_common_byte byte }
{
    b' ' <= byte && byte <= b'~'
}

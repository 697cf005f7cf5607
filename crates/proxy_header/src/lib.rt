//! The header of the PROXY protocol, version 2, by which HAProxy names the client of a connection.
//!
//! [`header_length`] finds the end of a header in the bytes that have arrived. [`common_name`] finds the common name of
//! the client's certificate in a whole header. `specs/Headers.antt` defines which headers name a client: those with the
//! command PROXY and one SSL field with the SSL bit, a client certificate bit, the verification result 0 and one common
//! name. Every other header is refused.
#![tactic(auto)]

mod fields;
mod header;
mod names;

pub use header::{HeaderLength, MOST_HEADER_BYTES, common_name, header_length};
pub use names::{MOST_NAME_BYTES, is_common_name};

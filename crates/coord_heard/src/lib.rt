//! Clients parse what the server prints, and the server parses what clients print: laws that join the
//! lines of coord_admin to the parsers of coord_wire, and the reverse. The crate has no code.
#![tactic(auto)]

pub mod laws;

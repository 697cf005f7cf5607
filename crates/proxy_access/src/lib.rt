//! Which principals may send which requests through the proxy: the policy of the proxy's core.
//!
//! [`Access`] has the rules of the policy file, and the list of principals. A principal's place in this list,
//! counted from 1, is the role of its connections. `Access` parses a line (proxy_request), applies the rules
//! (proxy_policy), and returns what the core needs to know about the line (proxy_core's `Policy`), as
//! `specs/Access.antt` defines. The proxy's own connection has role 0. This role may send only `show` and the
//! order that finds the last number of the proxy's client.
#![tactic(auto)]

mod access;
mod judging;
mod resets;
mod table;

pub use access::PROXY_ROLE;
pub use resets::{Judged, judge_line};
pub use table::{Access, MOST_PRINCIPALS};

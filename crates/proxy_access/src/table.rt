//! The table of principals.

ghost use Rattle.std.specs.Prelude.{◌≤◌, length};
ghost use Rattle.proxy_access.specs.declared.table.TheConstants.{MOST_PRINCIPALS};

use proxy_policy::Policy;

/// The maximum number of principals that may get a role before the proxy is restarted.
pub const MOST_PRINCIPALS: usize = 65_535;

/// A policy, and the principals that have a role.
#[derive(Debug, Drop)]
pub struct Access {
    pub(crate) policy: Policy,
    /// The principals, in the order of their roles: the first one has role 1.
    pub(crate) principals: Vec<String>,
    ghost few: { length principals.items ≤ MOST_PRINCIPALS },
}

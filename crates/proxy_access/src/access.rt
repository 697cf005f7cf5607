//! The policy, and the principal that each role belongs to.

ghost use Rattle.std.specs.Prelude.{◌≡◌, ◌≢◌, ◌≤◌, ℕ, [], length, map, string_bytes, take, IfNone, IfOk, IfSome, MatchOption, OnErr, Some};
ghost use Rattle.std.specs.Option.{option_copied};
ghost use Rattle.proxy_access.specs.Access.{KeepsItsRole, may, may_order_if, access_principals, principal_of, access_rules};

use crate::judging::is_own;
use crate::table::{Access, MOST_PRINCIPALS};
use proxy_policy::Policy;
use proxy_request::Request;
use std::alloc::{AllocError, Global};

/// The role of the proxy's own connection.
pub const PROXY_ROLE: u32 = 0;

impl Access {
    /// Returns a table with this policy and no principals.
    pub fn new(alloc: Global, policy: Policy) -> Self
        ensures rules { access_rules result ≡ policy.rules.items }
        ensures principals { access_principals result ≡ [] }
    {
        Access {
            policy,
            principals: Vec::new(alloc),
        }
    }

    /// Returns the role of a principal, and gives the principal a role if it has none. The role stays the same from
    /// then on. Returns None if `MOST_PRINCIPALS` other principals already have a role. Errors: out of memory.
    #[tactic(auto, using(crate::proofs::Roles::kept, crate::proofs::Roles::kept_all, crate::proofs::Roles::role_of_last))]
    pub fn role_of(&mut self, alloc: Global, principal: &str) -> Result<Option<u32>, AllocError>
        ensures role { IfOk result (λ found. MatchOption found (length (access_principals self.old) ≡ MOST_PRINCIPALS) (λ role. principal_of (access_principals self.new) role ≡ Some principal.now)) }
        ensures known { KeepsItsRole (access_principals self.old) (access_principals self.new) principal.now result }
        ensures others { take (length (access_principals self.old)) (access_principals self.new) ≡ access_principals self.old }
        ensures rules { access_rules self.new ≡ access_rules self.old }
        ensures err { OnErr result (access_principals self.new ≡ access_principals self.old) }
    {
        if let Some(role) = role_among(self.principals.as_slice(), principal) {
            return Ok(Some(role));
        }
        if self.principals.len() >= MOST_PRINCIPALS {
            return Ok(None);
        }
        let mut name = String::new(alloc);
        name.push_str(principal)?;
        self.principals.push(name)?;
        Ok(Some(self.principals.len() as u32))
    }

    /// Returns the principal of a role, or None for the proxy's own role and for a role that no
    /// principal has.
    #[tactic(auto, using(crate::proofs::Roles::name_of_role))]
    pub fn principal(&self, role: u32) -> Option<&str>
        ensures { option_copied result ≡ principal_of (access_principals self.now) role }
    {
        if role == PROXY_ROLE {
            return None;
        }
        let name = self.principals.get(role as usize - 1)?;
        Some(name.as_str())
    }

    /// Replaces the policy. The principals keep their roles.
    pub fn replace(&mut self, policy: Policy)
        ensures rules { access_rules self.new ≡ policy.rules.items }
        ensures principals { access_principals self.new ≡ access_principals self.old }
    {
        self.policy = policy;
    }

    /// Tests whether connections in this role may send any request other than `show` and `watch`.
    pub fn may_order(&self, role: u32) -> bool
        ensures { result ≡ may_order_if (access_rules self.now) (principal_of (access_principals self.now) role) }
    {
        let Some(name) = self.principal(role) else {
            return false;
        };
        self.policy.may_order(name)
    }

    /// Tests whether connections in this role may send this request.
    pub fn may(&self, role: u32, request: &Request) -> bool
        ensures { result ≡ may (access_rules self.now) (access_principals self.now) role request.now }
    {
        if role == PROXY_ROLE {
            return is_own(request);
        }
        match self.principal(role) {
            Some(name) => self.policy.allows(name, request),
            None => false,
        }
    }
}

/// Returns the role of a principal, or None if it has none yet.
#[tactic(auto, using(crate::proofs::Roles::role_of_item))]
fn role_among(principals: &[String], principal: &str) -> Option<u32>
    requires { length principals.now ≤ MOST_PRINCIPALS }
    ensures some { IfSome result (λ role. principal_of (map string_bytes principals.now) role ≡ Some principal.now) }
    ensures none { IfNone result ((role : ℕ) → principal_of (map string_bytes principals.now) role ≢ Some principal.now) }
{
    for place in 0..principals.len() {
        if principals[place].as_str() == principal {
            return Some(place as u32 + 1);
        }
    }
    None
}

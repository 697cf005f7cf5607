//! Parses a policy.

ghost use Rattle.std.specs.Prelude.{◌≡◌, ◌≢◌, ◌≤◌, length, map, Err, IfErr, IfOk, Ok};
ghost use Rattle.proxy_policy.specs.declared.fault.PolicyFault.TheVariants.{OutOfMemory};
ghost use Rattle.proxy_policy.specs.Reading.{reading};
ghost use Rattle.proxy_policy.specs.Values.{content};

use crate::fault::PolicyFault;
use crate::keys::has_right_keys;
use crate::rule::Policy;
use crate::values::rules_of;
use std::alloc::Global;

/// The maximum number of bytes of a policy text.
pub const MAX_POLICY_BYTES: usize = 1_048_576;

/// Returns the rules of a policy's text.
///
/// Errors: `NotToml` if the text has more than `MAX_POLICY_BYTES` bytes, or the crate `toml` does not accept it as a
/// table; `BadKey` if a key is missing or unknown; `BadValue` if all keys are right and some value is wrong;
/// `OutOfMemory`, but never for a text that is too long.
pub fn read_policy(alloc: Global, text: &str) -> Result<Policy, PolicyFault>
    ensures ok { IfOk result (λ policy. reading text.now ≡ Ok (map content policy.rules.items)) }
    ensures refused { IfErr result (λ fault. fault ≢ OutOfMemory → reading text.now ≡ Err fault) }
    ensures within_limit { result ≡ Err OutOfMemory → length text.now ≤ MAX_POLICY_BYTES }
{
    if text.len() > MAX_POLICY_BYTES {
        return Err(PolicyFault::NotToml);
    }
    let table = match toml::table_from_str(alloc, text) {
        Ok(table) => table,
        Err(error) if error.is_memory() => return Err(PolicyFault::OutOfMemory),
        Err(_) => return Err(PolicyFault::NotToml),
    };
    if !has_right_keys(&table) {
        return Err(PolicyFault::BadKey);
    }
    let rules = rules_of(alloc, &table)?;
    Ok(Policy { rules })
}

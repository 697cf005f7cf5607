//! Reads a topology file.

ghost use Rattle.std.specs.Prelude.{◌≡◌, ◌≢◌, ◌≤◌, length, Err, IfErr, IfOk, Ok};
ghost use Rattle.toml.specs.Errors.{IsBlank};
ghost use Rattle.coord_config.specs.declared.fault.ConfigFault.TheVariants.{OutOfMemory};
ghost use Rattle.coord_config.specs.Reading.{reading};
ghost use Rattle.coord_config.specs.Topology.{content};

use crate::fault::ConfigFault;
use crate::keys::has_right_keys;
use crate::topology::Topology;
use crate::values::values_of;
use std::alloc::Global;

/// The maximum length of a topology file, in bytes.
pub const MAX_TEXT_BYTES: usize = 65_536;

/// Reads the topology that a text describes.
///
/// Returns `NotToml` if the text has more than `MAX_TEXT_BYTES` bytes or the crate `toml` does not
/// read it as a table, `BadKey` if a key is missing or unknown, `BadValue` if all keys are right
/// but a value has a wrong type or is out of range, or `OutOfMemory`. It never returns
/// `OutOfMemory` for a text that is too long, or that has only white space and comments.
pub fn read_topology(alloc: Global, text: &str) -> Result<Topology, ConfigFault>
    ensures ok { IfOk result (λ topology. reading text.now ≡ Ok (content topology)) }
    ensures refused { IfErr result (λ fault. fault ≢ OutOfMemory → reading text.now ≡ Err fault) }
    ensures within_limit { result ≡ Err OutOfMemory → length text.now ≤ MAX_TEXT_BYTES }
    ensures not_blank { result ≡ Err OutOfMemory → ¬ IsBlank text.now }
{
    if text.len() > MAX_TEXT_BYTES {
        return Err(ConfigFault::NotToml);
    }
    let table = match toml::table_from_str(alloc, text) {
        Ok(table) => table,
        Err(error) if error.is_memory() => return Err(ConfigFault::OutOfMemory),
        Err(_) => return Err(ConfigFault::NotToml),
    };
    if !has_right_keys(&table) {
        return Err(ConfigFault::BadKey);
    }
    values_of(alloc, &table)
}

//! Reads a topology file.

ghost use Rattle.std.specs.Prelude.{◌≡◌, ◌≢◌, ◌⊎◌, take, Err, IfErr, IfOk, IfSome, Ok};
ghost use Rattle.coord_commands.specs.Topology.{IsOfText, said_by};
ghost use Rattle.coord_commands.specs.declared.fault.Fault.TheVariants.{OutOfMemory as NoMemory, Read as FailedRead, Topology as Refused};
ghost use Rattle.coord_config.specs.Topology.{content};
ghost use Rattle.coord_config.specs.declared.fault.ConfigFault.{ConfigFault as Reason};
ghost use Rattle.coord_config.specs.declared.fault.ConfigFault.TheVariants.{OutOfMemory};

use crate::fault::Fault;
use coord_config::{ConfigFault, MAX_TEXT_BYTES, Topology, read_topology};
use std::alloc::Global;
use std::io::Read;
use std::str;

/// The maximum number of bytes to read: one more than the longest valid topology file has.
const MOST_BYTES: u64 = MAX_TEXT_BYTES as u64 + 1;

/// Reads a topology file.
pub fn topology_from<R: Read + Drop>(alloc: Global, reader: R) -> Result<Topology, Fault>
    ensures ok { IfSome (R.remaining reader) (λ bytes.
        IfOk result (λ topology. said_by (take MOST_BYTES bytes) ≡ Ok (content topology))) }
    ensures refused { (reason : Reason) → reason ≢ OutOfMemory →
        IfSome (R.remaining reader) (λ bytes.
        IfErr result (λ fault. fault ≡ Refused reason →
        said_by (take MOST_BYTES bytes) ≡ Err reason)) }
    ensures named { IfErr result IsOfText }
{
    let bytes = front_of(alloc, reader)?;
    topology_of(alloc, &bytes)
}

/// Reads at most the first `MOST_BYTES` bytes. Errors: `Read`, or out of memory.
fn front_of<R: Read + Drop>(alloc: Global, reader: R) -> Result<Vec<u8>, Fault>
    ensures bytes { IfOk result (λ front. IfSome (R.remaining reader) (λ bytes. front.items ≡
        take MOST_BYTES bytes)) }
    ensures fault { IfErr result (λ fault. (fault ≡ FailedRead) ⊎ (fault ≡ NoMemory)) }
{
    let mut bytes = Vec::new(alloc);
    match reader.take(MOST_BYTES).read_to_end(&mut bytes) {
        Ok(_) => Ok(bytes),
        Err(error) => Err(Fault::or_memory(&error, Fault::Read)),
    }
}

/// Parses a topology.
fn topology_of(alloc: Global, bytes: &[u8]) -> Result<Topology, Fault>
    ensures ok { IfOk result (λ topology. said_by bytes.now ≡ Ok (content topology)) }
    ensures refused { (reason : Reason) → reason ≢ OutOfMemory →
        IfErr result (λ fault. fault ≡ Refused reason → said_by bytes.now ≡ Err reason) }
    ensures named { IfErr result IsOfText }
{
    match str::from_utf8(bytes) {
        Ok(text) => Ok(read_topology(alloc, text)?),
        Err(_) => Err(Fault::Topology(ConfigFault::NotToml)),
    }
}

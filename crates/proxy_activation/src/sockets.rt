//! The descriptors of the sockets.

ghost use Rattle.std.specs.Prelude.{◌≡◌, ◌≢◌, ◌⊎◌, IfErr, IfOk, length, map, string_bytes};
ghost use Rattle.proxy_activation.specs.Passing.{counted_from};
ghost use Rattle.proxy_activation.specs.declared.fault.ActivationFault.TheVariants.{OtherCount, OutOfMemory};

use crate::fault::ActivationFault;
use std::alloc::Global;

/// The descriptor of the first socket.
pub const FIRST_DESCRIPTOR: u32 = 3;

/// A socket that the service manager opened.
#[derive(Clone, Copy)]
pub struct PassedSocket<'n> {
    pub name: &'n str,
    pub descriptor: u32,
}

/// Pairs each name with the descriptor at the same position, beginning with `FIRST_DESCRIPTOR`. Errors: out of memory,
/// or the number of names is not the number of opened sockets.
pub fn name_sockets<'n>(
    alloc: Global,
    names: &'n [String],
    opened: u16,
) -> Result<Vec<PassedSocket<'n>>, ActivationFault>
    ensures names { IfOk result (λ sockets. map (λ socket. socket.name.now) sockets.items ≡ map string_bytes names.now) }
    ensures descriptors { IfOk result (λ sockets. map (λ socket. socket.descriptor) sockets.items ≡ counted_from FIRST_DESCRIPTOR opened) }
    ensures err { IfErr result (λ fault. (fault ≡ OutOfMemory)
        ⊎ ((fault ≡ OtherCount opened (length names.now)) × (length names.now ≢ opened))) }
{
    let named = names.len();
    if named != opened as usize {
        return Err(ActivationFault::OtherCount { opened, named });
    }
    let mut sockets = Vec::new(alloc);
    let mut descriptor = FIRST_DESCRIPTOR;
    for name in names {
        let name = name.as_str();
        sockets.push(PassedSocket { name, descriptor })?;
        descriptor += 1;
    }
    Ok(sockets)
}

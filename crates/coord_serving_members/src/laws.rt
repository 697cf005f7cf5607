//! The law of members that look at one server, as the contract of an empty function.

ghost use Rattle.coord_serving_members.specs.Server.{NoMixOverAServer};

use coord_admin::Callers;
use coord_disk::Disk;
use coord_server::SignalSource;
use std::io::Write;

/// Whatever a server does over a store, in all its instances: members that begin with nothing, follow
/// the rule, and look at the views that the server showed mix no runs, even if they lose all their
/// files. Each member reads its views in the order in which the server wrote them; it may skip some.
pub fn no_mix_over_a_server<D: Disk, C: Callers, W: Write, O: SignalSource>()
    ensures { NoMixOverAServer D.model C.talked C.failed W.contents O.gives }
{}

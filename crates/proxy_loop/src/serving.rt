//! Runs the event loop.

ghost use Rattle.std.specs.Prelude.{IsErr};

use crate::event_loop::EventLoop;
use crate::gateway::{Gateway, Moment};
use crate::ready::Ready;
use crate::recording::write;
use mio::{Events, Poll, Registry};
use std::fs::{File, Files};
use std::io;
use std::net::Net;
use std::sync::Wait;
use std::time::{Clock, Duration, SystemTime};

const MOST_EVENTS: usize = 1024;

/// Serves the connections of all listeners. Returns only with an error: the system refuses a call, or memory runs out.
///
/// No contract describes the loop until then, but its types ensure the order of the audit. An answer of the server is
/// appended to the bytes for a client only as a `Recorded`, which only `record` makes. Bytes are sent to a client only
/// with a `Written`, which only `write` makes; while it exists, nothing can be recorded. Only `push_flight` writes the
/// flight to the server.
pub fn serve<R: Net + Files<File = File> + AllocGlobal + Clock + Wait + Print + Eprint, G: Gateway>(
    rt: &R,
    event_loop: &mut EventLoop<G>,
) -> io::Result<()>
    ensures { IsErr result }
{
    let mut poll = Poll::new(rt)?;
    let mut events = Events::with_capacity(event_loop.alloc, MOST_EVENTS)?;
    event_loop.register(poll.registry())?;
    for _ in rt.forever() {
        poll.poll(&mut events, event_loop.timeout())?;
        event_loop.at = moment(rt)?;
        if events.is_empty() {
            // A signal ended the wait, perhaps a late one: what is ready by now counts.
            poll.poll(&mut events, Some(Duration::ZERO))?;
        }
        for event in events.iter() {
            event_loop.note(Ready::of(event))?;
        }
        event_loop.refresh(rt)?;
        event_loop.watch_signals(rt);
        event_loop.turn(rt, poll.registry())?;
        event_loop.report(rt)?;
    }
    unreachable!()
}

impl<G: Gateway> EventLoop<G> {
    /// Does the work that the events made possible, then ends whatever was silent or late when the events came, and last
    /// sends the next flight. The time of that flight is read just before, so a long turn does not count against it.
    fn turn<R: Net + Files<File = File> + AllocGlobal + Clock + Print + Eprint>(
        &mut self,
        rt: &R,
        registry: &Registry,
    ) -> io::Result<()> {
        self.hear()?;
        self.drive(rt, registry)?;
        self.accept_all(registry)?;
        self.step_all(rt)?;
        self.tick()?;
        write(rt, &mut self.gateway);
        self.at = moment(rt)?;
        self.drive(rt, registry)
    }

    /// Reports on standard error whether the server answers, each time this changes.
    fn report<R: Eprint>(&mut self, rt: &R) -> io::Result<()> {
        if self.reported == self.is_answering {
            return Ok(());
        }
        match self.is_answering {
            Some(true) => eprintln!(rt; "resetd-proxy: the server answers")?,
            Some(false) => eprintln!(rt; "resetd-proxy: no server answers")?,
            None => {}
        }
        self.reported = self.is_answering;
        Ok(())
    }
}

/// Returns the present moment by both clocks.
fn moment<R: Clock>(rt: &R) -> io::Result<Moment> {
    Ok(Moment {
        now: rt.monotonic()?,
        time: SystemTime::now(rt)?,
    })
}

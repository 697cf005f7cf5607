//! Serves a store in a folder.

ghost use Rattle.std.specs.Prelude.{◌≡◌, List, [], false, IfErr, IfNone, IfOk, IfSome, None, OnOk};
ghost use Rattle.std.specs.Io.KnownBytes.{Keeps};
ghost use Rattle.std.specs.Net.Grammar.{IsSocketV4Text};
ghost use Rattle.std.specs.declared.net.socket_addr.SocketAddrV4.{SocketAddrV4};
ghost use Rattle.coord_commands.specs.Folders.{bytes_of, reads};
ghost use Rattle.coord_commands.specs.Serving.{EndsServing, IsNotOpened, IsOfServing, IsOpenedStore, ServedWhole, ServedWithOutput, ServesAt};
ghost use Rattle.coord_engine.specs.Released.{GivesSignal, MayPrint};
ghost use Rattle.coord_server.specs.Signals.{MaySignal};
ghost use Rattle.coord_store.specs.Kept.{has_stopped};
ghost use Rattle.coord_store.specs.Recovered.{Recovered};
ghost use Rattle.coord_types.specs.declared.steps.Step.{Step};
ghost use Rattle.coord_world.specs.Facade.{fold};

use crate::fault::Fault;
use crate::folder::{FileFolder, Folder};
use crate::lent::Lent;
use crate::status::report;
use crate::streams::Streams;
use coord_disk::{Disk, Takable};
use coord_engine::{Closed, LogAuthority, MonotoneLog};
use coord_server::{ServerFault, SignalPrinter, SignalSource, serve_store};
use coord_store::Store;
use std::alloc::Global;
use std::fs::File;
use std::io;
use std::io::{Read, Write};
use std::marker::Brand;
use std::net::{Net, OpenListener, OpenStream, SocketAddr, SocketAddrV4, TcpListener};
use std::rt::Files;
use std::sync::Wait;
use std::thread::Threads;
use std::time::Clock;

/// Serves the store in a file to the connections made to an address, until a line on one of them closes
/// the store, and returns the exit status. The file is locked while it is served. The address, in the
/// form `A.B.C.D:P`, is checked before the file is opened.
pub fn serve<
    S: Files<File = File> + Net + Threads + Wait + Clock + Sync + AllocGlobal,
    R: Read,
    W: Write + Send,
    E: Write,
>(rt: &S, file: &str, address: &str, streams: &mut Streams<R, W, E>) -> u8
    ensures served { ServesAt (IsOfServing None) address.now None None result
        streams.old.known.errors streams.new.known.errors }
    ensures unread { streams.new.input ≡ streams.old.input }
    ensures usage { ((a : SocketAddrV4) → ¬ IsSocketV4Text address.now a) → result ≡ 2 }
{
    let mut folder = FileFolder::new(rt);
    serve_in(rt, &mut folder, file, address, streams)
}

/// Serves the store on the named disk to the connections made to an address, until a line on one of
/// them closes the store, and returns the exit status. The address is checked before the disk is
/// opened, and the socket is bound once the store is open. The disk is put back in any case. A server
/// may have changed it; it is unchanged if its store is refused, no socket can be bound, or memory runs
/// out at the beginning. Only the server prints to the output.
pub fn serve_in<
    S: Net + Threads + Wait + Clock + Sync + AllocGlobal,
    F: Folder,
    R: Read,
    W: Write + Send,
    E: Write,
>(rt: &S, folder: &mut F, file: &str, address: &str, streams: &mut Streams<R, W, E>) -> u8
    ensures served { ServesAt (EndsServing F.Disk.model (F.holds folder.old file.now)
        (F.holds folder.new file.now) streams.old.known.output streams.new.known.output)
        address.now (reads (F.holds folder.old file.now))
        (reads (F.holds folder.new file.now)) result streams.old.known.errors
        streams.new.known.errors }
    ensures unread { streams.new.input ≡ streams.old.input }
    ensures closed { result ≡ 0 → ServedWhole F.Disk.model (F.holds folder.old file.now)
        (F.holds folder.new file.now) streams.old.known.output streams.new.known.output }
    ensures usage { ((a : SocketAddrV4) → ¬ IsSocketV4Text address.now a) → (result ≡ 2) ×
        (folder.new ≡ folder.old) × Keeps streams.old.known.output streams.new.known.output }
{
    let Some(place) = address_of(address) else {
        return report(Err(Fault::Usage), &mut streams.errors);
    };
    report(
        serve_at(rt, folder, file, place, &mut streams.output),
        &mut streams.errors,
    )
}

fn serve_at<S: Net + Threads + Wait + Clock + Sync + AllocGlobal, F: Folder, W: Write + Send>(
    rt: &S,
    folder: &mut F,
    file: &str,
    address: SocketAddrV4,
    output: &mut W,
) -> Result<(), Fault>
    ensures served { OnOk result (ServedWhole F.Disk.model (F.holds folder.old file.now)
        (F.holds folder.new file.now) (W.contents output.old) (W.contents output.new)) }
    ensures fault { IfErr result (EndsServing F.Disk.model (F.holds folder.old file.now)
        (F.holds folder.new file.now) (W.contents output.old) (W.contents output.new)) }
{
    let store = opened(rt.alloc(), folder, file)?;
    match listening(rt, address) {
        Ok(listener) => {
            let served = serve_open(rt, rt.alloc(), store, &listener, output);
            drop(listener);
            match served {
                Ok(Ok(closed)) => {
                    folder.close(file, left(closed));
                    Ok(())
                }
                Ok(Err((fault, closed))) => {
                    folder.close(file, left(closed));
                    Err(fault.into())
                }
                Err(store) => {
                    folder.close(file, store.into_disk());
                    Err(Fault::OutOfMemory)
                }
            }
        }
        Err(_) => {
            folder.close(file, store.into_disk());
            Err(Fault::Socket)
        }
    }
}

/// Serves an opened store to the connections of a listener, until a line closes it. Returns the parts
/// of the last engine, together with the fault if there is one; or, if memory ran out at the beginning,
/// the store and the output unchanged. Only the server prints to the output.
fn serve_open<
    'a,
    D: Disk + Send,
    S: Read + Write + OpenStream + Drop,
    A: OpenListener<Stream = S>,
    W: Write + Send,
    R: Threads + Wait + Clock + Sync,
>(
    rt: &'a R,
    alloc: Global,
    store: Store<D>,
    listener: &'a A,
    output: &mut W,
) -> Result<Result<Closed<D>, (ServerFault, Closed<D>)>, Store<D>>
    requires { has_stopped store ≡ false }
    ensures served { IfOk result (ServedWithOutput D.model (GivesSignal store.world) store
        (W.contents output.old) (W.contents output.new)) }
    ensures going { IfOk result (λ answered. IfOk answered (λ closed. has_stopped closed.store ≡ false)) }
    ensures unserved { IfErr result (λ back. (back ≡ store) ×
        Keeps (W.contents output.old) (W.contents output.new)) }
{
    let Ok(written) = MonotoneLog::new(alloc) else {
        return Err(store);
    };
    serve_and_report::<D, S, A, W, Brand, R>(rt, alloc, store, listener, output, written)
}

/// Serves an opened store, over a new history that `O` names, and prints the signals of settled steps.
fn serve_and_report<
    'a,
    D: Disk + Send,
    S: Read + Write + OpenStream + Drop,
    A: OpenListener<Stream = S>,
    W: Write + Send,
    O: SignalSource + Send + Sync,
    R: Threads + Wait + Clock + Sync,
>(
    rt: &'a R,
    alloc: Global,
    store: Store<D>,
    listener: &'a A,
    output: &mut W,
    written: (MonotoneLog, LogAuthority),
) -> Result<Result<Closed<D>, (ServerFault, Closed<D>)>, Store<D>>
    requires going { has_stopped store ≡ false }
    requires here { written.0 ≡ O.history }
    requires new { written.1 ≡ record { history = O.history; steps = [] } }
    requires may_print { (earlier : List Step) → MayPrint O.history earlier (fold store.world earlier)
        (MaySignal O.history O.gives) }
    ensures served { IfOk result (ServedWithOutput D.model O.gives store
        (W.contents output.old) (W.contents output.new)) }
    ensures going { IfOk result (λ answered. IfOk answered (λ closed. has_stopped closed.store ≡ false)) }
    ensures unserved { IfErr result (λ back. (back ≡ store) ×
        Keeps (W.contents output.old) (W.contents output.new)) }
{
    let since = store.world().count();
    let printer: SignalPrinter<Lent<'_, W>, O> = SignalPrinter::new(alloc, Lent { output }, since);
    match serve_store(rt, alloc, store, listener, printer, written) {
        Ok(ended) => {
            let (served, printed) = ended.into_closed();
            let Lent { output: _back } = printed.into_output();
            Ok(served)
        }
        Err(unserved) => {
            let (store, unprinted) = unserved;
            let Lent { output: _back } = unprinted.into_output();
            Err(store)
        }
    }
}

/// Returns a listener at an address, if a descriptor is left for a connection. Without that descriptor
/// the server would listen but answer nobody.
fn listening<S: Net>(rt: &S, address: SocketAddrV4) -> io::Result<S::Listener> {
    let listener = TcpListener::bind(rt, SocketAddr::V4(address))?;
    let spare = listener.try_clone()?;
    drop(spare);
    Ok(listener)
}

/// Opens the disk with this name, and the store on it. If the store is refused, puts the disk back.
fn opened<F: Folder>(alloc: Global, folder: &mut F, file: &str) -> Result<Store<F::Disk>, Fault>
    ensures opened { IfOk result (IsOpenedStore F.Disk.model (F.holds folder.old file.now)) }
    ensures going { IfOk result (λ store. has_stopped store ≡ false) }
    ensures fault { IfErr result (IsNotOpened F.Disk.model (F.holds folder.old file.now)
        (F.holds folder.new file.now)) }
{
    let disk = folder.open(file)?;
    match Store::open(alloc, disk) {
        Ok(store) => Ok(store),
        Err((fault, disk)) => {
            folder.close(file, disk);
            Err(Fault::Store(fault))
        }
    }
}

/// Returns the disk of a store that was served.
fn left<D: Disk + Takable>(closed: Closed<D>) -> D
    ensures disk { result ≡ closed.store.disk }
    ensures bytes { has_stopped closed.store ≡ false → IfSome
        (bytes_of D.model result) (λ known. Recovered known closed.store.world) }
{
    closed.store.into_disk()
}

/// Parses an address: four numbers up to 255 without leading zeros, and a port.
fn address_of(argument: &str) -> Option<SocketAddrV4>
    ensures some { IfSome result (IsSocketV4Text argument.now) }
    ensures none { IfNone result ((a : SocketAddrV4) → ¬ IsSocketV4Text argument.now a) }
{
    argument.parse().ok()
}

//! The ledger: a base world, the steps accepted since, the number of settled steps, and the store,
//! unless a flight carries the store.

ghost use Rattle.std.specs.Prelude.{◌≡◌, ◌≤◌, false, true, is_some, None, Some, IfErr, IfOk, IfSome};
ghost use Rattle.coord_types.specs.declared.limits.TheConstants.{MAX_STEPS};
ghost use Rattle.coord_store.specs.Kept.{has_stopped};
ghost use Rattle.coord_types.specs.Table.{get};
ghost use Rattle.coord_world.specs.protocol.Acceptance.{last_number};
ghost use Rattle.coord_ledger.specs.machine.Log.{accepted_count, front_world, settled_count, settled_world};

mod collecting;
mod flushing;
mod parts;
mod showing;
mod submitting;

use coord_disk::Disk;
use coord_store::Store;
use coord_types::{Client, Kind, Output, Step};
use coord_world::World;
use std::alloc::{AllocError, Global};
use std::collections::VecDeque;
use std::marker::Model;

/// A new ledger allocates room for this many steps. A trail within this room never moves. The room
/// takes more than 32 MiB, so the C library maps it separately and returns it to the system when
/// the ledger is dropped; smaller blocks would stay with the thread that allocated them.
const TRAIL_ROOM: usize = 700_000;

/// The steps accepted since a base world, and the number of steps that are settled on the disk.
/// Contracts see `LedgerState` (`specs/ledger/State.antt`): the log, with the steps in doubt once
/// the ledger has stopped; the number of steps in flight; and the disk, unless a flight carries it.
///
/// A ledger keeps every step accepted since the ledger was created, at most 1,024 of them
/// unsettled. It also keeps the world after all steps (the front world), the world after the
/// settled steps, and the outputs of each unsettled step.
#[derive(Drop)]
pub struct Ledger<D: Disk> {
    alloc: Global,
    base: World,
    trail: Vec<Step>,
    /// The kinds of the replies to the steps of the trail. With these kinds, `collect` compares exactly
    /// and allocates nothing.
    kinds: Vec<Kind>,
    /// The outputs of each unsettled step, recorded by `hand_in`. A step's outputs are released once
    /// the step is settled, so this list does not grow with the number of settled steps.
    given: VecDeque<Vec<Output>>,
    /// The number of settled steps of the trail.
    done: usize,
    front: World,
    settled: World,
    /// The number of steps in flight. It is meaningful only while the store is away.
    out: usize,
    doubt: Option<usize>,
    store: Option<Store<D>>,
}

impl<D: Disk> Model for Ledger<D> {
    ghost use Rattle.coord_ledger.specs.code.Holding.{IsLedger, disk_at, listed, out_of};
    ghost use Rattle.coord_ledger.specs.ledger.State.{LedgerState};

    ghost Value = { LedgerState D };

    ghost view = { λ l. record {
      log = record {
        base = l.base;
        trail = l.trail.items;
        settled = l.done;
        doubt = l.doubt;
      };
      out = out_of l.store l.out;
      disk = disk_at l.store;
    } };

    ghost invariant = { λ l. IsLedger (record {
      base = l.base;
      trail = l.trail.items;
      settled = l.done;
      doubt = l.doubt;
    }) l.kinds.items (listed l.given.items) l.front l.settled l.out l.store };
}

/// Returns three copies of a world: for the base, for the front world and for the settled world.
/// Errors: out of memory.
fn copies(world: &World) -> Result<(World, World, World), AllocError>
    ensures base { IfOk result (λ r. r.0 ≡ world.now) }
    ensures front { IfOk result (λ r. r.1 ≡ world.now) }
    ensures settled { IfOk result (λ r. r.2 ≡ world.now) }
{
    let base = world.copy()?;
    let front = match world.copy() {
        Ok(front) => front,
        Err(fault) => {
            drop(base);
            return Err(fault);
        }
    };
    match world.copy() {
        Ok(settled) => Ok((base, front, settled)),
        Err(fault) => {
            drop(base);
            drop(front);
            Err(fault)
        }
    }
}

impl<D: Disk> Ledger<D> {
    ghost use Rattle.coord_ledger.specs.Facade.{LedgerGives, ledger_over};

    /// Makes a ledger over a store that has not stopped. The store's world becomes the base, and the
    /// trail is empty. If memory runs out, returns the store.
    pub fn adopt(alloc: Global, store: Store<D>) -> Result<Self, (AllocError, Store<D>)>
        requires { has_stopped store ≡ false }
        ensures adopted { IfOk result (λ ledger. ledger ≡ ledger_over store.world store.disk) }
        ensures back { IfErr result (λ refused. refused.1 ≡ store) }
    {
        let trail = match Vec::with_capacity(alloc, TRAIL_ROOM) {
            Ok(trail) => trail,
            Err(fault) => return Err((fault, store)),
        };
        let (base, front, settled) = match copies(store.world()) {
            Ok(copies) => copies,
            Err(fault) => {
                drop(trail);
                return Err((fault, store));
            }
        };
        base.lemma_in_range();
        store.lemma_images_give_world();
        Ok(Ledger {
            alloc,
            base,
            trail,
            kinds: Vec::new(alloc),
            given: VecDeque::new(alloc),
            done: 0,
            front,
            settled,
            out: 0,
            doubt: None,
            store: Some(store),
        })
    }

    /// Returns the world after all accepted steps.
    pub fn front(&self) -> &World
        ensures { result.now ≡ front_world self.now.log }
    {
        &self.front
    }

    /// Returns the world after the settled steps.
    pub fn settled(&self) -> &World
        ensures { result.now ≡ settled_world self.now.log }
    {
        &self.settled
    }

    /// Returns the number of settled steps, including those before the base.
    pub fn settled_count(&self) -> u64
        ensures value { result ≡ settled_count self.now.log }
        ensures bounded { result ≤ MAX_STEPS }
    {
        self.settled.lemma_in_range();
        self.settled.count()
    }

    /// Returns the number of accepted steps, including those before the base.
    pub fn accepted_count(&self) -> u64
        ensures value { result ≡ accepted_count self.now.log }
        ensures bounded { result ≤ MAX_STEPS }
    {
        self.front.lemma_in_range();
        self.front.count()
    }

    /// Tests whether the ledger has stopped. A ledger stops when a flight returns torn, because its
    /// device failed. From then on it accepts and flushes nothing.
    pub fn stopped(&self) -> bool
        ensures { result ≡ is_some self.now.log.doubt }
    {
        self.doubt.is_some()
    }

    /// Returns the number of a client's last accepted order, or 0 if the client has none.
    pub fn last(&self, client: Client) -> u64
        ensures { result ≡ last_number (get (front_world self.now.log).sessions client) }
    {
        match self.front.last(client) {
            None => 0,
            Some(session) => session.number,
        }
    }

    /// Returns the store. Pending steps are lost. If a flight carries the store, returns the ledger.
    pub fn close(self) -> Result<Store<D>, Self>
        ensures home { IfOk result (λ store. self.disk ≡ Some store.disk) }
        ensures world { IfOk result (λ store. store.world ≡ settled_world self.log) }
        ensures stopped { IfOk result (λ store. has_stopped store ≡ is_some self.log.doubt) }
        ensures out { IfErr result (λ ledger. (ledger ≡ self) × (self.disk ≡ None)) }
    {
        let (store, _base, _trail, _count) = self.into_parts()?;
        Ok(store)
    }

    /// Does nothing. Its contract states the invariant of the type.
    pub fn lemma_images_give_settled(&self)
        ensures { IfSome self.now.disk (λ disk. D.model.keeps_model disk ≡ true →
            LedgerGives D.model.present self.now disk) }
    {
        let Some(store) = &self.store else {
            return;
        };
        store.lemma_images_give_world();
    }
}

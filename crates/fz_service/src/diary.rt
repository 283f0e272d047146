//! A worker's diary: what it did, which only contracts know.

ghost use Rattle.std.specs.Prelude.{◌≡◌, ◌<◌, [], ◌∷◌, ◌++◌, IsTrue, List, length};
ghost use Rattle.std.specs.Borrow.{ftrue};
ghost use Rattle.std.specs.Coded.{coded_list};
ghost use Rattle.fz_service.specs.declared.event.Event.{Event};
ghost use Rattle.fz_service.specs.Diary.{event_code};

use crate::event::Event;
use crate::opening::Opening;
use crate::seat::{Seat, Take};
use crate::workers::Proc;
use fz_model::Entry;
use fz_world::World;
use std::marker::{Model, PhantomData};
use std::mem;
use std::snapshot::Snapshot;
use std::sync::atomic::{AtomicBool, AtomicU64, Ordering};

/// What a worker did, in order. This type has no size: only contracts see its value. `take`, `run`, `is_told`
/// and `listen` alone add to it, each what it does.
#[derive(Drop)]
pub(crate) struct Diary {
    bytes: PhantomData<Event>,
    pub(crate) ghost events: { List Event } by { coded_list event_code },
}

impl Model for Diary {
    ghost also_owns = { λ _. ftrue };
}

/// Whether a worker has served its seat to the end. Only `Diary::served` makes one that says so.
#[derive(Drop)]
pub(crate) struct Served {
    is_over: bool,
}

impl Model for Served {
    ghost use Rattle.std.specs.Prelude.{Bool};

    ghost Value = { Bool };

    ghost view = { λ s. s.is_over };
}

impl Served {
    pub(crate) fn not_yet() -> Served {
        Served { is_over: false }
    }
}

/// A diary, and an event that comes after it.
#[derive(Drop)]
struct Noted {
    before: Diary,
    event: Snapshot<Event>,
}

impl Noted {
    /// The diary with the event.
    fn all(&self) -> Diary
        ensures { result.events ≡ self.now.before.events ++ self.now.event.value ∷ [] }
    {
        Diary { bytes: PhantomData }
    }
}

impl Diary {
    /// A diary without events.
    pub(crate) fn new() -> Diary
        ensures { result.events ≡ [] }
    {
        Diary { bytes: PhantomData }
    }

    fn note(&mut self, event: Event)
        ensures { self.new.events ≡ self.old.events ++ event ∷ [] }
    {
        let event = Snapshot::of(&event);
        let before = mem::replace(self, Diary::new());
        *self = Noted { before, event }.all();
    }
}

impl Diary {
    ghost use Rattle.fz_line.specs.Takes.{GainsEntry};
    ghost use Rattle.fz_service.specs.States.{RunsCalls};
    ghost use Rattle.fz_service.specs.Takes.{MatchTake};
    ghost use Rattle.fz_service.specs.Diary.{EndsWork, told_of, empty_of};

    /// The worker has read `stop` as true, and a later take, its last one, found the line empty.
    pub(crate) fn served(&self) -> Served
        requires { EndsWork self.now.events }
        ensures { IsTrue result }
    {
        Served { is_over: true }
    }

    /// Reads whether the worker has to stop.
    pub(crate) fn is_told(&mut self, stop: &AtomicBool) -> bool
        ensures { self.new.events ≡ self.old.events ++ told_of result }
    {
        let told = stop.load(Ordering::SeqCst);
        self.note(if told { Event::Told } else { Event::NotTold });
        told
    }

    /// Reads how often the bell was rung, modulo 2^32.
    pub(crate) fn listen(&mut self, rings: &AtomicU64) -> u32
        ensures { self.new.events ≡ self.old.events ++ Event.Listened ∷ [] }
    {
        let count = rings.load(Ordering::SeqCst);
        self.note(Event::Listened);
        (count % (1 << 32)) as u32
    }

    /// Takes the first entry of the line.
    pub(crate) fn take<O: Opening>(&mut self, seat: Seat<O>) -> Take<O>
        ensures taken { MatchTake result (GainsEntry seat) (λ same. same ≡ seat) }
        ensures noted { self.new.events ≡ self.old.events ++ empty_of result }
    {
        let taken = seat.take();
        if let Take::Empty(_) = &taken {
            self.note(Event::FoundEmpty);
        }
        taken
    }

    /// Calls `run` of the procedure with this number.
    pub(crate) fn run(
        &mut self,
        procs: &mut [Box<dyn Proc + Send>],
        number: usize,
        entry: &Entry,
        world: &mut World,
    )
        requires { number < length procs.old }
        ensures calls { RunsCalls world.old world.new }
        ensures noted { self.new.events ≡ self.old.events ++ Event.Ran number entry.now.seq ∷ [] }
    {
        procs[number].run(entry, world);
        self.note(Event::Ran(number as u64, entry.seq));
    }
}

//! The eventcount that wakes sleeping workers.

ghost use Rattle.std.specs.Prelude.{◌≡◌, ◌≤◌, [], ◌∷◌, ◌++◌, length};
ghost use Rattle.fz_service.specs.declared.event.Event.TheVariants.{Listened};
ghost use Rattle.fz_service.specs.Waits.{HasLooked};

use crate::diary::Diary;
use crate::workers::Gate;
use fz_line::Owner;
use std::alloc::Global;
use std::sync::atomic::{AtomicBool, AtomicU64, Ordering};
use std::sync::{Arc, Wait};

/// A service's eventcount.
///
/// No wake-up is lost. A worker that is about to sleep counts itself as a sleeper, reads the number of rings, checks `stop` and the line once more, and
/// sleeps only if the number hasn't changed since. A waker sends its entries or sets `stop` before it checks for sleepers. All these steps are sequentially
/// consistent, so either the sleeper sees what was sent, or the waker sees the sleeper.
///
/// `sleep` requires that the worker has checked `stop` and the line since it read the number of rings. `Rung::ring` requires that entries were sent before the
/// bell is rung for them. Only a worker that counts as a sleeper reads the number and sleeps, and each sleeper is counted out again (`get_up`): the type
/// `Sleeper` ensures that.
#[derive(Drop)]
pub(crate) struct Bell {
    sleepers: AtomicU64,
    rings: AtomicU64,
}

/// The number of entries that were sent and for which the bell was rung.
#[derive(Drop)]
pub(crate) struct Rung {
    bell: Arc<Bell, Global>,
    pub(crate) entries: usize,
    /// The same number. Only `new` and `ring` can write it, so nothing else changes `entries`.
    seal: usize,
    ghost sealed: { seal ≡ entries },
}

impl Rung {
    pub(crate) fn new(bell: Arc<Bell, Global>) -> Rung
        ensures { result.entries ≡ 0 }
    {
        Rung {
            bell,
            entries: 0,
            seal: 0,
        }
    }

    /// Wakes one sleeper for each entry that was sent since the last ring, as far as there are sleepers. `sent` is how many its owner has sent.
    pub(crate) fn ring(&mut self, _owner: &Owner, sent: usize)
        requires sent { sent ≡ length _owner.now.sent }
        requires more { self.old.entries ≤ sent }
        ensures { self.new.entries ≡ sent }
    {
        self.bell.ring_for(sent - self.entries);
        self.entries = sent;
        self.seal = sent;
    }
}

/// The flag that tells workers to stop. Setting it wakes all that sleep.
#[derive(Drop)]
pub(crate) struct Stop<'a> {
    bell: &'a Bell,
    flag: AtomicBool,
}

impl<'a> Stop<'a> {
    pub(crate) fn new(bell: &'a Bell) -> Stop<'a> {
        Stop {
            bell,
            flag: AtomicBool::new(false),
        }
    }

    pub(crate) fn flag(&self) -> &AtomicBool {
        &self.flag
    }

    pub(crate) fn set(&self) {
        self.flag.store(true, Ordering::SeqCst);
        self.bell.ring();
    }
}

/// A worker that counts as a sleeper, and the number of rings that it has read, as far as a sleep compares it.
///
/// It can't be copied, cloned or dropped: only `Bell::lie_down` makes one, and only `Bell::get_up` ends it.
pub(crate) struct Sleeper {
    heard: u32,
}

impl Bell {
    pub(crate) fn new() -> Bell {
        Bell {
            sleepers: AtomicU64::new(0),
            rings: AtomicU64::new(0),
        }
    }

    /// Wakes one sleeper for each of these entries, as far as there are sleepers.
    fn ring_for(&self, entries: usize) {
        if entries == 0 {
            return;
        }
        let sleepers = self.sleepers.load(Ordering::SeqCst);
        if sleepers == 0 {
            return;
        }
        self.rings.fetch_add(1, Ordering::SeqCst);
        for _ in 0..sleepers.min(entries as u64) {
            self.rings.wake_one();
        }
    }

    /// Wakes all sleepers.
    pub(crate) fn ring(&self) {
        if self.sleepers.load(Ordering::SeqCst) > 0 {
            self.rings.fetch_add(1, Ordering::SeqCst);
            self.rings.wake_all();
        }
    }

    /// Counts the caller as a sleeper, until it gets up, and reads how often the bell was rung.
    pub(crate) fn lie_down(&self, diary: &mut Diary) -> Sleeper
        ensures { diary.new.events ≡ diary.old.events ++ Listened ∷ [] }
    {
        self.sleepers.fetch_add(1, Ordering::SeqCst);
        Sleeper {
            heard: diary.listen(&self.rings),
        }
    }

    /// Reads again how often the bell was rung.
    pub(crate) fn listen(&self, sleeper: &mut Sleeper, diary: &mut Diary)
        ensures { diary.new.events ≡ diary.old.events ++ Listened ∷ [] }
    {
        sleeper.heard = diary.listen(&self.rings);
    }

    pub(crate) fn get_up(&self, sleeper: Sleeper) {
        let Sleeper { heard: _ } = sleeper;
        self.sleepers.fetch_sub(1, Ordering::SeqCst);
    }

    /// Sleeps until the bell is rung, unless it was rung since the sleeper read the number of rings. Requires that the worker has since looked at `stop` and at
    /// the line.
    pub(crate) fn sleep<G: Gate, R: Wait>(
        &self,
        sleeper: &Sleeper,
        _diary: &Diary,
        gate: &G,
        rt: &R,
    )
        requires { HasLooked _diary.now.events }
    {
        gate.park(&self.rings, sleeper.heard, rt);
    }
}

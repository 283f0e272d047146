//! The cache.

ghost use Rattle.std.specs.Prelude.{◌≡◌, ◌≢◌, ◌<◌, ℕ, Some, None, Ok, IfOk, IfErr, OnOk, OnErr, IfSome, slice_get, unwrap_or};
ghost use Rattle.fz_model.specs.Causes.{IsJudgedBy, IsJudgedOrLacks};
ghost use Rattle.fz_model.specs.CallLaws.{Stands};
ghost use Rattle.fz_model.specs.declared.call.Call.TheVariants.{Load, Set, Link, Collect};
ghost use Rattle.fz_model.specs.declared.kinds.LinkKind.TheVariants.{Short};
ghost use Rattle.fz_model.specs.Places.{slot_at, place_at};
ghost use Rattle.fz_model.specs.Events.{Make, Finish, causes};
ghost use Rattle.fz_model.specs.Reachability.{IsReachable};
ghost use Rattle.fz_world.specs.Does.{Does};
ghost use Rattle.weak_cache.specs.declared.cache.TheConstants.{LIST, HAND};
ghost use Rattle.weak_cache.specs.Cached.{cached, in_hand, IsOpenedFor, KeepsCached, Makes, MakesNone, Opens, Puts};

use fz_model::LinkKind::Short;
use fz_model::ObjKind::Atomic;
use fz_model::RegKind::Normal;
use fz_model::{Addr, Entry, Passed, Refusal, every_call};
use fz_world::{Config, World};
use std::alloc::Global;
use std::marker::Model;

/// The slot that points to the list.
const LIST: u64 = 0;

/// The slot that points to the current object.
const HAND: u64 = 1;

/// A weak cache that allocates its objects: each is cached under its key until a collection finds it unreachable.
///
/// The list is an object with one word for each key. It is pointer-free, so it retains nothing. Each used word has a short link, so a collection clears it
/// when its target is unreachable. It never calls `World::forget`, so each queued entry takes 56 bytes for good: a cache that runs for long has to call it.
#[derive(Drop)]
pub struct Cache {
    world: World,
    keys: u64,
}

impl Model for Cache {
    ghost use Rattle.weak_cache.specs.Cached.{CacheView, cache_code, IsWhole};

    ghost Value = { CacheView };

    ghost coded = { cache_code };

    ghost view = { λ c. record { keys = c.keys; world = c.world } };

    ghost invariant = { λ c. IsWhole c.keys c.world };
}

#[tactic(auto, using(crate::proofs::Keeping::quiet_calls))]
impl Cache {
    /// An empty cache for keys below `keys`, in a heap of this many blocks.
    ///
    /// Errors, in order: `BadCount` for the blocks, `NoMemory`, `BadSize` if the number of keys isn't from 1 to 1,024, and `NoSpace` for their list.
    pub fn open(alloc: Global, blocks: u64, keys: u64) -> Result<Cache, Refusal>
        ensures judged { IsOpenedFor blocks keys result }
        ensures opened { IfOk result (λ cache. Opens blocks keys cache.world) }
        ensures keys { IfOk result (λ cache. cache.keys ≡ keys) }
        ensures empty { IfOk result (λ cache. (key : ℕ) → cached cache key ≡ None) }
    {
        let mut world = World::open(alloc, Config { blocks, frames: 1 })?;
        world.alloc(0, LIST, keys, Atomic)?;
        Ok(Cache { world, keys })
    }

    /// Allocates an object, which becomes the current object, and registers a finalizer with this client data. If that fails, the current object may be a new
    /// one without a finalizer.
    pub fn make(&mut self, client_data: u64) -> Result<(), Refusal>
        ensures made { OnOk result (Makes self.old.world client_data self.new.world) }
        ensures refused { IfErr result (MakesNone self.old.world client_data self.new.world) }
        ensures same { KeepsCached self.old.world self.new.world }
        ensures keys { self.new.keys ≡ self.old.keys }
    {
        self.world.alloc(0, HAND, 1, Atomic)?;
        self.world.register(0, HAND, Normal, 0, client_data, 0)?;
        Ok(())
    }

    /// Caches the current object under the key. Fails with, in this order: `OutsideObject` if the key isn't below the number of keys, `NotPointer` if there is no
    /// current object, `TableFull`, `NoMemory`.
    pub fn put(&mut self, key: u64) -> Result<(), Refusal>
        ensures judged { IsJudgedOrLacks (causes self.old.world.core (Make (Link Short (place_at 0 LIST key) (slot_at 0 HAND)))) result }
        ensures refused { OnErr result (self.new ≡ self.old) }
        ensures put { OnOk result (Puts self.old.world key self.new.world) }
        ensures cached { OnOk result (cached self.new key ≡ Some (in_hand self.old)) }
        ensures others { (other : ℕ) → other ≢ key → cached self.new other ≡ cached self.old other }
        ensures keys { self.new.keys ≡ self.old.keys }
    {
        self.world.link(Short, 0, LIST, key, 0, HAND)?;
        self.world.store(0, LIST, key, 0, HAND)
    }

    /// The address of the object under the key, which becomes the current object. If none is cached, there is no current object.
    pub fn get(&mut self, key: u64) -> Result<Option<Addr>, Refusal>
        ensures judged { IsJudgedBy (causes self.old.world.core (Make (Load (place_at 0 LIST key) (slot_at 0 HAND)))) result }
        ensures refused { OnErr result (self.new ≡ self.old) }
        ensures step { IfOk result (λ found. Does self.old.world (Make (Load (place_at 0 LIST key) (slot_at 0 HAND))) (Ok (unwrap_or found 0)) self.new.world) }
        ensures found { key < self.old.keys → IfOk result (λ found. found ≡ cached self.old key) }
        ensures stands { key < self.old.keys → IfOk result (λ found. IfSome found (Stands self.old.world.objects)) }
        ensures same { KeepsCached self.old.world self.new.world }
        ensures keys { self.new.keys ≡ self.old.keys }
    {
        // Runs no code: it provides the prover with the laws of the definitions.
        every_call();
        let word = self.world.load(0, LIST, key, 0, HAND)?;
        if word == 0 {
            return Ok(None);
        }
        Ok(Some(word))
    }

    /// Drops the current object.
    pub fn let_go(&mut self) -> Result<(), Refusal>
        ensures step { Does self.old.world (Make (Set (slot_at 0 HAND) 0)) result self.new.world }
        ensures same { KeepsCached self.old.world self.new.world }
        ensures keys { self.new.keys ≡ self.old.keys }
    {
        self.world.set(0, HAND, 0)
    }

    /// Collects. Unreachable objects are no longer cached.
    pub fn collect(&mut self) -> Result<Passed, Refusal>
        ensures step { Does self.old.world (Make Collect) result self.new.world }
        // An object cached afterwards was cached before, under the same key. So an empty key stays empty.
        ensures kept { (key a : ℕ) → cached self.new key ≡ Some a → cached self.old key ≡ Some a }
        // A reachable object stays cached.
        ensures reachable { (key a : ℕ) → key < self.old.keys → cached self.old key ≡ Some a → IsReachable self.old.world.core a → cached self.new key ≡ Some a }
        ensures keys { self.new.keys ≡ self.old.keys }
    {
        // Runs no code: it provides the prover with the laws of the definitions.
        every_call();
        self.world.collect()
    }

    /// The next entry for a caller that took `taken` entries before.
    pub fn next(&self, taken: u64) -> Option<Entry>
        ensures { result ≡ slice_get self.now.world.queue taken }
    {
        self.world.next(taken)
    }

    /// Finishes an entry.
    pub fn finish(&mut self, entry: &Entry) -> Result<(), Refusal>
        ensures step { Does self.old.world (Finish entry.now) result self.new.world }
        ensures same { KeepsCached self.old.world self.new.world }
        ensures keys { self.new.keys ≡ self.old.keys }
    {
        self.world.finish(entry)
    }
}

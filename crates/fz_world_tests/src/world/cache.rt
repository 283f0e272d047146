//! A weak cache with 1,000 keys.

use crate::equal::must_be;
use fz_model::{Addr, BLOCK_WORDS, HEAP_START, Passed, Refusal};
use std::process::Abort;
use std::test::*;
use weak_cache::Cache;

const KEYS: u64 = 1_000;

/// The number of blocks for the list, and for that many objects.
const BLOCKS: u64 = (KEYS + BLOCK_WORDS - 1) / BLOCK_WORDS;

/// The key of the object that is retained.
const KEPT: u64 = 500;

/// The address of the object that was allocated for a key.
fn object_of(key: u64) -> Addr {
    HEAP_START
        .wrapping_add(BLOCK_WORDS * BLOCKS)
        .wrapping_add(key)
}

/// Allocates an object for each key, and caches it.
fn fill(rt: &impl Abort, cache: &mut Cache) {
    for key in 0..KEYS {
        must_be(rt, cache.make(key), Ok(()), "make");
        must_be(rt, cache.put(key), Ok(()), "put");
    }
    for key in 0..KEYS {
        must_be(rt, cache.get(key), Ok(Some(object_of(key))), "get");
    }
    must_be(
        rt,
        cache.put(KEYS),
        Err(Refusal::OutsideObject),
        "a key too many",
    );
    must_be(
        rt,
        cache.get(KEYS),
        Err(Refusal::OutsideObject),
        "a key too many",
    );
}

/// A collection that queues and reclaims these numbers of objects.
fn collects(rt: &impl Abort, cache: &mut Cache, pass: u64, picked: u64, reclaimed: u64) {
    let passed = Passed {
        pass,
        picked,
        reclaimed,
    };
    must_be(rt, cache.collect(), Ok(passed), "collect");
}

/// The finalizer of each collected key is called once, in order, and nothing is cached under the key.
fn finalize(rt: &impl Abort, cache: &mut Cache) {
    let mut taken = 0;
    for key in 0..KEYS {
        if key != KEPT {
            must_be(rt, cache.get(key), Ok(None), "nothing");
            let entry = cache.next(taken).expect(rt, "an entry");
            must_be(rt, entry.cd, key, "its key");
            must_be(rt, cache.finish(&entry), Ok(()), "finish");
            must_be(
                rt,
                cache.finish(&entry),
                Err(Refusal::NotHeld),
                "finish again",
            );
            taken = taken.saturating_add(1);
        }
    }
    must_be(rt, cache.next(taken), None, "one entry more");
}

/// All objects but the current one are finalized, then that one; then there is room for the same number again.
#[test]
fn a_thousand_keys(rt: HostRuntime) -> Result<(), Refusal> {
    let mut cache = Cache::open(rt.alloc(), 2 * BLOCKS, KEYS)?;
    fill(&rt, &mut cache);
    let kept = Some(object_of(KEPT));
    must_be(&rt, cache.get(KEPT), Ok(kept), "the kept one");
    collects(&rt, &mut cache, 1, KEYS - 1, 0);
    finalize(&rt, &mut cache);
    must_be(&rt, cache.get(KEPT), Ok(kept), "the kept one");
    collects(&rt, &mut cache, 2, 0, KEYS - 1);
    cache.let_go()?;
    collects(&rt, &mut cache, 3, 1, 0);
    let last = cache.next(KEYS - 1).expect(&rt, "an entry");
    must_be(&rt, last.cd, KEPT, "its key");
    cache.finish(&last)?;
    collects(&rt, &mut cache, 4, 0, 1);
    fill(&rt, &mut cache);
    Ok(())
}

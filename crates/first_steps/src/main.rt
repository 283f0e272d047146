//! first_steps: one object with a finalizer in a world, from its allocation to its end.
#![tactic(auto)]

use anyhow::Result;
use fz_model::ObjKind::Scanned;
use fz_model::RegKind::Normal;
use fz_world::{Config, World};

fn main(rt: HostRuntime) -> Result<()> {
    let config = Config {
        blocks: 4,
        frames: 1,
    };
    let mut world = World::open(rt.alloc(), config)?;
    // One word, whose address goes into slot 0 of frame 0. Its finalizer is procedure 5, with client data 7 and rank 0.
    world.alloc(0, 0, 1, Scanned)?;
    world.register(0, 0, Normal, 5, 7, 0)?;
    // The object was reachable only from this slot.
    world.set(0, 0, 0)?;
    let passed = world.collect()?;
    for _ in 0..passed.picked {
        let Some(entry) = world.next_held(0) else {
            break;
        };
        println!(rt; "procedure {} with {}", entry.proc, entry.cd)?;
        world.finish(&entry)?;
    }
    let after = world.collect()?;
    println!(rt; "pass {}, reclaimed {}", after.pass, after.reclaimed)?;
    Ok(())
}

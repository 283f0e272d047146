//! Laws that test the definitions.

ghost use Rattle.std.specs.Prelude.{ℕ, ◌≤◌, List, length};
ghost use Rattle.fz_model.specs.declared.places.Slot.{Slot};
ghost use Rattle.fz_model.specs.declared.places.Place.{Place};
ghost use Rattle.fz_model.specs.State.{State};
ghost use Rattle.fz_model.specs.Extents.{extents, AreApart, AreWithin};
ghost use Rattle.fz_model.specs.Seen.{SeenIsClosed};
ghost use Rattle.fz_model.specs.Steps.{IsReached};
ghost use Rattle.fz_model.specs.Joint.{Joint, Move, IsRun};
ghost use Rattle.fz_model.specs.CallLaws.{EachCallHasStep, EachJointEventHasStep, LinksStand, LinksAreMade, LinksAreUnlinked, LinksAreMoved, TablesAreWithin, HoldGivesTheObject, EmptyHandIsRefused, ClosesOnce};
ghost use Rattle.fz_model.specs.ObjectLaws.{SlotsAreSet, RestIsKept, WordsAreLoaded, WordsAreStored, ObjectsAreMade, BlocksAreShared, EmptyBlocksAreRoom};
ghost use Rattle.fz_model.specs.EntryLaws.{ObjectsAreRegistered, ObjectsAreUnregistered, HeldAreCounted, InOneHand};
ghost use Rattle.fz_model.specs.PassLaws.{EachPassIsLawful};
ghost use Rattle.fz_model.specs.CycleLaws.{SeenInThisCycle};
ghost use Rattle.fz_model.specs.OrderLaws.{FirstIsTold, WorkersComeFirst, RefusedForACause};

/// Does nothing. Its contract states what one expects of each call and of each pass, for every reachable state. It uses other words than the definitions do,
/// so it tests the definitions on which all other contracts depend.
pub fn every_call()
    // Each call has a step: it can be accepted, or it fails with its first cause of refusal. The same holds of each event of a joint run.
    ensures each_has_step { (s : State) → IsReached s → EachCallHasStep s }
    ensures each_event_has_step { (moves : List Move) (end : Joint) → IsRun moves end → EachJointEventHasStep end }
    // No word belongs to two objects, and each object lies in the heap.
    ensures apart { (s : State) → IsReached s → AreApart (extents s.objects) }
    ensures within { (s : State) → IsReached s → AreWithin s.blocks (extents s.objects) }
    // Objects with words in one block have the same size and kind. An object takes no more blocks than it fills.
    ensures blocks_are_shared { (s : State) → IsReached s → BlocksAreShared s }
    ensures empty_blocks_are_room { (s : State) → IsReached s → EmptyBlocksAreRoom s }
    // A new object has the address and birth that the call returns, its words are zero, and no other object changes.
    ensures objects_are_made { (s : State) → IsReached s → ObjectsAreMade s }
    // A slot gets the given word, or the word of another slot, which keeps it.
    ensures slots_are_set { (s : State) → IsReached s → SlotsAreSet s }
    // A hold sets only its slot, a begin only opens a cycle, and a close only closes the world. Marking and reading the queue change nothing.
    ensures rest_is_kept { (s : State) → IsReached s → RestIsKept s }
    // A load returns the word at the place. A load after a store returns what was stored, and nothing else has changed.
    ensures words_are_loaded { (s : State) → IsReached s → WordsAreLoaded s }
    ensures words_are_stored { (s : State) → IsReached s → WordsAreStored s }
    // A registration gets a new number and returns what it replaces. A removed registration is gone.
    ensures objects_are_registered { (s : State) → IsReached s → ObjectsAreRegistered s }
    ensures objects_are_unregistered { (s : State) → IsReached s → ObjectsAreUnregistered s }
    // Each link's target is the address of an object, and its word lies in an object.
    ensures short_links_stand { (s : State) → IsReached s → LinksStand s.objects s.short }
    ensures long_links_stand { (s : State) → IsReached s → LinksStand s.objects s.long }
    // If a call or a worker has two causes of refusal, the first in the documented order is returned.
    ensures first_is_told { (s : State) → IsReached s → FirstIsTold s }
    ensures workers_come_first { (moves : List Move) (end : Joint) → IsRun moves end → (w : ℕ) (missing : length end.workers ≤ w) → WorkersComeFirst end w missing }
    // `NoMemory` occurs only where something is created. `BadSize`, `Exhausted` and `TableFull` occur only where they are true.
    ensures refused_for_a_cause { (s : State) → IsReached s → RefusedForACause s }
    // No table exceeds its limit.
    ensures tables_are_within { (s : State) → IsReached s → TablesAreWithin s }
    // A link has the target named last, and a removed link is gone. A move keeps the target and the number of links.
    ensures links_are_made { (s : State) → IsReached s → (place : Place) (target : Slot) → LinksAreMade s place target }
    ensures links_are_unlinked { (s : State) → IsReached s → (place : Place) → LinksAreUnlinked s place }
    ensures links_are_moved { (s : State) → IsReached s → (from to : Place) → LinksAreMoved s from to }
    // A pass retains every reachable object and every registered object, unchanged but for the words of cleared links. It retains nothing but what was seen
    // in this cycle and what registered objects reach. No retained word points to a reclaimed object. Each remaining link has a retained target and lies in a
    // retained object. Entries are queued by rank, then address. The result counts the new entries and the reclaimed objects. No cycle is open afterwards.
    ensures passes { (s : State) → IsReached s → EachPassIsLawful s }
    // An object counts as seen exactly if it was reachable in some state of this cycle.
    ensures seen { (s : State) → IsReached s → SeenInThisCycle s }
    // In an open cycle the seen set is closed under children and contains all that is reachable now, so a pause may find all of it.
    ensures seen_is_closed { (s : State) → IsReached s → SeenIsClosed s }
    // The number of held entries grows by what a pass queues. Each finish reduces it by one and affects only its own entry.
    ensures held_are_counted { (s : State) → IsReached s → HeldAreCounted s }
    // An entry is in at most one worker's hand, and a forfeited entry in none.
    ensures in_one_hand { (moves : List Move) (end : Joint) → IsRun moves end → InOneHand end }
    // A hold stores the address of the held object in the slot. A worker with an empty hand is refused.
    ensures holds { (s : State) → IsReached s → HoldGivesTheObject s }
    ensures empty_hand { (moves : List Move) (end : Joint) → IsRun moves end → EmptyHandIsRefused end }
    // A world is closed only once.
    ensures closes { (s : State) → IsReached s → ClosesOnce s }
{}

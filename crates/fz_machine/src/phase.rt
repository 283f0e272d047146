//! The phases of a pass: those of bdwgc's finalize.c in its order, between two that queue cleanups, with those for ephemerons.

ghost use Rattle.std.specs.Prelude.{◌≡◌, is_some, IfSome};
ghost use Rattle.fz_machine.specs.Regions.{index_of};
ghost use Rattle.fz_machine.specs.Phases.{behind, next_phase, child_ask, pick_ask, ask_of, asks, is_swept, subject, keeps, settles, swept, sweep_ask};
ghost use Rattle.fz_machine.specs.Sifts.{is_of_words};

use crate::item::Item;
use crate::question::Ask;
use fz_finalizers::Kind;
use fz_model::Addr;

/// When a pass makes the marks whole: it marks the values of ephemerons whose keys and holders are marked, until no more follow.
#[derive(Clone, Copy, Debug, PartialEq, Eq)]
pub enum Moment {
    /// Before everything else.
    First,
    /// After the children of unmarked registered objects are marked.
    Led,
    /// After objects of other kinds than `Unreachable` are queued.
    Picked,
    /// After objects of kind `Unreachable` are queued.
    Last,
}

impl Moment {
    /// The phase that follows.
    fn behind(self) -> Phase
        ensures { result ≡ behind self }
    {
        match self {
            Moment::First => Phase::Regions(Sweep::ShortCleanups),
            Moment::Led => Phase::Again,
            Moment::Picked => Phase::LateAgain,
            Moment::Last => Phase::Regions(Sweep::LongTargets),
        }
    }
}

/// The phases before which a pass asks about regions: which of the objects, or the words, that the phase would ask about are marked, or lie in marked objects.
/// The phase leaves those out, and asks about no other whose region was answered for.
#[derive(Clone, Copy, Debug, PartialEq, Eq)]
pub enum Sweep {
    /// The objects of short cleanups.
    ShortCleanups,
    /// The targets of short links.
    ShortTargets,
    /// The registered objects.
    Objects,
    /// The targets of long links.
    LongTargets,
    /// The words of short links.
    ShortHolders,
    /// The words of long links.
    LongHolders,
    /// The objects of long cleanups.
    LongCleanups,
}

impl Sweep {
    /// Its number, in the order of a pass.
    pub(crate) fn index(self) -> usize
        ensures { result ≡ index_of self }
    {
        match self {
            Sweep::ShortCleanups => 0,
            Sweep::ShortTargets => 1,
            Sweep::Objects => 2,
            Sweep::LongTargets => 3,
            Sweep::ShortHolders => 4,
            Sweep::LongHolders => 5,
            Sweep::LongCleanups => 6,
        }
    }

    /// The phase that follows.
    fn behind(self) -> Phase
        ensures { result ≡ swept self }
    {
        match self {
            Sweep::ShortCleanups => Phase::ShortCleanups,
            Sweep::ShortTargets => Phase::ShortTargets,
            Sweep::Objects => Phase::Objects,
            Sweep::LongTargets => Phase::LongTargets,
            Sweep::ShortHolders => Phase::ShortHolders,
            Sweep::LongHolders => Phase::LongHolders,
            Sweep::LongCleanups => Phase::LongCleanups,
        }
    }

    /// What it asks about regions.
    pub(crate) fn ask(self) -> Ask
        ensures { result ≡ sweep_ask self }
    {
        match self {
            Sweep::ShortHolders | Sweep::LongHolders => Ask::Live,
            _ => Ask::Marks,
        }
    }
}

/// A phase of a pass. It processes a list, and asks about its items, mostly the same about each.
#[derive(Clone, Copy, Debug, PartialEq, Eq)]
pub enum Phase {
    /// Asks which keys of ephemerons are marked, and puts off the others: of all at the first moment, and later of those that are put off.
    Keys(Moment),
    /// The same for those that were put off at this moment, after values were marked: for those whose keys the host has told, or for all.
    KeysAgain(Moment),
    /// Asks whether the objects that contain the words of those with marked keys are marked, and puts off the others.
    Holders(Moment),
    /// Marks the values of those with marked keys and holders.
    Values(Moment),
    /// Asks about regions, before another phase.
    Regions(Sweep),
    /// Asks which objects of short cleanups are marked, and queues the cleanups of the others, by rank, then number.
    ShortCleanups,
    /// Asks which targets of short links are marked.
    ShortTargets,
    /// Clears the words of short links to unmarked targets.
    ShortWords,
    /// Asks which keys of short ephemerons that are put off are marked.
    ShortKeys,
    /// Clears the words of short ephemerons with unmarked keys.
    ShortKeyWords,
    /// Asks which registered objects are marked.
    Objects,
    /// Marks the children of the unmarked ones, depending on their kinds.
    Children,
    /// Asks which of these objects are marked now.
    Again,
    /// Marks those that are still unmarked, except those of kind `Unreachable`.
    Picks,
    /// Queues them, by rank, then address. It asks nothing.
    Entries,
    /// Asks which objects of kind `Unreachable` are marked now.
    LateAgain,
    /// Queues those that are still unmarked.
    LatePicks,
    /// Asks which targets of long links are marked.
    LongTargets,
    /// Clears the words of long links to unmarked targets.
    LongWords,
    /// Asks which keys of long ephemerons that are put off are marked.
    LongKeys,
    /// Clears the words of long ephemerons with unmarked keys.
    LongKeyWords,
    /// Asks whether the objects that contain the words of short links are marked.
    ShortHolders,
    /// The same for long links.
    LongHolders,
    /// The same for short ephemerons that are put off.
    ShortKeyHolders,
    /// The same for long ephemerons that are put off.
    LongKeyHolders,
    /// Asks which objects of long cleanups are marked, and queues the cleanups of the others.
    LongCleanups,
}

/// The command that marks the children of an unmarked object.
fn child_ask(kind: Kind) -> Option<Ask>
    ensures { result ≡ child_ask kind }
{
    match kind {
        Kind::Normal | Kind::Unreachable => Some(Ask::MarkChildren),
        Kind::IgnoreSelf => Some(Ask::MarkOthers),
        Kind::NoOrder => None,
    }
}

/// The command that marks an object that is to be queued.
fn pick_ask(kind: Kind) -> Option<Ask>
    ensures { result ≡ pick_ask kind }
{
    match kind {
        Kind::Normal | Kind::IgnoreSelf => Some(Ask::MarkAlone),
        Kind::NoOrder => Some(Ask::Mark),
        Kind::Unreachable => None,
    }
}

impl Phase {
    /// The following phase, given whether the ephemerons that were put off are looked at again.
    pub(crate) fn next(self, again: bool) -> Option<Phase>
        ensures { result ≡ next_phase self again }
    {
        match self {
            Phase::Keys(moment) | Phase::KeysAgain(moment) => Some(Phase::Holders(moment)),
            Phase::Holders(moment) => Some(Phase::Values(moment)),
            Phase::Values(moment) if again => Some(Phase::KeysAgain(moment)),
            Phase::Values(moment) => Some(moment.behind()),
            Phase::Regions(sweep) => Some(sweep.behind()),
            Phase::ShortCleanups => Some(Phase::Regions(Sweep::ShortTargets)),
            Phase::ShortTargets => Some(Phase::ShortWords),
            Phase::ShortWords => Some(Phase::ShortKeys),
            Phase::ShortKeys => Some(Phase::ShortKeyWords),
            Phase::ShortKeyWords => Some(Phase::Regions(Sweep::Objects)),
            Phase::Objects => Some(Phase::Children),
            Phase::Children => Some(Phase::Keys(Moment::Led)),
            Phase::Again => Some(Phase::Picks),
            Phase::Picks => Some(Phase::Entries),
            Phase::Entries => Some(Phase::Keys(Moment::Picked)),
            Phase::LateAgain => Some(Phase::LatePicks),
            Phase::LatePicks => Some(Phase::Keys(Moment::Last)),
            Phase::LongTargets => Some(Phase::LongWords),
            Phase::LongWords => Some(Phase::LongKeys),
            Phase::LongKeys => Some(Phase::LongKeyWords),
            Phase::LongKeyWords => Some(Phase::Regions(Sweep::ShortHolders)),
            Phase::ShortHolders => Some(Phase::Regions(Sweep::LongHolders)),
            Phase::LongHolders => Some(Phase::ShortKeyHolders),
            Phase::ShortKeyHolders => Some(Phase::LongKeyHolders),
            Phase::LongKeyHolders => Some(Phase::Regions(Sweep::LongCleanups)),
            Phase::LongCleanups => None,
        }
    }

    /// Whether it makes the marks whole. Its list is of ephemerons, and another list is set aside.
    pub(crate) fn settles(self) -> bool
        ensures { result ≡ settles self }
    {
        match self {
            Phase::Keys(_) | Phase::KeysAgain(_) | Phase::Holders(_) | Phase::Values(_) => true,
            _ => false,
        }
    }

    /// The sweep that comes before it, if one does.
    pub(crate) fn sweep(self) -> Option<Sweep>
        ensures some { IfSome result (λ sweep. self ≡ swept sweep) }
        ensures swept { is_some result ≡ is_swept self }
    {
        match self {
            Phase::ShortCleanups => Some(Sweep::ShortCleanups),
            Phase::ShortTargets => Some(Sweep::ShortTargets),
            Phase::Objects => Some(Sweep::Objects),
            Phase::LongTargets => Some(Sweep::LongTargets),
            Phase::ShortHolders => Some(Sweep::ShortHolders),
            Phase::LongHolders => Some(Sweep::LongHolders),
            Phase::LongCleanups => Some(Sweep::LongCleanups),
            _ => None,
        }
    }

    /// What it asks about an item, unless that is known to be false.
    pub(crate) fn asks(self, item: &Item) -> Option<Ask>
        ensures { result ≡ asks self item.now }
    {
        if item.known && self.sweep().is_some() {
            return None;
        }
        self.ask_of(item)
    }

    /// What it asks about an item of which it knows nothing.
    fn ask_of(self, item: &Item) -> Option<Ask>
        ensures { result ≡ ask_of self item.now }
    {
        match self {
            Phase::Regions(_) => None,
            Phase::Keys(_) | Phase::KeysAgain(_) => Some(Ask::IsMarked),
            Phase::Holders(_) => Some(Ask::IsHolderMarked),
            Phase::Values(_) => Some(Ask::MarkValue),
            Phase::ShortCleanups | Phase::LongCleanups => Some(Ask::IsMarked),
            Phase::ShortTargets | Phase::LongTargets => Some(Ask::IsMarked),
            Phase::ShortKeys | Phase::LongKeys => Some(Ask::IsMarked),
            Phase::Objects | Phase::Again | Phase::LateAgain => Some(Ask::IsMarked),
            Phase::ShortWords | Phase::LongWords => Some(Ask::Clear),
            Phase::ShortKeyWords | Phase::LongKeyWords => Some(Ask::Clear),
            Phase::Children => child_ask(item.kind),
            Phase::Picks => pick_ask(item.kind),
            Phase::Entries => None,
            Phase::LatePicks => Some(Ask::MarkAlone),
            Phase::ShortHolders | Phase::LongHolders => Some(Ask::IsHolderMarked),
            Phase::ShortKeyHolders | Phase::LongKeyHolders => Some(Ask::IsHolderMarked),
        }
    }

    /// Whether it asks about the words of items, not about their objects.
    fn is_of_words(self) -> bool
        ensures { result ≡ is_of_words self }
    {
        match self {
            Phase::Values(_) | Phase::Holders(_) => true,
            Phase::ShortWords | Phase::LongWords => true,
            Phase::ShortKeyWords | Phase::LongKeyWords => true,
            Phase::ShortHolders | Phase::LongHolders => true,
            Phase::ShortKeyHolders | Phase::LongKeyHolders => true,
            _ => false,
        }
    }

    /// The object or the word that it asks about.
    #[inline(always)]
    pub(crate) fn subject(self, item: &Item) -> Addr
        ensures { result ≡ subject self item.now }
    {
        if self.is_of_words() {
            return item.word;
        }
        item.object
    }

    /// Whether the next phase processes the item, too, given the answer.
    pub(crate) fn keeps(self, item: &Item, yes: bool) -> bool
        ensures { result ≡ keeps self item.now yes }
    {
        match self {
            Phase::Keys(_) | Phase::KeysAgain(_) | Phase::Holders(_) => yes,
            Phase::ShortTargets | Phase::LongTargets => !yes,
            Phase::ShortKeys | Phase::LongKeys => !yes,
            Phase::Objects | Phase::Again | Phase::LateAgain => !yes,
            Phase::Children | Phase::Picks => true,
            Phase::Entries => item.kind == Kind::Unreachable,
            Phase::Values(_) | Phase::Regions(_) => false,
            Phase::ShortWords | Phase::LongWords | Phase::LatePicks => false,
            Phase::ShortKeyWords | Phase::LongKeyWords => false,
            Phase::ShortHolders | Phase::LongHolders => false,
            Phase::ShortKeyHolders | Phase::LongKeyHolders => false,
            Phase::ShortCleanups | Phase::LongCleanups => false,
        }
    }
}

//! A host without ephemerons.

ghost use Rattle.std.specs.Prelude.{◌≡◌, None, refl};
ghost use Rattle.std.proofs.Common.{◌∙◌};

use crate::host::{Host, Values};
use fz_model::Addr;

/// A host as one whose ephemerons have no values, so that one pass serves both kinds of hosts.
#[derive(Drop)]
pub struct Plain<'a, H> {
    pub host: &'a mut H,
}

impl<'a, H: Host> Plain<'a, H> {
    /// The host.
    pub fn of(host: &'a mut H) -> Plain<'a, H>
        ensures same_reference { result.host.ghost_name ≡ host.entry.ghost_name }
        ensures same { result.host.now ≡ host.old }
    {
        Plain { host }
    }
}

impl<H: Host> Host for Plain<'_, H> {
    ghost objects = { λ p. H.objects p.host.now };

    ghost marked = { λ p. H.marked p.host.now };

    ghost is_exact = { H.is_exact };

    ghost place = { H.place };

    // It's still the same host.
    ghost is_same = { λ old new. H.is_same old.host.now new.host.now × (new.host.ghost_name ≡ old.host.ghost_name) };

    fn is_marked(&self, object: Addr) -> bool {
        self.host.is_marked(object)
    }

    fn is_holder_marked(&self, word: Addr) -> bool {
        self.host.is_holder_marked(word)
    }

    fn birth(&self, object: Addr) -> u64 {
        self.host.birth(object)
    }

    fn mark(&mut self, object: Addr) {
        self.host.mark(object);
    }

    fn mark_alone(&mut self, object: Addr) {
        self.host.mark_alone(object);
    }

    fn mark_children(&mut self, object: Addr, but_itself: bool) {
        self.host.mark_children(object, but_itself);
    }

    fn clear(&mut self, word: Addr) {
        self.host.clear(word);
    }

    ghost reflexive = { λ p. (H.reflexive p.host.now, refl) };

    ghost transitive = { λ f g h p q. (H.transitive f.host.now g.host.now h.host.now p.0 q.0, q.1 ∙ p.1) };

    ghost apart = { H.apart };
}

impl<H: Host> Values for Plain<'_, H> {
    ghost value = { λ _ _. None };

    fn mark_value(&mut self, _word: Addr) -> bool {
        false
    }
}

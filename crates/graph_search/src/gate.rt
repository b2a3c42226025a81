// Which arcs a search crosses.

ghost use Rattle.std.specs.Prelude.{◌≡◌, ◌<◌, ◌↔◌, ℕ, Bool, true};
ghost use Rattle.graph_search.specs.declared.graph.Arc.{Arc};
ghost use Rattle.graph_search.specs.Sets.{has_bit};

use crate::graph::Arc;

/// Which arcs a search crosses.
pub trait Gate {
    /// Whether it crosses an arc.
    ghost opens: { Self → Arc → Bool };

    /// Whether the search crosses the arc. Takes no memory.
    fn is_open(&self, arc: Arc) -> bool
        ensures { result ≡ opens self.now arc };
}

/// Which arcs each of 64 searches crosses.
pub trait Gates {
    /// Whether the search with this number, which is below 64, crosses an arc.
    ghost opens: { Self → ℕ → Arc → Bool };

    /// The word whose bits are the searches that cross the arc. Takes no memory.
    fn open_bits(&self, arc: Arc) -> u64
        ensures { (k : ℕ) → k < 64 → (has_bit result k ≡ true) ↔ (opens self.now k arc ≡ true) };
}

/// The gate that is shut to the arcs with this label, and to no other.
#[derive(Clone, Copy, PartialEq, Eq, Debug, Drop)]
pub struct OtherThan {
    pub label: u32,
}

impl Gate for OtherThan {
    ghost use Rattle.graph_search.specs.Path.{other_than};

    ghost opens = { λ gate arc. other_than gate.label arc };

    fn is_open(&self, arc: Arc) -> bool {
        match arc.label {
            None => true,
            Some(label) => label != self.label,
        }
    }
}

// The fast parts of a run's steps as they lie in memory.
ghost use Rattle.std.specs.Prelude.{◌≡◌, ◌<◌, ◌++◌, ◌∷◌, [], OnOk, length, get_or};

use fixed_point::Memory;
use std::alloc::Global;
use std::marker::Model;

/// Where the ids of a fast part lie.
#[derive(Clone, Copy)]
struct Span {
    from: usize,
    to: usize,
}

impl Model for Span {
    ghost use Rattle.rewind.specs.Kept.{SpanData};

    ghost Value = { SpanData };

    ghost view = { λ s. record { from = s.from; to = s.to } };

    ghost inverse = { λ v. record { from = v.from; to = v.to } };
}

/// The fast parts of all steps of a run, each as a list of ids, in the order in which the steps end: each stands behind
/// those of its two finer steps.
#[derive(Drop)]
pub struct Bins {
    ids: Vec<u64>,
    spans: Vec<Span>,
}

impl Model for Bins {
    ghost use Rattle.std.specs.Prelude.{ℕ, List};
    ghost use Rattle.rewind.specs.Kept.{AreInside, cut};

    ghost Value = { List (List ℕ) };

    ghost view = { λ b. cut b.ids.items b.spans.items };

    ghost invariant = { λ b. AreInside b.ids.items b.spans.items };
}

impl Bins {
    /// No fast parts.
    pub(crate) fn new(alloc: Global) -> Bins
        ensures { result ≡ [] }
    {
        Bins {
            ids: Vec::new(alloc),
            spans: Vec::new(alloc),
        }
    }

    /// Adds a fast part behind the others.
    pub(crate) fn push(&mut self, fast: &[u64]) -> Result<(), Memory>
        ensures { OnOk result (self.new ≡ self.old ++ (fast.now ∷ [])) }
    {
        let from = self.ids.len();
        self.ids.extend_from_slice(fast)?;
        let to = self.ids.len();
        self.spans.push(Span { from, to })?;
        Ok(())
    }

    /// How many fast parts there are.
    pub fn len(&self) -> usize
        ensures { result ≡ length self.now }
    {
        self.spans.len()
    }

    /// The fast part at a place, counted from 0.
    pub fn get(&self, i: usize) -> &[u64]
        requires { i < length self.now }
        ensures { result.now ≡ get_or self.now i [] }
    {
        let span = &self.spans[i];
        &self.ids[span.from..span.to]
    }
}

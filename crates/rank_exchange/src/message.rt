// Messages between ranks.
ghost use Rattle.std.specs.Prelude.{◌≡◌};
ghost use Rattle.rank_laws.specs.Contents.{size_of};
ghost use Rattle.rank_exchange.specs.Messages.{contents_of};

use crate::contents::Load;
use nbody_model::EventKind;
use std::marker::Model;

/// A message from one rank to another.
#[derive(Drop)]
pub struct Message {
    pub kind: EventKind,
    pub from: u16,
    pub to: u16,
    pub(crate) load: Load,
}

impl Model for Message {
    ghost use Rattle.rank_exchange.specs.Messages.{MessageData, contents_of};

    ghost Value = { MessageData };

    ghost view = { λ m. record { kind = m.kind; from = m.from; to = m.to; contents = contents_of m.load } };
}

/// How many entries, cells, pairs of a cell and a body, or bodies are carried; 1 for a cell that is asked for.
fn size_of(load: &Load) -> usize
    ensures { result ≡ size_of (contents_of load.now) }
{
    match load {
        Load::Entries(entries) => entries.len(),
        Load::Sums(sums) => sums.len(),
        Load::Cells(cells) => cells.len(),
        Load::Members(members) => members.len(),
        Load::Shares(shares) => shares.len(),
        Load::Cell(_) => 1,
        Load::Answer(Some(_)) => 1,
        Load::Answer(None) => 0,
    }
}

impl Message {
    /// The size of its delivery: how many entries, cells, pairs of a cell and a body, or bodies it has; 1 for an ask.
    pub fn size(&self) -> u64
        ensures { result ≡ size_of self.now.contents }
    {
        size_of(&self.load) as u64
    }
}

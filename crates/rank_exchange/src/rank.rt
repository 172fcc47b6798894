// One rank: when it can act and take messages, and what comes of that.
ghost use Rattle.std.specs.Prelude.{◌≡◌, ◌<◌, ◌≤◌, ◌&&◌, true, IfOk, length, slice_index_or};
ghost use Rattle.nbody_model.specs.Bodies.{BodyData};
ghost use Rattle.rank_laws.specs.Machine.{Message as MessageOf, accepted, blank, is_some, may_add, may_share, may_walk, ready, through};
ghost use Rattle.rank_laws.specs.Whole.{Whole, counted_in, own, ranks_of, rules_of};
ghost use Rattle.rank_laws.specs.Kept.{given_up};
ghost use Rattle.rank_exchange.specs.Messages.{filled};
ghost use Rattle.rank_exchange.specs.Moments.{Arrival, Moment, action_at, state_at};
ghost use Rattle.rank_exchange.specs.Ranks.{Attends, HasActed, HasTaken, IsAt, IsRank, MayTell, seat_at};
ghost use Rattle.rank_walk.specs.Walkers.{may_go_on};

use crate::contents::{Given, Load, Summed};
use crate::due::Due;
use crate::forces::force_of;
use crate::keyed::Keyed;
use crate::kit::Kit;
use crate::message::Message;
use crate::shares::Kept;
use domain_split::Bounds;
use fixed_point::{Memory, V3};
use home_cells::HomeTable;
use nbody_model::{Body, EventKind};
use rank_walk::Walker;
use std::alloc::Global;

/// One rank of those that find forces together: its own bodies, and what it has done, got and found.
#[derive(Drop)]
pub struct Rank {
    pub(crate) number: u16,
    pub(crate) ranks: u32,
    pub(crate) own: Vec<Body>,
    // whether the own bodies stand in the order of the curve beside, and these
    pub(crate) sorted: bool,
    pub(crate) along: Vec<Body>,
    pub(crate) built: bool,
    pub(crate) added: bool,
    pub(crate) shared: bool,
    pub(crate) due: Due,
    pub(crate) table: HomeTable,
    // none before the first walk
    pub(crate) walker: Option<Walker>,
    // what came from others
    pub(crate) sums: Vec<Summed>,
    pub(crate) members: Vec<Kept>,
    pub(crate) parts: Vec<Given>,
    // the totals of its home's cells, what it shared out to its own bodies, and what these got in all
    pub(crate) totals: Vec<Summed>,
    pub(crate) given: Vec<Given>,
    pub(crate) forces: Vec<Keyed>,
}

/// An action of a rank: what it was, its size, and the messages that it sends, in order.
#[derive(Drop)]
pub struct Acted {
    pub kind: EventKind,
    pub size: u64,
    pub messages: Vec<Message>,
}

/// The id of the body at a place.
fn id_at(bodies: &[Body], i: usize) -> u64
    requires { i < length bodies.now }
    ensures { (d : BodyData) → result ≡ (slice_index_or bodies.now i d).id }
{
    let body = &bodies[i];
    body.id
}

/// Whether both hold.
fn both(a: bool, b: bool) -> bool
    ensures { result ≡ (a && b) }
{
    a && b
}

impl Rank {
    /// A rank that has done and got nothing, of so many ranks, with its own bodies, which ascend in id.
    pub fn new(alloc: Global, number: u16, ranks: u32, bodies: Vec<Body>) -> Rank
        requires number { number < ranks }
        requires few { ranks ≤ 256 }
        ensures { (w : Whole) → ranks_of w ≡ ranks → bodies.items ≡ own w number → IsRank w number blank result }
    {
        let others = ranks - 1;
        Rank {
            number,
            ranks,
            own: bodies,
            sorted: false,
            along: Vec::new(alloc),
            built: false,
            added: false,
            shared: false,
            due: Due {
                tables: others,
                sums: others,
                members: others,
                parts: others,
            },
            table: HomeTable::new(alloc),
            walker: None,
            sums: Vec::new(alloc),
            members: Vec::new(alloc),
            parts: Vec::new(alloc),
            totals: Vec::new(alloc),
            given: Vec::new(alloc),
            forces: Vec::new(alloc),
        }
    }

    /// Whether it knows the cells of its home: it has built and has the entries of all others.
    pub fn is_ready(&self) -> bool
        ensures { (m : Moment) → IsAt m self.now → result ≡ ready (rules_of m.whole) m.rank (state_at m) }
    {
        both(self.built, self.due.tables == 0)
    }

    /// Whether it hasn't walked, or both cells of some pair that waits are known.
    fn may_go(&self) -> bool
        ensures { (m : Moment) → IsAt m self.now → result ≡ may_go_on (seat_at m) (state_at m) }
    {
        match &self.walker {
            None => true,
            Some(walker) => walker.may_go(),
        }
    }

    /// Whether it has walked and no pair waits.
    pub(crate) fn is_through(&self) -> bool
        ensures { (m : Moment) → IsAt m self.now → result ≡ through (rules_of m.whole) (state_at m) }
    {
        match &self.walker {
            None => false,
            Some(walker) => walker.is_through(),
        }
    }

    fn may_walk(&self) -> bool
        ensures { (m : Moment) → IsAt m self.now → result ≡ may_walk (rules_of m.whole) m.rank (state_at m) }
    {
        both(self.is_ready(), self.may_go())
    }

    fn may_add(&self) -> bool
        ensures { (m : Moment) → IsAt m self.now → result ≡ may_add (rules_of m.whole) m.rank (state_at m) }
    {
        let comes = both(self.is_through(), self.due.sums == 0);
        both(comes, !self.added)
    }

    fn may_share(&self) -> bool
        ensures { (m : Moment) → IsAt m self.now → result ≡ may_share (rules_of m.whole) m.rank (state_at m) }
    {
        let comes = both(self.added, self.due.members == 0);
        both(comes, !self.shared)
    }

    /// Whether it can act.
    pub fn acts(&self) -> bool
        ensures { (m : Moment) → IsAt m self.now → result ≡ is_some (action_at m) }
    {
        if !self.built {
            return true;
        }
        if self.may_walk() {
            return true;
        }
        if self.may_add() {
            return true;
        }
        self.may_share()
    }

    /// Acts: builds, walks, adds or shares, the first of these that it can do. After want of memory nothing more is said of the
    /// rank.
    pub fn act(&mut self, alloc: Global, kit: &Kit, bounds: &Bounds) -> Result<Acted, Memory>
        requires { (m : Moment) × (Attends m kit.now bounds.now self.old × (is_some (action_at m) ≡ true)) }
        ensures { (m : Moment) → Attends m kit.now bounds.now self.old → is_some (action_at m) ≡ true → IfOk result (λ a. HasActed m a self.new) }
    {
        if !self.built {
            return self.build(alloc, kit, bounds);
        }
        if self.may_walk() {
            return self.walk(alloc, kit, bounds);
        }
        if self.may_add() {
            return self.add(alloc);
        }
        self.share(alloc)
    }

    /// Whether it takes a message that comes to it now. Only an ask may have to wait, until the rank is ready.
    pub fn accepts(&self, message: &Message) -> bool
        ensures { (m : Moment) (k : MessageOf) → IsAt m self.now → message.now ≡ filled m.whole k → k.to ≡ m.rank → result ≡ accepted (rules_of m.whole) k (state_at m) k.kind }
    {
        match &message.load {
            Load::Cell(_) => self.is_ready(),
            Load::Entries(_) => true,
            Load::Sums(_) => true,
            Load::Cells(_) => true,
            Load::Members(_) => true,
            Load::Shares(_) => true,
            Load::Answer(_) => true,
        }
    }

    /// Takes a message that comes to it, and answers an ask and a want. After want of memory nothing more is said of the rank.
    pub fn take(&mut self, alloc: Global, message: Message) -> Result<Option<Message>, Memory>
        requires { (a : Arrival) × (IsAt a.moment self.old × (message ≡ filled a.moment.whole a.message)) }
        ensures { (a : Arrival) → IsAt a.moment self.old → message ≡ filled a.moment.whole a.message → IfOk result (λ out. HasTaken a out self.new) }
    {
        let from = message.from;
        self.take_load(alloc, message.load, from)
    }

    /// The force on an own body, by its place among them. The rank has shared and has the parts of all others.
    pub fn force_at(&self, i: usize) -> V3
        requires place { i < length self.now.own.items }
        requires told { (m : Moment) × (IsAt m self.now × MayTell m) }
        ensures { (m : Moment) (d : BodyData) → IsAt m self.now → MayTell m → result ≡ given_up m.whole m.rank (state_at m) (slice_index_or (own m.whole m.rank) i d) }
    {
        force_of(&self.forces, id_at(&self.own, i))
    }

    /// How many interactions it has counted in its walks.
    pub fn counted(&self) -> u64
        ensures { (m : Moment) → IsAt m self.now → result ≡ length (counted_in m.whole m.rank (state_at m).done) }
    {
        match &self.walker {
            None => 0,
            Some(walker) => walker.counted(),
        }
    }
}

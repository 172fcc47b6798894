// What a rank does by itself.
ghost use Rattle.std.specs.Prelude.{◌≡◌, IfOk, OnOk};
ghost use Rattle.rank_laws.specs.Contents.{parts_sent, sums_sent};
ghost use Rattle.rank_laws.specs.Machine.{Add, Build, Share, Walk, after, fresh};
ghost use Rattle.rank_laws.specs.Told.{size_by};
ghost use Rattle.rank_laws.specs.Whole.{rules_of};
ghost use Rattle.rank_exchange.specs.Came.{HandsOut, members_kept};
ghost use Rattle.rank_exchange.specs.Moments.{Moment, state_at};
ghost use Rattle.rank_exchange.specs.Ranks.{AreAsked, AreSentNext, AreSumsNext, AreTotals, AttendsTo, DoesNext, HasDone, HasMost, HasShared, HasWalked, IsAt, IsRank, IsSorted, SharesNext};

use crate::adding::{home_parts, home_totals};
use crate::along::along;
use crate::build::build;
use crate::contents::{Given, Summed};
use crate::forces::gathered;
use crate::handed::handed_to;
use crate::keyed::Keyed;
use crate::kit::Kit;
use crate::mail::cells_of;
use crate::members::members_of;
use crate::message::Message;
use crate::outgoing::{all_asks, all_parts, all_sums, all_wants, keep_members, others, sums_for};
use crate::post::Post;
use crate::rank::{Acted, Rank};
use crate::shares::Kept;
use crate::walk::walk;
use cell_space::Cell;
use domain_split::Bounds;
use fixed_point::Memory;
use nbody_model::EventKind;
use rank_walk::Walked;
use std::alloc::Global;

impl Rank {
    /// Puts its own bodies in the order of the curve beside, once.
    pub(crate) fn sort_own(&mut self, alloc: Global) -> Result<(), Memory>
        requires { (m : Moment) × IsAt m self.old }
        ensures { (m : Moment) → IsAt m self.old → OnOk result (IsSorted m.whole m.rank (state_at m) self.new) }
    {
        if self.sorted {
            return Ok(());
        }
        self.along = along(alloc, &self.own)?;
        self.sorted = true;
        Ok(())
    }

    /// Builds the tree of its own bodies, and hands its entries to their homes.
    pub(crate) fn build(
        &mut self,
        alloc: Global,
        kit: &Kit,
        bounds: &Bounds,
    ) -> Result<Acted, Memory>
        requires { (m : Moment) × AttendsTo m Build kit.now bounds.now self.old }
        ensures { (m : Moment) → AttendsTo m Build kit.now bounds.now self.old → IfOk result (λ a. HasDone m Build a self.new) }
    {
        let to = others(alloc, self.number, self.ranks)?;
        let soft = &kit.setup().soft;
        let built = build(alloc, &self.own, soft, bounds, self.number, &to)?;
        self.table.keep(alloc, built.kept)?;
        self.built = true;
        Ok(Acted {
            kind: EventKind::Build,
            size: built.size,
            messages: built.messages,
        })
    }

    /// Works off the pairs whose cells are known.
    fn walk_on(&mut self, alloc: Global, kit: &Kit, bounds: &Bounds) -> Result<Walked, Memory>
        requires { (m : Moment) × AttendsTo m Walk kit.now bounds.now self.old }
        ensures rank { (m : Moment) → AttendsTo m Walk kit.now bounds.now self.old → OnOk result (IsRank m.whole m.rank (after (rules_of m.whole) m.rank (state_at m) Walk) self.new) }
        ensures size { (m : Moment) → AttendsTo m Walk kit.now bounds.now self.old → IfOk result (λ v. v.size ≡ size_by m.whole m.rank (state_at m) Walk) }
        ensures asks { (m : Moment) → AttendsTo m Walk kit.now bounds.now self.old → IfOk result (λ v. v.asks.items ≡ fresh (rules_of m.whole) m.rank (state_at m)) }
    {
        let post = Post {
            setup: kit.setup(),
            corrections: kit.table(),
            number: self.number,
            bounds,
            table: &self.table,
        };
        let walked = walk(alloc, &post, &mut self.walker)?;
        Ok(walked)
    }

    /// What it sends after a walk: an ask for each of these cells, and its sums once no pair waits.
    fn sent_after(
        &self,
        alloc: Global,
        cells: &[Cell],
        bounds: &Bounds,
    ) -> Result<Vec<Message>, Memory>
        requires { (m : Moment) × HasWalked m bounds.now self.now }
        ensures { (m : Moment) → HasWalked m bounds.now self.now → AreAsked m cells.now → IfOk result (λ out. AreSentNext m out.items) }
    {
        let mut sent = all_asks(alloc, cells, self.number, bounds)?;
        let mut sums = self.sums_after(alloc, bounds)?;
        sent.append(&mut sums)?;
        Ok(sent)
    }

    /// Its sums for all others, once no pair waits.
    fn sums_after(&self, alloc: Global, bounds: &Bounds) -> Result<Vec<Message>, Memory>
        requires { (m : Moment) × HasWalked m bounds.now self.now }
        ensures { (m : Moment) → HasWalked m bounds.now self.now → IfOk result (λ out. AreSumsNext m out.items) }
    {
        if !self.is_through() {
            return Ok(Vec::new(alloc));
        }
        let to = others(alloc, self.number, self.ranks)?;
        match &self.walker {
            None => unreachable!(),
            Some(walker) => all_sums(alloc, walker, self.number, &to),
        }
    }

    /// Walks: asks for the cells that it then waits for, and hands its sums to their homes once no pair waits.
    pub(crate) fn walk(
        &mut self,
        alloc: Global,
        kit: &Kit,
        bounds: &Bounds,
    ) -> Result<Acted, Memory>
        requires { (m : Moment) × AttendsTo m Walk kit.now bounds.now self.old }
        ensures { (m : Moment) → AttendsTo m Walk kit.now bounds.now self.old → IfOk result (λ a. HasDone m Walk a self.new) }
    {
        let walked = self.walk_on(alloc, kit, bounds)?;
        let messages = self.sent_after(alloc, &walked.asks, bounds)?;
        Ok(Acted {
            kind: EventKind::Walk,
            size: walked.size,
            messages,
        })
    }

    /// The sums of its own walk for its own home.
    fn sums_kept(&self, alloc: Global) -> Result<Vec<Summed>, Memory>
        requires { (m : Moment) × DoesNext m Add self.now }
        ensures { (m : Moment) → DoesNext m Add self.now → IfOk result (λ sums. sums.items ≡ sums_sent m.whole m.rank m.rank) }
    {
        match &self.walker {
            None => unreachable!(),
            Some(walker) => sums_for(alloc, walker, self.number),
        }
    }

    /// The totals of its home's cells.
    fn totals_found(&self, alloc: Global) -> Result<Vec<Summed>, Memory>
        requires { (m : Moment) × DoesNext m Add self.now }
        ensures { (m : Moment) → DoesNext m Add self.now → IfOk result (λ totals. AreTotals m.whole m.rank totals.items) }
    {
        let own = self.sums_kept(alloc)?;
        let totals = home_totals(alloc, own, &self.sums)?;
        Ok(totals)
    }

    /// Adds up the sums that it made and got to the totals of its home's cells, and wants their members of all others.
    pub(crate) fn add(&mut self, alloc: Global) -> Result<Acted, Memory>
        requires { (m : Moment) × DoesNext m Add self.old }
        ensures { (m : Moment) → DoesNext m Add self.old → IfOk result (λ a. HasDone m Add a self.new) }
    {
        let totals = self.totals_found(alloc)?;
        let to = others(alloc, self.number, self.ranks)?;
        let messages = all_wants(alloc, &totals, self.number, &to)?;
        let size = totals.len() as u64;
        self.totals = totals;
        self.added = true;
        Ok(Acted {
            kind: EventKind::Add,
            size,
            messages,
        })
    }

    /// The members of its home's cells: its own bodies, and those that came.
    fn members_found(&self, alloc: Global) -> Result<Vec<Kept>, Memory>
        requires { (m : Moment) × SharesNext m self.now }
        ensures { (m : Moment) → SharesNext m self.now → IfOk result (λ kept. kept.items ≡ members_kept m) }
    {
        let cells = cells_of(alloc, &self.totals)?;
        let own = members_of(alloc, &self.along, &cells)?;
        let mut kept = Vec::with_capacity(alloc, own.len() + self.members.len())?;
        keep_members(&own, self.number, &mut kept)?;
        kept.extend_from_slice(&self.members)?;
        Ok(kept)
    }

    /// What the bodies of each rank get of the totals of its home's cells.
    fn shares_found(&self, alloc: Global) -> Result<Vec<Keyed>, Memory>
        requires { (m : Moment) × SharesNext m self.now }
        ensures { (m : Moment) → SharesNext m self.now → IfOk result (λ sums. HandsOut m sums.items) }
    {
        let kept = self.members_found(alloc)?;
        home_parts(alloc, &self.totals, &kept)
    }

    /// Once it has shared and no part is due, adds up what its bodies got.
    pub(crate) fn gather(&mut self, alloc: Global) -> Result<(), Memory>
        requires { (m : Moment) × HasMost m.whole m.rank (state_at m) self.old }
        ensures { (m : Moment) → HasMost m.whole m.rank (state_at m) self.old → OnOk result (IsAt m self.new) }
    {
        if !self.shared {
            return Ok(());
        }
        if self.due.parts > 0 {
            return Ok(());
        }
        let mut own = Vec::with_capacity(alloc, self.given.len())?;
        own.extend_from_slice(&self.given)?;
        self.forces = gathered(alloc, own, &self.parts)?;
        Ok(())
    }

    /// Keeps what it shared out to its own bodies.
    fn keep_shares(&mut self, alloc: Global, given: Vec<Given>) -> Result<(), Memory>
        requires { (m : Moment) × (SharesNext m self.old × (given.items ≡ parts_sent m.whole m.rank m.rank)) }
        ensures { (m : Moment) → SharesNext m self.old → given.items ≡ parts_sent m.whole m.rank m.rank → OnOk result (HasShared m self.new) }
    {
        self.given = given;
        self.shared = true;
        self.gather(alloc)
    }

    /// Shares the totals of its home's cells among their members, and hands the parts to all others.
    pub(crate) fn share(&mut self, alloc: Global) -> Result<Acted, Memory>
        requires { (m : Moment) × DoesNext m Share self.old }
        ensures { (m : Moment) → DoesNext m Share self.old → IfOk result (λ a. HasDone m Share a self.new) }
    {
        self.sort_own(alloc)?;
        let sums = self.shares_found(alloc)?;
        let to = others(alloc, self.number, self.ranks)?;
        let messages = all_parts(alloc, &sums, self.number, &to)?;
        let given = handed_to(alloc, &sums, self.number)?;
        let size = self.totals.len() as u64;
        self.keep_shares(alloc, given)?;
        Ok(Acted {
            kind: EventKind::Share,
            size,
            messages,
        })
    }
}

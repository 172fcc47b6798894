// A rank's walk as an event of its machine.
ghost use Rattle.std.specs.Prelude.{◌≡◌, length, OnOk, IfOk};
ghost use Rattle.pair_law.specs.Laws.{AnswersBy};
ghost use Rattle.rank_laws.specs.Contents.{sums_sent};
ghost use Rattle.rank_laws.specs.Machine.{Rank, through};
ghost use Rattle.rank_walk.specs.Seats.{EachSeat, IsServing, Seat, SomeSeat, rules};
ghost use Rattle.rank_walk.specs.Walkers.{AsksNow, Awaits, CountsNow, IsKeptFirst, IsKeptFor, IsThrough, IsWalker, WalksOn};
ghost use Rattle.rank_walk.specs.Walkers.{as_sent, counted_of, may_go_on, replied};

use crate::asking::ask;
use crate::heard::Heard;
use crate::hearing::{know, place_of};
use crate::places::Places;
use crate::sending::sums_for;
use crate::slot::order_of;
use crate::starting::{first_heard, first_list, knows_some};
use crate::walking::work_off;
use crate::{Known, NodeLaw, Source, Summed};
use cell_space::Cell;
use fixed_point::{Memory, V3};
use node_moments::Moments;
use std::alloc::Global;
use std::collections::BTreeMap;

/// What a rank keeps for its walk: the cells that it has heard of; the pairs that wait; how many interactions it has
/// counted; where the cells stand that it asked for; whether it has walked, and whether some pair on its list can be
/// worked off.
#[derive(Drop)]
pub struct Walker {
    heard: Heard,
    list: Vec<Places>,
    counted: u64,
    places: BTreeMap<u128, u32>,
    walked: bool,
    more: bool,
}

/// What a walk comes to: how many interactions it counted, and the cells to ask for, in order.
#[derive(Drop)]
pub struct Walked {
    pub size: u64,
    pub asks: Vec<Cell>,
}

impl Walker {
    /// A rank before its first walk.
    pub fn new<S: Source>(alloc: Global, source: &S) -> Result<Walker, Memory>
        requires { IsServing (S.serves source.now) }
        ensures { IfOk result (λ w. EachSeat (S.serves source.now) (IsKeptFirst w)) }
    {
        let heard = first_heard(alloc, source)?;
        let list = first_list(alloc, &heard.slots)?;
        let more = knows_some(&heard.slots, &list);
        Ok(Walker {
            heard,
            list,
            counted: 0,
            places: BTreeMap::new(alloc),
            walked: false,
            more,
        })
    }

    /// A walk: works off the pairs whose cells are known, and says which cells to ask for.
    pub fn walk<A: Fn(&Moments, &Moments) -> bool, F: Fn(&Moments, &Moments) -> V3, S: Source>(
        &mut self,
        alloc: Global,
        law: &NodeLaw<A, F>,
        source: &S,
    ) -> Result<Walked, Memory>
        requires law { AnswersBy A.Fn F.Fn law.now.accept law.now.force (S.gravity source.now) }
        requires rank { SomeSeat (S.serves source.now) (IsKeptFor self.old) }
        ensures state { OnOk result (EachSeat (S.serves source.now) (WalksOn self.old self.new)) }
        ensures size { IfOk result (λ v. EachSeat (S.serves source.now) (CountsNow self.old v.size)) }
        ensures asks { IfOk result (λ v. EachSeat (S.serves source.now) (AsksNow self.old v.asks.items)) }
    {
        let before = self.counted;
        let wait = work_off(
            alloc,
            law,
            source,
            &mut self.heard,
            &mut self.counted,
            &self.list,
        )?;
        let asks = ask(
            alloc,
            &self.heard.slots,
            &mut self.heard.asked,
            &mut self.places,
            &wait,
        )?;
        self.list = wait;
        self.walked = true;
        self.more = false;
        Ok(Walked {
            size: self.counted - before,
            asks,
        })
    }

    /// A reply comes: what is known of a cell that was asked for. `first` is the cell's first key.
    pub fn hear(&mut self, cell: Cell, first: u128, known: Known)
        requires seat { (z : Seat) × ((s : Rank) × Awaits z s self.old cell first known) }
        ensures { (z : Seat) (s : Rank) → Awaits z s self.old cell first known → IsWalker z (replied s cell) self.new }
    {
        let place = place_of(&self.places, order_of(cell.level, first));
        know(&mut self.heard.slots, place, known);
        self.more = knows_some(&self.heard.slots, &self.list);
    }

    /// What it sends to a rank once it is through, or keeps for itself: the cells of this home that took part in an
    /// interaction which it counted, in order, with what was done to them.
    pub fn sums_to(&self, alloc: Global, home: u16) -> Result<Vec<Summed>, Memory>
        requires through { (z : Seat) × ((s : Rank) × IsThrough z s self.now) }
        ensures { (z : Seat) (s : Rank) → IsThrough z s self.now → IfOk result (λ out. as_sent out.items ≡ sums_sent z.whole z.rank home) }
    {
        let out = sums_for(
            alloc,
            &self.heard.slots,
            &self.heard.touched,
            &self.heard.sums,
            home,
        )?;
        Ok(out)
    }

    /// Whether a ready rank may walk: it hasn't walked, or both cells of some pair on its list are known.
    pub fn may_go(&self) -> bool
        ensures { (z : Seat) (s : Rank) → IsWalker z s self.now → result ≡ may_go_on z s }
    {
        !self.walked || self.more
    }

    /// Whether it has walked and no pair is left.
    pub fn is_through(&self) -> bool
        ensures { (z : Seat) (s : Rank) → IsWalker z s self.now → result ≡ through (rules z) s }
    {
        self.walked && self.list.is_empty()
    }

    /// How many interactions were counted.
    pub fn counted(&self) -> u64
        ensures { (z : Seat) (s : Rank) → IsWalker z s self.now → result ≡ length (counted_of z s) }
    {
        self.counted
    }
}

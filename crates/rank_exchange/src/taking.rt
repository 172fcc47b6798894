// What a rank makes of the messages that come to it.
ghost use Rattle.std.specs.Prelude.{◌≡◌, IfOk, OnOk, Some};
ghost use Rattle.rank_laws.specs.Contents.{members_sent, parts_sent, reply_sent, sums_sent, table_sent, wanted};
ghost use Rattle.rank_laws.specs.Machine.{Ask, Members, Parts, Reply, Sums, Table, Want};
ghost use Rattle.rank_exchange.specs.Moments.{Arrival};
ghost use Rattle.rank_exchange.specs.Ranks.{Brings, HasTaken, Keeps, Meets};
ghost use Rattle.rank_exchange.specs.Messages.{contents_of};

use crate::contents::{Given, Listed, Load, Summed};
use crate::mail::{listed, reply};
use crate::message::Message;
use crate::outgoing::keep_members;
use crate::rank::Rank;
use crate::walk::hear_answer;
use cell_space::Cell;
use fixed_point::Memory;
use home_cells::Entry;
use std::alloc::Global;

impl Rank {
    /// Takes what a message from a rank carries.
    pub(crate) fn take_load(
        &mut self,
        alloc: Global,
        load: Load,
        from: u16,
    ) -> Result<Option<Message>, Memory>
        requires { (a : Arrival) × Brings a (contents_of load) from self.old }
        ensures { (a : Arrival) → Brings a (contents_of load) from self.old → IfOk result (λ out. HasTaken a out self.new) }
    {
        match load {
            Load::Entries(entries) => {
                self.take_table(alloc, entries)?;
                Ok(None)
            }
            Load::Sums(sums) => {
                self.take_sums(sums)?;
                Ok(None)
            }
            Load::Cells(cells) => self.take_want(alloc, &cells, from),
            Load::Members(members) => {
                self.take_members(&members, from)?;
                Ok(None)
            }
            Load::Shares(parts) => {
                self.take_parts(alloc, parts)?;
                Ok(None)
            }
            Load::Cell(cell) => Ok(Some(self.take_ask(cell, from))),
            Load::Answer(entry) => {
                self.take_reply(entry)?;
                Ok(None)
            }
        }
    }

    /// The entries of another rank's nodes go to those of its home.
    pub(crate) fn take_table(&mut self, alloc: Global, entries: Vec<Entry>) -> Result<(), Memory>
        requires { (a : Arrival) × Meets a Table self.old }
        ensures { (a : Arrival) → Meets a Table self.old → entries.items ≡ table_sent a.moment.whole a.message.from a.moment.rank → OnOk result (Keeps a self.new) }
    {
        self.table.keep(alloc, entries)?;
        self.due.tables -= 1;
        Ok(())
    }

    /// The sums of another rank go to those that came.
    pub(crate) fn take_sums(&mut self, mut sums: Vec<Summed>) -> Result<(), Memory>
        requires { (a : Arrival) × Meets a Sums self.old }
        ensures { (a : Arrival) → Meets a Sums self.old → sums.items ≡ sums_sent a.moment.whole a.message.from a.moment.rank → OnOk result (Keeps a self.new) }
    {
        self.sums.append(&mut sums)?;
        self.due.sums -= 1;
        Ok(())
    }

    /// The members of another rank go to those that came.
    pub(crate) fn take_members(&mut self, members: &[Listed], from: u16) -> Result<(), Memory>
        requires { (a : Arrival) × Meets a Members self.old }
        ensures { (a : Arrival) → Meets a Members self.old → a.message.from ≡ from → members.now ≡ members_sent a.moment.whole from a.moment.rank → OnOk result (Keeps a self.new) }
    {
        keep_members(members, from, &mut self.members)?;
        self.due.members -= 1;
        Ok(())
    }

    /// The parts of another home go to those that came. The last of them and the rank's own make the forces.
    pub(crate) fn take_parts(&mut self, alloc: Global, mut parts: Vec<Given>) -> Result<(), Memory>
        requires { (a : Arrival) × (Meets a Parts self.old × (parts.items ≡ parts_sent a.moment.whole a.message.from a.moment.rank)) }
        ensures { (a : Arrival) → Meets a Parts self.old → parts.items ≡ parts_sent a.moment.whole a.message.from a.moment.rank → OnOk result (Keeps a self.new) }
    {
        self.parts.append(&mut parts)?;
        self.due.parts -= 1;
        self.gather(alloc)
    }

    /// Its own bodies in the cells that a home wants are answered.
    pub(crate) fn take_want(
        &mut self,
        alloc: Global,
        cells: &[Cell],
        home: u16,
    ) -> Result<Option<Message>, Memory>
        requires { (a : Arrival) × Meets a Want self.old }
        ensures { (a : Arrival) → Meets a Want self.old → a.message.from ≡ home → cells.now ≡ wanted a.moment.whole home → IfOk result (λ out. HasTaken a out self.new) }
    {
        self.sort_own(alloc)?;
        let answer = listed(alloc, &self.along, cells, self.number, home)?;
        Ok(Some(answer))
    }

    /// What it knows of a cell of its home is answered.
    pub(crate) fn take_ask(&mut self, cell: Cell, asker: u16) -> Message
        requires { (a : Arrival) × (Meets a Ask self.old × (a.message.cell ≡ cell)) }
        ensures { (a : Arrival) → Meets a Ask self.old → a.message.from ≡ asker → a.message.cell ≡ cell → HasTaken a (Some result) self.new }
    {
        reply(&self.table, self.number, asker, cell)
    }

    /// What a home tells of a cell that it asked for goes to its walk.
    pub(crate) fn take_reply(&mut self, entry: Option<Entry>) -> Result<(), Memory>
        requires { (a : Arrival) × (Meets a Reply self.old × (entry ≡ reply_sent a.moment.whole a.message.cell)) }
        ensures { (a : Arrival) → Meets a Reply self.old → entry ≡ reply_sent a.moment.whole a.message.cell → OnOk result (Keeps a self.new) }
    {
        match &mut self.walker {
            None => unreachable!(),
            Some(walker) => hear_answer(walker, entry),
        }
        Ok(())
    }
}

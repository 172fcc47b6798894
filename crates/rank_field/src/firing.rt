// One event of the machine.
ghost use Rattle.std.specs.Prelude.{◌≡◌, IfOk, IfErr, Some, true};
ghost use Rattle.rank_laws.specs.Whole.{Whole};
ghost use Rattle.rank_laws.specs.Protocol.{Acts, World};
ghost use Rattle.rank_laws.specs.Machine.{Message as MessageOf, Rank as RankOf};
ghost use Rattle.rank_laws.specs.Told.{told_message};
ghost use Rattle.rank_exchange.specs.Messages.{filled};
ghost use Rattle.rank_field.specs.Machines.{CanDeliver, CanHappen, CanFire, HasDelivered, HasHappened, HasFired};

use crate::events::{count_acting, nth_acting};
use crate::machine::Machine;
use crate::posting::{mark, send_all, send_answer};
use fixed_point::Memory;
use nbody_model::Event;
use rank_exchange::Message;
use std::alloc::Global;

/// What the delivery of a message is told as.
fn delivery(message: &Message) -> Event
    ensures { (w : Whole) (m : MessageOf) → message.now ≡ filled w m → result ≡ told_message w (Some m) }
{
    Event {
        kind: message.kind,
        from: message.from,
        to: message.to,
        size: message.size(),
    }
}

impl Machine<'_> {
    /// Does the enabled event of a number, counted from 0: first the actions of the ranks that can act, in their order, then the
    /// deliveries of the messages that may come, the oldest first. After want of memory the machine is spent.
    pub fn fire(&mut self, alloc: Global, k: u64) -> Result<Event, Memory>
        requires { (w : Whole) × ((z : World RankOf MessageOf) × CanFire w z k self.old) }
        ensures fired { (w : Whole) (z : World RankOf MessageOf) → CanFire w z k self.old → IfOk result (λ e. HasFired w z k e self.old self.new) }
        ensures spent { IfErr result (λ _. self.new.spent ≡ true) }
    {
        let acting = count_acting(&self.ranks);
        if k < acting {
            let number = nth_acting(&self.ranks, k);
            return self.act_at(alloc, number);
        }
        self.deliver(alloc, k - acting)
    }

    /// Lets the rank of a number act, and puts what it sends last into the mail.
    fn act_at(&mut self, alloc: Global, number: usize) -> Result<Event, Memory>
        requires { (w : Whole) × ((z : World RankOf MessageOf) × CanHappen w z (Acts number) self.old) }
        ensures happened { (w : Whole) (z : World RankOf MessageOf) → CanHappen w z (Acts number) self.old → IfOk result (λ e. HasHappened w z (Acts number) e self.old self.new) }
        ensures spent { IfErr result (λ _. self.new.spent ≡ true) }
    {
        self.spent = true;
        let rank = &mut self.ranks[number];
        let was = rank.is_ready();
        let acted = rank.act(alloc, self.kit, &self.bounds)?;
        let is = rank.is_ready();
        mark(&mut self.mail, number as u16, was, is);
        send_all(alloc, &mut self.mail, acted.messages)?;
        self.spent = false;
        Ok(Event {
            kind: acted.kind,
            from: number as u16,
            to: number as u16,
            size: acted.size,
        })
    }

    /// Brings the message of a number, of those that may come, to its rank, and puts what that answers last into the mail.
    fn deliver(&mut self, alloc: Global, k: u64) -> Result<Event, Memory>
        requires { (w : Whole) × ((z : World RankOf MessageOf) × CanDeliver w z k self.old) }
        ensures delivered { (w : Whole) (z : World RankOf MessageOf) → CanDeliver w z k self.old → IfOk result (λ e. HasDelivered w z k e self.old self.new) }
        ensures spent { IfErr result (λ _. self.new.spent ≡ true) }
    {
        self.spent = true;
        let message = self.mail.take(k as usize);
        let event = delivery(&message);
        let to = message.to;
        let rank = &mut self.ranks[to as usize];
        let was = rank.is_ready();
        let answer = rank.take(alloc, message)?;
        let is = rank.is_ready();
        mark(&mut self.mail, to, was, is);
        send_answer(alloc, &mut self.mail, answer)?;
        self.spent = false;
        Ok(event)
    }
}

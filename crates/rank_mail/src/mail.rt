// The mail of ranks.
ghost use Rattle.std.specs.Prelude.{◌≡◌, ◌<◌, ◌++◌, ◌^◌, ◌∷◌, [], true, IfOk, OnErr, OnOk, length, replicate, false, slice_set};
ghost use Rattle.rank_mail.specs.Mails.{HasTaken, how_many};

use crate::blocks::{Block, count_again, more_by, put_last, take_from};
use fixed_point::Memory;
use rank_exchange::Message;
use std::alloc::Global;
use std::marker::Model;

/// The most messages that a mail has room for: no memory holds more.
const MOST: usize = usize::MAX / 2;

/// Messages that are under way, the oldest first, in blocks; and of each rank whether it is ready. Asks to ranks that aren't
/// have to wait.
#[derive(Drop)]
pub struct Mail {
    blocks: Vec<Block>,
    ready: Vec<bool>,
    // how many messages may come, and how many there are
    coming: usize,
    many: usize,
}

impl Model for Mail {
    ghost use Rattle.rank_mail.specs.Mails.{MailData};
    ghost use Rattle.rank_mail.specs.Blocks.{AreCounted, messages_in};

    ghost Value = { MailData };

    ghost view = { λ m. record { messages = messages_in m.blocks.items; ready = m.ready.items } };

    ghost invariant = { λ m. AreCounted m.ready.items m.blocks.items m.coming m.many };
}

impl Mail {
    /// No messages between so many ranks, of which none is ready.
    pub fn new(alloc: Global, ranks: usize) -> Result<Mail, Memory>
        ensures { IfOk result (λ m. (m.messages ≡ []) × (m.ready ≡ replicate ranks false)) }
    {
        Ok(Mail {
            blocks: Vec::new(alloc),
            ready: vec![in alloc; false; ranks]?,
            coming: 0,
            many: 0,
        })
    }

    /// How many messages there are.
    pub fn len(&self) -> usize
        ensures { result ≡ length self.now.messages }
    {
        self.many
    }

    /// How many messages may come.
    pub fn coming(&self) -> usize
        ensures many { result ≡ how_many self.now.ready self.now.messages }
        ensures few { result < 2 ^ 63 }
    {
        self.coming
    }

    /// Takes out the message that may come of a number, counted from 0, the oldest first.
    pub fn take(&mut self, k: usize) -> Message
        requires { k < how_many self.old.ready self.old.messages }
        ensures { HasTaken k self.old result self.new }
    {
        self.coming -= 1;
        self.many -= 1;
        take_from(&mut self.blocks, &self.ready, k)
    }

    /// Puts a message behind the others. After want of memory the mail is as before.
    pub fn send(&mut self, alloc: Global, message: Message) -> Result<(), Memory>
        ensures ok { OnOk result (self.new.messages ≡ self.old.messages ++ message ∷ []) }
        ensures err { OnErr result (self.new.messages ≡ self.old.messages) }
        ensures ready { self.new.ready ≡ self.old.ready }
    {
        if self.many == MOST {
            return Err(Memory);
        }
        let more = more_by(&self.ready, &message);
        put_last(alloc, &mut self.blocks, &self.ready, message)?;
        self.coming += more;
        self.many += 1;
        Ok(())
    }

    /// A rank is ready: asks to it may come.
    pub fn set_ready(&mut self, rank: u16)
        requires { rank < length self.old.ready }
        ensures messages { self.new.messages ≡ self.old.messages }
        ensures ready { self.new.ready ≡ slice_set self.old.ready rank true }
    {
        self.ready[rank as usize] = true;
        self.coming = count_again(&mut self.blocks, &self.ready);
    }
}

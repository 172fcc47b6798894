// Messages in blocks.
ghost use Rattle.std.specs.Prelude.{cond, ◌≡◌, ◌<◌, ◌≤◌, ◌+◌, ◌^◌, ◌++◌, ◌∷◌, [], IfOk, OnOk, OnErr, true, false, length, take, slice_index_or, slice_get, Some};
ghost use Rattle.std.specs.List.{AllByRecursion};
ghost use Rattle.rank_exchange.specs.Messages.{MessageData};
ghost use Rattle.rank_mail.specs.Mails.{IsTaken, how_many, may_come};
ghost use Rattle.rank_mail.specs.Blocks.{BlockData, IsCounted, HasRoom, IsWithin, coming_in, messages_in};

use fixed_point::Memory;
use nbody_model::EventKind;
use rank_exchange::Message;
use std::alloc::Global;
use std::marker::Model;

/// How many messages a block has room for.
const ROOM: usize = 256;

/// Some messages, and how many of them may come.
#[derive(Drop)]
pub(crate) struct Block {
    pub(crate) messages: Vec<Message>,
    pub(crate) coming: usize,
}

impl Model for Block {
    ghost use Rattle.rank_mail.specs.Blocks.{BlockData};

    ghost Value = { BlockData };

    ghost view = { λ b. record { messages = b.messages.items; coming = b.coming } };
}

/// Whether a rank is ready.
fn is_ready(ready: &[bool], rank: u16) -> bool
    ensures { result ≡ slice_index_or ready.now rank false }
{
    match ready.get(rank as usize) {
        Some(is) => *is,
        None => false,
    }
}

/// Whether a message may come: only an ask may have to wait, until its receiver is ready.
fn may_come(ready: &[bool], message: &Message) -> bool
    ensures { result ≡ may_come ready.now message.now }
{
    match message.kind {
        EventKind::Ask => is_ready(ready, message.to),
        _ => true,
    }
}

/// How many more may come with a message.
pub(crate) fn more_by(ready: &[bool], message: &Message) -> usize
    ensures { result ≡ cond (may_come ready.now message.now) 1 0 }
{
    if may_come(ready, message) {
        return 1;
    }
    0
}

/// How many of some messages may come.
pub(crate) fn how_many(ready: &[bool], messages: &[Message]) -> usize
    ensures { result ≡ how_many ready.now messages.now }
{
    let mut many = 0;
    for i in 0..messages.len() {
        if may_come(ready, &messages[i]) {
            many += 1;
        }
    }
    many
}

/// The place of the message that may come of a number, counted from 0.
fn place_of(ready: &[bool], messages: &[Message], k: usize) -> usize
    requires { k < how_many ready.now messages.now }
    ensures within { result < length messages.now }
    ensures comes { (d : MessageData) → may_come ready.now (slice_index_or messages.now result d) ≡ true }
    ensures number { how_many ready.now (take result messages.now) ≡ k }
{
    let mut left = k;
    for i in 0..messages.len() {
        if may_come(ready, &messages[i]) {
            if left == 0 {
                return i;
            }
            left -= 1;
        }
    }
    unreachable!()
}

/// How many messages of the block at a place may come.
fn coming_at(blocks: &[Block], at: usize) -> usize
    requires { at < length blocks.now }
    ensures { (d : BlockData) → result ≡ (slice_index_or blocks.now at d).coming }
{
    let block = &blocks[at];
    block.coming
}

/// The block of the message that may come of a number, and the number of the message in that block.
pub(crate) fn block_of(blocks: &[Block], k: usize) -> (usize, usize)
    requires { k < coming_in blocks.now }
    ensures { IsWithin blocks.now k result.0 result.1 }
{
    let mut left = k;
    for at in 0..blocks.len() {
        let coming = coming_at(blocks, at);
        if left < coming {
            return (at, left);
        }
        left -= coming;
    }
    unreachable!()
}

impl Block {
    /// The place of the message that may come of a number.
    fn place(&self, ready: &[bool], k: usize) -> usize
        requires counted { IsCounted ready.now self.now }
        requires number { k < self.now.coming }
        ensures within { result < length self.now.messages }
        ensures comes { (d : MessageData) → may_come ready.now (slice_index_or self.now.messages result d) ≡ true }
        ensures number { how_many ready.now (take result self.now.messages) ≡ k }
    {
        if self.coming == self.messages.len() {
            return k;
        }
        place_of(ready, &self.messages, k)
    }

    /// Takes out the message that may come of a number.
    pub(crate) fn take(&mut self, ready: &[bool], k: usize) -> Message
        requires counted { IsCounted ready.now self.old }
        requires number { k < self.old.coming }
        ensures taken { IsTaken ready.now k self.old.messages result self.new.messages }
        ensures counted { IsCounted ready.now self.new }
        ensures coming { self.new.coming + 1 ≡ self.old.coming }
    {
        let place = self.place(ready, k);
        self.coming -= 1;
        self.messages.remove(place)
    }

    /// Puts a message behind the others.
    fn put(&mut self, ready: &[bool], message: Message) -> Result<(), Memory>
        requires counted { IsCounted ready.now self.old }
        requires few { length self.old.messages < 256 }
        ensures ok { OnOk result (self.new.messages ≡ self.old.messages ++ message ∷ []) }
        ensures err { OnErr result (self.new ≡ self.old) }
        ensures counted { IsCounted ready.now self.new }
    {
        let more = more_by(ready, &message);
        self.messages.push(message)?;
        self.coming += more;
        Ok(())
    }

    /// Counts again how many may come.
    fn count(&mut self, ready: &[bool]) -> usize
        ensures same { self.new.messages ≡ self.old.messages }
        ensures counted { IsCounted ready.now self.new }
        ensures many { result ≡ self.new.coming }
    {
        let many = how_many(ready, &self.messages);
        self.coming = many;
        many
    }
}

/// Takes out the message that may come of a number.
pub(crate) fn take_from(blocks: &mut Vec<Block>, ready: &[bool], k: usize) -> Message
    requires counted { AllByRecursion (IsCounted ready.now) blocks.old.items }
    requires number { k < coming_in blocks.old.items }
    ensures taken { IsTaken ready.now k (messages_in blocks.old.items) result (messages_in blocks.new.items) }
    ensures counted { AllByRecursion (IsCounted ready.now) blocks.new.items }
    ensures coming { coming_in blocks.new.items + 1 ≡ coming_in blocks.old.items }
{
    let (at, left) = block_of(blocks, k);
    let block = &mut blocks[at];
    block.take(ready, left)
}

/// Counts the messages that may come again, of all blocks, with those that may of all.
pub(crate) fn count_again(blocks: &mut Vec<Block>, ready: &[bool]) -> usize
    requires { length (messages_in blocks.old.items) < 2 ^ 64 }
    ensures same { messages_in blocks.new.items ≡ messages_in blocks.old.items }
    ensures counted { AllByRecursion (IsCounted ready.now) blocks.new.items }
    ensures coming { result ≡ coming_in blocks.new.items }
{
    let mut many = 0;
    for at in 0..blocks.len() {
        let block = &mut blocks[at];
        many += block.count(ready);
    }
    many
}

/// Whether the last block has room for a message.
fn has_room(blocks: &[Block]) -> bool
    ensures { result ≡ true → HasRoom blocks.now }
{
    if blocks.is_empty() {
        return false;
    }
    let last = &blocks[blocks.len() - 1];
    last.messages.len() < ROOM
}

/// A block with one message.
fn block_with(alloc: Global, ready: &[bool], message: Message) -> Result<Block, Memory>
    ensures { IfOk result (λ b. (b.messages ≡ message ∷ []) × IsCounted ready.now b) }
{
    let mut block = Block {
        messages: Vec::with_capacity(alloc, ROOM)?,
        coming: 0,
    };
    block.put(ready, message)?;
    Ok(block)
}

/// Puts a message behind those of all blocks.
pub(crate) fn put_last(
    alloc: Global,
    blocks: &mut Vec<Block>,
    ready: &[bool],
    message: Message,
) -> Result<(), Memory>
    requires { AllByRecursion (IsCounted ready.now) blocks.old.items }
    ensures ok { OnOk result (messages_in blocks.new.items ≡ messages_in blocks.old.items ++ message ∷ []) }
    ensures err { OnErr result (messages_in blocks.new.items ≡ messages_in blocks.old.items) }
    ensures counted { AllByRecursion (IsCounted ready.now) blocks.new.items }
{
    if has_room(blocks) {
        let last = blocks.len() - 1;
        let block = &mut blocks[last];
        return block.put(ready, message);
    }
    let block = block_with(alloc, ready, message)?;
    blocks.push(block)?;
    Ok(())
}

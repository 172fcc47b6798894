// What an event leaves in the mail.
ghost use Rattle.std.specs.Prelude.{◌≡◌, ◌<◌, ◌++◌, OnOk, false, length, slice_index_or, slice_set, true};
ghost use Rattle.rank_exchange.specs.Ranks.{handed_back};

use fixed_point::Memory;
use rank_exchange::Message;
use rank_mail::Mail;
use std::alloc::Global;

/// Tells the mail that a rank is ready now, if it wasn't before. A rank that was ready still is.
pub(crate) fn mark(mail: &mut Mail, rank: u16, was: bool, is: bool)
    requires { rank < length mail.old.ready }
    ensures messages { mail.new.messages ≡ mail.old.messages }
    ensures ready { slice_index_or mail.old.ready rank false ≡ was → (was ≡ true → is ≡ true) → mail.new.ready ≡ slice_set mail.old.ready rank is }
{
    if was {
        return;
    }
    if is {
        mail.set_ready(rank);
    }
}

/// Puts these messages last into the mail, in their order.
pub(crate) fn send_all(alloc: Global, mail: &mut Mail, messages: Vec<Message>) -> Result<(), Memory>
    ensures messages { OnOk result (mail.new.messages ≡ mail.old.messages ++ messages.items) }
    ensures ready { mail.new.ready ≡ mail.old.ready }
{
    for message in messages {
        mail.send(alloc, message)?;
    }
    Ok(())
}

/// Puts an answer, if there is one, last into the mail.
pub(crate) fn send_answer(
    alloc: Global,
    mail: &mut Mail,
    answer: Option<Message>,
) -> Result<(), Memory>
    ensures messages { OnOk result (mail.new.messages ≡ mail.old.messages ++ handed_back answer) }
    ensures ready { mail.new.ready ≡ mail.old.ready }
{
    match answer {
        None => Ok(()),
        Some(message) => mail.send(alloc, message),
    }
}

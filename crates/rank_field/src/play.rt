// Events as a schedule picks them.
ghost use Rattle.std.specs.Prelude.{IfOk};
ghost use Rattle.rank_laws.specs.Whole.{Whole};
ghost use Rattle.rank_laws.specs.Protocol.{World};
ghost use Rattle.rank_laws.specs.Machine.{Message as MessageOf, Rank as RankOf};
ghost use Rattle.rank_field.specs.Machines.{IsMachine};
ghost use Rattle.rank_field.specs.Fields.{WentOn, Plays};

use crate::machine::Machine;
use fixed_point::Memory;
use nbody_model::Event;
use std::alloc::Global;
use store_io::Schedule;

/// Fires the events that a schedule picks until the machine is finished, and tells them. After want of memory the schedule has
/// gone on by the picks that were made.
pub(crate) fn play<K: Schedule>(
    alloc: Global,
    machine: &mut Machine,
    order: &mut K,
) -> Result<Vec<Event>, Memory>
    requires { (w : Whole) × ((z : World RankOf MessageOf) × IsMachine w z machine.old) }
    ensures played { (w : Whole) (z : World RankOf MessageOf) → IsMachine w z machine.old → IfOk result (λ es. Plays K.Schedule w z order.old es.items order.new machine.new) }
    ensures gone_on { (w : Whole) (z : World RankOf MessageOf) → IsMachine w z machine.old → WentOn K.Schedule w z order.old order.new }
{
    let mut events = Vec::new(alloc);
    loop {
        let enabled = machine.enabled();
        if enabled == 0 {
            return Ok(events);
        }
        let k = order.pick(enabled);
        events.push(machine.fire(alloc, k)?)?;
    }
}

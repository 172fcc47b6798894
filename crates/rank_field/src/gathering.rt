// What a finished machine has found.
ghost use Rattle.std.specs.Prelude.{◌≡◌, IfOk, length};
ghost use Rattle.nbody_model.specs.Covers.{interactions};
ghost use Rattle.nbody_model.specs.Force.{forces};
ghost use Rattle.rank_laws.specs.Whole.{Whole, opening};
ghost use Rattle.rank_laws.specs.Protocol.{World};
ghost use Rattle.rank_laws.specs.Machine.{Message as MessageOf, Rank as RankOf};
ghost use Rattle.rank_field.specs.Machines.{HasFinished, IsGathered};

use crate::machine::Machine;
use fixed_point::{Memory, V3};
use nbody_model::Field;
use std::alloc::Global;

/// How many interactions the ranks of a finished machine have counted together.
fn counted(machine: &Machine) -> u64
    requires { (w : Whole) × ((z : World RankOf MessageOf) × HasFinished w z machine.now) }
    ensures { (w : Whole) (z : World RankOf MessageOf) → HasFinished w z machine.now → result ≡ length (interactions (opening w)) }
{
    let mut count = 0;
    for rank in &machine.ranks {
        count += rank.counted();
    }
    count
}

/// The force on each body, in their order: its owner is asked for the force on the next of the bodies that it owns.
fn forces_of(alloc: Global, machine: &Machine) -> Result<Vec<V3>, Memory>
    requires { (w : Whole) × ((z : World RankOf MessageOf) × HasFinished w z machine.now) }
    ensures { (w : Whole) (z : World RankOf MessageOf) → HasFinished w z machine.now → IfOk result (λ fs. fs.items ≡ forces w.gravity w.bodies) }
{
    let mut next = vec![in alloc; 0usize; machine.ranks.len()]?;
    let mut forces = Vec::with_capacity(alloc, machine.owners.len())?;
    for owner in &machine.owners {
        let rank = *owner as usize;
        let place = next[rank];
        forces.push(machine.ranks[rank].force_at(place))?;
        next[rank] = place + 1;
    }
    Ok(forces)
}

impl Machine<'_> {
    /// The forces on all bodies, in their order, and the number of interactions, of a finished machine; without events.
    pub fn gather(self, alloc: Global) -> Result<Field, Memory>
        requires { (w : Whole) × ((z : World RankOf MessageOf) × HasFinished w z self) }
        ensures { (w : Whole) (z : World RankOf MessageOf) → HasFinished w z self.entry → IfOk result (IsGathered w) }
    {
        let forces = forces_of(alloc, &self)?;
        let interactions = counted(&self);
        Ok(Field {
            forces,
            interactions,
            events: Vec::new(alloc),
        })
    }
}

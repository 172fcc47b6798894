// Forces by ranks.
ghost use Rattle.std.specs.Prelude.{◌≡◌, ◌≤◌, [], ◌∷◌, IfOk, length};
ghost use Rattle.nbody_model.specs.Bodies.{IsValid};
ghost use Rattle.nbody_model.specs.Covers.{interactions, opening_of};
ghost use Rattle.nbody_model.specs.Force.{forces};
ghost use Rattle.rank_field.specs.Fields.{WentOnAmong, PlaysAmong, passes_among, picks_of};

use crate::machine::Machine;
use crate::play::play;
use domain_split::{Bounds, split};
use fixed_point::Memory;
use nbody_model::{Body, Field, Forces};
use rank_exchange::Kit;
use std::alloc::Global;
use std::marker::Model;
use store_io::Schedule;

/// How many ranks there are: 1 to 256.
#[derive(Drop)]
struct RankCount {
    ranks: u32,
}

impl Model for RankCount {
    ghost use Rattle.std.specs.Prelude.{ℕ};
    ghost use Rattle.rank_field.specs.Fields.{IsRankCount};

    ghost Value = { ℕ };

    ghost view = { λ c. c.ranks };

    ghost invariant = { λ c. IsRankCount c.ranks };
}

impl RankCount {
    fn get(&self) -> u32
        ensures is { result ≡ self.now }
        ensures some { 1 ≤ result }
        ensures few { result ≤ 256 }
    {
        self.ranks
    }
}

/// Finds forces by so many ranks, each with its own bodies and what was sent to it. A schedule picks each next event.
#[derive(Drop)]
pub struct RankField<'a, K: Schedule> {
    alloc: Global,
    kit: &'a Kit<'a>,
    ranks: RankCount,
    order: &'a mut K,
}

impl<'a, K: Schedule> RankField<'a, K> {
    /// By so many ranks, with a kit. A schedule picks the events, those of each force from the state in which those of the one
    /// before left it. It keeps the allocator that it was made with.
    pub fn new(alloc: Global, kit: &'a Kit<'a>, ranks: u32, order: &'a mut K) -> RankField<'a, K>
        requires some { 1 ≤ ranks }
        requires few { ranks ≤ 256 }
        ensures kit { result.kit.now ≡ kit.now }
        ensures ranks { result.ranks ≡ ranks }
        ensures order { result.order.now ≡ order.old }
        ensures same_order { result.order.ghost_name ≡ order.entry.ghost_name }
    {
        RankField {
            alloc,
            kit,
            ranks: RankCount { ranks },
            order,
        }
    }
}

impl<'a, K: Schedule> Forces for RankField<'a, K> {
    ghost gravity = { λ f. f.kit.now };

    ghost fixed = { λ f. f.ranks ∷ f.order.ghost_name ∷ [] };

    ghost state = { λ f. K.state f.order.now };

    ghost passes = { passes_among (picks_of K.Schedule) };

    fn force(&mut self, bodies: &[Body]) -> Result<Field, Memory>
        requires { IsValid bodies.now }
        ensures same_gravity { self.new.kit.now ≡ self.old.kit.now }
        ensures same_fixed { self.new.ranks ∷ self.new.order.ghost_name ∷ [] ≡ self.old.ranks ∷ self.old.order.ghost_name ∷ [] }
        ensures forces { IfOk result (λ f. f.forces ≡ forces self.old.kit.now bodies.now) }
        ensures interactions { IfOk result (λ f. f.interactions ≡ length (interactions (opening_of self.old.kit.now.setup bodies.now))) }
        ensures passes { IfOk result (λ f. PlaysAmong K.Schedule self.old.kit.now self.old.ranks bodies.now self.old.order.now f.events self.new.order.now) }
        ensures gone_on { WentOnAmong K.Schedule self.old.kit.now self.old.ranks bodies.now self.old.order.now self.new.order.now }
    {
        let ranks = self.ranks.get();
        let owners = split(self.alloc, bodies, ranks)?;
        let bounds = Bounds::of(self.alloc, bodies, &owners, ranks)?;
        let mut machine = Machine::start(self.alloc, self.kit, bodies, owners, bounds)?;
        let events = play(self.alloc, &mut machine, self.order)?;
        let found = machine.gather(self.alloc)?;
        Ok(Field {
            forces: found.forces,
            interactions: found.interactions,
            events,
        })
    }
}

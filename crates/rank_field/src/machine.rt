// The machine of ranks: their states, and the mail between them.
ghost use Rattle.std.specs.Prelude.{◌≡◌, ◌<◌, ◌==◌, IfOk, false, length, true};
ghost use Rattle.std.specs.List.{AllByRecursion};
ghost use Rattle.nbody_model.specs.Bodies.{IsValid};
ghost use Rattle.rank_laws.specs.Whole.{Whole};
ghost use Rattle.rank_laws.specs.Protocol.{World};
ghost use Rattle.rank_laws.specs.Machine.{Message as MessageOf, Rank as RankOf};
ghost use Rattle.rank_curve_laws.specs.Along.{divided};
ghost use Rattle.rank_field.specs.Machines.{IsMachine, IsStarted, enabled_in};

use crate::division::{all_ranks, hand_out};
use crate::events::count_acting;
use domain_split::Bounds;
use fixed_point::Memory;
use model_laws::laws::bodies::keep_limits;
use nbody_model::Body;
use rank_curve_laws::every_division_is_whole;
use rank_exchange::laws::pairs_are_small;
use rank_exchange::{Kit, Rank};
use rank_laws::forces::owners_are_told;
use rank_mail::Mail;
use std::alloc::Global;

/// Ranks that find forces together, and the messages between them that are under way, the oldest first.
#[derive(Drop)]
pub struct Machine<'a> {
    pub(crate) kit: &'a Kit<'a>,
    pub(crate) bounds: Bounds,
    // the owner of each body, in the order of the bodies
    pub(crate) owners: Vec<u16>,
    pub(crate) ranks: Vec<Rank>,
    pub(crate) mail: Mail,
    // whether an event found no memory: then no more can be done
    pub(crate) spent: bool,
}

impl<'a> Machine<'a> {
    /// A machine of bodies that ascend in id and keep the limits, of the owner of each, and of the bounds of the ranks.
    pub fn start(
        alloc: Global,
        kit: &'a Kit<'a>,
        bodies: &[Body],
        owners: Vec<u16>,
        bounds: Bounds,
    ) -> Result<Machine<'a>, Memory>
        requires bodies { IsValid bodies.now }
        requires each { length owners.items ≡ length bodies.now }
        requires ranks { AllByRecursion (λ o. o < length bounds) owners.items }
        ensures { IfOk result (λ m. IsStarted (divided bodies.now kit.entry.now owners.items bounds) m) }
    {
        keep_limits(bodies);
        kit.keeps_limits();
        every_division_is_whole();
        owners_are_told();
        pairs_are_small();
        let lists = hand_out(alloc, bodies, &owners, bounds.ranks())?;
        let ranks = all_ranks(alloc, lists)?;
        let mail = Mail::new(alloc, ranks.len())?;
        Ok(Machine {
            kit,
            bounds,
            owners,
            ranks,
            mail,
            spent: false,
        })
    }

    /// How many events are enabled: none once it is finished, or after want of memory.
    pub fn enabled(&self) -> u64
        ensures enabled { (w : Whole) (z : World RankOf MessageOf) → IsMachine w z self.now → result ≡ enabled_in w z }
        ensures spent { self.now.spent ≡ true → result ≡ 0 }
    {
        if self.spent {
            return 0;
        }
        count_acting(&self.ranks) + self.mail.coming() as u64
    }

    /// Whether every rank has shared and the mail is empty.
    pub fn finished(&self) -> bool
        ensures finished { (w : Whole) (z : World RankOf MessageOf) → IsMachine w z self.now → result ≡ (enabled_in w z == 0) }
        ensures spent { self.now.spent ≡ true → result ≡ false }
    {
        if self.spent {
            return false;
        }
        self.enabled() == 0
    }
}

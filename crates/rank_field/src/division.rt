// Bodies handed to the ranks that own them, and ranks before any event.
ghost use Rattle.std.specs.Prelude.{◌≡◌, ◌<◌, ◌≤◌, ◌++◌, ◌∷◌, [], IfOk, OnOk, length, replicate, slice_index_or, slice_set};
ghost use Rattle.std.specs.List.{AllByRecursion};
ghost use Rattle.rank_laws.specs.Whole.{Whole};
ghost use Rattle.rank_field.specs.Machines.{AreBlank, AreOwn, all_handed};

use fixed_point::Memory;
use nbody_model::Body;
use rank_exchange::Rank;
use std::alloc::Global;
use std::marker::Model;

/// The bodies that one rank is handed, in their order.
#[derive(Drop)]
pub(crate) struct Handed {
    bodies: Vec<Body>,
}

impl Model for Handed {
    ghost use Rattle.std.specs.Prelude.{List};
    ghost use Rattle.nbody_model.specs.Bodies.{BodyData};

    ghost Value = { List BodyData };

    ghost view = { λ h. h.bodies.items };
}

/// Puts a body behind those that its owner was handed.
fn hand(lists: &mut Vec<Handed>, owner: u16, body: &Body) -> Result<(), Memory>
    requires { owner < length lists.old.items }
    ensures { OnOk result (lists.new.items ≡ slice_set lists.old.items owner (slice_index_or lists.old.items owner [] ++ body.now ∷ [])) }
{
    let list = &mut lists[owner as usize];
    list.bodies.push(*body)?;
    Ok(())
}

/// No bodies for each of so many ranks.
fn empty_lists(alloc: Global, ranks: u32) -> Result<Vec<Handed>, Memory>
    ensures { IfOk result (λ lists. lists.items ≡ replicate ranks []) }
{
    let mut lists = Vec::with_capacity(alloc, ranks as usize)?;
    for _ in 0..ranks {
        lists.push(Handed {
            bodies: Vec::new(alloc),
        })?;
    }
    Ok(lists)
}

/// Hands each body to its owner, in their order.
pub(crate) fn hand_out(
    alloc: Global,
    bodies: &[Body],
    owners: &[u16],
    ranks: u32,
) -> Result<Vec<Handed>, Memory>
    requires each { length owners.now ≡ length bodies.now }
    requires ranks { AllByRecursion (λ o. o < ranks) owners.now }
    ensures { IfOk result (λ lists. lists.items ≡ all_handed bodies.now owners.now ranks) }
{
    let mut lists = empty_lists(alloc, ranks)?;
    for i in 0..bodies.len() {
        hand(&mut lists, owners[i], &bodies[i])?;
    }
    Ok(lists)
}

/// A rank for each of these lists of bodies, in their order.
pub(crate) fn all_ranks(alloc: Global, lists: Vec<Handed>) -> Result<Vec<Rank>, Memory>
    requires { length lists.items ≤ 256 }
    ensures { (w : Whole) → AreOwn w lists.items → IfOk result (λ ranks. AreBlank w ranks.items) }
{
    let count = lists.len();
    let mut ranks = Vec::with_capacity(alloc, count)?;
    for list in lists {
        let number = ranks.len() as u16;
        ranks.push(Rank::new(alloc, number, count as u32, list.bodies))?;
    }
    Ok(ranks)
}

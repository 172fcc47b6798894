// Groups with their ids and masses.
ghost use Rattle.std.specs.Prelude.{◌≡◌, ◌<◌, ◌≤◌, ◌++◌, ◌^◌, length, map, get_or, sum_by, OnOk, IfOk};
ghost use Rattle.std.specs.List.{AllByRecursion};
ghost use Rattle.nbody_model.specs.Bodies.{IsValid};
ghost use Rattle.group_file.specs.Catalogues.{IsGood};
ghost use Rattle.neighbour_find.specs.Near.{nobody};
ghost use Rattle.groups.specs.Groups.{IsCatalogue, has_head, kept};
ghost use Rattle.groups.specs.Chains.{AreChains};

use crate::chains::{Chains, chains_of, follow};
use crate::heads::heads_of;
use fixed_point::Memory;
use group_file::{Catalogue, Group};
use model_laws::laws::bodies::keep_limits;
use nbody_model::Body;
use std::alloc::Global;

// Whether a place has a head.
fn has_head(heads: &[u32], p: usize, k: usize) -> bool
    requires { k < length heads.now }
    ensures { result ≡ has_head heads.now p k }
{
    heads[k] as usize == p
}

// The ids of some places.
fn ids_of(alloc: Global, bodies: &[Body], list: &[u32]) -> Result<Vec<u64>, Memory>
    requires { AllByRecursion (λ k. k < length bodies.now) list.now }
    ensures { IfOk result (λ ids. ids.items ≡ map (λ k. (get_or bodies.now k nobody).id) list.now) }
{
    let mut ids = Vec::new(alloc);
    for e in 0..list.len() {
        ids.push(id_at(bodies, list[e] as usize))?;
    }
    Ok(ids)
}

// The mass of some places.
fn mass_of(bodies: &[Body], list: &[u32]) -> u64
    requires few { length list.now ≤ 1048576 }
    requires below { AllByRecursion (λ k. k < length bodies.now) list.now }
    ensures { result ≡ sum_by (λ k. (get_or bodies.now k nobody).mass) list.now }
{
    let mut mass = 0u64;
    for e in 0..list.len() {
        mass += mass_at(bodies, list[e] as usize);
    }
    mass
}

fn mass_at(bodies: &[Body], p: usize) -> u64
    requires { p < length bodies.now }
    ensures value { result ≡ (get_or bodies.now p nobody).mass }
    ensures small { result < 2 ^ 32 }
{
    let body = &bodies[p];
    body.mass as u64
}

fn id_at(bodies: &[Body], p: usize) -> u64
    requires { p < length bodies.now }
    ensures { result ≡ (get_or bodies.now p nobody).id }
{
    let body = &bodies[p];
    body.id
}

// Adds the group of a head, if it has members enough.
fn add_group(
    alloc: Global,
    bodies: &[Body],
    heads: &[u32],
    chains: &Chains,
    p: usize,
    least: u32,
    list: &mut Vec<u32>,
    groups: &mut Vec<Group>,
) -> Result<(), Memory>
    requires few { length bodies.now ≤ 1048576 }
    requires as_many { length heads.now ≡ length bodies.now }
    requires at { p < length bodies.now }
    requires chains { AreChains heads.now 0 chains.now.first.items chains.now.next.items }
    ensures { OnOk result (groups.new.items ≡ groups.old.items ++ kept least bodies.now heads.now p) }
{
    if !has_head(heads, p, p) {
        return Ok(());
    }
    follow(heads, chains, p, list)?;
    if list.len() < least as usize {
        return Ok(());
    }
    let mass = mass_of(bodies, list);
    let ids = ids_of(alloc, bodies, list)?;
    groups.push(Group {
        label: id_at(bodies, p),
        mass,
        ids,
    })?;
    Ok(())
}

/// The groups of bodies that chains of links join, those of at least `least` members, ascending by label. Two bodies are
/// linked where they are at most `reach` length units apart, by the wrapped way.
pub fn groups(alloc: Global, bodies: &[Body], reach: u32, least: u32) -> Result<Catalogue, Memory>
    requires { IsValid bodies.now }
    ensures exact { IfOk result (IsCatalogue reach least bodies.now) }
    ensures good { IfOk result IsGood }
    ensures few { IfOk result (λ groups. length groups ≤ 1048576) }
{
    keep_limits(bodies);
    let heads = heads_of(alloc, bodies, reach)?;
    let chains = chains_of(alloc, &heads)?;
    let mut list = Vec::new(alloc);
    let mut groups = Vec::new(alloc);
    for p in 0..bodies.len() {
        add_group(
            alloc,
            bodies,
            &heads,
            &chains,
            p,
            least,
            &mut list,
            &mut groups,
        )?;
    }
    Ok(Catalogue { groups })
}

// What finds bodies.
ghost use Rattle.std.specs.Prelude.{◌≡◌, ◌<◌, ◌≤◌, ◌*◌, ◌^◌, length, get_or, [], All, IsPermutation, OnOk, OnErr, IfOk};
ghost use Rattle.std.specs.List.Sorted.{IsNonDecreasing};
ghost use Rattle.nbody_model.specs.Bodies.{IsValid};
ghost use Rattle.neighbour_find.specs.Around.{found};
ghost use Rattle.cell_space.specs.Cells.{place};
ghost use Rattle.neighbour_find.specs.Near.{near, nobody};
ghost use Rattle.neighbour_find.specs.Numbered.{IsTreeOf, numbered, with_id};
ghost use Rattle.octree_build.specs.Trees.{IsOfBodies};

use crate::reach::reach_square;
use crate::walk::{Around, visit};
use cell_space::Cell;
use fixed_point::Memory;
use nbody_model::Body;
use octree_build::{Tree, build};
use std::alloc::Global;
use std::marker::Model;

/// What finds the bodies that are near to one, by a tree of bodies whose ids are their places.
#[derive(Drop)]
pub struct Finder {
    bodies: Vec<Body>,
    tree: Tree,
}

impl Model for Finder {
    ghost use Rattle.std.specs.Prelude.{List};
    ghost use Rattle.nbody_model.specs.Bodies.{BodyData, IsValid};
    ghost use Rattle.neighbour_find.specs.Numbered.{IsFinder};

    ghost Value = { List BodyData };

    ghost view = { λ f. f.bodies.items };

    ghost invariant = { λ f. IsFinder f.bodies.items f.tree };
}

// A body with its place as its id.
fn at_place(body: &Body, place: usize) -> Body
    ensures { result ≡ with_id body.now place }
{
    Body {
        id: place as u64,
        kind: body.kind,
        mass: body.mass,
        motion: body.motion,
    }
}

// The bodies with their places as ids.
fn numbered(alloc: Global, bodies: &[Body]) -> Result<Vec<Body>, Memory>
    requires { IsValid bodies.now }
    ensures value { IfOk result (λ list. list.items ≡ numbered 0 bodies.now) }
    ensures valid { IfOk result (λ list. IsValid list.items) }
{
    let mut list = Vec::with_capacity(alloc, bodies.len())?;
    for i in 0..bodies.len() {
        let body = &bodies[i];
        list.push(at_place(body, i))?;
    }
    Ok(list)
}

const SOFT: [u32; 6] = [256; 6];

// The tree of bodies whose ids are their places.
fn tree_of(alloc: Global, bodies: &[Body]) -> Result<Tree, Memory>
    requires { IsValid bodies.now }
    ensures { IfOk result (IsTreeOf bodies.now) }
{
    let list = numbered(alloc, bodies)?;
    let tree = build(alloc, &list, &SOFT)?;
    Ok(tree)
}

// Makes `out` what is found in the tree, in its order.
fn walk(tree: &Tree, around: &Around, out: &mut Vec<u32>) -> Result<(), Memory>
    requires tree { IsOfBodies tree.now }
    requires ids { All (λ b. b.id < 2 ^ 32) tree.now.bodies }
    ensures { OnOk result (out.new.items ≡ found around.now tree.now.bodies) }
{
    out.clear();
    match tree.find(&Cell::root()) {
        Some(root) => visit(tree, root, around, out),
        None => Ok(()),
    }
}

fn sort(out: &mut Vec<u32>)
    ensures permutation { IsPermutation out.old.items out.new.items }
    ensures up { IsNonDecreasing out.new.items }
{
    out.sort_unstable();
}

impl Finder {
    /// What finds bodies among these, which ascend in id and keep the limits.
    pub fn new(alloc: Global, bodies: &[Body]) -> Result<Finder, Memory>
        requires { IsValid bodies.now }
        ensures { IfOk result (λ finder. finder ≡ bodies.now) }
    {
        let list = Vec::from_slice(alloc, bodies)?;
        let tree = tree_of(alloc, bodies)?;
        Ok(Finder { bodies: list, tree })
    }

    /// How many bodies there are.
    pub fn len(&self) -> usize
        ensures value { result ≡ length self.now }
        ensures few { result ≤ 1048576 }
    {
        self.bodies.len()
    }

    /// Makes `out` the places of the others that are at most `reach` length units away from the body at `i`, by the
    /// wrapped way, ascending. After want of memory it is empty.
    pub fn near(&self, i: usize, reach: u32, out: &mut Vec<u32>) -> Result<(), Memory>
        requires { i < length self.now }
        ensures ok { OnOk result (out.new.items ≡ near reach self.now i) }
        ensures err { OnErr result (out.new.items ≡ []) }
    {
        let found = self.find(i, reach, out);
        if found.is_err() {
            out.clear();
        }
        found
    }

    // The same; after want of memory `out` may hold some of them.
    fn find(&self, i: usize, reach: u32, out: &mut Vec<u32>) -> Result<(), Memory>
        requires { i < length self.now }
        ensures { OnOk result (out.new.items ≡ near reach self.now i) }
    {
        let around = around(&self.bodies, i, reach);
        walk(&self.tree, &around, out)?;
        sort(out);
        Ok(())
    }
}

// What is looked for around the body at a place.
fn around(bodies: &[Body], i: usize, reach: u32) -> Around
    requires { i < length bodies.now }
    ensures id { result.id ≡ i }
    ensures pos { place result.pos ≡ (get_or bodies.now i nobody).motion.pos }
    ensures square { result.square ≡ reach * reach }
{
    let body = &bodies[i];
    Around {
        id: i as u64,
        pos: body.motion.pos(),
        square: reach_square(reach),
    }
}

// The covers of two bodies.
ghost use Rattle.std.specs.Prelude.{◌≡◌, ◌≤◌, ◌<◌, ◌+◌, ◌&&◌, ◌||◌, false, length, get_or, if◌then◌else◌};
ghost use Rattle.cell_space.specs.Cells.{place, same_place};
ghost use Rattle.nbody_model.specs.Bodies.{BodyData};
ghost use Rattle.nbody_model.specs.Covers.{opening_of};
ghost use Rattle.model_laws.specs.Laws.{AreBodies};
ghost use Rattle.pair_law.specs.Conditions.{is_final};
ghost use Rattle.force_field.specs.Around.{AreNodesOf};
ghost use Rattle.force_field.specs.Levels.{IsCoverAt};

use crate::levels::parting_level;
use crate::nodes::{Node, around};
use ewald_table::Table;
use nbody_model::{Body, Setup};
use node_moments::Moments;
use pair_law::accept_of;

/// Bodies, and the nodes around them.
#[derive(Clone, Copy)]
pub(crate) struct Grouped<'a> {
    pub setup: &'a Setup,
    pub table: Option<&'a Table>,
    pub bodies: &'a [Body],
    pub nodes: &'a [Node],
}

/// Whether two nodes act on each other as wholes: both are leaves, or they are accepted.
fn is_final(setup: &Setup, a: &Moments, b: &Moments) -> bool
    ensures { result ≡ is_final setup.now a.now b.now }
{
    a.leaf && b.leaf || accept_of(setup, a, b)
}

/// A leaf stays at its level, another node gives way to one a level deeper.
fn next_level(node: &Moments, level: u8) -> u8
    requires { level < 255 }
    ensures { result ≡ (if node.now.leaf then level else (level + 1)) }
{
    if node.leaf { level } else { level + 1 }
}

/// The levels of the cover of the bodies at two places, which stand at different positions.
pub(crate) fn cover_levels(all: &Grouped, i: usize, j: usize) -> (u8, u8)
    requires bodies { AreBodies all.now.bodies.now }
    requires nodes { AreNodesOf all.now.setup.now all.now.bodies.now all.now.nodes.now }
    requires first { i < length all.now.bodies.now }
    requires second { j < length all.now.bodies.now }
    requires apart { (b d : BodyData) → same_place (get_or all.now.bodies.now i b).motion.pos (get_or all.now.bodies.now j d).motion.pos ≡ false }
    ensures first { result.0 ≤ 32 }
    ensures second { result.1 ≤ 32 }
    ensures cover { IsCoverAt (opening_of all.now.setup.now all.now.bodies.now) all.now.bodies.now i j result.0 result.1 }
{
    let first = around(all.nodes, i);
    let second = around(all.nodes, j);
    let level = parting_level(position(&all.bodies[i]), position(&all.bodies[j]));
    let (mut a, mut b) = (level, level);
    for _ in level..32 {
        let x = &first[a as usize].moments;
        let y = &second[b as usize].moments;
        if is_final(all.setup, x, y) {
            return (a, b);
        }
        a = next_level(x, a);
        b = next_level(y, b);
    }
    (a, b)
}

/// Where a body is.
pub(crate) fn position(body: &Body) -> [u32; 3]
    ensures { place result ≡ body.now.motion.pos }
{
    body.motion.pos()
}

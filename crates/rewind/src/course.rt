// What a run is taken back by, and what a step of it is made of.
ghost use Rattle.std.specs.Prelude.{◌≡◌, ◌≤◌, ◌+◌, ◌-◌, ◌^◌, option_copied};
ghost use Rattle.nbody_model.specs.Factors.{drift_factor, kick_factor};
ghost use Rattle.step_engine.specs.Stands.{IsTimely};

use crate::Bins;
use expansion_table::Expansion;
use nbody_model::{Body, Setup};
use std::alloc::Global;

/// Where memory comes from, the setup, the expansion table if there is one, and the fast parts of all steps.
#[derive(Clone, Copy)]
pub(crate) struct Course<'a> {
    pub alloc: Global,
    pub setup: &'a Setup,
    pub expansion: Option<&'a Expansion>,
    pub bins: &'a Bins,
}

/// A step of a part of the bodies: its bin, the tick at which it began, and their ascending places.
#[derive(Clone, Copy)]
pub(crate) struct Step<'a> {
    pub bin: u8,
    pub tick: u64,
    pub part: &'a [u32],
}

/// A step whose fast bodies are told, by their ascending places.
#[derive(Clone, Copy)]
pub(crate) struct Split<'a> {
    pub bin: u8,
    pub tick: u64,
    pub part: &'a [u32],
    pub fast: &'a [u32],
}

/// Room for bodies, and how many of the fast parts are left.
#[derive(Drop)]
pub(crate) struct Work {
    pub room: Vec<Body>,
    pub left: usize,
}

/// A power of two.
pub(crate) fn power(bin: u8) -> u64
    requires { bin ≤ 20 }
    ensures { result ≡ 2 ^ bin }
{
    1u64 << bin
}

/// How far the first kick of a step counts.
pub(crate) fn first_factor(course: &Course, bin: u8, tick: u64) -> u64
    requires { IsTimely (option_copied course.now.expansion) bin tick 0 }
    ensures value { result ≡ kick_factor (option_copied course.now.expansion) tick (tick + 2 ^ (bin - 1)) }
    ensures most { result ≤ 2 ^ 19 }
{
    expansion_table::kick_factor(course.expansion, tick, tick + power(bin - 1))
}

/// How far the second kick of a step counts.
pub(crate) fn last_factor(course: &Course, bin: u8, tick: u64) -> u64
    requires { IsTimely (option_copied course.now.expansion) bin tick 0 }
    ensures value { result ≡ kick_factor (option_copied course.now.expansion) (tick + 2 ^ (bin - 1)) (tick + 2 ^ bin) }
    ensures most { result ≤ 2 ^ 19 }
{
    expansion_table::kick_factor(course.expansion, tick + power(bin - 1), tick + power(bin))
}

/// How far the drift of a step counts.
pub(crate) fn drift_ticks(course: &Course, bin: u8, tick: u64) -> u64
    requires { IsTimely (option_copied course.now.expansion) bin tick 0 }
    ensures value { result ≡ drift_factor (option_copied course.now.expansion) tick (tick + 2 ^ bin) }
    ensures most { result ≤ 2 ^ 20 }
{
    expansion_table::drift_factor(course.expansion, tick, tick + power(bin))
}

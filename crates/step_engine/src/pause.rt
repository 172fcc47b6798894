// A resting point inside a base step.
ghost use Rattle.std.specs.Prelude.{◌≡◌, ◌≤◌, ◌^◌, IfOk, length};
ghost use Rattle.nbody_model.specs.States.{began, low_zeros};
ghost use Rattle.step_engine.specs.Resumed.{deep_from, middle_of};

use crate::Depths;
use crate::course::power;
use fixed_point::Memory;
use std::alloc::Global;

/// The tick of a resting point, and how deep each body is there.
#[derive(Clone, Copy)]
pub(crate) struct Pause<'a> {
    pub tick: u64,
    pub depth: &'a Depths,
}

/// How many zero bits a tick ends in.
pub(crate) fn zeros(tick: u64) -> u8
    ensures value { result ≡ low_zeros tick }
    ensures most { result ≤ 64 }
{
    tick.trailing_zeros() as u8
}

/// When the evolve of a bin that holds a tick began.
pub(crate) fn began(bin: u8, tick: u64) -> u64
    requires { bin ≤ 20 }
    ensures value { result ≡ began bin tick }
    ensures most { result ≤ tick }
{
    tick / power(bin) * power(bin)
}

/// The middle of the evolve of a bin that holds a tick.
pub(crate) fn middle_of(bin: u8, tick: u64) -> u64
    requires some { 1 ≤ bin }
    requires short { bin ≤ 20 }
    requires early { tick ≤ 2 ^ 42 }
    ensures { result ≡ middle_of bin tick }
{
    began(bin, tick) + power(bin - 1)
}

/// The places of the bodies that are at least so deep, ascending.
pub(crate) fn deep_places(alloc: Global, depth: &Depths, least: u8) -> Result<Vec<u32>, Memory>
    requires { length depth.now ≤ 1048576 }
    ensures { IfOk result (λ v. v.items ≡ deep_from least 0 depth.now) }
{
    let count = depth.len();
    let mut places = Vec::new(alloc);
    for place in 0..count {
        if least <= depth.get(place) {
            places.push(place as u32)?;
        }
    }
    Ok(places)
}

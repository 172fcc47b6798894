// Writes restart files.
ghost use Rattle.std.specs.Prelude.{◌≡◌, ◌≤◌, ◌<◌, ◌∷◌, [], ◌++◌, length, slice_index, get_or, pos, codes, IfOk, OnOk};
ghost use Rattle.std.specs.List.{flat_map, zip};
ghost use Rattle.nbody_model.specs.Bodies.{BodyData};
ghost use Rattle.fixed_point.specs.Bytes.{bytes32, bytes64};
ghost use Rattle.nbody_model.specs.RestartText.{body_bytes, restart_head, restart_text, rest_text, setup_numbers, whole_text};
ghost use Rattle.restart_files.specs.Texts.{counters_text, deep_body_bytes};

use crate::State;
use crate::head::{END_MARK, TAG};
use fixed_point::{
    Memory, push_bytes, push_three_signed, push_three_words, push_word32, push_word64, push_word128,
};
use nbody_model::{Body, Setup};
use std::alloc::Global;

// The twelve numbers of a setup, in the order of the parameter table.
fn numbers_of(setup: &Setup) -> [u64; 12]
    ensures { result ≡ setup_numbers setup.now }
{
    [
        setup.time_max,
        u64::from(setup.low_bin),
        u64::from(setup.top_bin),
        u64::from(setup.theta),
        u64::from(setup.eta),
        setup.gravity,
        u64::from(setup.velocity_shift),
        u64::from(setup.soft[1]),
        u64::from(setup.soft[2]),
        u64::from(setup.soft[3]),
        u64::from(setup.soft[4]),
        u64::from(setup.soft[5]),
    ]
}

fn push_numbers(out: &mut Vec<u8>, numbers: &[u64]) -> Result<(), Memory>
    ensures { OnOk result (out.new.items ≡ out.old.items ++ flat_map bytes64 numbers.now) }
{
    for number in numbers {
        push_word64(out, *number)?;
    }
    Ok(())
}

// Appends the counters.
#[tactic(auto, unfolding(crate::specs::Texts::counters_text))]
fn push_counters(out: &mut Vec<u8>, state: &State) -> Result<(), Memory>
    ensures { OnOk result (out.new.items ≡ out.old.items ++ counters_text state.now) }
{
    push_word64(out, state.steps)?;
    push_word64(out, state.tick)?;
    push_word64(out, state.next_snapshot)?;
    push_word64(out, state.next_restart)?;
    push_word64(out, state.kicks)?;
    push_word128(out, state.interactions)
}

// Appends what stands before the bodies.
fn push_head(out: &mut Vec<u8>, version: u32, state: &State, setup: &Setup) -> Result<(), Memory>
    ensures { OnOk result (out.new.items ≡ out.old.items ++ restart_head version state.now setup.now) }
{
    push_bytes(out, &TAG)?;
    push_word32(out, version)?;
    push_word32(out, state.set.len() as u32)?;
    push_counters(out, state)?;
    push_numbers(out, &numbers_of(setup))
}

// Appends a body.
fn push_body(out: &mut Vec<u8>, body: &Body) -> Result<(), Memory>
    ensures { OnOk result (out.new.items ≡ out.old.items ++ body_bytes body.now) }
{
    push_word64(out, body.id)?;
    push_word32(out, u32::from(body.kind))?;
    push_word32(out, body.mass)?;
    push_three_words(out, body.motion.pos())?;
    push_three_signed(out, body.motion.mom())
}

// Appends all bodies.
fn push_bodies(out: &mut Vec<u8>, bodies: &[Body]) -> Result<(), Memory>
    ensures { OnOk result (out.new.items ≡ out.old.items ++ flat_map body_bytes bodies.now) }
{
    for body in bodies {
        push_body(out, body)?;
    }
    Ok(())
}

// Appends the body of an index and its depth.
fn push_deep_body(out: &mut Vec<u8>, state: &State, index: usize) -> Result<(), Memory>
    requires body { index < length state.now.bodies }
    requires depth { index < length state.now.depths }
    ensures { OnOk result ((d : BodyData) → out.new.items ≡ out.old.items ++ deep_body_bytes (get_or state.now.bodies index d, slice_index state.now.depths index)) }
{
    push_body(out, state.set.get(index))?;
    push_word32(out, u32::from(state.depth.get(index)))
}

// Appends all bodies, each with its depth.
fn push_deep_bodies(out: &mut Vec<u8>, state: &State) -> Result<(), Memory>
    requires { length state.now.depths ≡ length state.now.bodies }
    ensures { OnOk result (out.new.items ≡ out.old.items ++ flat_map deep_body_bytes (zip state.now.bodies state.now.depths)) }
{
    for index in 0..state.set.len() {
        push_deep_body(out, state, index)?;
    }
    Ok(())
}

// The text of a state between two base steps.
fn whole_text(alloc: Global, state: &State, setup: &Setup) -> Result<Vec<u8>, Memory>
    ensures { IfOk result (λ text. text.items ≡ whole_text state.now setup.now) }
{
    let mut out = Vec::with_capacity(alloc, 176 + 52 * state.set.len())?;
    push_head(&mut out, 1, state, setup)?;
    push_bodies(&mut out, state.set.bodies())?;
    push_bytes(&mut out, &END_MARK)?;
    Ok(out)
}

// The text of a state inside a base step.
fn rest_text(alloc: Global, state: &State, setup: &Setup) -> Result<Vec<u8>, Memory>
    requires { length state.now.depths ≡ length state.now.bodies }
    ensures { IfOk result (λ text. text.items ≡ rest_text state.now setup.now) }
{
    let mut out = Vec::with_capacity(alloc, 176 + 56 * state.set.len())?;
    push_head(&mut out, 2, state, setup)?;
    push_deep_bodies(&mut out, state)?;
    push_bytes(&mut out, &END_MARK)?;
    Ok(out)
}

/// The bytes of a restart file: of version 2 where the state has depths, otherwise of version 1.
pub fn write_restart(alloc: Global, state: &State, setup: &Setup) -> Result<Vec<u8>, Memory>
    ensures { IfOk result (λ text. text.items ≡ restart_text state.now setup.now) }
{
    if state.depth.len() == 0 {
        return whole_text(alloc, state, setup);
    }
    rest_text(alloc, state, setup)
}

// Reads restart files.
ghost use Rattle.std.specs.Prelude.{◌≡◌, ◌≤◌, ◌<◌, ◌+◌, length, IfOk, IfErr, OnOk, Some, None};
ghost use Rattle.restart_files.specs.Stored.{HasDepths, IsKept};
ghost use Rattle.restart_files.specs.RestartFile.{HasHead, IsFirstFault, NoFaultBelow, Spell, count_in, depths_in, first_fault, refusal_of, setup_in, state_in, top_bin_in};

use crate::bodies::{check_bodies, depths_of, rows_of};
use crate::head::{Head, check_tick, head_of};
use crate::numbers::word128;
use crate::settings::settings;
use crate::{RestartErr, State};
use fixed_point::word64;
use nbody_model::Setup;
use particle_set::{BodySet, SetErr};
use std::alloc::Global;
use step_engine::Depths;

/// What a file says before its bodies.
#[derive(Clone, Copy)]
struct Front {
    head: Head,
    setup: Setup,
}

// Checks each number by itself, and tells what stands before the bodies.
fn check(bytes: &[u8]) -> Result<Front, RestartErr>
    ensures ok { OnOk result (first_fault bytes.now ≡ None) }
    ensures head { IfOk result (λ front. HasHead bytes.now front.head) }
    ensures each { IfOk result (λ front. NoFaultBelow bytes.now front.head.count) }
    ensures setup { IfOk result (λ front. front.setup ≡ setup_in bytes.now) }
    ensures err { IfErr result (λ e. first_fault bytes.now ≡ Some e) }
{
    let head = match head_of(bytes) {
        Ok(head) => head,
        Err(fault) => return Err(fault),
    };
    match check_tick(bytes, head) {
        Ok(()) => (),
        Err(fault) => return Err(fault),
    }
    let setup = match settings(bytes) {
        Ok(setup) => setup,
        Err(fault) => return Err(fault),
    };
    match check_bodies(bytes, head) {
        Ok(()) => Ok(Front { head, setup }),
        Err(fault) => Err(fault),
    }
}

fn refused(err: SetErr) -> RestartErr
    ensures { result ≡ refusal_of err }
{
    match err {
        SetErr::Memory => RestartErr::Memory,
        _ => RestartErr::Bodies(err),
    }
}

// The state with these bodies and depths.
fn state_from(bytes: &[u8], set: BodySet, depths: Vec<u8>) -> State
    requires long { 176 ≤ length bytes.now }
    requires depths { depths.items ≡ depths_in bytes.now }
    requires each { HasDepths set depths.items }
    ensures { result ≡ state_in bytes.now set }
{
    State {
        set,
        depth: Depths::from_list(depths),
        steps: word64(bytes, 16),
        tick: word64(bytes, 24),
        next_snapshot: word64(bytes, 32),
        next_restart: word64(bytes, 40),
        kicks: word64(bytes, 48),
        interactions: word128(bytes, 56),
    }
}

/// The state and the settings that the bytes of a restart file spell, or the first fault of these bytes.
///
/// A file is the tag `I4RESTRT`, the version (1 or 2) and the number of bodies of 32 bits, five numbers of 64 bits (base
/// steps, tick, next snapshot, next restart file, kicks), the interactions of 128 bits, the twelve settings of 64 bits each,
/// the bodies (id, kind, mass, position, momentum, and in version 2 the depth) and the end mark `I4RESEND`, all with the
/// lowest byte first.
pub fn read_restart(alloc: Global, bytes: &[u8]) -> Result<(State, Setup), RestartErr>
    ensures ok { IfOk result (λ read. Spell bytes.now read.0 read.1) }
    ensures kept { IfOk result (λ read. IsKept read.1 read.0) }
    ensures err { IfErr result (IsFirstFault bytes.now) }
{
    let front = match check(bytes) {
        Ok(front) => front,
        Err(fault) => return Err(fault),
    };
    let rows = rows_of(alloc, bytes, front.head)?;
    let depths = depths_of(alloc, bytes, front.head)?;
    match BodySet::from_list(alloc, rows) {
        Ok(set) => Ok((state_from(bytes, set, depths), front.setup)),
        Err(err) => Err(refused(err)),
    }
}

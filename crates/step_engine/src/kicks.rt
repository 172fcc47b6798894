// The kick of a part of the bodies.
ghost use Rattle.std.specs.Prelude.{◌≡◌, ◌≤◌, ◌==◌, ◌+◌, ◌*◌, ◌^◌, None, OnErr, OnOk, IfErr, if◌then◌else◌};
ghost use Rattle.nbody_model.specs.Bodies.{only};
ghost use Rattle.nbody_model.specs.Setups.{IsSetup};
ghost use Rattle.model_laws.specs.Still.{SamePlaces};
ghost use Rattle.kick_drift.specs.Parts.{AreAscending, after_kick, ids_at};
ghost use Rattle.step_engine.specs.Halts.{refusal_of};
ghost use Rattle.step_engine.specs.Told.{AreForcesAmong};
ghost use Rattle.step_engine.specs.Stands.{AreOf, HasEach, IsGiven, IsReady, IsRefusedBy, out_after};
ghost use Rattle.step_engine.specs.Calls.{now_by, Kicks};

use crate::course::Course;
use crate::halt::{Halt, halt_for};
use crate::steps::Kick;
use crate::work::Work;
use crate::{KickOut, StepCount};
use kick_drift::{KickErr, kick};
use nbody_model::{Field, Forces, Record, Setup};
use particle_set::BodySet;

// Kicks the bodies at the places `whole`, unless h is 0: then nothing changes, and nothing is refused.
fn kick_unless_none(
    set: &mut BodySet,
    whole: &[u32],
    f: &Field,
    fast: &[u32],
    quick: &Field,
    h: u64,
) -> Result<(), KickErr>
    requires whole { AreAscending set.old whole.now }
    requires fast { AreAscending set.old fast.now }
    requires slow { HasEach whole.now f.now.forces }
    requires quick { HasEach fast.now quick.now.forces }
    requires high { h ≤ 2 ^ 19 }
    ensures kicked { OnOk result (set.new ≡ (if h == 0 then set.old else after_kick h whole.now f.now.forces fast.now quick.now.forces set.old)) }
    ensures in_range { OnOk result (out_after h (ids_at set.old whole.now) (after_kick h whole.now f.now.forces fast.now quick.now.forces set.old) ≡ None) }
    ensures refused { IfErr result (IsRefusedBy (out_after h (ids_at set.old whole.now) (after_kick h whole.now f.now.forces fast.now quick.now.forces set.old))) }
    ensures unchanged { OnErr result (set.new ≡ set.old) }
{
    if h == 0 {
        return Ok(());
    }
    kick(set, whole, &f.forces, fast, &quick.forces, h)
}

// Every setup keeps its limits.
fn keeps_setup(setup: &Setup)
    ensures { IsSetup setup.now }
{
    let _low = setup.low_bin;
}

// Why a step halts where a kick of a tick and a bin is refused.
fn refusal_of(tick: u64, bin: u8, refusal: KickErr) -> Halt
    ensures { result ≡ refusal_of tick bin refusal }
{
    match refusal {
        KickErr::MomRange { id, axis } => Halt::MomRange {
            tick,
            bin,
            id,
            axis,
        },
    }
}

// One kick more, of forces with so many interactions.
fn count_kick(count: &mut StepCount, pairs: u64, fast_pairs: u64)
    requires room { count.old.kicks ≤ 2 ^ 40 }
    requires counted { count.old.interactions ≤ count.old.kicks * 2 ^ 65 }
    ensures kicks { count.new.kicks ≡ count.old.kicks + 1 }
    ensures interactions { count.new.interactions ≡ count.old.interactions + (pairs + fast_pairs) }
    ensures counted { count.new.interactions ≤ count.new.kicks * 2 ^ 65 }
{
    count.kicks += 1;
    count.interactions += u128::from(pairs) + u128::from(fast_pairs);
}

/// Makes a kick by the forces f among its bodies, less the forces among its fast ones, all found by `_forces`; and hands it
/// out.
pub(crate) fn kick_part<F: Forces, O: KickOut>(
    course: &Course,
    set: &mut BodySet,
    _forces: &F,
    out: &mut O,
    work: &mut Work,
    at: &Kick,
    f: &Field,
    quick: &Field,
) -> Result<(), Halt>
    requires ready { IsReady course.now.setup.now course.now.total (now_by F.Forces O.KickOut set.old _forces.now out.old work.old) }
    requires whole { IsGiven (F.gravity _forces.now) set.old at.now.whole.now f.now }
    requires fast { AreOf set.old at.now.whole.now at.now.fast.now }
    requires quick { AreForcesAmong (F.gravity _forces.now) (only set.old (ids_at set.old at.now.fast.now)) quick.now }
    requires high { at.now.h ≤ 2 ^ 19 }
    requires room { work.old.count.kicks ≤ 2 ^ 40 }
    ensures places { SamePlaces set.new set.old }
    ensures makes { Kicks F.Forces O.KickOut course.now at.now result _forces.now set.old out.old work.old set.new out.new work.new }
    ensures same_out { O.fixed out.new ≡ O.fixed out.old }
{
    keeps_setup(course.setup);
    match kick_unless_none(set, at.whole, f, at.fast, quick, at.h) {
        Ok(()) => {}
        Err(refusal) => return Err(refusal_of(at.tick, at.bin, refusal)),
    }
    count_kick(&mut work.count, f.interactions, quick.interactions);
    let entry = Record {
        tick: at.tick,
        bin: at.bin,
        whole: at.whole.len() as u32,
        fast: at.fast.len() as u32,
        pairs: f.interactions,
        fast_pairs: quick.interactions,
        total: course.total,
    };
    match out.kicked(&entry) {
        Ok(()) => Ok(()),
        Err(e) => Err(halt_for(e)),
    }
}

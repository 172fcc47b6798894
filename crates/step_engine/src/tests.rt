ghost use Rattle.std.specs.Prelude.{◌≡◌, ◌≤◌, ◌+◌, ◌^◌, ◌∷◌, [], IfOk, IfSome, length, option_copied};
ghost use Rattle.fixed_point.specs.Fixed.{IsMomentum};
ghost use Rattle.nbody_model.specs.Tables.{Reaches};
ghost use Rattle.particle_set.specs.Rows.{HasKind};

use super::*;
use expansion_table::{Expansion, read_expansion};
use force_field::ListField;
use nbody_model::{Field, Record, Setup};
use particle_set::{BodySet, Row};
use std::alloc::Global;
use std::test::Fail;
use store_io::IoErr;

// What happened: the kicks, how often forces were found, and how many fast parts there were. It rests at one tick.
#[derive(Drop)]
struct Tale {
    kicks: Vec<Record>,
    found: u64,
    parts: u64,
    rest_at: u64,
    yes: u64,
}

impl KickOut for Tale {
    ghost use Rattle.std.specs.Prelude.{true, []};

    ghost faults = { λ _. 0 };

    ghost yes = { λ tale. tale.yes };

    ghost took = { λ _ _ _. true };

    ghost fixed = { λ _. [] };

    fn forced(&mut self, _field: &Field) -> Result<(), IoErr> {
        self.found = self.found.saturating_add(1);
        Ok(())
    }

    fn kicked(&mut self, entry: &Record) -> Result<(), IoErr> {
        self.kicks.push(*entry)?;
        Ok(())
    }

    fn rested(&mut self, tick: u64) -> bool {
        if tick == self.rest_at {
            self.yes = self.yes.saturating_add(1);
            return true;
        }
        false
    }

    fn binned(&mut self, _fast: &[u64]) -> Result<(), IoErr> {
        self.parts = self.parts.saturating_add(1);
        Ok(())
    }
}

fn new_tale(alloc: Global, rest_at: u64) -> Tale {
    Tale {
        kicks: Vec::new(alloc),
        found: 0,
        parts: 0,
        rest_at,
        yes: 0,
    }
}

fn setup(low_bin: u8, top_bin: u8, eta: u32, velocity_shift: u8) -> Setup
    requires low { 1 ≤ low_bin }
    requires ordered { low_bin ≤ top_bin }
    requires high { top_bin ≤ 20 }
    requires some { 1 ≤ eta }
    requires eta { eta ≤ 65536 }
    requires shift { velocity_shift ≤ 40 }
    ensures low { result.low_bin ≡ low_bin }
    ensures top { result.top_bin ≡ top_bin }
{
    Setup {
        time_max: 4,
        low_bin,
        top_bin,
        theta: 0,
        eta,
        gravity: 1 << 20,
        velocity_shift,
        soft: [256, 256, 256, 256, 256, 256],
    }
}

fn row(id: u64, x: u32, mom: i64) -> Row
    ensures { HasKind result }
{
    Row {
        id,
        kind: 1,
        mass: 1024,
        pos: [x, 0, 0],
        mom: [mom, 0, 0],
    }
}

// Two bodies 1000 apart, the first of which has a momentum.
fn pair(alloc: Global, mom: i64) -> Result<BodySet, Fail> {
    let rows = vec![in alloc; row(1, 0, mom), row(2, 1000, 0)]?;
    Ok(BodySet::from_list(alloc, rows)?)
}

// A base step from tick 0 on, by the forces among all bodies.
fn step(
    alloc: Global,
    set: &mut BodySet,
    setup: &Setup,
    expansion: Option<&Expansion>,
    tale: &mut Tale,
) -> Result<StepCount, StepEnd>
    requires { IfSome (option_copied expansion) (λ e. Reaches e (0 + 2 ^ setup.now.top_bin)) }
{
    let mut forces = ListField::new(alloc, *setup, None);
    let mut known = None;
    base_step(
        alloc,
        set,
        setup,
        expansion,
        0,
        &mut known,
        &mut forces,
        tale,
    )
}

// Two bodies of one depth.
fn both(alloc: Global, depth: u8) -> Result<Depths, Fail>
    ensures { IfOk result (λ d. d ≡ depth ∷ depth ∷ []) }
{
    Ok(Depths::from_list(vec![in alloc; depth, depth]?))
}

// What is left of a base step in the bins 1 and 2 that rests at tick 2, where both bodies have one depth.
fn finish(
    alloc: Global,
    set: &mut BodySet,
    setup: &Setup,
    depth: u8,
    tale: &mut Tale,
) -> Result<StepCount, Fail>
    requires two { length set.old ≡ 2 }
    requires low { setup.now.low_bin ≡ 1 }
    requires top { setup.now.top_bin ≡ 2 }
    requires shallow { depth ≤ 1 }
{
    let depths = both(alloc, depth)?;
    let mut forces = ListField::new(alloc, *setup, None);
    let mut known = None;
    match finish_step(
        alloc,
        set,
        setup,
        None,
        2,
        &depths,
        &mut known,
        &mut forces,
        tale,
    ) {
        Ok(count) => Ok(count),
        Err(_) => Err("no whole step".into()),
    }
}

// A kick of two bodies, all of which are fast or none.
fn kick(tick: u64, bin: u8, all: bool) -> Record {
    Record {
        tick,
        bin,
        whole: 2,
        fast: if all { 2 } else { 0 },
        pairs: 1,
        fast_pairs: if all { 1 } else { 0 },
        total: [0, 0, 0],
    }
}

// Whether the two bodies stand there.
fn stand(set: &BodySet, first: u32, second: u32) -> bool {
    if set.len() != 2 {
        return false;
    }
    let one = set.get(0);
    let two = set.get(1);
    one.motion.pos() == [first, 0, 0] && two.motion.pos() == [second, 0, 0]
}

// Whether the two bodies have a momentum and its negative.
fn move_apart(set: &BodySet, mom: i64) -> bool
    requires { IsMomentum mom }
{
    if set.len() != 2 {
        return false;
    }
    let one = set.get(0);
    let two = set.get(1);
    one.motion.mom() == [mom, 0, 0] && two.motion.mom() == [-mom, 0, 0]
}

#[test]
fn two_bins(rt: HostRuntime) -> Result<(), Fail> {
    let alloc = rt.alloc();
    let mut set = pair(alloc, 0)?;
    let mut tale = new_tale(alloc, 7);
    let end = step(alloc, &mut set, &setup(1, 2, 65536, 4), None, &mut tale);
    assert!(rt; end.is_ok_and(|count| count.kicks == 6 && count.interactions == 8));
    let kicks = [
        kick(0, 2, true),
        kick(0, 1, false),
        kick(2, 1, false),
        kick(2, 1, false),
        kick(4, 1, false),
        kick(4, 2, true),
    ];
    assert!(rt; tale.kicks.as_slice() == kicks.as_slice());
    assert_eq!(rt; tale.found, 3);
    assert_eq!(rt; tale.parts, 3);
    assert!(rt; stand(&set, 644, 354));
    Ok(())
}

#[test]
fn a_rest_inside(rt: HostRuntime) -> Result<(), Fail> {
    let alloc = rt.alloc();
    let mut set = pair(alloc, 0)?;
    let mut tale = new_tale(alloc, 2);
    match step(alloc, &mut set, &setup(1, 2, 65536, 4), None, &mut tale) {
        Err(StepEnd::Rest { tick, depth, count }) => {
            assert_eq!(rt; tick, 2);
            assert_eq!(rt; count.kicks, 3);
            assert_eq!(rt; count.interactions, 4);
            assert!(rt; depth.len() == 2);
            assert_eq!(rt; depth.get(0), 1);
            assert_eq!(rt; depth.get(1), 1);
        }
        _ => return Err("no rest".into()),
    }
    assert!(rt; stand(&set, 122, 877) && move_apart(&set, 2_638_708));
    Ok(())
}

#[test]
fn a_rest_and_what_is_left(rt: HostRuntime) -> Result<(), Fail> {
    let alloc = rt.alloc();
    let setup = setup(1, 2, 65536, 4);
    let mut set = pair(alloc, 0)?;
    let mut tale = new_tale(alloc, 2);
    let end = step(alloc, &mut set, &setup, None, &mut tale);
    assert!(rt; matches!(end, Err(StepEnd::Rest { .. })));
    if set.len() != 2 {
        return Err("other bodies".into());
    }
    let mut tale = new_tale(alloc, 7);
    let count = finish(alloc, &mut set, &setup, 1, &mut tale)?;
    assert!(rt; count.kicks == 3 && count.interactions == 4);
    let kicks = [kick(2, 1, false), kick(4, 1, false), kick(4, 2, true)];
    assert!(rt; tale.kicks.as_slice() == kicks.as_slice());
    assert_eq!(rt; tale.found, 2);
    assert!(rt; stand(&set, 644, 354));
    Ok(())
}

#[test]
fn no_body_is_fast(rt: HostRuntime) -> Result<(), Fail> {
    let alloc = rt.alloc();
    let setup = setup(1, 2, 65536, 20);
    let mut set = pair(alloc, 0)?;
    if set.len() != 2 {
        return Err("other bodies".into());
    }
    let mut tale = new_tale(alloc, 7);
    let count = finish(alloc, &mut set, &setup, 0, &mut tale)?;
    assert!(rt; count.kicks == 3 && count.interactions == 1);
    assert_eq!(rt; tale.found, 2);
    assert!(rt; stand(&set, 0, 1000) && move_apart(&set, 1_999_778));
    Ok(())
}

#[test]
fn a_step_out_of_range(rt: HostRuntime) -> Result<(), Fail> {
    let alloc = rt.alloc();
    let mut set = pair(alloc, 0)?;
    let mut tale = new_tale(alloc, 7);
    let end = step(alloc, &mut set, &setup(1, 1, 31_246, 4), None, &mut tale);
    assert!(rt; matches!(end, Err(StepEnd::StepRange { tick: 0, id: 1 })));
    assert_eq!(rt; tale.kicks.len(), 0);
    Ok(())
}

#[test]
fn a_momentum_out_of_range(rt: HostRuntime) -> Result<(), Fail> {
    let alloc = rt.alloc();
    let mut set = pair(alloc, 1 << 62)?;
    let mut tale = new_tale(alloc, 7);
    let end = step(alloc, &mut set, &setup(1, 1, 65536, 20), None, &mut tale);
    assert!(rt;
        matches!(
            end,
            Err(StepEnd::MomRange {
                tick: 0,
                bin: 1,
                id: 1,
                axis: 0
            })
        )
    );
    Ok(())
}

// The table of two entries at the ticks 0 and 2^s, the second of which is given.
fn table_bytes(alloc: Global, s: u8, kick: u8, drift: u8) -> Result<Vec<u8>, Fail> {
    let mut bytes = Vec::from_slice(alloc, b"I4EXPAN1")?;
    bytes.extend_from_slice(&[s, 0, 0, 0, 2, 0, 0, 0])?;
    bytes.extend_from_slice(&[0; 16])?;
    bytes.extend_from_slice(&[kick, 0, 0, 0, 0, 0, 0, 0])?;
    bytes.extend_from_slice(&[drift, 0, 0, 0, 0, 0, 0, 0])?;
    Ok(bytes)
}

#[test]
fn the_first_half_does_not_count(rt: HostRuntime) -> Result<(), Fail> {
    let alloc = rt.alloc();
    let table = read_expansion(alloc, &table_bytes(alloc, 1, 1, 2)?, 2)?;
    let mut set = pair(alloc, 0)?;
    let mut tale = new_tale(alloc, 7);
    let end = step(
        alloc,
        &mut set,
        &setup(1, 1, 65536, 20),
        Some(&table),
        &mut tale,
    );
    assert!(rt; end.is_ok());
    assert!(rt; stand(&set, 0, 1000) && move_apart(&set, 999_889));
    Ok(())
}

#[test]
fn half_the_ticks_count(rt: HostRuntime) -> Result<(), Fail> {
    let alloc = rt.alloc();
    let table = read_expansion(alloc, &table_bytes(alloc, 2, 2, 4)?, 4)?;
    let mut set = pair(alloc, 0)?;
    let mut tale = new_tale(alloc, 7);
    let end = step(
        alloc,
        &mut set,
        &setup(2, 2, 65536, 20),
        Some(&table),
        &mut tale,
    );
    assert!(rt; end.is_ok());
    assert!(rt; stand(&set, 0, 999) && move_apart(&set, 2_001_626));
    Ok(())
}

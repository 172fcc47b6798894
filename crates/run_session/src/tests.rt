ghost use Rattle.std.specs.Prelude.{◌≡◌, All, IfOk, length};
ghost use Rattle.particle_set.specs.Rows.{HasKind};
ghost use Rattle.run_session.specs.Own.{AreApart};

use super::*;
use crate::failure::Failure;
use crate::files::{write_restart_file, write_snapshot_file};
use crate::log::Log;
use crate::names::own_names;
use crate::open_files::{append_own, finish_own, open_own};
use crate::own::OwnFiles;
use crate::recorder::Recorder;
use fixed_point::V3;
use nbody_model::{Event, EventKind, Field, Record};
use param_file::{Params, read_params};
use particle_set::{BodySet, Row};
use restart_files::State;
use std::alloc::Global;
use std::test::Fail;
use step_engine::{Depths, KickOut};
use store_io::{IoErr, MemStore, StopAfter, Store, Text};

fn text(alloc: Global, bytes: &[u8]) -> Result<Text, Fail>
    ensures { IfOk result (λ text. text ≡ bytes.now) }
{
    match Text::from_bytes(alloc, bytes) {
        Ok(text) => Ok(text),
        Err(e) => Err(e.into()),
    }
}

#[test]
fn names_have_three_digits(rt: HostRuntime) -> Result<(), Fail> {
    let alloc = rt.alloc();
    let base = Text::from_bytes(alloc, b"snap")?;
    for (n, want) in [
        (0, "snap_000"),
        (7, "snap_007"),
        (42, "snap_042"),
        (999, "snap_999"),
        (1000, "snap_1000"),
        (18446744073709551615, "snap_18446744073709551615"),
    ] {
        let name = numbered(alloc, &base, n)?;
        assert_eq!(rt; name.bytes(), want.as_bytes());
    }
    Ok(())
}

// A function, so that no proof carries the bytes.
fn setting_lines() -> &'static [u8] {
    b"InitCondFile ics.dat
SnapshotFileBase snapshot
LowBin 1
TopBin 5
TimeMax 64
ErrTolTheta 0
ErrTolIntAccuracy 65536
GravityConstantInternal 1048576
VelocityShift 20
KickFile kicks.txt
RankTrace 1
RankTraceFile ranks.txt
BinFile bins.dat
"
}

fn settings(alloc: Global, bytes: &[u8]) -> Result<Params, Fail> {
    Ok(read_params(alloc, bytes)?)
}

fn row(id: u64, x: u32, px: i64) -> Row
    ensures { HasKind result }
{
    Row {
        id,
        kind: 1,
        mass: 1024,
        pos: [x, 0, 0],
        mom: [px, 0, 0],
    }
}

fn pair(alloc: Global) -> Result<BodySet, Fail> {
    let rows = vec![in alloc; row(2, 999, -2001626), row(1, 0, 2001626)]?;
    Ok(BodySet::from_list(alloc, rows)?)
}

fn rest_state(alloc: Global, depths: Vec<u8>) -> Result<State, Fail> {
    let set = pair(alloc)?;
    let depth = Depths::from_list(depths);
    if depth.len() != 0 && depth.len() != set.len() {
        return Err("depths".into());
    }
    Ok(State {
        set,
        depth,
        steps: 3,
        tick: 112,
        next_snapshot: 1,
        next_restart: 0,
        kicks: 0,
        interactions: 0,
    })
}

fn is_named(name: &Option<Text>, want: Option<&[u8]>) -> bool {
    match (name, want) {
        (None, None) => true,
        (Some(name), Some(want)) => name.bytes() == want,
        _ => false,
    }
}

fn names_from(alloc: Global, resumed: bool, state: &State) -> Result<OwnFiles, Fail> {
    let params = settings(alloc, setting_lines())?;
    Ok(own_names(alloc, &params, resumed, state)?)
}

// Whether these are the names of the open files.
fn are_names(own: &OwnFiles, kicks: &[u8], trace: Option<&[u8]>, bins: Option<&[u8]>) -> bool {
    own.kicks.bytes() == kicks && is_named(&own.trace, trace) && is_named(&own.bins, bins)
}

#[test]
fn names_of_the_open_files(rt: HostRuntime) -> Result<(), Fail> {
    let alloc = rt.alloc();
    let whole = rest_state(alloc, Vec::new(alloc))?;
    let trace = Some(b"ranks.txt".as_slice());
    let bins = Some(b"bins.dat".as_slice());
    assert!(rt;
        are_names(
            &names_from(alloc, false, &whole)?,
            b"kicks.txt",
            trace,
            bins
        )
    );
    let trace = Some(b"ranks.txt_from_3".as_slice());
    assert!(rt;
        are_names(
            &names_from(alloc, true, &whole)?,
            b"kicks.txt_from_3",
            trace,
            None
        )
    );
    let resting = rest_state(alloc, Vec::from_slice(alloc, &[1, 0])?)?;
    let trace = Some(b"ranks.txt_from_3_at_112".as_slice());
    assert!(rt;
        are_names(
            &names_from(alloc, true, &resting)?,
            b"kicks.txt_from_3_at_112",
            trace,
            None
        )
    );
    Ok(())
}

fn is_write_fault(done: &Result<(), Failure>, want: &[u8]) -> bool {
    match done {
        Err(Failure::WriteFault { name }) => name.bytes() == want,
        _ => false,
    }
}

#[test]
fn a_snapshot_file(rt: HostRuntime) -> Result<(), Fail> {
    let alloc = rt.alloc();
    let name = text(alloc, b"snapshot_001")?;
    let set = pair(alloc)?;
    let mut store = MemStore::new(alloc);
    let done = write_snapshot_file(alloc, &mut store, &name, &set, 2, 1);
    assert!(rt; done.is_ok());
    assert_eq!(rt; store.length(&name), Ok(472));
    store.fail(5, 100)?;
    let done = write_snapshot_file(alloc, &mut store, &name, &set, 2, 1);
    assert!(rt; is_write_fault(&done, b"snapshot_001"));
    assert_eq!(rt; store.length(&name), Ok(100));
    Ok(())
}

fn own(alloc: Global) -> Result<OwnFiles, Fail>
    ensures { IfOk result AreApart }
{
    Ok(OwnFiles {
        kicks: text(alloc, b"k")?,
        trace: Some(text(alloc, b"t")?),
        bins: Some(text(alloc, b"b")?),
    })
}

// Forces among two bodies, with the events in which they were found.
fn field(alloc: Global) -> Result<Field, Fail> {
    let build = Event {
        kind: EventKind::Build,
        from: 0,
        to: 0,
        size: 3,
    };
    let ask = Event {
        kind: EventKind::Ask,
        from: 0,
        to: 1,
        size: 1,
    };
    Ok(Field {
        forces: vec![in alloc; V3::ZERO, V3::ZERO]?,
        interactions: 1,
        events: vec![in alloc; build, ask]?,
    })
}

// What happens in a step with one resting point.
fn happen<O: KickOut>(out: &mut O, field: &Field) -> Result<bool, IoErr> {
    out.binned(&[7, 9])?;
    out.forced(field)?;
    out.kicked(&Record {
        tick: 5,
        bin: 1,
        whole: 2,
        fast: 2,
        pairs: 1,
        fast_pairs: 0,
        total: [3, -4, 0],
    })?;
    Ok(out.rested(5))
}

const LINE: &[u8] = b"5 1 2 2 1 0 3 -4 0\n";

const BLOCK: &[u8] = b"force 2\nbuild 0 3\nask 0 1 1\n";

const PART: &[u8] = b"\x02\0\0\0\x07\0\0\0\0\0\0\0\x09\0\0\0\0\0\0\0";

#[test]
fn a_recorded_step(rt: HostRuntime) -> Result<(), Fail> {
    let alloc = rt.alloc();
    let field = field(alloc)?;
    let mut log = Log::new(alloc);
    let mut stop = StopAfter::new(2);
    let mut recorder = Recorder::new(alloc, &mut stop, &mut log, true, true);
    assert!(rt; !happen(&mut recorder, &field)?);
    assert_eq!(rt; log.kicks.as_slice(), LINE);
    assert_eq!(rt; log.trace.as_slice(), BLOCK);
    assert_eq!(rt; log.bins.as_slice(), PART);
    let mut quiet = Log::new(alloc);
    let mut recorder = Recorder::new(alloc, &mut stop, &mut quiet, false, false);
    assert!(rt; happen(&mut recorder, &field)?);
    assert_eq!(rt; quiet.kicks.as_slice(), LINE);
    assert_eq!(rt; quiet.trace.len() + quiet.bins.len(), 0);
    Ok(())
}

// Makes the files, puts a log into them and finishes them.
#[tactic(auto, using(crate::proofs::OwnChanges::are_there))]
fn keep<S: Store>(alloc: Global, store: &mut S, own: &OwnFiles, log: &Log) -> Result<(), Failure>
    requires { AreApart own.now }
{
    open_own(alloc, store, own)?;
    append_own(alloc, store, own, log)?;
    finish_own(alloc, store, own, true)
}

fn is_file(store: &MemStore, name: &Text, want: &[u8]) -> bool {
    store.get(name).is_some_and(|bytes| bytes == want)
}

#[test]
fn the_open_files(rt: HostRuntime) -> Result<(), Fail> {
    let alloc = rt.alloc();
    let own = own(alloc)?;
    let mut log = Log::new(alloc);
    log.kicks.extend_from_slice(LINE)?;
    log.bins.extend_from_slice(PART)?;
    let mut store = MemStore::new(alloc);
    assert!(rt; keep(alloc, &mut store, &own, &log).is_ok());
    assert!(rt; is_file(&store, &own.kicks, LINE));
    assert!(rt; is_file(&store, &text(alloc, b"t")?, b""));
    let mut bins = Vec::from_slice(alloc, b"I4BINS01")?;
    bins.extend_from_slice(PART)?;
    bins.extend_from_slice(b"I4BINEND")?;
    assert!(rt; is_file(&store, &text(alloc, b"b")?, &bins));
    Ok(())
}

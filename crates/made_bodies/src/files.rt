// The files of made bodies: their snapshot, and the parameter file that names it.
ghost use Rattle.std.specs.Prelude.{◌≡◌, ◌≢◌, ◌≤◌, ◌++◌, ◌∷◌, [], false, IsTrue, IfOk, IfErr, OnOk, OnErr, codes};
ghost use Rattle.store_io.specs.Causes.{io_failed};
ghost use Rattle.store_io.specs.Files.{ChangesOnly};
ghost use Rattle.store_io.specs.Told.{Causes, Puts, Tells};
ghost use Rattle.made_bodies.specs.declared.files.MakeErr.TheVariants.{Memory as MakeMemory};
ghost use Rattle.made_bodies.specs.Drawn.{drawn_bodies};
ghost use Rattle.made_bodies.specs.Made.{AreBegun, AreMade, Begins, Blames, HasCause, Makes, WritesPart, settings_file, snapshot_file};

use crate::bodies::draw_bodies;
use crate::settings::settings_text;
use fixed_point::Memory;
use snap_file::write_snapshot;
use std::alloc::Global;
use std::marker::Model;
use store_io::{IoErr, Store, Text, append_pieces};

/// A file of this name couldn't be written, or memory is wanting.
#[derive(Debug, Drop)]
pub enum MakeErr {
    WriteFault { name: Text },
    Memory,
}

/// A file that is to be made.
#[derive(Drop)]
struct MadeFile {
    name: Text,
    text: Vec<u8>,
}

impl Model for MadeFile {
    ghost use Rattle.made_bodies.specs.Made.{FileData};

    ghost Value = { FileData };

    ghost view = { λ f. record { name = f.name; text = f.text.items } };
}

// The snapshot of bodies that are drawn.
fn snapshot_file(alloc: Global, count: u64, seed: u64, name: &Text) -> Result<MadeFile, Memory>
    requires { count ≤ 1048576 }
    ensures { IfOk result (λ file. file ≡ snapshot_file name.now (drawn_bodies seed count)) }
{
    let set = draw_bodies(alloc, count, seed)?;
    Ok(MadeFile {
        name: name.with(alloc, b".ics")?,
        text: write_snapshot(alloc, &set, 0, 0)?,
    })
}

// The parameter file that names it.
fn settings_file(alloc: Global, name: &Text) -> Result<MadeFile, Memory>
    ensures { IfOk result (λ file. file ≡ settings_file name.now) }
{
    Ok(MadeFile {
        name: name.with(alloc, b".param")?,
        text: settings_text(alloc, name)?,
    })
}

/// Makes a file, writes it and finishes it. On an error it is as it was or holds a first part of the text.
pub fn put_file<S: Store>(store: &mut S, name: &Text, text: &[u8]) -> Result<(), IoErr>
    ensures tells { S.tells store.new ≡ S.tells store.old }
    ensures ok { OnOk result (Puts S.Store store.old store.new name.now text.now) }
    ensures closed { OnOk result (Tells S.Store store.old → S.closed store.new ≡ S.closed store.old ++ name.now ∷ []) }
    ensures err { OnErr result (Tells S.Store store.old → WritesPart (S.file store.old) (S.file store.new) name.now text.now) }
    ensures closed_err { OnErr result (S.closed store.new ≡ S.closed store.old) }
    ensures cause { Causes S.Store store.old store.new (io_failed result) (name.now, false) }
{
    store.create(name)?;
    append_pieces(store, name, text)?;
    store.close(name)
}

// The same, with the name of the file where it couldn't be written.
fn write_file<S: Store>(store: &mut S, file: MadeFile) -> Result<(), MakeErr>
    ensures tells { S.tells store.new ≡ S.tells store.old }
    ensures ok { OnOk result (Puts S.Store store.old store.new file.name file.text) }
    ensures closed { OnOk result (Tells S.Store store.old → S.closed store.new ≡ S.closed store.old ++ file.name ∷ []) }
    ensures err { OnErr result (Tells S.Store store.old
        → WritesPart (S.file store.old) (S.file store.new) file.name file.text) }
    ensures closed_err { OnErr result (S.closed store.new ≡ S.closed store.old) }
    ensures cause { HasCause S.Store store.old store.new result }
    ensures fault { IfErr result (Blames file.name file.name) }
{
    match put_file(store, &file.name, &file.text) {
        Ok(()) => Ok(()),
        Err(IoErr::Failed) => Err(MakeErr::WriteFault { name: file.name }),
        Err(IoErr::Memory) => Err(MakeErr::Memory),
    }
}

// Writes two files, the second one once the first one is finished.
fn write_both<S: Store>(store: &mut S, first: MadeFile, second: MadeFile) -> Result<(), MakeErr>
    requires { second.name ≢ first.name }
    ensures tells { S.tells store.new ≡ S.tells store.old }
    ensures ok { OnOk result (Makes S.Store store.old store.new first second) }
    ensures err { OnErr result (Begins S.Store store.old store.new first second) }
    ensures cause { HasCause S.Store store.old store.new result }
    ensures fault { IfErr result (Blames first.name second.name) }
{
    match write_file(store, first) {
        Ok(()) => write_file(store, second),
        Err(err) => Err(err),
    }
}

// Both files, before any is written.
fn files_of(
    alloc: Global,
    count: u64,
    seed: u64,
    name: &Text,
) -> Result<(MadeFile, MadeFile), Memory>
    requires { count ≤ 1048576 }
    ensures first { IfOk result (λ r. r.0 ≡ snapshot_file name.now (drawn_bodies seed count)) }
    ensures second { IfOk result (λ r. r.1 ≡ settings_file name.now) }
{
    let first = snapshot_file(alloc, count, seed, name)?;
    let second = settings_file(alloc, name)?;
    Ok((first, second))
}

/// Writes the snapshot of bodies that are drawn from a seed, `name.ics`, and then the parameter file of a run that begins
/// with it, `name.param`. No other file changes.
pub fn make<S: Store>(
    alloc: Global,
    count: u64,
    seed: u64,
    name: &Text,
    store: &mut S,
) -> Result<(), MakeErr>
    requires { count ≤ 1048576 }
    ensures tells { S.tells store.new ≡ S.tells store.old }
    ensures ok { OnOk result (Makes S.Store store.old store.new
        (snapshot_file name.now (drawn_bodies seed count)) (settings_file name.now)) }
    ensures err { OnErr result (Begins S.Store store.old store.new
        (snapshot_file name.now (drawn_bodies seed count)) (settings_file name.now)) }
    ensures cause { HasCause S.Store store.old store.new result }
    ensures fault { IfErr result (Blames (name.now ++ codes ".ics") (name.now ++ codes ".param")) }
{
    match files_of(alloc, count, seed, name) {
        Ok((first, second)) => write_both(store, first, second),
        Err(Memory) => Err(MakeErr::Memory),
    }
}

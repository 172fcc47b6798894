// The files that a run keeps open: made, grown and finished.
ghost use Rattle.std.specs.Prelude.{◌≡◌, ◌++◌, [], ◌∷◌, IfSome, IsTrue, IsSome, IfErr, OnOk, OnErr, codes};
ghost use Rattle.run_session.specs.Causes.{Blames, FilesCause};
ghost use Rattle.run_session.specs.Changes.{AreThere, Grows, GrowsPartly, IsNow, IsPartlyNow, Turns, TurnsIf};
ghost use Rattle.run_session.specs.Outputs.{end_mark};
ghost use Rattle.run_session.specs.Own.{AreApart, OpensPart, Stands, first_texts, name_list, own_names};
ghost use Rattle.run_session.specs.Promises.{Adds, AddsPart, EndsPart, FinishesPart};

use crate::failure::Failure;
use crate::files::{append_to, close_file, create_file};
use crate::log::Log;
use crate::own::OwnFiles;
use std::alloc::Global;
use store_io::{Store, Text};

// ---- made

// What the bin file begins and ends with.
const BINS_TAG: [u8; 8] = *b"I4BINS01";

const BINS_END: [u8; 8] = *b"I4BINEND";

// Makes an empty file, if there is a name for it.
fn create_if<S: Store>(alloc: Global, store: &mut S, name: &Option<Text>) -> Result<(), Failure>
    ensures tells { S.tells store.new ≡ S.tells store.old }
    ensures closed { S.closed store.new ≡ S.closed store.old }
    ensures ok { OnOk result (IsTrue (S.tells store.old)
        → TurnsIf (IsNow []) name.now (S.file store.old) (S.file store.new)) }
    ensures part { IsTrue (S.tells store.old)
        → TurnsIf (IsPartlyNow []) name.now (S.file store.old) (S.file store.new) }
    ensures fault { IfErr result (Blames (name_list name.now)) }
    ensures cause { FilesCause result (S.faults store.old) (S.faults store.new) (S.last store.old) (S.last store.new) }
{
    match name {
        None => Ok(()),
        Some(name) => create_file(alloc, store, name),
    }
}

// Makes a bin file with its tag.
fn open_bin_file<S: Store>(alloc: Global, store: &mut S, name: &Text) -> Result<(), Failure>
    ensures tells { S.tells store.new ≡ S.tells store.old }
    ensures closed { S.closed store.new ≡ S.closed store.old }
    ensures ok { OnOk result (IsTrue (S.tells store.old)
        → Turns (IsNow (codes "I4BINS01")) name.now (S.file store.old) (S.file store.new)) }
    ensures part { IsTrue (S.tells store.old)
        → Turns (IsPartlyNow (codes "I4BINS01")) name.now (S.file store.old) (S.file store.new) }
    ensures fault { IfErr result (Blames (name.now ∷ [])) }
    ensures cause { FilesCause result (S.faults store.old) (S.faults store.new) (S.last store.old) (S.last store.new) }
{
    create_file(alloc, store, name)?;
    append_to(alloc, store, name, &BINS_TAG)
}

// Makes the bin file, if there is a name for it.
fn open_bins<S: Store>(alloc: Global, store: &mut S, name: &Option<Text>) -> Result<(), Failure>
    ensures tells { S.tells store.new ≡ S.tells store.old }
    ensures closed { S.closed store.new ≡ S.closed store.old }
    ensures ok { OnOk result (IsTrue (S.tells store.old)
        → TurnsIf (IsNow (codes "I4BINS01")) name.now (S.file store.old) (S.file store.new)) }
    ensures part { IsTrue (S.tells store.old)
        → TurnsIf (IsPartlyNow (codes "I4BINS01")) name.now (S.file store.old) (S.file store.new) }
    ensures fault { IfErr result (Blames (name_list name.now)) }
    ensures cause { FilesCause result (S.faults store.old) (S.faults store.new) (S.last store.old) (S.last store.new) }
{
    match name {
        None => Ok(()),
        Some(name) => open_bin_file(alloc, store, name),
    }
}

/// Makes the kick file, the trace file and the bin file with its tag, in this order.
pub(crate) fn open_own<S: Store>(
    alloc: Global,
    store: &mut S,
    own: &OwnFiles,
) -> Result<(), Failure>
    requires { AreApart own.now }
    ensures tells { S.tells store.new ≡ S.tells store.old }
    ensures closed { S.closed store.new ≡ S.closed store.old }
    ensures ok { OnOk result (IsTrue (S.tells store.old)
        → Stands own.now first_texts (S.file store.old) (S.file store.new)) }
    ensures err { OnErr result (IsTrue (S.tells store.old)
        → OpensPart own.now (S.file store.old) (S.file store.new)) }
    ensures fault { IfErr result (Blames (own_names own.now)) }
    ensures cause { FilesCause result (S.faults store.old) (S.faults store.new) (S.last store.old) (S.last store.new) }
{
    create_file(alloc, store, &own.kicks)?;
    create_if(alloc, store, &own.trace)?;
    open_bins(alloc, store, &own.bins)
}

// ---- grown

// Puts bytes behind those of a file, if there are any.
fn append_some<S: Store>(
    alloc: Global,
    store: &mut S,
    name: &Text,
    bytes: &[u8],
) -> Result<(), Failure>
    requires { IsTrue (S.tells store.old) → IsSome (S.file store.old name.now) }
    ensures tells { S.tells store.new ≡ S.tells store.old }
    ensures closed { S.closed store.new ≡ S.closed store.old }
    ensures ok { OnOk result (IsTrue (S.tells store.old)
        → Turns (Grows bytes.now) name.now (S.file store.old) (S.file store.new)) }
    ensures part { IsTrue (S.tells store.old)
        → Turns (GrowsPartly bytes.now) name.now (S.file store.old) (S.file store.new) }
    ensures fault { IfErr result (Blames (name.now ∷ [])) }
    ensures cause { FilesCause result (S.faults store.old) (S.faults store.new) (S.last store.old) (S.last store.new) }
{
    if bytes.is_empty() {
        return Ok(());
    }
    append_to(alloc, store, name, bytes)
}

// Puts bytes behind those of a file, if there is a name for it.
fn append_if<S: Store>(
    alloc: Global,
    store: &mut S,
    name: &Option<Text>,
    bytes: &[u8],
) -> Result<(), Failure>
    requires { IsTrue (S.tells store.old) → IfSome name.now (λ n. IsSome (S.file store.old n)) }
    ensures tells { S.tells store.new ≡ S.tells store.old }
    ensures closed { S.closed store.new ≡ S.closed store.old }
    ensures ok { OnOk result (IsTrue (S.tells store.old)
        → TurnsIf (Grows bytes.now) name.now (S.file store.old) (S.file store.new)) }
    ensures part { IsTrue (S.tells store.old)
        → TurnsIf (GrowsPartly bytes.now) name.now (S.file store.old) (S.file store.new) }
    ensures fault { IfErr result (Blames (name_list name.now)) }
    ensures cause { FilesCause result (S.faults store.old) (S.faults store.new) (S.last store.old) (S.last store.new) }
{
    match name {
        None => Ok(()),
        Some(name) => append_some(alloc, store, name, bytes),
    }
}

/// Puts what was kept of a base step behind the kick file, the trace file and the bin file, in this order.
pub(crate) fn append_own<S: Store>(
    alloc: Global,
    store: &mut S,
    own: &OwnFiles,
    log: &Log,
) -> Result<(), Failure>
    requires apart { AreApart own.now }
    requires there { IsTrue (S.tells store.old) → AreThere own.now (S.file store.old) }
    ensures tells { S.tells store.new ≡ S.tells store.old }
    ensures closed { S.closed store.new ≡ S.closed store.old }
    ensures ok { OnOk result (Adds S.Store store.old store.new own.now log.now) }
    ensures err { OnErr result (AddsPart S.Store store.old store.new own.now log.now) }
    ensures fault { IfErr result (Blames (own_names own.now)) }
    ensures cause { FilesCause result (S.faults store.old) (S.faults store.new) (S.last store.old) (S.last store.new) }
{
    append_some(alloc, store, &own.kicks, &log.kicks)?;
    append_if(alloc, store, &own.trace, &log.trace)?;
    append_if(alloc, store, &own.bins, &log.bins)
}

// ---- finished

// Ends the bin file by its mark, if there is one and the run is done.
fn end_bins<S: Store>(
    alloc: Global,
    store: &mut S,
    name: &Option<Text>,
    done: bool,
) -> Result<(), Failure>
    requires { IsTrue (S.tells store.old) → IfSome name.now (λ n. IsSome (S.file store.old n)) }
    ensures tells { S.tells store.new ≡ S.tells store.old }
    ensures closed { S.closed store.new ≡ S.closed store.old }
    ensures ok { OnOk result (IsTrue (S.tells store.old)
        → TurnsIf (Grows (end_mark done).bins) name.now (S.file store.old) (S.file store.new)) }
    ensures part { IsTrue (S.tells store.old)
        → TurnsIf (GrowsPartly (end_mark done).bins) name.now (S.file store.old) (S.file store.new) }
    ensures fault { IfErr result (Blames (name_list name.now)) }
    ensures cause { FilesCause result (S.faults store.old) (S.faults store.new) (S.last store.old) (S.last store.new) }
{
    if done {
        return append_if(alloc, store, name, &BINS_END);
    }
    Ok(())
}

// Finishes a file, if there is a name for it.
fn close_if<S: Store>(alloc: Global, store: &mut S, name: &Option<Text>) -> Result<(), Failure>
    requires { IsTrue (S.tells store.old) → IfSome name.now (λ n. IsSome (S.file store.old n)) }
    ensures tells { S.tells store.new ≡ S.tells store.old }
    ensures files { S.file store.new ≡ S.file store.old }
    ensures ok { OnOk result (IsTrue (S.tells store.old) → S.closed store.new ≡ S.closed store.old ++ name_list name.now) }
    ensures err { OnErr result (S.closed store.new ≡ S.closed store.old) }
    ensures fault { IfErr result (Blames (name_list name.now)) }
    ensures cause { FilesCause result (S.faults store.old) (S.faults store.new) (S.last store.old) (S.last store.new) }
{
    match name {
        None => Ok(()),
        Some(name) => close_file(alloc, store, name),
    }
}

// Finishes the kick file, the trace file and the bin file, in this order.
fn close_own<S: Store>(alloc: Global, store: &mut S, own: &OwnFiles) -> Result<(), Failure>
    requires { IsTrue (S.tells store.old) → AreThere own.now (S.file store.old) }
    ensures tells { S.tells store.new ≡ S.tells store.old }
    ensures files { S.file store.new ≡ S.file store.old }
    ensures ok { OnOk result (IsTrue (S.tells store.old) → S.closed store.new ≡ S.closed store.old ++ own_names own.now) }
    ensures err { IfErr result (EndsPart S.Store store.old store.new own.now) }
    ensures cause { FilesCause result (S.faults store.old) (S.faults store.new) (S.last store.old) (S.last store.new) }
{
    close_file(alloc, store, &own.kicks)?;
    close_if(alloc, store, &own.trace)?;
    close_if(alloc, store, &own.bins)
}

/// Ends the bin file by its mark where the run is done, and then finishes the kick file, the trace file and the bin file, in
/// this order.
pub(crate) fn finish_own<S: Store>(
    alloc: Global,
    store: &mut S,
    own: &OwnFiles,
    done: bool,
) -> Result<(), Failure>
    requires apart { AreApart own.now }
    requires there { IsTrue (S.tells store.old) → AreThere own.now (S.file store.old) }
    ensures tells { S.tells store.new ≡ S.tells store.old }
    ensures ok { OnOk result (Adds S.Store store.old store.new own.now (end_mark done)) }
    ensures closed { OnOk result (IsTrue (S.tells store.old) → S.closed store.new ≡ S.closed store.old ++ own_names own.now) }
    ensures err { IfErr result (FinishesPart S.Store store.old store.new own.now done) }
    ensures cause { FilesCause result (S.faults store.old) (S.faults store.new) (S.last store.old) (S.last store.new) }
{
    end_bins(alloc, store, &own.bins, done)?;
    close_own(alloc, store, own)
}

// Files that are cut at every length.
use super::runs::{FOUR_DONE, LIST, four_steps, two_bins};
use super::stops::{RESUME, rest_state};
use super::*;

// Whether each cut of a file of this name is answered by `tag` below 8 bytes, by its length and `least` below that many,
// and by its length and the whole one from there on.
fn each_cut_is_answered(
    alloc: Global,
    store: &mut MemStore,
    words: &[&str],
    name: &str,
    kind: &str,
    code: u8,
    least: usize,
) -> Result<bool, Fail> {
    let name = text(alloc, name.as_bytes())?;
    let whole = Vec::from_slice(alloc, store.get(&name).ok_or("no file")?)?;
    let full = whole.len();
    for len in 0..full {
        store.put(&name, whole.get(..len).ok_or("short")?)?;
        let want = if len < 8 {
            format!(in alloc; "{kind} tag\n")?
        } else if len < least {
            format!(in alloc; "{kind} length {least} {len}\n")?
        } else {
            format!(in alloc; "{kind} length {full} {len}\n")?
        };
        if !says(alloc, words, store, code, &want)? {
            return Ok(false);
        }
    }
    Ok(true)
}

#[test]
fn a_cut_restart_file_is_answered(rt: HostRuntime) -> Result<(), Fail> {
    let alloc = rt.alloc();
    let mut store = four_steps(alloc, LIST)?;
    assert!(rt; says(alloc, &RUN, &mut store, 0, FOUR_DONE)?);
    assert!(rt;
        each_cut_is_answered(
            alloc,
            &mut store,
            &RESUME,
            "restart_000",
            "restart",
            14,
            176
        )?
    );
    let mut store = two_bins(alloc)?;
    store.put(&text(alloc, b"restart_000")?, &rest_state(alloc)?)?;
    assert!(rt;
        each_cut_is_answered(
            alloc,
            &mut store,
            &RESUME,
            "restart_000",
            "restart",
            14,
            176
        )?
    );
    Ok(())
}

#[test]
fn a_cut_table_is_answered(rt: HostRuntime) -> Result<(), Fail> {
    let alloc = rt.alloc();
    let named = "VelocityShift 20\nErrTolIntAccuracy 65536\nTimeMax 2\nEwaldTableFile table\n";
    let mut store = store_of(alloc, named, &PAIR)?;
    store.put(&text(alloc, b"table")?, &table(alloc, 1, 1 << 30)?)?;
    assert!(rt; each_cut_is_answered(alloc, &mut store, &RUN, "table", "table", 12, 16)?);
    let named = "VelocityShift 20\nErrTolIntAccuracy 65536\nTimeMax 2\nExpansionTableFile table\n";
    let mut store = store_of(alloc, named, &PAIR)?;
    store.put(
        &text(alloc, b"table")?,
        &factors(alloc, 1, &[(0, 0), (1, 2)])?,
    )?;
    assert!(rt; each_cut_is_answered(alloc, &mut store, &RUN, "table", "expansion", 16, 16)?);
    Ok(())
}

// What a snapshot of two bodies is answered with where it is cut to so many bytes: it ends at a block, or inside one.
fn cut_snapshot_line(alloc: Global, len: usize) -> Result<String, Memory> {
    let blocks = [
        (0, "HEAD"),
        (280, "POS "),
        (328, "MOM "),
        (400, "ID  "),
        (440, "MASS"),
    ];
    let mut begin = 0;
    let mut block = "HEAD";
    for (place, name) in blocks {
        if place <= len {
            begin = place;
            block = name;
        }
    }
    if len == begin {
        return Ok(format!(in alloc; "snapshot missing block {block}\n")?);
    }
    let place = if len.saturating_sub(begin) < 16 {
        begin
    } else {
        begin.saturating_add(16)
    };
    Ok(format!(in alloc; "snapshot truncated at {place}\n")?)
}

#[test]
fn a_cut_snapshot_is_answered(rt: HostRuntime) -> Result<(), Fail> {
    let alloc = rt.alloc();
    let mut store = store_of(alloc, STEP, &PAIR)?;
    let whole = snapshot(alloc, &PAIR, 0)?;
    assert_eq!(rt; whole.len(), 472);
    for len in 0..whole.len() {
        store.put(&text(alloc, b"ics.dat")?, whole.get(..len).ok_or("short")?)?;
        let want = cut_snapshot_line(alloc, len)?;
        assert!(rt; says(alloc, &RUN, &mut store, 13, &want)?, "at {len}");
        assert!(rt; !stands(alloc, &store, "kicks.txt")?);
    }
    Ok(())
}

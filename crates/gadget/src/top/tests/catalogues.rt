// Groups of a snapshot, and links of two catalogues.
use super::*;

// The bytes of a catalogue: how many groups there are, and the numbers behind its head.
fn catalogue(alloc: Global, count: u32, numbers: &[u64]) -> Result<Vec<u8>, Memory> {
    let mut bytes = Vec::from_slice(alloc, b"I4GROUPS")?;
    bytes.extend_from_slice(&count.to_le_bytes())?;
    bytes.extend_from_slice(&[0; 4])?;
    for number in numbers {
        bytes.extend_from_slice(&number.to_le_bytes())?;
    }
    Ok(bytes)
}

// A store with a snapshot of bodies at these places of the x axis.
fn bodies_at(alloc: Global, places: &[u32]) -> Result<MemStore, Memory> {
    let mut bodies = Vec::new(alloc);
    let mut id = 0u64;
    for x in places {
        id = id.wrapping_add(1);
        bodies.push(at(id, *x, 0))?;
    }
    let mut store = MemStore::new(alloc);
    store.put(&text(alloc, b"s")?, &snapshot(alloc, &bodies, 0)?)?;
    Ok(store)
}

// A store with two catalogues.
fn two(alloc: Global, first: &[u8], second: &[u8]) -> Result<MemStore, Memory> {
    let mut store = MemStore::new(alloc);
    store.put(&text(alloc, b"a")?, first)?;
    store.put(&text(alloc, b"b")?, second)?;
    Ok(store)
}

#[test]
fn bodies_are_grouped(rt: HostRuntime) -> Result<(), Fail> {
    let alloc = rt.alloc();
    let row: &[u32] = &[0, 100, 200, 500];
    let edge: &[u32] = &[4_294_967_246, 50];
    let cases: [(&[u32], &str, &str, &str); 4] = [
        (row, "100", "2", "groups 1 members 3\n"),
        (row, "100", "1", "groups 2 members 4\n"),
        (edge, "100", "1", "groups 1 members 2\n"),
        (edge, "99", "1", "groups 2 members 2\n"),
    ];
    for (places, length, least, line) in cases {
        let mut store = bodies_at(alloc, places)?;
        let words = ["groups", "s", length, least, "g"];
        assert!(rt; says(alloc, &words, &mut store, 0, line)?, "at {line}");
    }
    let mut store = bodies_at(alloc, row)?;
    say(
        alloc,
        &["groups", "s", "100", "2", "g"],
        &mut store,
        &mut NeverStop,
    )?;
    let whole = catalogue(alloc, 1, &[1, 3072, 3, 1, 2, 3])?;
    assert_eq!(rt; whole.len(), 64);
    assert!(rt; holds(alloc, &store, "g", &whole)?);
    let cut = whole.get(..63).ok_or("short")?;
    let mut store = two(alloc, cut, &whole)?;
    let truncated = "catalogue a truncated at 40\n";
    assert!(rt; says(alloc, &["links", "a", "b", "n"], &mut store, 18, truncated)?);
    Ok(())
}

#[test]
fn groups_are_linked(rt: HostRuntime) -> Result<(), Fail> {
    let alloc = rt.alloc();
    let cases: [(u32, &[u64], u32, &[u64], &str, &str); 3] = [
        (
            2,
            &[1, 3, 3, 1, 2, 3, 4, 2, 2, 4, 5],
            2,
            &[1, 3, 3, 1, 4, 5, 2, 2, 2, 2, 3],
            "links 2\n",
            "1 2 2 1\n4 1 2 1\n",
        ),
        (
            1,
            &[1, 2, 2, 1, 2],
            2,
            &[1, 1, 1, 1, 2, 1, 1, 2],
            "links 1\n",
            "1 1 1 1\n",
        ),
        (1, &[9, 1, 1, 9], 0, &[], "links 0\n", "9 none 0 0\n"),
    ];
    for (m, first, n, second, line, lines) in cases {
        let first = catalogue(alloc, m, first)?;
        let second = catalogue(alloc, n, second)?;
        let mut store = two(alloc, &first, &second)?;
        assert!(rt;
            says(alloc, &["links", "a", "b", "n"], &mut store, 0, line)?,
            "at {line}"
        );
        assert!(rt; holds(alloc, &store, "n", lines.as_bytes())?, "at {line}");
    }
    Ok(())
}

#[test]
fn faulty_catalogues_and_words_leave_nothing(rt: HostRuntime) -> Result<(), Fail> {
    let alloc = rt.alloc();
    let good = catalogue(alloc, 1, &[1, 1, 1, 1])?;
    let twice = catalogue(alloc, 2, &[1, 1, 2, 1, 7, 2, 1, 2, 2, 7])?;
    let cases: [(&[&str], &[u8], &[u8], u8, &str); 8] = [
        (&["links", "a", "b", "n"], b"", b"", 18, "catalogue a tag\n"),
        (
            &["links", "a", "b", "n"],
            &good,
            b"",
            18,
            "catalogue b tag\n",
        ),
        (
            &["links", "b", "a", "n"],
            &good,
            &twice,
            18,
            "catalogue b repeated id 7\n",
        ),
        (&["links", "a", "c", "n"], &good, b"", 7, "absent c\n"),
        (&["links", "a", "b", ""], &good, &good, 2, ""),
        (&["groups", "a", "1073741824", "1", "n"], b"x", b"", 13, ""),
        (&["groups", "a", "1073741825", "1", "n"], b"", b"", 2, ""),
        (&["groups", "a", "1", "0", "n"], b"", b"", 2, ""),
    ];
    for (words, first, second, code, line) in cases {
        let mut store = two(alloc, first, second)?;
        let said = say(alloc, words, &mut store, &mut NeverStop)?;
        assert_eq!(rt; said.code, code, "at {line}");
        assert!(rt; said.line.ends_with(line.as_bytes()), "at {line}");
        assert!(rt; !stands(alloc, &store, "n")?, "at {line}");
    }
    Ok(())
}

#[test]
fn each_failing_call_of_groups_is_answered(rt: HostRuntime) -> Result<(), Fail> {
    let alloc = rt.alloc();
    let read = "read fault s\n";
    let write = "write fault g\n";
    let lines = [read, read, write, write, write];
    for (call, line) in lines.iter().enumerate() {
        let mut store = bodies_at(alloc, &[0, 1])?;
        store.fail(call as u64, 20)?;
        let code = if call < 2 { 4 } else { 5 };
        assert!(rt;
            says(
                alloc,
                &["groups", "s", "1", "1", "g"],
                &mut store,
                code,
                line
            )?
        );
        assert_eq!(rt; stands(alloc, &store, "g")?, call > 2, "at call {call}");
    }
    Ok(())
}

use super::*;
use fixed_point::Memory;
use std::alloc::Global;
use std::fs;
use std::test::Fail;

fn text(alloc: Global, bytes: &[u8]) -> Result<Text, Memory> {
    Text::from_bytes(alloc, bytes)
}

#[test]
fn names(rt: HostRuntime) -> Result<(), Fail> {
    let alloc = rt.alloc();
    let base = text(alloc, b"base")?;
    assert_eq!(rt; base.with(alloc, b"_000")?.bytes(), b"base_000".as_slice());
    for (bytes, want) in [
        (b"".as_slice(), false),
        (b"!".as_slice(), true),
        (b"~".as_slice(), true),
        (b"a b".as_slice(), false),
        (b"a\x7F".as_slice(), false),
        ([b'x'; 200].as_slice(), true),
        ([b'x'; 201].as_slice(), false),
    ] {
        assert_eq!(rt; text(alloc, bytes)?.is_name(), want, "{bytes:?}");
    }
    Ok(())
}

#[test]
fn a_store_in_memory_keeps_files(rt: HostRuntime) -> Result<(), Fail> {
    let alloc = rt.alloc();
    let name = text(alloc, b"a")?;
    let mut store = MemStore::new(alloc);
    assert_eq!(rt; store.length(&name), Err(LenErr::Absent));
    store.create(&name)?;
    append_pieces(&mut store, &name, b"12345")?;
    store.close(&name)?;
    assert_eq!(rt; store.length(&name), Ok(5));
    assert!(rt;
        store
            .get(&name)
            .is_some_and(|bytes| bytes == b"12345".as_slice())
    );
    Ok(())
}

#[test]
fn planned_calls_fail(rt: HostRuntime) -> Result<(), Fail> {
    let alloc = rt.alloc();
    let name = text(alloc, b"a")?;
    let mut store = MemStore::new(alloc);
    store.fail(0, 9)?;
    store.fail(2, 9)?;
    store.fail(3, 9)?;
    assert_eq!(rt; store.length(&name), Err(LenErr::Failed));
    assert_eq!(rt; store.length(&name), Err(LenErr::Absent));
    store.put(&name, b"12345")?;
    assert_eq!(rt; store.close(&name), Err(IoErr::Failed));
    assert_eq!(rt; store.create(&name), Err(IoErr::Failed));
    assert_eq!(rt; store.length(&name), Ok(5));
    Ok(())
}

// Of two entries for one call the later counts.
#[test]
fn a_failing_append_keeps_a_part(rt: HostRuntime) -> Result<(), Fail> {
    let alloc = rt.alloc();
    let name = text(alloc, b"a")?;
    for (kept, want) in [
        (0, b"123".as_slice()),
        (2, b"12345".as_slice()),
        (9, b"123456".as_slice()),
    ] {
        let mut store = MemStore::new(alloc);
        store.fail(0, 7)?;
        store.fail(0, kept)?;
        store.put(&name, b"123")?;
        assert_eq!(rt; store.append(&name, b"456"), Err(IoErr::Failed));
        assert!(rt; store.get(&name).is_some_and(|bytes| bytes == want));
    }
    Ok(())
}

#[test]
fn the_second_piece_fails(rt: HostRuntime) -> Result<(), Fail> {
    let alloc = rt.alloc();
    let name = text(alloc, b"a")?;
    let bytes = vec![in alloc; 7u8; 65_540]?;
    let mut store = MemStore::new(alloc);
    store.fail(1, 3)?;
    store.put(&name, b"")?;
    assert_eq!(rt;
        append_pieces(&mut store, &name, &bytes),
        Err(IoErr::Failed)
    );
    assert_eq!(rt; store.length(&name), Ok(65_539));
    store.put(&name, b"")?;
    append_pieces(&mut store, &name, &bytes)?;
    assert_eq!(rt; store.length(&name), Ok(65_540));
    Ok(())
}

#[test]
fn a_whole_file_is_read(rt: HostRuntime) -> Result<(), Fail> {
    let alloc = rt.alloc();
    let name = text(alloc, b"a")?;
    let other = text(alloc, b"b")?;
    let mut store = MemStore::new(alloc);
    store.put(&name, b"12345")?;
    assert_eq!(rt;
        read_whole(alloc, &mut store, &name, 5)?.as_slice(),
        b"12345".as_slice()
    );
    assert!(rt;
        read_whole(alloc, &mut store, &name, 4).is_err_and(|e| e == ReadErr::TooLong { len: 5 })
    );
    assert!(rt; read_whole(alloc, &mut store, &other, 4).is_err_and(|e| e == ReadErr::Absent));
    // The calls so far are 0 to 3.
    store.fail(5, 0)?;
    assert!(rt; read_whole(alloc, &mut store, &name, 5).is_err_and(|e| e == ReadErr::Failed));
    Ok(())
}

#[test]
fn a_sink_fails_once(rt: HostRuntime) -> Result<(), Fail> {
    let mut sink = MemSink::failing_at(rt.alloc(), 1);
    sink.write(b"a")?;
    assert_eq!(rt; sink.write(b"b"), Err(IoErr::Failed));
    sink.write(b"c")?;
    assert_eq!(rt; sink.bytes(), b"ac".as_slice());
    let mut sink = MemSink::new(rt.alloc());
    sink.write(b"ab")?;
    assert_eq!(rt; sink.bytes(), b"ab".as_slice());
    Ok(())
}

#[test]
fn stops(rt: HostRuntime) {
    for (n, want) in [
        (0, [true, true, true]),
        (1, [true, true, true]),
        (3, [false, false, true]),
    ] {
        let mut stop = StopAfter::new(n);
        assert_eq!(rt; [stop.asked(), stop.asked(), stop.asked()], want, "{n}");
    }
    let mut never = NeverStop;
    assert!(rt; !never.asked());
}

#[test]
fn picks(rt: HostRuntime) -> Result<(), Fail> {
    let mut listed = ListSchedule::new(vec![in rt.alloc(); 7u64, 1]?);
    listed.seed(3);
    assert_eq!(rt; [listed.pick(5), listed.pick(5), listed.pick(5)], [4, 1, 0]);
    let mut last = LastSchedule;
    last.seed(3);
    assert_eq!(rt; last.pick(9), 8);
    let mut seeded = SeededSchedule::new();
    assert_eq!(rt; [seeded.pick(1000), seeded.pick(1000)], [78, 101]);
    seeded.seed(1);
    assert_eq!(rt; [seeded.pick(100), seeded.pick(1000)], [42, 509]);
    Ok(())
}

#[test]
fn real_files(rt: HostRuntime) -> Result<(), Fail> {
    let alloc = rt.alloc();
    let name = text(alloc, b"tried_file")?;
    let mut store = FileStore::new(rt.clone()?);
    assert_eq!(rt; store.length(&name), Err(LenErr::Absent));
    assert_eq!(rt; store.append(&name, b"1"), Err(IoErr::Failed));
    store.create(&name)?;
    append_pieces(&mut store, &name, b"12345")?;
    store.close(&name)?;
    assert_eq!(rt; store.length(&name), Ok(5));
    assert_eq!(rt;
        read_whole(alloc, &mut store, &name, 5)?.as_slice(),
        b"12345".as_slice()
    );
    let mut part = [0; 3];
    store.read_at(&name, 1, &mut part)?;
    assert_eq!(rt; part, *b"234");
    assert_eq!(rt; store.read_at(&name, 3, &mut part), Err(IoErr::Failed));
    let folder = text(alloc, b".")?;
    assert_eq!(rt; store.length(&folder), Err(LenErr::Failed));
    fs::remove_file(&rt, "tried_file")?;
    Ok(())
}

#[test]
fn a_real_stop(rt: HostRuntime) -> Result<(), Fail> {
    let name = text(rt.alloc(), b"stop")?;
    let mut stop = FileStop::new(rt.clone()?);
    assert!(rt; !stop.asked());
    let mut store = FileStore::new(rt.clone()?);
    store.create(&name)?;
    assert!(rt; stop.asked());
    fs::remove_file(&rt, "stop")?;
    Ok(())
}

#[test]
fn a_real_console(rt: HostRuntime) -> Result<(), Fail> {
    let mut sink = ConsoleSink::new(rt.clone()?);
    sink.write(b"one line\n")?;
    sink.write(b"")?;
    Ok(())
}

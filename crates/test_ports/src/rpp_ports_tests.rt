// What file stores and sinks answer, in memory and of real files.
use rpp_ports::{
    FileShelf, MemoryShelf, MemorySink, Named, OutSink, Shelf, ShelfFault, Sink, SinkFault,
};
use std::test::Fail;
use std::{fs, process};

// A file store with two texts named `a`, an empty one named `b`, and calls that fail.
fn shelf(rt: &HostRuntime, failing: &[u64]) -> Result<MemoryShelf, Fail> {
    let alloc = rt.alloc();
    let mut texts = Vec::new(alloc);
    for (name, text) in [("a", "first"), ("a", "second"), ("b", "")] {
        let name = String::from_str(alloc, name)?;
        let bytes = text.as_bytes().to_vec(alloc)?;
        texts.push(Named { name, bytes })?;
    }
    Ok(MemoryShelf::new(alloc, texts, failing.to_vec(alloc)?))
}

#[test]
fn memory_shelf_reads(rt: HostRuntime) -> Result<(), Fail> {
    let mut shelf = shelf(&rt, &[3, 5])?;
    for (name, limit, want) in [
        ("a", 5, Ok("first")),
        ("a", 4, Err(ShelfFault::TooLong)),
        ("a", 5, Err(ShelfFault::Failed)),
        ("c", 5, Err(ShelfFault::Missing)),
        ("c", 5, Err(ShelfFault::Failed)),
        ("b", 0, Ok("")),
        ("a", u64::MAX, Ok("first")),
    ] {
        match (shelf.read(name, limit), want) {
            (Ok(bytes), Ok(text)) => {
                assert_eq!(rt; bytes.as_slice(), text.as_bytes(), "{name} within {limit}")
            }
            (Err(fault), Err(other)) => assert_eq!(rt; fault, other, "{name} within {limit}"),
            _ => assert!(rt; false, "{name} within {limit}"),
        }
    }
    Ok(())
}

#[test]
fn memory_shelf_writes(rt: HostRuntime) -> Result<(), Fail> {
    let mut shelf = shelf(&rt, &[2])?;
    for (name, text, fault) in [
        ("a", "third", None),
        ("b", "lost", Some(ShelfFault::Failed)),
        ("c", "new", None),
        ("c", "newer", None),
    ] {
        assert_eq!(rt; shelf.write(name, text.as_bytes()).err(), fault, "{name}");
    }
    for (name, want) in [("a", "third"), ("b", ""), ("c", "newer")] {
        let Some(text) = shelf.text(name) else {
            assert!(rt; false, "{name}");
            continue;
        };
        assert_eq!(rt; text, want.as_bytes(), "{name}");
        let Ok(read) = shelf.read(name, 5) else {
            assert!(rt; false, "{name}");
            continue;
        };
        assert_eq!(rt; read.as_slice(), want.as_bytes(), "{name}");
    }
    assert!(rt; shelf.text("d").is_none());
    Ok(())
}

#[test]
fn memory_sink_takes_pieces(rt: HostRuntime) -> Result<(), Fail> {
    let mut sink = MemorySink::new(rt.alloc(), vec![in rt.alloc(); 2, 4]?);
    for (piece, fault, want) in [
        ("ab", None, "ab"),
        ("cd", Some(SinkFault::Failed), "ab"),
        ("", None, "ab"),
        ("", Some(SinkFault::Failed), "ab"),
        ("e", None, "abe"),
    ] {
        assert_eq!(rt; sink.put(piece.as_bytes()).err(), fault, "{piece}");
        assert_eq!(rt; sink.bytes(), want.as_bytes(), "{piece}");
    }
    Ok(())
}

#[test]
fn file_shelf_reads_what_it_wrote(rt: HostRuntime) -> Result<(), Fail> {
    let alloc = rt.alloc();
    let id = process::id(rt.process());
    let file = format!(in alloc; "/tmp/rpp_ports_{id}")?;
    let absent = format!(in alloc; "/tmp/rpp_ports_{id}_absent/a")?;
    let mut shelf = FileShelf::new(&rt);
    assert_eq!(rt; shelf.write(file.as_str(), b"longer").err(), None);
    assert_eq!(rt; shelf.write(file.as_str(), b"text\0").err(), None);
    assert_eq!(rt;
        shelf.write(absent.as_str(), b"").err(),
        Some(ShelfFault::Failed)
    );
    for (name, limit, fault) in [
        (file.as_str(), 5, None),
        (file.as_str(), u64::MAX, None),
        (file.as_str(), 4, Some(ShelfFault::TooLong)),
        (absent.as_str(), 4, Some(ShelfFault::Missing)),
        ("/tmp", 4, Some(ShelfFault::Failed)),
    ] {
        match shelf.read(name, limit) {
            Ok(bytes) => {
                assert_eq!(rt; fault, None, "{name} within {limit}");
                assert_eq!(rt;
                    bytes.as_slice(),
                    b"text\0".as_slice(),
                    "{name} within {limit}"
                );
            }
            Err(other) => assert_eq!(rt; Some(other), fault, "{name} within {limit}"),
        }
    }
    fs::remove_file(&rt, file.as_str())?;
    Ok(())
}

#[test]
fn out_sink_prints(rt: HostRuntime) {
    let mut out = OutSink::new(&rt);
    for piece in ["put by a sink", "", "\n"] {
        assert_eq!(rt; out.put(piece.as_bytes()).err(), None, "{piece}");
    }
}

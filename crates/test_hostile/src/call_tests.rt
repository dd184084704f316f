// Calls of file store and sink that fail: what is said, and what is written.
use crate::serving::{answer_on, made_by, shelf_of};
use std::test::Fail;

const FIRST: &[u8] = b"class P int x method main() x += 5";

#[test]
fn lines_whose_calls_fail(rt: HostRuntime) -> Result<(), Fail> {
    let alloc = rt.alloc();
    let calls: [(&[u64], &[u64], &str, &str, bool); 6] = [
        (&[1], &[], "compile F IMG", "cannot read F: failed\n", false),
        (
            &[2],
            &[],
            "compile F IMG",
            "cannot write IMG: failed\n",
            false,
        ),
        (&[], &[1], "compile F IMG", "", true),
        (&[1], &[], "go F 1 1 5", "cannot read F: failed\n", false),
        (&[2], &[], "go F 1 1 5 I", "cannot read I: failed\n", false),
        (&[], &[1], "go F 1 1 5", "", false),
    ];
    let files: [(&str, &[u8]); 2] = [("F", FIRST), ("I", b"x = 1")];
    let image = made_by(alloc, &files, "compile F IMG", "IMG")?;
    for (failing, failing_puts, words, line, is_written) in calls {
        let mut shelf = shelf_of(alloc, &files, failing)?;
        let (status, said) = answer_on(alloc, &mut shelf, words, failing_puts)?;
        assert_eq!(rt; status, 2, "{words}, {line}");
        assert_eq!(rt; said.as_slice(), line.as_bytes(), "{words}, {line}");
        let wanted = if is_written {
            Some(image.as_slice())
        } else {
            None
        };
        assert!(rt; shelf.text("IMG") == wanted, "{words}, {line}");
    }
    Ok(())
}

// The calls of the file store are counted from the one that assembles: it reads and writes one file
// each.
#[test]
fn states_whose_calls_fail(rt: HostRuntime) -> Result<(), Fail> {
    let alloc = rt.alloc();
    let calls: [(&[u64], &str, &str); 3] = [
        (&[3], "run I 1 1 5 T S", "cannot read I: failed\n"),
        (&[4], "run I 1 1 5 T S", "cannot read T: failed\n"),
        (&[4], "run I 1 1 5 - S", "cannot write S: failed\n"),
    ];
    for (failing, words, line) in calls {
        let files: [(&str, &[u8]); 1] = [("T", b"START\nFINISH\n")];
        let mut shelf = shelf_of(alloc, &files, failing)?;
        let (assembled, _) = answer_on(alloc, &mut shelf, "asm T I", &[])?;
        assert_eq!(rt; assembled, 0, "{line}");
        let (status, said) = answer_on(alloc, &mut shelf, words, &[])?;
        assert_eq!(rt; status, 2, "{line}");
        assert_eq!(rt; said.as_slice(), line.as_bytes(), "{line}");
        assert!(rt; shelf.text("S") == None);
    }
    Ok(())
}

// The store of a finished run, as its readers have it.
use roopl_judge::{Checked, judge};
use source_meaning::{Input, Limits, Outcome, Store, interpret};
use std::alloc::Global;
use std::process::Abort;
use std::test::Fail;

const TEXT: &[u8] = b"class P int x int y Cell c method main() x += 5 y -= 1 new Cell c
class Cell int v method f() skip";

/// The store after the run of a text without input.
fn store_of<R: Abort>(rt: &R, alloc: Global, text: &[u8]) -> Result<Option<Store>, Fail> {
    assert!(rt; text.len() < 1000);
    let checked = match judge(alloc, text) {
        Ok(checked) => checked,
        Err(_) => return Ok(None),
    };
    let input = Input {
        words: Vec::new(alloc),
    };
    let limits = Limits { heap: 4, deep: 4 };
    match interpret(alloc, &checked, &input, limits, 1000)? {
        Outcome::Done { store, .. } => Ok(Some(store)),
        _ => Ok(None),
    }
}

/// The number in a field of the main object, if it has one of this number.
fn field_of(store: &Store, field: u32) -> Option<u32> {
    match store.object(1) {
        Some(object) => {
            if (field as usize) < object.cells.len() {
                Some(store.main_field(field))
            } else {
                None
            }
        }
        None => None,
    }
}

#[test]
fn fields_of_the_main_object(rt: HostRuntime) -> Result<(), Fail> {
    let alloc = rt.alloc();
    match store_of(&rt, alloc, TEXT)? {
        Some(store) => {
            assert_eq!(rt; field_of(&store, 0), Some(5));
            assert_eq!(rt; field_of(&store, 1), Some(4294967295));
            // the name of the object
            assert_eq!(rt; field_of(&store, 2), Some(2));
            assert_eq!(rt; field_of(&store, 3), None);
            assert_eq!(rt; store.live(), 1);
        }
        None => assert!(rt; false),
    }
    Ok(())
}

// A command over files in memory.
use rpp_command::{MemoryShelf, MemorySink, Named, Probe, rooplpp};
use std::alloc::{AllocError, Global};

// A file store with these files, whose calls with these numbers fail.
pub(crate) fn shelf_of(
    alloc: Global,
    files: &[(&str, &[u8])],
    failing: &[u64],
) -> Result<MemoryShelf, AllocError> {
    let mut texts = Vec::new(alloc);
    for (name, bytes) in files {
        texts.push(Named {
            name: String::from_str(alloc, name)?,
            bytes: bytes.to_vec(alloc)?,
        })?;
    }
    Ok(MemoryShelf::new(alloc, texts, failing.to_vec(alloc)?))
}

// What a command returns over a file store, with what it prints; the puts with these numbers fail.
pub(crate) fn answer_on(
    alloc: Global,
    shelf: &mut MemoryShelf,
    words: &str,
    failing_puts: &[u64],
) -> Result<(u8, Vec<u8>), AllocError> {
    let mut owned = Vec::new(alloc);
    for word in words.split(' ') {
        owned.push(String::from_str(alloc, word)?)?;
    }
    let mut out = MemorySink::new(alloc, failing_puts.to_vec(alloc)?);
    let mut probes: Vec<Box<dyn Probe>> = Vec::new(alloc);
    let status = rooplpp(alloc, &owned, shelf, &mut out, &mut probes);
    Ok((status, out.bytes().to_vec(alloc)?))
}

// The file of this name that a command writes over these files; empty if it writes none.
pub(crate) fn made_by(
    alloc: Global,
    files: &[(&str, &[u8])],
    words: &str,
    name: &str,
) -> Result<Vec<u8>, AllocError> {
    let mut shelf = shelf_of(alloc, files, &[])?;
    answer_on(alloc, &mut shelf, words, &[])?;
    match shelf.text(name) {
        Some(bytes) => bytes.to_vec(alloc),
        None => Ok(Vec::new(alloc)),
    }
}

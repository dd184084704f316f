// Writing a file so that it has its old text or its new one, and never a part.
use std::fs::{File, Metadata, OpenFile, OpenOptions};
use std::io::{ErrorKind, Write};
use std::os::unix::fs::{MetadataExt, OpenOptionsExt, chown};
use std::rt::Files;
use std::{fs, io};

// The system follows no more links than these.
const MOST_LINKS: usize = 40;

// How many names of temporary files are tried.
const MOST_NAMES: usize = 10_000;

// Who may use a temporary file that is still empty, if another file has the name: only its owner.
const OWNER_ALONE: u32 = 0o600;

// Who may use a new file, before the system narrows it.
const ALL: u32 = 0o666;

// An open file and its name.
#[derive(Drop)]
struct Opened<F: Drop> {
    name: String,
    file: F,
}

// Writes a file. A regular file with one name is replaced as a whole: an error leaves its old text.
// What has no text of its own is written in place: a device or a pipe. So is a file that cannot be
// replaced: one that has several names, or whose folder does not allow it.
pub(crate) fn write<R: Files + AllocGlobal>(rt: &R, name: &str, bytes: &[u8]) -> io::Result<()> {
    if let Some(target) = target_of(rt, name)? {
        match replace(rt, target.as_str(), bytes) {
            Err(e) if is_kept_from(e.kind()) => {}
            done => return done,
        }
    }
    fs::write(rt, name, bytes)
}

// Whether an error says that the folder does not let a file be replaced. The file may still be
// writable. The folder is not ours, cannot be changed or takes no longer name, or the file is mounted.
fn is_kept_from(kind: ErrorKind) -> bool {
    matches!(
        kind,
        ErrorKind::PermissionDenied
            | ErrorKind::NotFound
            | ErrorKind::ReadOnlyFilesystem
            | ErrorKind::ResourceBusy
            | ErrorKind::InvalidFilename
            | ErrorKind::Unsupported
    )
}

// The name of the regular file that is to be replaced, after all links, or of the file that is to
// be made. There is none for what is no regular file, nor where a link of the system's own leads to
// a file that is open, as /dev/stdout does.
fn target_of<R: Files + AllocGlobal>(rt: &R, name: &str) -> io::Result<Option<String>> {
    let processes = match fs::metadata(rt, "/proc") {
        Ok(folder) => Some(folder.dev()),
        Err(_) => None,
    };
    let mut target = String::from_str(rt.alloc(), name)?;
    for _ in 0..MOST_LINKS {
        let found = match fs::symlink_metadata(rt, target.as_str()) {
            Ok(found) => found,
            Err(e) if e.kind() == ErrorKind::NotFound => return Ok(Some(target)),
            Err(_) => return Ok(None),
        };
        if found.is_file() && found.nlink() == 1 {
            return Ok(Some(target));
        }
        if !found.is_symlink() || Some(found.dev()) == processes {
            return Ok(None);
        }
        let link = fs::read_link(rt, target.as_str())?;
        target = beside(rt, target.as_str(), link.as_str())?;
    }
    Ok(None)
}

// The name that leads from the folder of a file to another.
fn beside<R: AllocGlobal>(rt: &R, name: &str, other: &str) -> io::Result<String> {
    let name = match name.rsplit_once('/') {
        Some((folder, _)) if !other.starts_with('/') => format!(in rt.alloc(); "{folder}/{other}")?,
        _ => String::from_str(rt.alloc(), other)?,
    };
    Ok(name)
}

// Replaces a file, or makes it. A link is not followed, and an error leaves no temporary file.
fn replace<R: Files + AllocGlobal>(rt: &R, target: &str, bytes: &[u8]) -> io::Result<()> {
    let old = owned_of(rt, target)?;
    let mode = if old.is_some() { OWNER_ALONE } else { ALL };
    let temporary = temporary_beside(rt, target, mode)?;
    let name = temporary.name;
    let mut done = fill(rt, name.as_str(), temporary.file, old, bytes);
    if done.is_ok() {
        done = fs::rename(rt, name.as_str(), target);
    }
    if done.is_err() {
        let _ = fs::remove_file(rt, name.as_str());
    }
    done
}

// Whose a file is and who may use it, or nothing where there is no file. A file that may not be
// written is refused.
fn owned_of<R: Files>(rt: &R, target: &str) -> io::Result<Option<Metadata>> {
    match OpenOptions::new().write(true).open(rt, target) {
        Ok(file) => Ok(Some(file.metadata()?)),
        Err(e) if e.kind() == ErrorKind::NotFound => Ok(None),
        Err(e) => Err(e),
    }
}

// Makes an empty file in the folder of another, under a hidden name that no other file has.
fn temporary_beside<R: Files + AllocGlobal>(
    rt: &R,
    target: &str,
    mode: u32,
) -> io::Result<Opened<R::File>> {
    let mut options = OpenOptions::new();
    options.write(true).create_new(true).mode(mode);
    for number in 0..MOST_NAMES {
        let hidden = format!(in rt.alloc(); ".rooplpp-{number}")?;
        let name = beside(rt, target, hidden.as_str())?;
        match options.open(rt, name.as_str()) {
            Ok(file) => return Ok(Opened { name, file }),
            Err(e) if e.kind() == ErrorKind::AlreadyExists => {}
            Err(e) => return Err(e),
        }
    }
    Err(io::Error::from(ErrorKind::AlreadyExists))
}

// Writes an empty file, after it has become the owner's of the file that it is to replace. What it
// holds is on the disk when this returns.
fn fill<R: Files>(
    rt: &R,
    name: &str,
    mut file: R::File,
    old: Option<Metadata>,
    bytes: &[u8],
) -> io::Result<()> {
    if let Some(old) = old {
        let made = file.metadata()?;
        if made.uid() != old.uid() || made.gid() != old.gid() {
            chown(rt, name, Some(old.uid()), Some(old.gid()))?;
        }
        file.set_permissions(old.permissions())?;
    }
    file.write_all(bytes)?;
    file.sync_all()
}

//! The test cases of all commands over files in memory. It runs each row of its data folder, and
//! prints the rows that differ and how many rows there were. tests/README.md describes a row.
#![tactic(auto)]

mod answering;
mod row;
mod tables;

use crate::tables::Tables;
use anyhow::Context;
use std::alloc::Global;
use std::{env, fs, io};

const ROWS: &str = ".rows";

fn main(rt: HostRuntime) -> anyhow::Result<()> {
    let alloc = rt.alloc();
    let folder = folder(&rt)?;
    let mut tables = Tables::new(alloc);
    for name in &names_of(&rt, folder.as_str())? {
        let path = format!(in alloc; "{folder}/{name}")?;
        let text = fs::read_to_string(&rt, path.as_str()).context("a file of rows")?;
        tables.run(name.as_str(), text.as_str())?;
    }
    rt.print(tables.report(alloc)?)?;
    Ok(())
}

// The folder of the rows: the first argument, or the one that it runs in.
fn folder(rt: &HostRuntime) -> io::Result<String> {
    match env::args(rt)?.skip(1).next() {
        Some(folder) => Ok(folder),
        None => Ok(String::from_str(rt.alloc(), ".")?),
    }
}

// The names of the files of rows in a folder, in their order.
fn names_of(rt: &HostRuntime, folder: &str) -> io::Result<Vec<String>> {
    let alloc = rt.alloc();
    let mut names = Vec::new(alloc);
    for entry in fs::read_dir(rt, folder)? {
        let entry = entry?;
        if entry.file_name().ends_with(ROWS) {
            names.push(String::from_str(alloc, entry.file_name())?)?;
        }
    }
    names.sort()?;
    Ok(names)
}

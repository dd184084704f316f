// The walk of a memory: what is met from the main object on.
ghost use Rattle.std.specs.Prelude.{◌≡◌, ◌≤◌, ◌<◌, ◌+◌, ◌^◌, length, replicate, OnOk, IfOk};
ghost use Rattle.meaning_reached.specs.rpp_tree.declared.limits.TheConstants.{MOST_FIELDS, MOST_CLASSES};
ghost use Rattle.refine_frame.specs.code_conventions.declared.memory.TheConstants.{FIRST_FIELD};
ghost use Rattle.store_report.specs.declared.leads.Lead.TheVariants as lead;
ghost use Rattle.store_report.specs.Leads.{meets_one, met_leads, leads_of, meets_behind, walks, met_all};

use crate::leads::{Lead, class_at_table, lead_of};
use indexmap::IndexMap;
use pisa_machine::{Machine, NoMemory, word_at};
use static_layout::ClassTable;
use static_layout::memory::{FIRST_FIELD, HEADER_WORDS};
use static_layout::tree::{Program, Var};
use std::alloc::Global;

/// A machine's memory, the program that ran on it, the program's class table, and the addresses of
/// its classes' tables.
#[derive(Clone, Copy)]
pub struct Memory<'a> {
    pub machine: &'a Machine,
    pub program: &'a Program,
    pub table: &'a ClassTable,
    pub tables: &'a [u32],
}

// Meets what a cell with this word leads to, unless it was met.
fn meet(met: &mut IndexMap<u32, Lead>, lead: Lead, word: u32) -> Result<(), NoMemory>
    ensures { OnOk result (met.new.entries ≡ meets_one met.old.entries lead word) }
{
    if !lead.is_reference() {
        return Ok(());
    }
    if word == 0 {
        return Ok(());
    }
    match met.get_index_of(&word) {
        Some(_) => Ok(()),
        None => match met.insert(word, lead) {
            Err(_) => Err(NoMemory),
            Ok(_) => Ok(()),
        },
    }
}

// Meets what fields from an address on lead to.
fn meet_fields(
    met: &mut IndexMap<u32, Lead>,
    machine: &Machine,
    table: &ClassTable,
    at: u64,
    fields: &[Var],
) -> Result<(), NoMemory>
    requires few { length fields.now ≤ MOST_FIELDS }
    requires low { at < 2 ^ 40 }
    ensures { OnOk result (met.new.entries
        ≡ met_leads machine.now.state.cells met.old.entries at (leads_of table.now fields.now)) }
{
    for (number, field) in fields.iter().enumerate() {
        meet(
            met,
            lead_of(table, &field.kind),
            word_at(machine, at + number as u64),
        )?;
    }
    Ok(())
}

// Meets what the elements of an array of references from an address on lead to.
fn meet_elements(
    met: &mut IndexMap<u32, Lead>,
    machine: &Machine,
    at: u64,
    count: u32,
) -> Result<(), NoMemory>
    requires low { at < 2 ^ 40 }
    ensures { OnOk result (met.new.entries
        ≡ met_leads machine.now.state.cells met.old.entries at (replicate count lead.Object)) }
{
    for number in 0..count {
        meet(met, Lead::Object, word_at(machine, at + u64::from(number)))?;
    }
    Ok(())
}

// Meets what the cells of the object or array at an address lead to.
fn meet_behind(
    met: &mut IndexMap<u32, Lead>,
    memory: &Memory,
    at: u32,
    lead: Lead,
) -> Result<(), NoMemory>
    requires { length memory.now.tables.now ≤ MOST_CLASSES }
    ensures { OnOk result (met.new.entries
        ≡ meets_behind memory.now.table.now memory.now.tables.now memory.now.machine.now.state.cells
        met.old.entries (at, lead)) }
{
    let first = u64::from(at) + u64::from(HEADER_WORDS);
    let head = word_at(memory.machine, u64::from(at));
    match lead {
        Lead::Int => Ok(()),
        Lead::Object => meet_fields(
            met,
            memory.machine,
            memory.table,
            first,
            memory.table.fields(class_at_table(memory.tables, head)),
        ),
        Lead::Ints => Ok(()),
        Lead::Objects(_) => meet_elements(met, memory.machine, first, head),
    }
}

/// Walks what is met, from the main object's fields on: each reachable address, with the object or
/// array there, in the order of the numbers.
pub fn met_all(
    alloc: Global,
    memory: &Memory,
    fields: &[Var],
) -> Result<IndexMap<u32, Lead>, NoMemory>
    requires classes { length memory.now.tables.now ≤ MOST_CLASSES }
    requires few { length fields.now ≤ MOST_FIELDS }
    ensures { IfOk result (λ met. met.entries
        ≡ met_all memory.now.table.now memory.now.tables.now fields.now
        memory.now.machine.now.state.cells) }
{
    let mut met = IndexMap::new(alloc);
    meet_fields(
        &mut met,
        memory.machine,
        memory.table,
        u64::from(FIRST_FIELD),
        fields,
    )?;
    for next in 0..memory.machine.cells() {
        let (at, lead) = match met.get_index(next as usize) {
            None => return Ok(met),
            Some((at, lead)) => (*at, *lead),
        };
        meet_behind(&mut met, memory, at, lead)?;
    }
    Ok(met)
}

// The report of a memory.
ghost use Rattle.std.specs.Prelude.{◌≡◌, ◌≤◌, ◌<◌, ◌+◌, ◌^◌, ◌++◌, [], ℕ, All, List, length, map, replicate, string_bytes, OnOk, IfOk, codes};
ghost use Rattle.std.specs.Str.{IsAscii};
ghost use Rattle.std.specs.Fmt.{decimal};
ghost use Rattle.meaning_reached.specs.rpp_tree.declared.limits.TheConstants.{MOST_FIELDS, MOST_CLASSES};
ghost use Rattle.refine_frame.specs.rpp_words.declared.input.FieldWord.{FieldWord};
ghost use Rattle.refine_frame.specs.rpp_words.Texts.{line_end};
ghost use Rattle.meaning_reached.specs.rpp_tree.Views.{source_of};
ghost use Rattle.refine_frame.specs.class_rules.Members.{class_at};
ghost use Rattle.refine_frame.specs.class_rules.Table.{fields_in};
ghost use Rattle.static_layout.specs.roopl_semantics.Store.{State};
ghost use Rattle.static_layout.specs.roopl_semantics.Source.{starting};
ghost use Rattle.static_layout.specs.roopl_semantics.Report.{report as report_of, field_lines, element_lines, value_shown, number_shown, head_shown};
ghost use Rattle.refine_frame.specs.code_conventions.declared.memory.TheConstants.{FIRST_FIELD};
ghost use Rattle.store_report.specs.Ascii.{HasAsciiName, AreAscii};
ghost use Rattle.store_report.specs.Leads.{leads_of};
ghost use Rattle.store_report.specs.Memory.{IsMemoryOf, IsFirstMemoryOf};
ghost use Rattle.store_report.specs.Shown.{lead_value, values_by, head_by, addresses_of, cells_by, object_by, objects_by, report_by};
ghost use Rattle.store_report.specs.Told.{report_told};

use crate::leads::{Lead, class_at_table, lead_of};
use crate::lines::{add_bytes, add_live, add_name, add_word, class_name};
use crate::walking::{Memory, met_all};
use indexmap::IndexMap;
use pisa_machine::{Machine, NoMemory, word_at};
use static_layout::memory::{COUNT_WORD, FIRST_FIELD, HEADER_WORDS};
use static_layout::tree::{Program, Var};
use static_layout::{Checked, Text, table_addresses};
use std::alloc::{AllocError, Global};

/// The report of a machine's memory, by following the references in its cells from the main object
/// on. It has a line for each of its fields, the lines of each reachable object and array, in the
/// order in which they are met, and how many those are. The address of its table determines a
/// class, and an array is known by the type of the reference and its length. A word that is no
/// table's address counts as the first class's. The time is linear in the cells that are met.
pub fn report(alloc: Global, machine: &Machine, checked: &Checked) -> Result<String, NoMemory>
    ensures lines { IfOk result (λ text. string_bytes text
        ≡ report_told (source_of checked.now) machine.now.state.cells) }

    // For a memory with which a run ended, it is the report of the store that the semantics gives.
    ensures last { IfOk result (λ text. (end : State)
        → IsMemoryOf (source_of checked.now) machine.now.state.cells end
        → string_bytes text ≡ report_of (source_of checked.now) end.store) }

    // For a memory with which a run begins, it is the report of the store with which the source
    // begins.
    ensures first { IfOk result (λ text. (input : List FieldWord)
        → IsFirstMemoryOf (source_of checked.now) machine.now.state.cells input
        → string_bytes text ≡ report_of (source_of checked.now)
        (starting (source_of checked.now) input).store) }
{
    let table = checked.table();
    let program = checked.program();
    let tables = table_addresses(alloc, checked)?;
    let fields = table.fields(table.main().class);
    let memory = Memory {
        machine,
        program,
        table,
        tables: &tables,
    };
    compose(alloc, &memory, fields)
}

// The position of what is met at an address, in the order of the numbers.
fn place_of(met: &IndexMap<u32, Lead>, at: u32) -> u64
    ensures place { codes "#" ++ decimal (result + 1) ≡ number_shown (addresses_of met.now.entries) at }
    ensures small { result < 2 ^ 63 }
{
    let _few = met.len(); // proof: bounds the length
    match met.get_index_of(&at) {
        None => 0,
        Some(place) => place as u64,
    }
}

// The number of what is met at an address.
fn add_number(out: &mut String, met: &IndexMap<u32, Lead>, at: u32) -> Result<(), AllocError>
    ensures { OnOk result (string_bytes out.new
        ≡ string_bytes out.old ++ number_shown (addresses_of met.now.entries) at) }
{
    let number = place_of(met, at) + 1;
    write!(out, "#{number}")
}

// The meaning of a word.
fn add_value(
    out: &mut String,
    met: &IndexMap<u32, Lead>,
    lead: Lead,
    word: u32,
) -> Result<(), AllocError>
    ensures { OnOk result (string_bytes out.new
        ≡ string_bytes out.old ++ value_shown (addresses_of met.now.entries) (lead_value lead word)) }
{
    if !lead.is_reference() {
        return add_word(out, word);
    }
    if word == 0 {
        return out.push_str("nil");
    }
    add_number(out, met, word)
}

// The line of a field.
fn add_field(
    out: &mut String,
    met: &IndexMap<u32, Lead>,
    indent: &str,
    name: &Text,
    lead: Lead,
    word: u32,
) -> Result<(), AllocError>
    requires { IsAscii name.now }
    ensures { OnOk result (string_bytes out.new
        ≡ string_bytes out.old ++ (indent.now ++ name.now ++ codes " = "
        ++ value_shown (addresses_of met.now.entries) (lead_value lead word) ++ line_end)) }
{
    out.push_str(indent)?;
    add_name(out, name)?;
    out.push_str(" = ")?;
    add_value(out, met, lead, word)?;
    out.push('\n')
}

// The lines of fields from an address on.
fn add_fields(
    out: &mut String,
    met: &IndexMap<u32, Lead>,
    memory: &Memory,
    indent: &str,
    at: u64,
    fields: &[Var],
) -> Result<(), AllocError>
    requires names { All HasAsciiName fields.now }
    requires few { length fields.now ≤ MOST_FIELDS }
    requires low { at < 2 ^ 40 }
    ensures { OnOk result (string_bytes out.new
        ≡ string_bytes out.old ++ field_lines indent.now (addresses_of met.now.entries) fields.now
        (values_by memory.now.machine.now.state.cells at (leads_of memory.now.table.now fields.now))) }
{
    for (number, field) in fields.iter().enumerate() {
        add_field(
            out,
            met,
            indent,
            &field.name.text,
            lead_of(memory.table, &field.kind),
            word_at(memory.machine, at + number as u64),
        )?;
    }
    Ok(())
}

// The line of an element.
fn add_element(
    out: &mut String,
    met: &IndexMap<u32, Lead>,
    index: u32,
    lead: Lead,
    word: u32,
) -> Result<(), AllocError>
    ensures { OnOk result (string_bytes out.new
        ≡ string_bytes out.old ++ (codes "  [" ++ decimal index ++ codes "] = "
        ++ value_shown (addresses_of met.now.entries) (lead_value lead word) ++ line_end)) }
{
    write!(out, "  [{index}] = ")?;
    add_value(out, met, lead, word)?;
    out.push('\n')
}

// The lines of elements from an address on.
fn add_elements(
    out: &mut String,
    met: &IndexMap<u32, Lead>,
    machine: &Machine,
    at: u64,
    lead: Lead,
    count: u32,
) -> Result<(), AllocError>
    requires low { at < 2 ^ 40 }
    ensures { OnOk result (string_bytes out.new
        ≡ string_bytes out.old ++ element_lines (addresses_of met.now.entries) 0
        (values_by machine.now.state.cells at (replicate count lead))) }
{
    for index in 0..count {
        add_element(
            out,
            met,
            index,
            lead,
            word_at(machine, at + u64::from(index)),
        )?;
    }
    Ok(())
}

// The name of a class.
fn add_class(out: &mut String, program: &Program, class: u32) -> Result<(), AllocError>
    requires { IsAscii (class_at (source_of program.now) class).name.text }
    ensures { OnOk result (string_bytes out.new
        ≡ string_bytes out.old ++ (class_at (source_of program.now) class).name.text) }
{
    add_bytes(out, class_name(program, class))
}

// The meaning of the head word of an object or array: its class, or its length.
fn add_head(out: &mut String, memory: &Memory, lead: Lead, word: u32) -> Result<(), AllocError>
    requires few { length memory.now.tables.now ≤ MOST_CLASSES }
    requires names { (class : ℕ) → IsAscii (class_at (source_of memory.now.program.now) class).name.text }
    ensures { OnOk result (string_bytes out.new
        ≡ string_bytes out.old ++ head_shown (source_of memory.now.program.now)
        (head_by memory.now.tables.now lead word)) }
{
    match lead {
        Lead::Int => {
            let none = 0u32;
            write!(out, "int[{none}]")
        }
        Lead::Object => add_class(out, memory.program, class_at_table(memory.tables, word)),
        Lead::Ints => write!(out, "int[{word}]"),
        Lead::Objects(class) => {
            add_class(out, memory.program, class)?;
            write!(out, "[{word}]")
        }
    }
}

// The lines of the cells of the object or array at an address.
fn add_cells(
    out: &mut String,
    met: &IndexMap<u32, Lead>,
    memory: &Memory,
    at: u32,
    lead: Lead,
    word: u32,
) -> Result<(), AllocError>
    requires few { length memory.now.tables.now ≤ MOST_CLASSES }
    requires names { (class : ℕ) → All HasAsciiName (fields_in memory.now.table.now class) }
    ensures { OnOk result (string_bytes out.new
        ≡ string_bytes out.old ++ cells_by memory.now.table.now memory.now.tables.now
        memory.now.machine.now.state.cells (addresses_of met.now.entries) at lead word) }
{
    let first = u64::from(at) + u64::from(HEADER_WORDS);
    match lead {
        Lead::Int => Ok(()),
        Lead::Object => add_fields(
            out,
            met,
            memory,
            "  ",
            first,
            memory.table.fields(class_at_table(memory.tables, word)),
        ),
        Lead::Ints => add_elements(out, met, memory.machine, first, Lead::Int, word),
        Lead::Objects(_) => add_elements(out, met, memory.machine, first, Lead::Object, word),
    }
}

// The head line and the lines of the cells of the object or array at an address.
fn add_object(
    out: &mut String,
    met: &IndexMap<u32, Lead>,
    memory: &Memory,
    at: u32,
    lead: Lead,
) -> Result<(), AllocError>
    requires few { length memory.now.tables.now ≤ MOST_CLASSES }
    requires names { AreAscii (source_of memory.now.program.now) memory.now.table.now }
    ensures { OnOk result (string_bytes out.new
        ≡ string_bytes out.old ++ object_by
        (source_of memory.now.program.now) memory.now.table.now memory.now.tables.now
        memory.now.machine.now.state.cells (addresses_of met.now.entries) (at, lead)) }
{
    let head = word_at(memory.machine, u64::from(at));
    let count = word_at(memory.machine, u64::from(at) + u64::from(COUNT_WORD));
    add_number(out, met, at)?;
    out.push_str(" ")?;
    add_head(out, memory, lead, head)?;
    write!(out, " count {count}\n")?;
    add_cells(out, met, memory, at, lead, head)
}

// The lines of what is met, in the order of the numbers.
fn add_objects(
    out: &mut String,
    met: &IndexMap<u32, Lead>,
    memory: &Memory,
) -> Result<(), AllocError>
    requires few { length memory.now.tables.now ≤ MOST_CLASSES }
    requires names { AreAscii (source_of memory.now.program.now) memory.now.table.now }
    ensures { OnOk result (string_bytes out.new
        ≡ string_bytes out.old ++ objects_by
        (source_of memory.now.program.now) memory.now.table.now memory.now.tables.now
        memory.now.machine.now.state.cells (addresses_of met.now.entries) met.now.entries) }
{
    for number in 0..met.len() {
        let (at, lead) = match met.get_index(number) {
            None => return Ok(()),
            Some((at, lead)) => (*at, *lead),
        };
        add_object(out, met, memory, at, lead)?;
    }
    Ok(())
}

// The whole text.
fn compose(alloc: Global, memory: &Memory, fields: &[Var]) -> Result<String, NoMemory>
    requires few { length memory.now.tables.now ≤ MOST_CLASSES }
    requires few_fields { length fields.now ≤ MOST_FIELDS }
    requires names { AreAscii (source_of memory.now.program.now) memory.now.table.now }
    requires field_names { All HasAsciiName fields.now }
    ensures { IfOk result (λ text. string_bytes text
        ≡ report_by (source_of memory.now.program.now) memory.now.table.now memory.now.tables.now
        fields.now memory.now.machine.now.state.cells) }
{
    let met = met_all(alloc, memory, fields)?;
    let mut out = String::new(alloc);
    add_fields(&mut out, &met, memory, "", u64::from(FIRST_FIELD), fields)?;
    add_objects(&mut out, &met, memory)?;
    let live = met.len() as u64;
    add_live(&mut out, live)?;
    Ok(out)
}

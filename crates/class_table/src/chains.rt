// Classes by number, and their chains of parents.
ghost use Rattle.std.specs.Prelude.{◌≡◌, MatchResult, None, [], slice_get, map, length, ◌≤◌, IfSome, ◌<◌};
ghost use Rattle.std.specs.Option.{option_map, unwrap_or};
ghost use Rattle.class_rules.specs.rpp_tree.Views.{source_of, class_text_of};
ghost use Rattle.class_rules.specs.Rules.{IsFirst, all_class_names};
ghost use Rattle.class_rules.specs.Chains.{class_named, parent_named, parents as parents_of, chain as chain_within, inheritance_cycle, lines as lines_of};

use class_rules::limits::MOST_CLASSES;
use class_rules::tree::{Ident, Program};
use class_rules::{ClassError, Text};
use indexmap::IndexSet;
use std::alloc::Global;

/// The number of the class of this name.
pub fn number_of(names: &IndexSet<Text>, name: &Text) -> Option<u32>
    requires { length names.now.keys ≤ MOST_CLASSES }
    ensures number { result ≡ class_named names.now.keys name.now }
    ensures within { IfSome result (λ n. n < length names.now.keys) }
{
    match names.get_index_of(name) {
        None => None,
        Some(index) => Some(index as u32),
    }
}

fn parent_number(names: &IndexSet<Text>, parent: &Option<Ident>) -> Option<u32>
    requires { length names.now.keys ≤ MOST_CLASSES }
    ensures { result ≡ parent_named names.now.keys parent.now }
{
    match parent {
        None => None,
        Some(name) => number_of(names, &name.text),
    }
}

/// The number of the parent of each class.
pub fn parents(
    alloc: Global,
    names: &IndexSet<Text>,
    program: &Program,
) -> Result<Vec<Option<u32>>, ClassError>
    requires few { length program.now.classes.items ≤ MOST_CLASSES }
    requires named { names.now.keys ≡ all_class_names (source_of program.now) }
    ensures { MatchResult result (λ list. list.items ≡ parents_of (source_of program.now))
        (λ error. error ≡ ClassError.NoMemory) }
{
    let mut list = Vec::new(alloc);
    for class in &program.classes {
        if list.push(parent_number(names, &class.parent)).is_err() {
            return Err(ClassError::NoMemory);
        }
    }
    Ok(list)
}

fn parent_of(parents: &[Option<u32>], class: u32) -> Option<u32>
    ensures { result ≡ unwrap_or (slice_get parents.now class) None }
{
    match parents.get(class as usize) {
        None => None,
        Some(parent) => *parent,
    }
}

/// The ancestors of a class and the class last, if the chain ends within so many steps.
fn chain(
    alloc: Global,
    parents: &[Option<u32>],
    class: Option<u32>,
    steps: u32,
) -> Result<Option<Vec<u32>>, ClassError>
    ensures { MatchResult result (λ line. option_map (λ list. list.items) line
        ≡ chain_within steps parents.now class) (λ error. error ≡ ClassError.NoMemory) }
{
    let Some(class) = class else {
        return Ok(Some(Vec::new(alloc)));
    };
    if steps == 0 {
        return Ok(None);
    }
    let Some(mut line) = chain(alloc, parents, parent_of(parents, class), steps - 1)? else {
        return Ok(None);
    };
    if line.push(class).is_err() {
        return Err(ClassError::NoMemory);
    }
    Ok(Some(line))
}

/// The chain of each class.
pub fn lines(
    alloc: Global,
    parents: &[Option<u32>],
    program: &Program,
) -> Result<Vec<Vec<u32>>, ClassError>
    requires few { length program.now.classes.items ≤ MOST_CLASSES }
    requires known { parents.now ≡ parents_of (source_of program.now) }
    ensures { MatchResult result
        (λ list. (map (λ line. line.items) list.items ≡ lines_of (source_of program.now))
        × (inheritance_cycle (source_of program.now) ≡ None))
        (IsFirst (inheritance_cycle (source_of program.now))) }
{
    let steps = program.classes.len() as u32;
    let mut list = Vec::new(alloc);
    for (number, class) in program.classes.iter().enumerate() {
        let Some(line) = chain(alloc, parents, Some(number as u32), steps)? else {
            return Err(ClassError::InheritanceCycle { at: class.name.at });
        };
        if list.push(line).is_err() {
            return Err(ClassError::NoMemory);
        }
    }
    Ok(list)
}

/// The line of a class.
pub fn line_at(lines: &[Vec<u32>], number: usize) -> &[u32]
    ensures { result.now ≡ unwrap_or (slice_get (map (λ line. line.items) lines.now) number) [] }
{
    match lines.get(number) {
        None => &[],
        Some(line) => line,
    }
}

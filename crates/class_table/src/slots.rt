// The method slots of classes.
ghost use Rattle.std.specs.Prelude.{◌≡◌, ◌<◌, ◌≤◌, MatchResult, None, [], map, length, position};
ghost use Rattle.std.specs.Str.{bytes_eq};
ghost use Rattle.class_rules.specs.rpp_tree.Views.{source_of, class_text_of, procedure_of};
ghost use Rattle.class_rules.specs.Rules.{IsFirst};
ghost use Rattle.class_rules.specs.Chains.{lines as lines_of};
ghost use Rattle.class_rules.specs.Overrides.{run_at};
ghost use Rattle.class_rules.specs.Members.{class_at, with_methods, slots_along as all_slots, class_slots, slots as slots_of_all, too_many_slots_at, too_many_slots};

use crate::chains::line_at;
use class_rules::limits::{LimitKind, MOST_METHODS};
use class_rules::tree::{Class, Method, Program};
use class_rules::{ClassError, MethodId, Text};
use indexmap::IndexMap;
use std::alloc::Global;
use std::marker::Model;

/// The method slots of a class: the name of each with the method that runs.
#[derive(Drop)]
pub struct MethodSlots {
    map: IndexMap<Text, MethodId>,
}

impl Model for MethodSlots {
    ghost use Rattle.std.specs.Prelude.{List, ℕ, length, ◌≤◌};
    ghost use Rattle.class_rules.specs.declared.method.MethodId.{MethodId};
    ghost use Rattle.class_rules.specs.rpp_tree.declared.limits.TheConstants.{MOST_METHODS};

    ghost Value = { List (List ℕ × MethodId) };

    ghost view = { λ s. s.map.entries };

    ghost invariant = { λ s. length s.map.entries ≤ MOST_METHODS };
}

impl MethodSlots {
    /// The slot of this name.
    pub fn slot(&self, name: &Text) -> Option<u32>
        ensures { result ≡ position (bytes_eq name.now) (map (λ slot. slot.0) self.now) }
    {
        match self.map.get_index_of(name) {
            None => None,
            Some(slot) => Some(slot as u32),
        }
    }

    /// The number of slots.
    pub fn count(&self) -> u32
        ensures count { result ≡ length self.now }
        ensures few { result ≤ MOST_METHODS }
    {
        self.map.len() as u32
    }

    /// The method in a slot.
    pub fn runs(&self, slot: u32) -> MethodId
        ensures { result ≡ run_at self.now slot }
    {
        runs_at(&self.map, slot as usize)
    }
}

/// The method in a slot.
pub fn runs_at(slots: &IndexMap<Text, MethodId>, slot: usize) -> MethodId
    ensures { result ≡ run_at slots.now.entries slot }
{
    match slots.get_index(slot) {
        None => MethodId {
            class: 0,
            method: 0,
        },
        Some((_, runs)) => *runs,
    }
}

/// The methods of a class.
pub fn methods_at(program: &Program, number: u32) -> &[Method]
    ensures { map procedure_of result.now ≡ (class_at (source_of program.now) number).methods }
{
    match program.classes.get(number as usize) {
        None => &[],
        Some(class) => &class.methods,
    }
}

/// Adds the methods of a class to its slots.
fn add_methods(
    alloc: Global,
    slots: &mut IndexMap<Text, MethodId>,
    class: u32,
    methods: &[Method],
) -> Result<(), ClassError>
    ensures { MatchResult result (λ _. slots.new.entries
        ≡ with_methods class 0 (map procedure_of methods.now) slots.old.entries)
        (λ error. error ≡ ClassError.NoMemory) }
{
    for (number, method) in methods.iter().enumerate() {
        let Ok(number) = u32::try_from(number) else {
            return Err(ClassError::NoMemory);
        };
        let Ok(name) = method.name.text.copy(alloc) else {
            return Err(ClassError::NoMemory);
        };
        if slots
            .insert(
                name,
                MethodId {
                    class,
                    method: number,
                },
            )
            .is_err()
        {
            return Err(ClassError::NoMemory);
        }
    }
    Ok(())
}

/// The slots of the last class on a line.
pub fn slots_along(
    alloc: Global,
    program: &Program,
    line: &[u32],
) -> Result<IndexMap<Text, MethodId>, ClassError>
    ensures { MatchResult result (λ slots. slots.entries
        ≡ all_slots (source_of program.now) [] line.now) (λ error. error ≡ ClassError.NoMemory) }
{
    let mut slots = IndexMap::new(alloc);
    for number in line {
        add_methods(alloc, &mut slots, *number, methods_at(program, *number))?;
    }
    Ok(slots)
}

/// The slots of a class, if they are not too many.
#[tactic(auto, using(class_rules::proofs::Numbers::by_number))]
fn class_slots(
    alloc: Global,
    program: &Program,
    lines: &[Vec<u32>],
    number: usize,
    class: &Class,
) -> Result<MethodSlots, ClassError>
    requires known { map (λ line. line.items) lines.now ≡ lines_of (source_of program.now) }
    requires within { number < length program.now.classes.items }
    ensures { MatchResult result (λ slots. (slots ≡ class_slots (source_of program.now) number)
        × (too_many_slots_at (source_of program.now) number (class_text_of class.now) ≡ None))
        (IsFirst (too_many_slots_at (source_of program.now) number (class_text_of class.now))) }
{
    let map = slots_along(alloc, program, line_at(lines, number))?;
    if map.len() > MOST_METHODS as usize {
        return Err(ClassError::Limit {
            which: LimitKind::Methods,
            at: class.name.at,
        });
    }
    Ok(MethodSlots { map })
}

/// The slots of each class, if they are not too many.
pub fn slots(
    alloc: Global,
    program: &Program,
    lines: &[Vec<u32>],
) -> Result<Vec<MethodSlots>, ClassError>
    requires { map (λ line. line.items) lines.now ≡ lines_of (source_of program.now) }
    ensures { MatchResult result (λ list. (list.items ≡ slots_of_all (source_of program.now))
        × (too_many_slots (source_of program.now) ≡ None))
        (IsFirst (too_many_slots (source_of program.now))) }
{
    let mut list = Vec::new(alloc);
    for (number, class) in program.classes.iter().enumerate() {
        let slots = class_slots(alloc, program, lines, number, class)?;
        if list.push(slots).is_err() {
            return Err(ClassError::NoMemory);
        }
    }
    Ok(list)
}

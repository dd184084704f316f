// What moves look for.
ghost use Rattle.std.specs.Prelude.{◌≡◌, ◌++◌, IfOk, OnOk, map};
ghost use Rattle.std.specs.List.{list_any};
ghost use Rattle.std.specs.Ordering.{int_eq};
ghost use Rattle.image_searches.specs.Goals.{with_number, parsed_numbers, places_of as places_for, sought, is_wanted, is_served as is_served_goal};
ghost use Rattle.image_searches.specs.Sights.{sought_in};

use crate::watches::{Watch, first_register, is_other, watch_of, word_at};
use live_requests::{Goal, Machine, short_number};
use std::alloc::{AllocError, Global};

/// What moves look for: some code addresses, and another word of what is watched.
#[derive(Drop)]
pub(crate) struct Aim {
    pub places: Vec<i64>,
    pub watch: Watch,
    pub from: Option<u32>,
}

// Adds the numbers that words write.
fn add_numbers(numbers: &mut Vec<i64>, words: &[&[u8]]) -> Result<(), AllocError>
    ensures { OnOk result (numbers.new.items
        ≡ numbers.old.items ++ parsed_numbers (map (λ word. word.now) words.now)) }
{
    match words {
        [] => Ok(()),
        [word, rest @ ..] => {
            if let Some(number) = short_number(word) {
                numbers.push(number as i64)?;
            }
            add_numbers(numbers, rest)
        }
    }
}

// The code addresses that are looked for.
fn places_of(alloc: Global, goal: Goal, arguments: &[&[u8]]) -> Result<Vec<i64>, AllocError>
    ensures { IfOk result (λ places. places.items
        ≡ places_for goal (map (λ word. word.now) arguments.now)) }
{
    let mut places = Vec::new(alloc);
    match goal {
        Goal::Any => {
            add_numbers(&mut places, arguments)?;
            Ok(places)
        }
        Goal::Points => Ok(places),
        Goal::Depth(_most) => Ok(places),
        Goal::Change => Ok(places),
        Goal::Cell(_at) => Ok(places),
    }
}

/// What moves from the position of a machine on look for.
pub(crate) fn take_aim(
    alloc: Global,
    machine: &Machine,
    goal: Goal,
    arguments: &[&[u8]],
) -> Result<Aim, AllocError>
    ensures { IfOk result (λ aim. sought_in aim
        ≡ sought goal (map (λ word. word.now) arguments.now) machine.now) }
{
    let places = places_of(alloc, goal, arguments)?;
    let watch = watch_of(goal, arguments);
    Ok(Aim {
        places,
        watch,
        from: word_at(machine, watch),
    })
}

fn is_any(places: &[i64], pc: i64) -> bool
    ensures { result ≡ list_any (int_eq pc) places.now }
{
    places.iter().any(|place| pc == *place)
}

/// Whether moves look for the position of a machine.
pub(crate) fn wanted(machine: &Machine, aim: &Aim) -> bool
    ensures { result ≡ is_wanted (sought_in aim.now) machine.now }
{
    is_any(&aim.places, machine.core().pc) || is_other(word_at(machine, aim.watch), aim.from)
}

/// Whether the run of an image has what moves look for.
pub fn is_served(goal: Goal, arguments: &[&[u8]]) -> bool
    ensures { result ≡ is_served_goal goal (map (λ word. word.now) arguments.now) }
{
    match goal {
        Goal::Points => true,
        Goal::Any => true,
        Goal::Depth(_most) => false,
        Goal::Change => first_register(arguments).is_some(),
        Goal::Cell(_at) => true,
    }
}

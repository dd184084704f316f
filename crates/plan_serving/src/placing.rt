// Names of places, for what sees the texts of files and not their names.
ghost use Rattle.std.specs.Prelude.{◌≡◌, [], ◌∷◌, map, option_map, length, vec_len, suc, string_bytes, IfOk};
ghost use Rattle.command_plan.specs.Files.{state_of_names, save_of_names};
ghost use Rattle.plan_serving.specs.Places.{at_place, names_from};

use command_plan::StateNames;
use std::alloc::{AllocError, Global};

/// The place of an input, if there is one.
pub fn place_input(
    alloc: Global,
    input: &Option<String>,
    place: &str,
) -> Result<Option<String>, AllocError>
    ensures { IfOk result (λ placed. option_map string_bytes placed
        ≡ at_place place.now (option_map string_bytes input.now)) }
{
    match input {
        None => Ok(None),
        Some(_name) => Ok(Some(String::from_str(alloc, place)?)),
    }
}

/// The place of a state, if one is named, and the file to save one in.
pub fn place_states(
    alloc: Global,
    states: &Option<StateNames>,
) -> Result<Option<StateNames>, AllocError>
    ensures state { IfOk result (λ placed. state_of_names placed
        ≡ at_place (97 ∷ []) (state_of_names states.now)) }
    ensures save { IfOk result (λ placed. save_of_names placed ≡ save_of_names states.now) }
{
    let Some(names) = states else {
        return Ok(None);
    };
    let save = names.save.clone()?;
    if names.state.as_str() == "-" {
        let state = String::from_str(alloc, "-")?;
        return Ok(Some(StateNames { state, save }));
    }
    let state = String::from_str(alloc, "a")?;
    Ok(Some(StateNames { state, save }))
}

/// The places of images, from this one on.
pub fn place_images(
    alloc: Global,
    images: &[String],
    place: &str,
) -> Result<Vec<String>, AllocError>
    ensures names { IfOk result (λ names. map string_bytes names.items
        ≡ names_from place.now (map string_bytes images.now)) }
    ensures count { IfOk result (λ names. vec_len names ≡ length images.now) }
{
    let Some((_image, rest)) = images.split_first() else {
        return Ok(Vec::new(alloc));
    };
    let next = format!(in alloc; "a{place}")?;
    with_name(alloc, place, place_images(alloc, rest, next.as_str())?)
}

// One more name, before the others.
fn with_name(alloc: Global, name: &str, others: Vec<String>) -> Result<Vec<String>, AllocError>
    ensures names { IfOk result (λ names. map string_bytes names.items
        ≡ name.now ∷ map string_bytes others.items) }
    ensures count { IfOk result (λ names. vec_len names ≡ suc (vec_len others)) }
{
    let mut names = others;
    let name = String::from_str(alloc, name)?;
    names.insert(0, name)?;
    Ok(names)
}

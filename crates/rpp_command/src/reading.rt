// The files of a line.
ghost use Rattle.std.specs.Prelude.{◌≡◌, [], ◌∷◌, map, option_map, string_bytes, IfOk};
ghost use Rattle.command_line.specs.Lines.{asked};
ghost use Rattle.command_line.specs.command_plan.Files.{Needed, source_file, image_file, input_files, state_files, state_of_names};
ghost use Rattle.plan_serving.specs.Wanted.{file_of};
ghost use Rattle.cluster_commands.specs.ClusterPlans.{cluster_files};
ghost use Rattle.rpp_command.specs.Causes.{files_of};

use command_line::{Line, MOST_IMAGE, MOST_SCRIPT, MOST_STATE, MOST_TEXT, StateNames};
use plan_serving::limits::MOST_BYTES;
use plan_serving::{MOST_INPUT, Wanted};
use std::alloc::{AllocError, Global};

/// The files that a line reads, in order.
#[tactic(auto, unfolding(crate::specs::Causes::files_of))]
pub fn wanted_files(alloc: Global, line: &Line) -> Result<Vec<Wanted>, AllocError>
    ensures { IfOk result (λ files. map file_of files.items ≡ files_of (asked line.now)) }
{
    match line {
        Line::Check { file } => source_alone(alloc, file),
        Line::Compile { file, image: _ } => source_alone(alloc, file),
        Line::Asm { text, image: _ } => alone(alloc, text, MOST_TEXT as u64),
        Line::List { image, text: _ } => alone(alloc, image, MOST_IMAGE as u64),
        Line::Flip { image, flipped: _ } => alone(alloc, image, MOST_IMAGE as u64),
        Line::ShowInverse { file, out: _ } => source_alone(alloc, file),
        Line::Generate {
            seed: _,
            size: _,
            out: _,
        } => Ok(Vec::new(alloc)),
        Line::Cluster {
            script,
            cells: _,
            images,
        } => script_and_images(alloc, script, images),
        Line::Run {
            image,
            heap: _,
            deep: _,
            steps: _,
            states,
        } => image_and_state(alloc, image, states),
        Line::Debug {
            image,
            heap: _,
            deep: _,
            script,
        } => image_and_script(alloc, image, script),
        Line::Trace {
            file,
            heap: _,
            deep: _,
            script,
            input,
        } => source_and_script(alloc, file, script, input),
        Line::Go {
            file,
            heap: _,
            deep: _,
            steps: _,
            input,
        } => source_and_input(alloc, file, input),
        Line::Turn {
            file,
            heap: _,
            deep: _,
            steps: _,
            input,
        } => source_and_input(alloc, file, input),
        Line::Profile {
            file,
            heap: _,
            deep: _,
            steps: _,
        } => source_alone(alloc, file),
        Line::Wrap {
            file,
            heap: _,
            deep: _,
            steps: _,
            names: _,
            input,
        } => source_and_input(alloc, file, input),
        Line::Explain {
            file,
            heap: _,
            deep: _,
            fuel: _,
            input,
        } => source_and_input(alloc, file, input),
    }
}

fn source_alone(alloc: Global, file: &String) -> Result<Vec<Wanted>, AllocError>
    ensures { IfOk result (λ files. map file_of files.items ≡ source_file (string_bytes file.now) ∷ []) }
{
    alone(alloc, file, MOST_BYTES as u64)
}

fn source_and_input(
    alloc: Global,
    file: &String,
    input: &Option<String>,
) -> Result<Vec<Wanted>, AllocError>
    ensures { IfOk result (λ files. map file_of files.items
        ≡ source_file (string_bytes file.now) ∷ input_files (option_map string_bytes input.now)) }
{
    before(file, MOST_BYTES as u64, input_alone(alloc, input)?)
}

fn source_and_script(
    alloc: Global,
    file: &String,
    script: &String,
    input: &Option<String>,
) -> Result<Vec<Wanted>, AllocError>
    ensures { IfOk result (λ files. map file_of files.items
        ≡ source_file (string_bytes file.now)
        ∷ record { name = string_bytes script.now; limit = MOST_SCRIPT }
        ∷ input_files (option_map string_bytes input.now)) }
{
    let files = before(script, MOST_SCRIPT as u64, input_alone(alloc, input)?)?;
    before(file, MOST_BYTES as u64, files)
}

fn image_and_script(
    alloc: Global,
    image: &String,
    script: &String,
) -> Result<Vec<Wanted>, AllocError>
    ensures { IfOk result (λ files. map file_of files.items
        ≡ image_file (string_bytes image.now)
        ∷ record { name = string_bytes script.now; limit = MOST_SCRIPT } ∷ []) }
{
    before(
        image,
        MOST_IMAGE as u64,
        alone(alloc, script, MOST_SCRIPT as u64)?,
    )
}

fn image_and_state(
    alloc: Global,
    image: &String,
    states: &Option<StateNames>,
) -> Result<Vec<Wanted>, AllocError>
    ensures { IfOk result (λ files. map file_of files.items
        ≡ image_file (string_bytes image.now) ∷ state_files (state_of_names states.now)) }
{
    before(image, MOST_IMAGE as u64, state_alone(alloc, states)?)
}

// The word `-` names no state.
fn state_alone(alloc: Global, states: &Option<StateNames>) -> Result<Vec<Wanted>, AllocError>
    ensures { IfOk result (λ files. map file_of files.items ≡ state_files (state_of_names states.now)) }
{
    let Some(names) = states else {
        return Ok(Vec::new(alloc));
    };
    if names.state.as_str() == "-" {
        return Ok(Vec::new(alloc));
    }
    alone(alloc, &names.state, MOST_STATE as u64)
}

fn script_and_images(
    alloc: Global,
    script: &String,
    images: &[String],
) -> Result<Vec<Wanted>, AllocError>
    ensures { IfOk result (λ files. map file_of files.items
        ≡ cluster_files (string_bytes script.now) (map string_bytes images.now)) }
{
    before(script, MOST_SCRIPT as u64, images_alone(alloc, images)?)
}

fn images_alone(alloc: Global, images: &[String]) -> Result<Vec<Wanted>, AllocError>
    ensures { IfOk result (λ files. map file_of files.items
        ≡ map image_file (map string_bytes images.now)) }
{
    let Some((image, rest)) = images.split_first() else {
        return Ok(Vec::new(alloc));
    };
    before(image, MOST_IMAGE as u64, images_alone(alloc, rest)?)
}

fn input_alone(alloc: Global, input: &Option<String>) -> Result<Vec<Wanted>, AllocError>
    ensures { IfOk result (λ files. map file_of files.items
        ≡ input_files (option_map string_bytes input.now)) }
{
    match input {
        None => Ok(Vec::new(alloc)),
        Some(name) => alone(alloc, name, MOST_INPUT as u64),
    }
}

fn alone(alloc: Global, name: &String, limit: u64) -> Result<Vec<Wanted>, AllocError>
    ensures { IfOk result (λ files. map file_of files.items
        ≡ record { name = string_bytes name.now; limit = limit } ∷ []) }
{
    before(name, limit, Vec::new(alloc))
}

// One more file, before the others.
fn before(name: &String, limit: u64, others: Vec<Wanted>) -> Result<Vec<Wanted>, AllocError>
    ensures { IfOk result (λ files. map file_of files.items
        ≡ record { name = string_bytes name.now; limit = limit } ∷ map file_of others.items) }
{
    let mut files = others;
    let name = name.clone()?;
    files.insert(0, Wanted { name, limit })?;
    Ok(files)
}

// What the words ask for.
ghost use Rattle.std.specs.Prelude.{◌≡◌, ◌<◌, ◌≤◌, ◌^◌, map, option_map, IfOk, IfSome, string_bytes};
ghost use Rattle.std.specs.Option.{option_and_then};
ghost use Rattle.command_line.specs.CommandNames.{source_command_named};
ghost use Rattle.command_line.specs.CommandNames as named;
ghost use Rattle.command_line.specs.Lines.{Trace, RunImage, Wrap, asked, line_of, line_by, files_line_of, line_of_files, program_line_of, line_of_program, room_of, sizes_of, up_to, number_of_word, HasShortRoom, HasShortSizes, HasShortNumbers};
ghost use Rattle.command_line.specs.declared.line.TheConstants.{MOST_ITEMS, MOST_COMMON};
ghost use Rattle.command_plan.specs.Files.{state_of_names, save_of_names};

use command_plan::{NoMemory, Room, Sizes, StateNames, short_number};
use std::alloc::Global;

/// A command with its words read.
#[derive(Debug, Drop)]
pub enum Line {
    /// Accepts or refuses a source: its file.
    Check {
        file: String,
    },
    /// Compiles a source: its file, and that of the image.
    Compile {
        file: String,
        image: String,
    },
    /// Assembles a text: its file, and that of the image.
    Asm {
        text: String,
        image: String,
    },
    /// Lists an image: its file, and that of the text.
    List {
        image: String,
        text: String,
    },
    /// Flips an image: its file, and that of the flipped one.
    Flip {
        image: String,
        flipped: String,
    },
    /// Writes the inverse of a source: its file, and that of the inverse.
    ShowInverse {
        file: String,
        out: String,
    },
    /// Writes a generated source: its seed, its number of items, and its file.
    Generate {
        seed: u64,
        size: u32,
        out: String,
    },
    /// Carries out a script on several processors: its file, the number of their cells, and the
    /// files of their images.
    Cluster {
        script: String,
        cells: u32,
        images: Vec<String>,
    },
    /// Runs an image: its file, the order of the heap, the depth, the number of steps, and the
    /// files of two states, if there are such.
    Run {
        image: String,
        heap: u64,
        deep: u64,
        steps: u64,
        states: Option<StateNames>,
    },
    /// Follows a script along the run of an image: its file, the order of the heap, the depth, and
    /// the file of the script.
    Debug {
        image: String,
        heap: u64,
        deep: u64,
        script: String,
    },
    /// Follows a script along the run of a program: its file, the order of the heap, the depth, the
    /// file of the script, and the file of its input, if there is one.
    Trace {
        file: String,
        heap: u64,
        deep: u64,
        script: String,
        input: Option<String>,
    },
    /// Compiles and runs a program: its file, the order of the heap, the depth, the number of
    /// steps, and the file of its input, if there is one.
    Go {
        file: String,
        heap: u64,
        deep: u64,
        steps: u64,
        input: Option<String>,
    },
    /// The same, and after a finish the run of the inverse image from where the first run ended.
    Turn {
        file: String,
        heap: u64,
        deep: u64,
        steps: u64,
        input: Option<String>,
    },
    /// Compiles and runs a program as probes watch: its file, the order of the heap, the depth, and
    /// the number of steps.
    Profile {
        file: String,
        heap: u64,
        deep: u64,
        steps: u64,
    },
    /// Compiles and wraps a program, and runs it. It has the program's file, the order of the heap,
    /// the depth, the number of steps, the names of the results, and the file of its input, if
    /// there is one.
    Wrap {
        file: String,
        heap: u64,
        deep: u64,
        steps: u64,
        names: String,
        input: Option<String>,
    },
    /// Interprets a program: its file, the order of the heap, the depth, the most that it may cost,
    /// and the file of its input, if there is one.
    Explain {
        file: String,
        heap: u64,
        deep: u64,
        fuel: u64,
        input: Option<String>,
    },
}

/// The line that the words are, if they are one.
#[tactic(auto, unfolding(crate::specs::Lines::line_of, crate::specs::CommandNames::command_named))]
pub fn read_words(alloc: Global, words: &[String]) -> Result<Option<Line>, NoMemory>
    ensures line { IfOk result (λ line. option_map asked line
        ≡ line_of (map string_bytes words.now)) }
    ensures numbers { IfOk result (λ line. IfSome line (λ line. HasShortNumbers (asked line))) }
{
    let Some((name, args)) = words.split_first() else {
        return Ok(None);
    };
    match name.as_str() {
        "asm" => files_line(FilesCommand::Asm, args),
        "list" => files_line(FilesCommand::List, args),
        "flip" => files_line(FilesCommand::Flip, args),
        "run" => run_line(args),
        "debug" => debug_line(args),
        "cluster" => cluster_line(alloc, args),
        other => source_line(other, args),
    }
}

// The line of a command on sources.
#[tactic(auto, unfolding(crate::specs::CommandNames::source_command_named))]
fn source_line(name: &str, args: &[String]) -> Result<Option<Line>, NoMemory>
    ensures line { IfOk result (λ line. option_map asked line
        ≡ option_and_then (λ command. line_by command (map string_bytes args.now))
        (source_command_named name.now)) }
    ensures numbers { IfOk result (λ line. IfSome line (λ line. HasShortNumbers (asked line))) }
{
    match name {
        "check" => check_line(args),
        "compile" => files_line(FilesCommand::Compile, args),
        "show-inverse" => files_line(FilesCommand::ShowInverse, args),
        "generate" => generate_line(args),
        "go" => program_line(ProgramCommand::Go, args),
        "turn" => program_line(ProgramCommand::Turn, args),
        "profile" => profile_line(args),
        "wrap" => wrap_line(args),
        "explain" => program_line(ProgramCommand::Explain, args),
        "trace" => trace_line(args),
        _ => Ok(None),
    }
}

fn check_line(args: &[String]) -> Result<Option<Line>, NoMemory>
    ensures line { IfOk result (λ line. option_map asked line
        ≡ line_by named.Check (map string_bytes args.now)) }
    ensures numbers { IfOk result (λ line. IfSome line (λ line. HasShortNumbers (asked line))) }
{
    let [file] = args else {
        return Ok(None);
    };
    Ok(Some(Line::Check {
        file: file.clone()?,
    }))
}

// A command whose words are a file that it reads and one that it writes.
#[derive(Clone, Copy)]
enum FilesCommand {
    Compile,
    Asm,
    List,
    Flip,
    ShowInverse,
}

#[tactic(auto, unfolding(crate::specs::Lines::files_line_of))]
fn files_line(command: FilesCommand, args: &[String]) -> Result<Option<Line>, NoMemory>
    ensures line { IfOk result (λ line. option_map asked line
        ≡ files_line_of (line_of_files command) (map string_bytes args.now)) }
    ensures numbers { IfOk result (λ line. IfSome line (λ line. HasShortNumbers (asked line))) }
{
    let [from, to] = args else {
        return Ok(None);
    };
    let from = from.clone()?;
    let to = to.clone()?;
    Ok(Some(with_files(command, from, to)))
}

fn with_files(command: FilesCommand, from: String, to: String) -> Line
    ensures line { asked result ≡ line_of_files command (string_bytes from) (string_bytes to) }
    ensures numbers { HasShortNumbers (asked result) }
{
    match command {
        FilesCommand::Compile => Line::Compile {
            file: from,
            image: to,
        },
        FilesCommand::Asm => Line::Asm {
            text: from,
            image: to,
        },
        FilesCommand::List => Line::List {
            image: from,
            text: to,
        },
        FilesCommand::Flip => Line::Flip {
            image: from,
            flipped: to,
        },
        FilesCommand::ShowInverse => Line::ShowInverse {
            file: from,
            out: to,
        },
    }
}

fn generate_line(args: &[String]) -> Result<Option<Line>, NoMemory>
    ensures line { IfOk result (λ line. option_map asked line
        ≡ line_by named.Generate (map string_bytes args.now)) }
    ensures numbers { IfOk result (λ line. IfSome line (λ line. HasShortNumbers (asked line))) }
{
    let [seed, size, out] = args else {
        return Ok(None);
    };
    let Some(seed) = read_number(seed.as_str()) else {
        return Ok(None);
    };
    let Some(size) = read_up_to(size.as_str(), MOST_ITEMS) else {
        return Ok(None);
    };
    Ok(Some(Line::Generate {
        seed,
        size,
        out: out.clone()?,
    }))
}

fn cluster_line(alloc: Global, args: &[String]) -> Result<Option<Line>, NoMemory>
    ensures line { IfOk result (λ line. option_map asked line
        ≡ line_by named.Cluster (map string_bytes args.now)) }
    ensures numbers { IfOk result (λ line. IfSome line (λ line. HasShortNumbers (asked line))) }
{
    let [script, cells, images @ ..] = args else {
        return Ok(None);
    };
    let Some(cells) = read_up_to(cells.as_str(), MOST_COMMON) else {
        return Ok(None);
    };
    if images.is_empty() || images.len() > MOST_PROCESSORS {
        return Ok(None);
    }
    Ok(Some(Line::Cluster {
        script: script.clone()?,
        cells,
        images: copies(alloc, images)?,
    }))
}

/// The same words once more.
fn copies(alloc: Global, words: &[String]) -> Result<Vec<String>, NoMemory>
    ensures { IfOk result (λ copies. map string_bytes copies.items ≡ map string_bytes words.now) }
{
    let mut copies = Vec::new(alloc);
    for word in words {
        copies.push(word.clone()?)?;
    }
    Ok(copies)
}

fn run_line(args: &[String]) -> Result<Option<Line>, NoMemory>
    ensures line { IfOk result (λ line. option_map asked line
        ≡ line_by named.RunImage (map string_bytes args.now)) }
    ensures numbers { IfOk result (λ line. IfSome line (λ line. HasShortNumbers (asked line))) }
{
    match args {
        [image, heap, deep, steps] => run_with(image, read_sizes(heap, deep, steps), None),
        [image, heap, deep, steps, state, save] => {
            let names = StateNames {
                state: state.clone()?,
                save: save.clone()?,
            };
            run_with(image, read_sizes(heap, deep, steps), Some(names))
        }
        _ => Ok(None),
    }
}

fn run_with(
    image: &String,
    sizes: Option<Sizes>,
    states: Option<StateNames>,
) -> Result<Option<Line>, NoMemory>
    requires { IfSome sizes HasShortSizes }
    ensures line { IfOk result (λ line. option_map asked line
        ≡ option_map (λ sizes. RunImage (string_bytes image.now) sizes (state_of_names states)
        (save_of_names states)) sizes) }
    ensures numbers { IfOk result (λ line. IfSome line (λ line. HasShortNumbers (asked line))) }
{
    let Some(sizes) = sizes else {
        return Ok(None);
    };
    Ok(Some(Line::Run {
        image: image.clone()?,
        heap: sizes.room.heap,
        deep: sizes.room.deep,
        steps: sizes.bound,
        states,
    }))
}

fn debug_line(args: &[String]) -> Result<Option<Line>, NoMemory>
    ensures line { IfOk result (λ line. option_map asked line
        ≡ line_by named.Debug (map string_bytes args.now)) }
    ensures numbers { IfOk result (λ line. IfSome line (λ line. HasShortNumbers (asked line))) }
{
    let [image, heap, deep, script] = args else {
        return Ok(None);
    };
    let Some(room) = read_room(heap, deep) else {
        return Ok(None);
    };
    Ok(Some(Line::Debug {
        image: image.clone()?,
        heap: room.heap,
        deep: room.deep,
        script: script.clone()?,
    }))
}

// A command whose words are the file of a program, the sizes of a run, and the file of an input, if
// there is one.
#[derive(Clone, Copy)]
enum ProgramCommand {
    Go,
    Turn,
    Explain,
}

fn program_line(command: ProgramCommand, args: &[String]) -> Result<Option<Line>, NoMemory>
    ensures line { IfOk result (λ line. option_map asked line
        ≡ program_line_of (line_of_program command) (map string_bytes args.now)) }
    ensures numbers { IfOk result (λ line. IfSome line (λ line. HasShortNumbers (asked line))) }
{
    match args {
        [file, heap, deep, steps] => {
            program_with(command, file, read_sizes(heap, deep, steps), None)
        }
        [file, heap, deep, steps, input] => {
            let input = input.clone()?;
            program_with(command, file, read_sizes(heap, deep, steps), Some(input))
        }
        _ => Ok(None),
    }
}

fn program_with(
    command: ProgramCommand,
    file: &String,
    sizes: Option<Sizes>,
    input: Option<String>,
) -> Result<Option<Line>, NoMemory>
    requires { IfSome sizes HasShortSizes }
    ensures line { IfOk result (λ line. option_map asked line
        ≡ option_map (λ sizes. line_of_program command (string_bytes file.now) sizes
        (option_map string_bytes input)) sizes) }
    ensures numbers { IfOk result (λ line. IfSome line (λ line. HasShortNumbers (asked line))) }
{
    let Some(sizes) = sizes else {
        return Ok(None);
    };
    let file = file.clone()?;
    Ok(Some(with_sizes(command, file, sizes, input)))
}

fn with_sizes(command: ProgramCommand, file: String, sizes: Sizes, input: Option<String>) -> Line
    requires { HasShortSizes sizes }
    ensures line { asked result ≡ line_of_program command (string_bytes file) sizes
        (option_map string_bytes input) }
    ensures numbers { HasShortNumbers (asked result) }
{
    match command {
        ProgramCommand::Go => Line::Go {
            file,
            heap: sizes.room.heap,
            deep: sizes.room.deep,
            steps: sizes.bound,
            input,
        },
        ProgramCommand::Turn => Line::Turn {
            file,
            heap: sizes.room.heap,
            deep: sizes.room.deep,
            steps: sizes.bound,
            input,
        },
        ProgramCommand::Explain => Line::Explain {
            file,
            heap: sizes.room.heap,
            deep: sizes.room.deep,
            fuel: sizes.bound,
            input,
        },
    }
}

fn profile_line(args: &[String]) -> Result<Option<Line>, NoMemory>
    ensures line { IfOk result (λ line. option_map asked line
        ≡ line_by named.Profile (map string_bytes args.now)) }
    ensures numbers { IfOk result (λ line. IfSome line (λ line. HasShortNumbers (asked line))) }
{
    let [file, heap, deep, steps] = args else {
        return Ok(None);
    };
    let Some(sizes) = read_sizes(heap, deep, steps) else {
        return Ok(None);
    };
    Ok(Some(Line::Profile {
        file: file.clone()?,
        heap: sizes.room.heap,
        deep: sizes.room.deep,
        steps: sizes.bound,
    }))
}

fn wrap_line(args: &[String]) -> Result<Option<Line>, NoMemory>
    ensures line { IfOk result (λ line. option_map asked line
        ≡ line_by named.Wrap (map string_bytes args.now)) }
    ensures numbers { IfOk result (λ line. IfSome line (λ line. HasShortNumbers (asked line))) }
{
    match args {
        [file, heap, deep, steps, names] => {
            wrap_with(file, read_sizes(heap, deep, steps), names, None)
        }
        [file, heap, deep, steps, names, input] => {
            wrap_with(
                file,
                read_sizes(heap, deep, steps),
                names,
                Some(input.clone()?),
            )
        }
        _ => Ok(None),
    }
}

fn wrap_with(
    file: &String,
    sizes: Option<Sizes>,
    names: &String,
    input: Option<String>,
) -> Result<Option<Line>, NoMemory>
    requires { IfSome sizes HasShortSizes }
    ensures line { IfOk result (λ line. option_map asked line
        ≡ option_map (λ sizes. Wrap (string_bytes file.now) sizes (string_bytes names.now)
        (option_map string_bytes input)) sizes) }
    ensures numbers { IfOk result (λ line. IfSome line (λ line. HasShortNumbers (asked line))) }
{
    let Some(sizes) = sizes else {
        return Ok(None);
    };
    Ok(Some(Line::Wrap {
        file: file.clone()?,
        heap: sizes.room.heap,
        deep: sizes.room.deep,
        steps: sizes.bound,
        names: names.clone()?,
        input,
    }))
}

fn trace_line(args: &[String]) -> Result<Option<Line>, NoMemory>
    ensures line { IfOk result (λ line. option_map asked line
        ≡ line_by named.Trace (map string_bytes args.now)) }
    ensures numbers { IfOk result (λ line. IfSome line (λ line. HasShortNumbers (asked line))) }
{
    match args {
        [file, heap, deep, script] => trace_with(file, read_room(heap, deep), script, None),
        [file, heap, deep, script, input] => {
            trace_with(file, read_room(heap, deep), script, Some(input.clone()?))
        }
        _ => Ok(None),
    }
}

fn trace_with(
    file: &String,
    room: Option<Room>,
    script: &String,
    input: Option<String>,
) -> Result<Option<Line>, NoMemory>
    requires { IfSome room HasShortRoom }
    ensures line { IfOk result (λ line. option_map asked line
        ≡ option_map (λ room. Trace (string_bytes file.now) room (string_bytes script.now)
        (option_map string_bytes input)) room) }
    ensures numbers { IfOk result (λ line. IfSome line (λ line. HasShortNumbers (asked line))) }
{
    let Some(room) = room else {
        return Ok(None);
    };
    Ok(Some(Line::Trace {
        file: file.clone()?,
        heap: room.heap,
        deep: room.deep,
        script: script.clone()?,
        input,
    }))
}

/// The most items of a generated source.
pub const MOST_ITEMS: u32 = 800;

/// The most processors of a cluster.
pub const MOST_PROCESSORS: usize = 8;

/// The most cells that the processors of a cluster have in common.
pub const MOST_COMMON: u32 = 65_536;

// The number from 1 to `most` that a word is.
fn read_up_to(word: &str, most: u32) -> Option<u32>
    ensures value { result ≡ up_to most (number_of_word word.now) }
    ensures within { IfSome result (λ number. (1 ≤ number) × (number ≤ most)) }
{
    let number = read_number(word)?;
    if number > 0 && number <= most as u64 {
        Some(number as u32)
    } else {
        None
    }
}

// The sizes of a run that three words are: those of its memory, and the number of steps.
fn read_sizes(heap: &String, deep: &String, steps: &String) -> Option<Sizes>
    ensures value { result ≡ sizes_of (string_bytes heap.now) (string_bytes deep.now)
        (string_bytes steps.now) }
    ensures short { IfSome result HasShortSizes }
{
    let room = read_room(heap, deep)?;
    let bound = read_number(steps.as_str())?;
    Some(Sizes { room, bound })
}

// The sizes of a memory that two words are: the order of the heap, and the depth of the stack.
fn read_room(heap: &String, deep: &String) -> Option<Room>
    ensures value { result ≡ room_of (string_bytes heap.now) (string_bytes deep.now) }
    ensures short { IfSome result HasShortRoom }
{
    let heap = read_number(heap.as_str())?;
    let deep = read_number(deep.as_str())?;
    Some(Room { heap, deep })
}

// The number that the digits of a word write.
#[tactic(auto, unfolding(crate::specs::Lines::number_of_word))]
fn read_number(word: &str) -> Option<u64>
    ensures value { result ≡ number_of_word word.now }
    ensures short { IfSome result (λ number. number < 10 ^ 18) }
{
    short_number(word.as_bytes())
}

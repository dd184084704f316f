// Sessions of images.
ghost use Rattle.std.specs.Prelude.{◌≡◌, ◌≤◌, Some, option_map};
ghost use Rattle.run_settings.specs.rpp_ports.Ports.{Rose};
ghost use Rattle.run_settings.specs.rpp_words.Limits.{IsLimits};
ghost use Rattle.run_settings.specs.rpp_words.declared.input.TheConstants.{MOST_DEEP};
ghost use Rattle.run_settings.specs.pisa_image.Reading.{image_at};
ghost use Rattle.run_settings.specs.pisa_loader.Limiting.{limits_refusal};
ghost use Rattle.run_settings.specs.pisa_loader.States.{Gives};
ghost use Rattle.image_commands.specs.ImagePlans.{position_at_start};
ghost use Rattle.live_command.specs.Beginnings.{loads, OfImage};
ghost use Rattle.live_command.specs.Lives.{Lives, ReadsImage, SizesImage, StartsImage, OpensAlong};
ghost use Rattle.live_images.specs.Sessions.{held_in};

use crate::beginning::{Loading, wanted_image};
use crate::reporting::report;
use crate::texts::{first_text, second_text};
use image_commands::{Debugger, Machine, Steps};
use live_images::{Asker, Run, say, serve, status_by};
use plan_serving::{Shelf, Sink, fetch};
use run_settings::{
    Image, ImageError, Input, Limits, LoadError, MOST_DEEP, NoMemory, NoPlan, Room, Verdict,
    check_limits, image_line, load, load_line, load_state, read_image,
};
use std::alloc::Global;
use std::marker::Brand;
use std::sync::ledger::{Blank, Ledger};

const OUTSIDE: u8 = 2;

const NO_MEMORY: u8 = 7;

/// Reads the files of a session of an image, and holds it.
pub(crate) fn begin_image<S: Shelf, A: Asker, K: Sink>(
    alloc: Global,
    loading: &Loading,
    shelf: &mut S,
    asker: &mut A,
    out: &mut K,
) -> u8
    ensures session { Lives (Some (OfImage (loads loading.now)))
        (Rose (S.faults shelf.old) (S.faults shelf.new))
        (record { texts = S.texts shelf.old; calls = S.events shelf.old })
        (record { texts = S.texts shelf.new; calls = S.events shelf.new })
        (record {
          lines = A.lines asker.old;
          heard = A.events asker.old;
          out = record { bytes = K.written out.old; puts = K.puts out.old };
        })
        (record {
          lines = A.lines asker.new;
          heard = A.events asker.new;
          out = record { bytes = K.written out.new; puts = K.puts out.new };
        }) result }
    ensures kept { S.texts shelf.new ≡ S.texts shelf.old }
    ensures later { S.faults shelf.old ≤ S.faults shelf.new }
{
    let Ok(files) = wanted_image(alloc, loading) else {
        return NO_MEMORY;
    };
    match fetch(alloc, shelf, &files, "") {
        Err(NoPlan::NoMemory) => NO_MEMORY,
        Err(NoPlan::Unread { text }) => report(out, text.as_str(), OUTSIDE),
        Ok(texts) => {
            let state = second_text(&texts);
            start_image(alloc, first_text(&texts), &state, loading.room, asker, out)
        }
    }
}

// Reads the bytes of an image.
fn start_image<A: Asker, K: Sink>(
    alloc: Global,
    bytes: &[u8],
    state: &Option<&[u8]>,
    room: Room,
    asker: &mut A,
    out: &mut K,
) -> u8
    ensures { ReadsImage (image_at bytes.now) room (option_map (λ text. text.now) state.now)
        (record {
          lines = A.lines asker.old;
          heard = A.events asker.old;
          out = record { bytes = K.written out.old; puts = K.puts out.old };
        })
        (record {
          lines = A.lines asker.new;
          heard = A.events asker.new;
          out = record { bytes = K.written out.new; puts = K.puts out.new };
        }) result }
{
    match read_image(alloc, bytes) {
        Ok(noted) => size_image(alloc, noted.into_parts().0, room, state, asker, out),
        Err(ImageError::NoMemory) => NO_MEMORY,
        Err(e) => match image_line(alloc, e) {
            Ok(line) => report(out, line.as_str(), Verdict::ImageRefused.code()),
            Err(_lack) => NO_MEMORY,
        },
    }
}

// Tries the sizes of the memory.
fn size_image<A: Asker, K: Sink>(
    alloc: Global,
    image: Image,
    room: Room,
    state: &Option<&[u8]>,
    asker: &mut A,
    out: &mut K,
) -> u8
    ensures { SizesImage (limits_refusal room.heap room.deep MOST_DEEP) image
        (record { heap = room.heap; deep = room.deep }) (option_map (λ text. text.now) state.now)
        (record {
          lines = A.lines asker.old;
          heard = A.events asker.old;
          out = record { bytes = K.written out.old; puts = K.puts out.old };
        })
        (record {
          lines = A.lines asker.new;
          heard = A.events asker.new;
          out = record { bytes = K.written out.new; puts = K.puts out.new };
        }) result }
{
    match check_limits(room.heap, room.deep, MOST_DEEP) {
        Ok(limits) => load_image(alloc, image, limits, state, asker, out),
        Err(e) => match load_line(alloc, e) {
            Ok(line) => report(out, line.as_str(), Verdict::InputRefused.code()),
            Err(_lack) => NO_MEMORY,
        },
    }
}

// The machine where the run begins: at the loaded memory, or at a state.
fn first_machine(
    alloc: Global,
    image: Image,
    limits: Limits,
    state: &Option<&[u8]>,
) -> Result<Machine, LoadError>
    requires { IsLimits limits }
    ensures { Gives (λ machine. machine) result
        (position_at_start image limits (option_map (λ text. text.now) state.now)) }
{
    match state {
        Some(bytes) => load_state(alloc, image, limits, bytes),
        None => {
            let input = Input {
                words: Vec::new(alloc),
            };
            match load(alloc, image, limits, &input) {
                Ok(machine) => Ok(machine),
                Err(_no_memory) => Err(LoadError::NoMemory),
            }
        }
    }
}

// Makes the machine, and holds its run open.
fn load_image<A: Asker, K: Sink>(
    alloc: Global,
    image: Image,
    limits: Limits,
    state: &Option<&[u8]>,
    asker: &mut A,
    out: &mut K,
) -> u8
    requires { IsLimits limits }
    ensures { StartsImage image limits (option_map (λ text. text.now) state.now)
        (record {
          lines = A.lines asker.old;
          heard = A.events asker.old;
          out = record { bytes = K.written out.old; puts = K.puts out.old };
        })
        (record {
          lines = A.lines asker.new;
          heard = A.events asker.new;
          out = record { bytes = K.written out.new; puts = K.puts out.new };
        }) result }
{
    match first_machine(alloc, image, limits, state) {
        Ok(machine) => {
            let mut run = Run::new(Debugger::new(machine));
            greet_image::<Brand, A, K>(alloc, &mut run, asker, out, Blank::new(1))
        }
        Err(LoadError::NoMemory) => NO_MEMORY,
        Err(e) => match load_line(alloc, e) {
            Ok(line) => report(out, line.as_str(), Verdict::ImageRefused.code()),
            Err(_lack) => NO_MEMORY,
        },
    }
}

// Puts the greeting, and answers lines.
fn greet_image<L: Ledger, A: Asker, K: Sink>(
    alloc: Global,
    run: &mut Run,
    asker: &mut A,
    out: &mut K,
    blank: Blank,
) -> u8
    requires name { blank.name ≡ L.name }
    requires parts { blank.parts ≡ L.parts }
    requires one { blank.parts ≡ 1 }
    ensures { OpensAlong (held_in run.old)
        (record {
          lines = A.lines asker.old;
          heard = A.events asker.old;
          out = record { bytes = K.written out.old; puts = K.puts out.old };
        })
        (record {
          lines = A.lines asker.new;
          heard = A.events asker.new;
          out = record { bytes = K.written out.new; puts = K.puts out.new };
        }) result }
{
    match say(out, "rooplpp-live 1 image\n. done\n") {
        Ok(()) => {
            let mut steps = Steps::<L>::new(blank);
            serve(alloc, run, &mut steps, asker, out)
        }
        Err(fault) => status_by(0, Err(fault)),
    }
}

// The top call.
ghost use Rattle.std.specs.Prelude.{◌≡◌, ◌≢◌, Some, false, ◌⊎◌, ◌≤◌, ◌<◌, OnOk, map, string_bytes, IfOk, IfErr, IfSome, IsErrOf, IsTrue};
ghost use Rattle.command_line.specs.rpp_ports.Ports.{Rose};
ghost use Rattle.command_line.specs.Lines.{asked, line_of, room_at, sizes_at, HasShortNumbers};
ghost use Rattle.command_line.specs.command_plan.Plans.{GivesPlan, planned};
ghost use Rattle.command_line.specs.command_plan.command_ends.Statuses.{code_of, served_status};
ghost use Rattle.command_line.specs.command_plan.declared.plan.NoPlan.TheVariants.{NoMemory};
ghost use Rattle.rpp_command.specs.Plans.{IsPlan, LeavesProbes};
ghost use Rattle.command_line.specs.command_plan.Files.{OnlyReads, Unreadable, UnreadCause, LacksOne};
ghost use Rattle.plan_serving.specs.Left.{KeepsButTarget};
ghost use Rattle.rpp_command.specs.Causes.{files_of, needed, target, target_of, tell, is_observing};
ghost use Rattle.rpp_command.specs.Answers.{Answers};
ghost use Rattle.rpp_command.specs.Serving.{PlansRead, StopsPlan};
ghost use Rattle.rpp_command.specs.Places.{placed};
ghost use Rattle.plan_serving.specs.Held.{held_texts};
ghost use Rattle.rpp_command.specs.Told.{CarriesOutTold, AnswersTold, EndsEarly};

use crate::going::{go_line, turn_line};
use crate::reading::wanted_files;
use cluster_commands::cluster;
use command_line::{Broken, Line, NoPlan, Plan, Room, Sizes, Verdict, read_words, status_of};
use explain_commands::explain;
use image_commands::{Steps, asm, debug, flip, list, run};
use plan_serving::{
    HeldShelf, Shelf, Sink, fetch, finish, place_images, place_input, place_states, say,
};
use program_commands::{Probes, check, compile_file, profile};
use std::alloc::Global;
use std::marker::Brand;
use std::sync::ledger::{Blank, Ledger};
use text_commands::{generate, show_inverse};
use trace_commands::trace;
use wrap_commands::wrap;

/// Does what the words say, and returns the status of the program.
pub fn rooplpp<S: Shelf, K: Sink, P: Probes>(
    alloc: Global,
    words: &[String],
    shelf: &mut S,
    out: &mut K,
    probes: &mut P,
) -> u8
    // All calls to files and output, and the status. The files of the line are read, each once and
    // in order, up to the first that fails. The plan is one of the texts that they gave. Then its file
    // is written once, if it has one, and its text is put once. Nothing else is asked.
    ensures answer { Answers (line_of (map string_bytes words.now)) (P.watches probes.old)
        (P.watches probes.new) (Rose (S.faults shelf.old) (S.faults shelf.new))
        (record { texts = S.texts shelf.old; calls = S.events shelf.old })
        (record { texts = S.texts shelf.new; calls = S.events shelf.new })
        (record { bytes = K.written out.old; puts = K.puts out.old })
        (record { bytes = K.written out.new; puts = K.puts out.new }) result }

    // The result, if the texts of the file store and the bytes of the sink are known.
    ensures told { result ≢ 2 → result ≢ 7 →
        AnswersTold (line_of (map string_bytes words.now)) (P.watches probes.old) (P.watches probes.new)
        (S.texts shelf.old) (S.texts shelf.new) result (K.written out.old) (K.written out.new) }

    // 1 comes exactly if the words are no line.
    ensures words { result ≡ 1 → line_of (map string_bytes words.now) ≡ None }
    ensures no_line { line_of (map string_bytes words.now) ≡ None → result ≢ 2 → result ≢ 7
        → result ≡ 1 }

    // Status 2 is returned only if a count rose, or if a map of known contents does not have a file
    // that is to be read.
    ensures outside { result ≡ 2 → Unreadable (S.texts shelf.old)
        (needed (line_of (map string_bytes words.now)))
        (Rose (S.faults shelf.old) (S.faults shelf.new)
        ⊎ Rose (K.faults out.old) (K.faults out.new)) }

    // If a map of known contents does not have a file that is to be read, the only other error is
    // `NoMemory`.
    ensures lacking { IfSome (S.texts shelf.old)
        (λ texts. LacksOne texts (needed (line_of (map string_bytes words.now))) → result ≢ 7
        → result ≡ 2) }

    // What 2 and 7 leave.
    ensures fault { result ≡ 2 →
        EndsEarly (line_of (map string_bytes words.now)) (P.watches probes.old)
        (P.watches probes.new) (S.texts shelf.old)
        (Rose (S.faults shelf.old) (S.faults shelf.new))
        (Rose (K.faults out.old) (K.faults out.new)) (IsTrue (K.needs_memory out.old))
        (S.texts shelf.new) (K.written out.old) (K.written out.new) Broken.Outside }
    ensures memory { result ≡ 7 →
        EndsEarly (line_of (map string_bytes words.now)) (P.watches probes.old)
        (P.watches probes.new) (S.texts shelf.old)
        (Rose (S.faults shelf.old) (S.faults shelf.new))
        (Rose (K.faults out.old) (K.faults out.new)) (IsTrue (K.needs_memory out.old))
        (S.texts shelf.new) (K.written out.old) (K.written out.new) Broken.NoMemory }

    // Whatever the status, each name keeps its text but the one that the line writes.
    ensures kept { KeepsButTarget (S.texts shelf.old) (S.texts shelf.new)
        (target (line_of (map string_bytes words.now))) }
    ensures later { S.faults shelf.old ≤ S.faults shelf.new }
    ensures later_sink { K.faults out.old ≤ K.faults out.new }

    // Every line but `turn` and `profile` leaves the probes as they were, whatever the status.
    ensures probes { tell (line_of (map string_bytes words.now)) ≡ false → probes.new ≡ probes.old }
{
    let Ok(line) = read_words(alloc, words) else {
        return status_of(Some(Err(Broken::NoMemory)));
    };
    match line {
        None => match say(out, "words refused\n") {
            Ok(()) => status_of(None),
            Err(broken) => status_of(Some(Err(broken))),
        },
        Some(line) => {
            let served = serve::<S, K, P, Brand>(alloc, &line, shelf, out, probes, Blank::new(1));
            discard(line);
            match served {
                Ok(verdict) => status_of(Some(Ok(verdict))),
                Err(broken) => status_of(Some(Err(broken))),
            }
        }
    }
}

// Drops a line. The proof of what drops one goes by its variants, so no larger function does.
fn discard(_line: Line) {}

// Makes a plan of a line, and carries it out.
fn serve<S: Shelf, K: Sink, P: Probes, L: Ledger>(
    alloc: Global,
    line: &Line,
    shelf: &mut S,
    out: &mut K,
    probes: &mut P,
    blank: Blank,
) -> Result<Verdict, Broken>
    requires numbers { HasShortNumbers (asked line.now) }
    requires name { blank.name ≡ L.name }
    requires parts { blank.parts ≡ L.parts }
    requires has_a_part { 0 < L.parts }
    ensures carried { IfOk result (λ verdict.
        CarriesOutTold (asked line.now) (P.watches probes.old) (P.watches probes.new)
        (S.texts shelf.old) (S.texts shelf.new) (code_of verdict) (K.written out.old)
        (K.written out.new)) }
    ensures answers { Answers (Some (asked line.now)) (P.watches probes.old) (P.watches probes.new)
        (Rose (S.faults shelf.old) (S.faults shelf.new))
        (record { texts = S.texts shelf.old; calls = S.events shelf.old })
        (record { texts = S.texts shelf.new; calls = S.events shelf.new })
        (record { bytes = K.written out.old; puts = K.puts out.old })
        (record { bytes = K.written out.new; puts = K.puts out.new })
        (served_status (Some result)) }
    ensures outside { IsErrOf result Broken.Outside
        → Unreadable (S.texts shelf.old) (files_of (asked line.now))
        (Rose (S.faults shelf.old) (S.faults shelf.new)
        ⊎ Rose (K.faults out.old) (K.faults out.new)) }
    ensures early { IfErr result (λ broken.
        EndsEarly (Some (asked line.now)) (P.watches probes.old) (P.watches probes.new)
        (S.texts shelf.old) (Rose (S.faults shelf.old) (S.faults shelf.new))
        (Rose (K.faults out.old) (K.faults out.new)) (IsTrue (K.needs_memory out.old))
        (S.texts shelf.new) (K.written out.old) (K.written out.new) broken) }
    ensures whole { OnOk result (IfSome (S.texts shelf.old)
        (λ texts. ¬ LacksOne texts (files_of (asked line.now)))) }
    ensures kept { KeepsButTarget (S.texts shelf.old) (S.texts shelf.new)
        (target_of (asked line.now)) }
    ensures later { S.faults shelf.old ≤ S.faults shelf.new }
    ensures later_sink { K.faults out.old ≤ K.faults out.new }
    ensures probes { is_observing (asked line.now) ≡ false → probes.new ≡ probes.old }
{
    let mut steps = Steps::<L>::new(blank);
    let plan = match plan_files(alloc, line, shelf, probes, &mut steps) {
        Ok(plan) => plan,
        Err(NoPlan::NoMemory) => return Err(Broken::NoMemory),
        Err(NoPlan::Unread { text }) => {
            match say(out, text.as_str()) {
                Ok(()) => return Err(Broken::Outside),
                Err(broken) => return Err(broken),
            }
        }
    };
    match finish(alloc, shelf, out, &plan) {
        Ok(()) => Ok(plan.verdict),
        Err(broken) => Err(broken),
    }
}

// The plan of a line. Its files are read first, each once and in order. What makes the plan sees
// their texts, and no other file.
fn plan_files<S: Shelf, P: Probes, L: Ledger>(
    alloc: Global,
    line: &Line,
    shelf: &mut S,
    probes: &mut P,
    counter: &mut Steps<L>,
) -> Result<Plan, NoPlan>
    requires { HasShortNumbers (asked line.now) }
    ensures plan { GivesPlan (S.texts shelf.old)
        (IsPlan (asked line.now) (P.watches probes.old) (P.watches probes.new) counter.old
        counter.new) result }
    ensures planned { IfOk result (λ plan. PlansRead (asked line.now) (P.watches probes.old)
        (P.watches probes.new) counter.old counter.new (S.texts shelf.old) (S.events shelf.old)
        (S.events shelf.new) (planned plan)) }
    ensures stops { IfErr result (StopsPlan (asked line.now) (P.watches probes.old)
        (P.watches probes.new) (Rose (S.faults shelf.old) (S.faults shelf.new))
        (record { texts = S.texts shelf.old; calls = S.events shelf.old })
        (record { texts = S.texts shelf.new; calls = S.events shelf.new })) }
    ensures reads { OnlyReads (S.texts shelf.old) (S.texts shelf.new) (S.faults shelf.old)
        (S.faults shelf.new) (files_of (asked line.now)) result }
    ensures untold { IfErr result (UnreadCause (P.watches probes.new ≡ P.watches probes.old)) }
    ensures short { IfErr result (λ _. LeavesProbes (asked line.now) (P.watches probes.old)
        (P.watches probes.new) (S.texts shelf.old)) }
    ensures probes { is_observing (asked line.now) ≡ false → probes.new ≡ probes.old }
{
    let files = match wanted_files(alloc, line) {
        Ok(files) => files,
        Err(_error) => return Err(NoPlan::NoMemory),
    };
    let texts = match fetch(alloc, shelf, &files, "") {
        Ok(texts) => texts,
        Err(stop) => return Err(stop),
    };
    let mut held = HeldShelf::new(alloc, texts);
    plan_held(alloc, line, &mut held, probes, counter)
}

// The plan of a line of texts that were all read. So only a lack of memory can stop it.
fn plan_held<P: Probes, L: Ledger>(
    alloc: Global,
    line: &Line,
    held: &mut HeldShelf,
    probes: &mut P,
    counter: &mut Steps<L>,
) -> Result<Plan, NoPlan>
    requires numbers { HasShortNumbers (asked line.now) }
    requires whole { ¬ LacksOne (held_texts held.old) (files_of (placed (asked line.now))) }
    ensures plan { IfOk result (λ plan. IsPlan (placed (asked line.now)) (P.watches probes.old)
        (P.watches probes.new) counter.old counter.new (Some (held_texts held.old)) (planned plan)) }
    ensures memory { IfErr result (λ stop. stop ≡ NoMemory) }
    ensures short { IfErr result (λ _. LeavesProbes (placed (asked line.now))
        (P.watches probes.old) (P.watches probes.new) (Some (held_texts held.old))) }
    ensures probes { is_observing (asked line.now) ≡ false → probes.new ≡ probes.old }
{
    match plan_line(alloc, line, held, probes, counter) {
        Ok(plan) => Ok(plan),
        Err(NoPlan::NoMemory) => Err(NoPlan::NoMemory),
        Err(NoPlan::Unread { text: _text }) => unreachable!(),
    }
}

// The plan of a line whose files have the names of their places.
#[tactic(auto, unfolding(crate::specs::Plans::IsPlan, crate::specs::Plans::LeavesProbes, crate::specs::Causes::files_of, crate::specs::Causes::is_observing, crate::specs::Places::placed))]
fn plan_line<S: Shelf, P: Probes, L: Ledger>(
    alloc: Global,
    line: &Line,
    shelf: &mut S,
    probes: &mut P,
    counter: &mut Steps<L>,
) -> Result<Plan, NoPlan>
    requires { HasShortNumbers (asked line.now) }
    ensures plan { GivesPlan (S.texts shelf.old)
        (IsPlan (placed (asked line.now)) (P.watches probes.old) (P.watches probes.new) counter.old
        counter.new) result }
    ensures reads { OnlyReads (S.texts shelf.old) (S.texts shelf.new) (S.faults shelf.old)
        (S.faults shelf.new) (files_of (placed (asked line.now))) result }
    ensures short { IfErr result (λ _. LeavesProbes (placed (asked line.now)) (P.watches probes.old)
        (P.watches probes.new) (S.texts shelf.old)) }
    ensures probes { is_observing (asked line.now) ≡ false → probes.new ≡ probes.old }
{
    match line {
        Line::Check { file: _ } => check(alloc, shelf, ""),
        Line::Compile { file: _, image } => compile_file(alloc, shelf, "", image.as_str()),
        Line::Asm { text: _, image } => asm(alloc, shelf, "", image.as_str()),
        Line::List { image: _, text } => list(alloc, shelf, "", text.as_str()),
        Line::Flip { image: _, flipped } => flip(alloc, shelf, "", flipped.as_str()),
        Line::ShowInverse { file: _, out } => show_inverse(alloc, shelf, "", out.as_str()),
        Line::Generate { seed, size, out } => generate(alloc, shelf, *seed, *size, out.as_str()),
        Line::Cluster {
            script: _,
            cells,
            images,
        } => {
            let images = place_images(alloc, images, "a")?;
            cluster(alloc, shelf, "", *cells, &images)
        }
        Line::Run {
            image: _,
            heap,
            deep,
            steps,
            states,
        } => {
            let states = place_states(alloc, states)?;
            run(
                alloc,
                shelf,
                "",
                &states,
                sizes(*heap, *deep, *steps),
                counter,
            )
        }
        Line::Debug {
            image: _,
            heap,
            deep,
            script: _,
        } => debug(alloc, shelf, "", "a", room(*heap, *deep), counter),
        Line::Trace {
            file: _,
            heap,
            deep,
            script: _,
            input,
        } => {
            let input = place_input(alloc, input, "aa")?;
            trace(alloc, shelf, "", "a", &input, room(*heap, *deep))
        }
        Line::Go {
            file: _,
            heap,
            deep,
            steps,
            input,
        } => go_line(alloc, shelf, input, sizes(*heap, *deep, *steps), counter),
        Line::Turn {
            file: _,
            heap,
            deep,
            steps,
            input,
        } => turn_line(
            alloc,
            shelf,
            input,
            sizes(*heap, *deep, *steps),
            probes,
            counter,
        ),
        Line::Profile {
            file: _,
            heap,
            deep,
            steps,
        } => profile(
            alloc,
            shelf,
            "",
            sizes(*heap, *deep, *steps),
            probes,
            counter,
        ),
        Line::Wrap {
            file: _,
            heap,
            deep,
            steps,
            names,
            input,
        } => {
            let input = place_input(alloc, input, "a")?;
            wrap(
                alloc,
                shelf,
                "",
                names.as_str(),
                &input,
                sizes(*heap, *deep, *steps),
                counter,
            )
        }
        Line::Explain {
            file: _,
            heap,
            deep,
            fuel,
            input,
        } => {
            let input = place_input(alloc, input, "a")?;
            explain(alloc, shelf, "", &input, sizes(*heap, *deep, *fuel))
        }
    }
}

// H and D of a line.
fn room(heap: u64, deep: u64) -> Room
    ensures { result ≡ room_at heap deep }
{
    Room { heap, deep }
}

// H, D and STEPS of a line.
fn sizes(heap: u64, deep: u64, steps: u64) -> Sizes
    ensures { result ≡ sizes_at heap deep steps }
{
    Sizes {
        room: room(heap, deep),
        bound: steps,
    }
}

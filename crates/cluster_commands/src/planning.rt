// `cluster SCRIPT CELLS IMG {IMG}`: several processors on one memory, by a script.
ghost use Rattle.std.specs.Prelude.{◌≡◌, ◌≤◌, ◌<◌, ◌+◌, ◌++◌, List, ℕ, map, length, vec_len, Ok, IfOk, string_bytes, All};
ghost use Rattle.command_plan.specs.pisa_image.Reading.{ImageGives};
ghost use Rattle.command_plan.specs.Files.{OnlyReads, image_file};
ghost use Rattle.command_plan.specs.Plans.{planned, GivesPlan};
ghost use Rattle.cluster_commands.specs.ClusterScripts.{IsEvent, events_of};
ghost use Rattle.cluster_commands.specs.ClusterShown.{IsShown};
ghost use Rattle.pisa_cluster.specs.Schedules.{first_schedule};
ghost use Rattle.cluster_commands.specs.ClusterPlans.{cluster_files, images_at, WithImages, IsEventsPlan, IsClusterPlan, ClustersFiles};

use crate::error::ScriptError;
use crate::following::follow;
use crate::script::{Event, read_events};
use crate::shown::add_end;
use command_plan::{
    ImageError, MOST_IMAGE, MOST_SCRIPT, NoMemory, NoPlan, Plan, Shelf, Verdict, bad_command_line,
    image_line, read_file, read_image,
};
use pisa_cluster::{Cluster, Image};
use std::alloc::Global;

/// Carries out the script in a file on the processors of the images in files, which share so many
/// cells. Reports what it prints and the state of all processors at the end.
pub fn cluster<S: Shelf>(
    alloc: Global,
    shelf: &mut S,
    script: &str,
    cells: u32,
    images: &[String],
) -> Result<Plan, NoPlan>
    requires some { 1 ≤ length images.now }
    requires few { length images.now ≤ 8 }
    requires cells { 1 ≤ cells }
    requires most { cells ≤ 65536 }
    ensures plan { GivesPlan (S.texts shelf.old)
        (ClustersFiles script.now cells (map string_bytes images.now)) result }
    ensures reads { OnlyReads (S.texts shelf.old) (S.texts shelf.new) (S.faults shelf.old)
        (S.faults shelf.new)
        (cluster_files script.now (map string_bytes images.now)) result }
{
    let script = read_file(alloc, shelf, script, MOST_SCRIPT as u64)?;
    let mut texts = Vec::new(alloc);
    read_images(alloc, shelf, images, &mut texts)?;
    Ok(cluster_over(alloc, &script, &texts, cells)?)
}

// Reads image files in order, and puts their bytes at the end.
fn read_images<S: Shelf>(
    alloc: Global,
    shelf: &mut S,
    names: &[String],
    texts: &mut Vec<Vec<u8>>,
) -> Result<(), NoPlan>
    ensures text { IfOk result (λ _.
        WithImages (S.texts shelf.old) (map string_bytes names.now)
        (λ read. map (λ v. v.items) texts.new.items ≡ map (λ v. v.items) texts.old.items ++ read)) }
    ensures reads { OnlyReads (S.texts shelf.old) (S.texts shelf.new) (S.faults shelf.old)
        (S.faults shelf.new)
        (map image_file (map string_bytes names.now)) result }
    ensures count { IfOk result (λ _. vec_len texts.new ≡ vec_len texts.old + length names.now) }
{
    let Some((name, rest)) = names.split_first() else {
        return Ok(());
    };
    let bytes = read_file(alloc, shelf, name.as_str(), MOST_IMAGE as u64)?;
    texts.push(bytes)?;
    read_images(alloc, shelf, rest, texts)
}

fn cluster_over(
    alloc: Global,
    script: &[u8],
    texts: &[Vec<u8>],
    cells: u32,
) -> Result<Plan, NoMemory>
    requires script { length script.now ≤ MOST_SCRIPT }
    requires some { 1 ≤ length texts.now }
    requires few { length texts.now ≤ 8 }
    requires cells { 1 ≤ cells }
    requires most { cells ≤ 65536 }
    ensures { IfOk result (λ plan. IsClusterPlan (images_at (map (λ v. v.items) texts.now))
        script.now cells (planned plan)) }
{
    match judge_images(alloc, texts) {
        Ok(images) => judge_script(alloc, script, images, cells),
        Err(ImageError::NoMemory) => Err(NoMemory),
        Err(e) => Ok(Plan::prints(Verdict::ImageRefused, image_line(alloc, e)?)),
    }
}

// The images that texts are, or the first refusal.
fn judge_images(alloc: Global, texts: &[Vec<u8>]) -> Result<Vec<Image>, ImageError>
    ensures images { ImageGives (λ images. images.items) result (images_at (map (λ v. v.items) texts.now)) }
    ensures count { IfOk result (λ images. vec_len images ≡ length texts.now) }
{
    let mut images = Vec::new(alloc);
    for text in texts {
        let noted = read_image(alloc, text)?;
        images.push(noted.into_parts().0)?;
    }
    Ok(images)
}

// The script is checked, and then it is carried out.
fn judge_script(
    alloc: Global,
    script: &[u8],
    images: Vec<Image>,
    cells: u32,
) -> Result<Plan, NoMemory>
    requires script { length script.now ≤ MOST_SCRIPT }
    requires some { 1 ≤ vec_len images }
    requires few { vec_len images ≤ 8 }
    requires cells { 1 ≤ cells }
    requires most { cells ≤ 65536 }
    ensures { IfOk result (λ plan. IsEventsPlan (events_of (length images.items) script.now)
        images.items cells (planned plan)) }
{
    match read_events(alloc, images.len() as u32, script) {
        Ok(events) => {
            let text = carry_out(alloc, images, cells, &events)?;
            Ok(Plan::prints(Verdict::Done, text))
        }
        Err(ScriptError::NoMemory) => Err(NoMemory),
        Err(ScriptError::BadEvent { line }) => {
            Ok(Plan::prints(Verdict::InputRefused, bad_command_line(alloc, line)?))
        }
    }
}

// What events print, and the state of all processors at the end.
fn carry_out(
    alloc: Global,
    images: Vec<Image>,
    cells: u32,
    events: &[Event],
) -> Result<String, NoMemory>
    requires events { All (IsEvent (length images.items)) events.now }
    requires short { length events.now ≤ MOST_SCRIPT + 1 }
    requires some { 1 ≤ vec_len images }
    requires few { vec_len images ≤ 8 }
    requires cells { 1 ≤ cells }
    requires most { cells ≤ 65536 }
    ensures { IfOk result (λ text. IsShown images.items cells events.now (string_bytes text)) }
{
    let processors = images.len() as u32;
    let mut cluster = Cluster::new(alloc, images, cells)?;
    let mut text = String::new(alloc);
    follow(&mut cluster, events, &mut text)?;
    add_end(&mut text, &cluster, processors, cells)?;
    Ok(text)
}

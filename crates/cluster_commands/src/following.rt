// Carries out what a script asks of a cluster.
ghost use Rattle.std.specs.Prelude.{◌≡◌, ◌<◌, ◌≤◌, ◌+◌, ◌*◌, ◌^◌, ◌++◌, All, length, List, ℕ, IfOk, OnOk, string_bytes};
ghost use Rattle.cluster_commands.specs.ClusterScripts.{IsEvent};
ghost use Rattle.cluster_commands.specs.ClusterShown.{MakesSteps, Shows, ShowsAll, made_line, undone_line as line_of_undone, rewound_line};

use crate::script::Event;
use command_plan::{NoMemory, add_stop};
use pisa_cluster::{Cluster, Moved, Stop, Undone};
use std::alloc::{AllocError, Global};

// How many steps a processor made, and why it stopped, if it did.
#[derive(Clone, Copy, Debug, PartialEq, Eq)]
struct Stepped {
    made: u32,
    stop: Option<Stop>,
}

/// Up to so many steps of a processor, up to a stop.
fn make_steps(cluster: &mut Cluster, who: u32, count: u32) -> Result<Stepped, NoMemory>
    requires first { 1 ≤ who }
    requires last { who ≤ length cluster.old.joint.processors }
    requires room { cluster.old.next_serial + count < 2 ^ 63 }
    ensures makes { IfOk result (λ end. MakesSteps who count end.made end.stop cluster.old cluster.new) }
    ensures serial { OnOk result (cluster.new.next_serial ≤ cluster.old.next_serial + count) }
    ensures processors { length cluster.new.joint.processors ≡ length cluster.old.joint.processors }
    ensures cells { length cluster.new.joint.cells ≡ length cluster.old.joint.cells }
{
    for made in 0..count {
        match cluster.step(who)? {
            Moved::Made(_serial) => {}
            Moved::Stopped(why) => {
                return Ok(Stepped {
                    made,
                    stop: Some(why),
                });
            }
        }
    }
    Ok(Stepped {
        made: count,
        stop: None,
    })
}

// Adds the line on steps that were made.
fn add_made(text: &mut String, end: Stepped) -> Result<(), AllocError>
    ensures { OnOk result (string_bytes text.new ≡ string_bytes text.old ++ made_line end.made end.stop) }
{
    let made = end.made;
    write!(text, "made {made}")?;
    match end.stop {
        None => text.push_str("\n"),
        Some(why) => {
            text.push_str(" ")?;
            add_stop(text, why)
        }
    }
}

// Adds the line on an undoing.
fn add_undone(text: &mut String, answer: Undone) -> Result<(), AllocError>
    ensures { OnOk result (string_bytes text.new ≡ string_bytes text.old ++ line_of_undone answer) }
{
    match answer {
        Undone::Done(serial) => write!(text, "undone {serial}\n"),
        Undone::Nothing => text.push_str("nothing\n"),
        Undone::Blocked { who, serial } => write!(text, "blocked by {who} at {serial}\n"),
    }
}

// Adds the line on a rewind.
fn add_rewound(text: &mut String, count: u64) -> Result<(), AllocError>
    ensures { OnOk result (string_bytes text.new ≡ string_bytes text.old ++ rewound_line count) }
{
    write!(text, "rewound {count}\n")
}

// Carries out an event, and adds its line.
fn show_event(cluster: &mut Cluster, event: Event, text: &mut String) -> Result<(), NoMemory>
    requires event { IsEvent (length cluster.old.joint.processors) event }
    requires room { cluster.old.next_serial + 10000 < 2 ^ 63 }
    ensures shows { OnOk result ((line : List ℕ) × Shows event cluster.old line cluster.new
        × (string_bytes text.new ≡ string_bytes text.old ++ line)) }
    ensures serial { OnOk result (cluster.new.next_serial ≤ cluster.old.next_serial + 10000) }
    ensures processors { length cluster.new.joint.processors ≡ length cluster.old.joint.processors }
    ensures cells { length cluster.new.joint.cells ≡ length cluster.old.joint.cells }
{
    match event {
        Event::Step { who, count } => {
            let end = make_steps(cluster, who, count)?;
            add_made(text, end)?;
        }
        Event::Undo { who } => {
            let answer = cluster.undo(who);
            add_undone(text, answer)?;
        }
        Event::Rewind => {
            let count = cluster.rewind();
            add_rewound(text, count)?;
        }
    }
    Ok(())
}

/// Carries out events, one after the other, and adds their lines.
pub(crate) fn follow(
    cluster: &mut Cluster,
    events: &[Event],
    text: &mut String,
) -> Result<(), NoMemory>
    requires events { All (IsEvent (length cluster.old.joint.processors)) events.now }
    requires room { cluster.old.next_serial + length events.now * 10000 < 2 ^ 62 }
    ensures shows { OnOk result ((lines : List ℕ) × ShowsAll events.now cluster.old lines cluster.new
        × (string_bytes text.new ≡ string_bytes text.old ++ lines)) }
    ensures processors { length cluster.new.joint.processors ≡ length cluster.old.joint.processors }
    ensures cells { length cluster.new.joint.cells ≡ length cluster.old.joint.cells }
{
    for event in events {
        show_event(cluster, *event, text)?;
    }
    Ok(())
}

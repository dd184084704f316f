// The trace point of a run that a watch looks for.
ghost use Rattle.std.specs.Prelude.{◌≡◌, ◌&&◌, nat_eq, pos, if◌then◌else◌};
ghost use Rattle.std.specs.Ordering.{int_eq};
ghost use Rattle.source_courses.specs.Watched.{wants as wants_point, passed as passed_point, is_given, wanted as wanted_at, behind as behind_place, surely as surely_in, ahead as ahead_in};

/// The trace point of a run that a watch looks for. Numbers count the trace points that are passed
/// before.
#[derive(Clone, Copy, Debug, PartialEq, Eq)]
pub enum Watching {
    /// The first at the offset, if one is given, that is after `skip` trace points, or else the one
    /// after `left`.
    First {
        place: Option<i64>,
        skip: u64,
        left: u64,
    },
    /// The one after `left` trace points; at the same time `latest` is how many were left at the
    /// last one at an offset after `skip` trace points.
    Latest {
        place: i64,
        skip: u64,
        left: u64,
        latest: Option<u64>,
    },
}

// Whether an offset is the given one.
fn is_place(place: Option<i64>, at: u32) -> bool
    ensures { result ≡ is_given place at }
{
    match place {
        None => false,
        Some(place) => i64::from(at) == place,
    }
}

// Whether the watch looks for a trace point at this offset.
fn wants(watching: Watching, at: u32) -> bool
    ensures { result ≡ wants_point watching at }
{
    match watching {
        Watching::First { place, skip, left } => left == 0 || (skip == 0 && is_place(place, at)),
        Watching::Latest { left, .. } => left == 0,
    }
}

// How many were left at the last trace point at the offset.
fn latest_at(place: i64, skip: u64, left: u64, latest: Option<u64>, at: u32) -> Option<u64>
    ensures { result ≡ (if nat_eq skip 0 && int_eq (pos at) place then Some left else latest) }
{
    if skip == 0 && i64::from(at) == place {
        Some(left)
    } else {
        latest
    }
}

// The watch after a trace point at this offset.
fn passed(watching: Watching, at: u32) -> Watching
    ensures { result ≡ passed_point watching at }
{
    match watching {
        Watching::First { place, skip, left } => Watching::First {
            place,
            skip: skip.saturating_sub(1),
            left: left.saturating_sub(1),
        },
        Watching::Latest {
            place,
            skip,
            left,
            latest,
        } => Watching::Latest {
            place,
            skip: skip.saturating_sub(1),
            left: left.saturating_sub(1),
            latest: latest_at(place, skip, left, latest, at),
        },
    }
}

/// Whether the watch looks for the statement that begins, if one does.
pub fn wanted(watching: Watching, place: Option<u32>) -> bool
    ensures { result ≡ wanted_at watching place }
{
    match place {
        None => false,
        Some(at) => wants(watching, at),
    }
}

/// The watch after it.
pub fn behind(watching: Watching, place: Option<u32>) -> Watching
    ensures { result ≡ behind_place watching place }
{
    match place {
        None => watching,
        Some(at) => passed(watching, at),
    }
}

/// How many trace points a watch passes, whatever they are.
pub fn surely(watching: Watching) -> u64
    ensures { result ≡ surely_in watching }
{
    match watching {
        Watching::First {
            place: None,
            left,
            ..
        } => left,
        Watching::First {
            place: Some(_place),
            skip,
            left,
        } => skip.min(left),
        Watching::Latest { skip, left, .. } => skip.min(left),
    }
}

/// The watch after so many of these.
pub fn ahead(watching: Watching, passed: u64) -> Watching
    ensures { result ≡ ahead_in watching passed }
{
    match watching {
        Watching::First { place, skip, left } => Watching::First {
            place,
            skip: skip.saturating_sub(passed),
            left: left.saturating_sub(passed),
        },
        Watching::Latest {
            place,
            skip,
            left,
            latest,
        } => Watching::Latest {
            place,
            skip: skip.saturating_sub(passed),
            left: left.saturating_sub(passed),
            latest,
        },
    }
}

//! Shows on a terminal, as a line, how far something has come.

ghost use Rattle.std.specs.Prelude.{◌≡◌, ◌≤◌, is_some, true};
ghost use Rattle.folder_core.specs.WatchedFolders.{is_written};

use crate::folder::Work;
use std::io::Eprint;
use std::rt::Clock;
use std::time::{Duration, Instant};

// How long nothing is shown at the start.
const QUIET_SECONDS: u64 = 1;

// How long a line is shown at least.
const STANDING_MILLISECONDS: u64 = 100;

const MEGABYTE: u64 = 1_000_000;

// What clears a line.
const CLEARED: &str = "\r                              \r";

// A line on standard error that is rewritten repeatedly, and cleared when this value is dropped.
pub(crate) struct ProgressLine<'a, R: Clock + Eprint> {
    rt: &'a R,
    // When the program began; none if the line is never written.
    start: Option<Instant>,
    // When that began of which it is, if that is known.
    began: Option<Instant>,
    // When it may be written next; none if it isn't written any more.
    next: Option<Instant>,
    is_shown: bool,
}

impl<'a, R: Clock + Eprint> ProgressLine<'a, R> {
    // The line of something that begins now, in a program that began at this time. Without a time it is never written.
    pub(crate) fn new(rt: &'a R, start: Option<Instant>) -> Self
        ensures { is_written result ≡ is_some start }
    {
        let began = if start.is_some() {
            Instant::now(rt).ok()
        } else {
            None
        };
        ProgressLine {
            rt,
            start,
            began,
            next: start.and_then(|it| it.checked_add(Duration::from_secs(QUIET_SECONDS))),
            is_shown: false,
        }
    }

    // If it is time, writes how many of `length` bytes were read, in per cent, and how many seconds the others take at
    // this pace. If the length is unknown, 0, it writes how many megabytes.
    pub(crate) fn show(&mut self, given: u64, length: u64) {
        let Some(next) = self.next else {
            return;
        };
        let Ok(now) = Instant::now(self.rt) else {
            return;
        };
        if now < next {
            return;
        }
        self.next = now.checked_add(Duration::from_millis(STANDING_MILLISECONDS));
        if self.start.is_some() {
            self.is_shown = true;
            self.print(now, given, length);
        }
    }

    // Writes the line. This is only asked of a line that may be written.
    fn print(&self, now: Instant, given: u64, length: u64)
        requires { is_written self.now ≡ true }
    {
        let _ = if length > 0 {
            let percent = per_cent(given, length);
            let left = seconds_left(seconds_since(self.began, now), given, length);
            eprint!(self.rt; "\r{percent} % read, {left} s left  ")
        } else {
            let megabytes = given / MEGABYTE;
            eprint!(self.rt; "\r{megabytes} MB read")
        };
    }
}

/// Work that is shown: what it is, and when it began.
#[derive(Clone, Copy)]
pub(crate) struct Stint {
    work: Work,
    began: Instant,
}

impl Stint {
    /// Work that begins now; None if the time isn't known.
    pub(crate) fn new<R: Clock>(rt: &R, work: Work) -> Option<Stint> {
        let began = Instant::now(rt).ok()?;
        Some(Stint { work, began })
    }

    // For how many whole seconds it has been done, if they are at least as many as nothing is shown.
    fn seconds<R: Clock>(self, rt: &R) -> Option<u64> {
        let now = Instant::now(rt).ok()?;
        let seconds = seconds_since(Some(self.began), now);
        if seconds < QUIET_SECONDS {
            return None;
        }
        Some(seconds)
    }
}

/// Writes how many of all parts of some work were done, in per cent, and how many seconds the others take at this pace:
/// nothing in the first second, then a line for each per cent.
pub(crate) fn show_stint<R: Clock + Eprint>(rt: &R, stint: Stint, done: u64, all: u64) {
    let Some(seconds) = stint.seconds(rt) else {
        return;
    };
    let percent = part_of(done, all);
    if done > 0 && percent == part_of(done.saturating_sub(1), all) {
        return;
    }
    let what = match stint.work {
        Work::Search => "searched",
        Work::Certificate => "certified",
        Work::NullTest => "compared",
    };
    let left = seconds_left(seconds, done, all);
    let _ = eprint!(rt; "\r{percent} % {what}, {left} s left  ");
}

/// Clears the line of work that is over, if there may be one.
pub(crate) fn clear_stint<R: Clock + Eprint>(rt: &R, stint: Stint) {
    if stint.seconds(rt).is_some() {
        let _ = eprint!(rt; "{CLEARED}");
    }
}

/// Writes how many bytes a master's file will have, and its certificate at most.
pub(crate) fn show_sizes<R: Eprint>(rt: &R, master: u64, most_of_certificate: u64) {
    let (master, cert) = (Size::of(master), Size::of(most_of_certificate));
    let _ = eprintln!(rt;
        "dsdarc: the master will have {}{} {}, its certificate up to {}{} {}",
        master.whole, master.tenth, master.unit, cert.whole, cert.tenth, cert.unit
    );
}

// A number of bytes in a unit that suits it: a whole number, and a tenth or nothing after it.
#[derive(Clone, Copy)]
struct Size {
    whole: u64,
    tenth: &'static str,
    unit: &'static str,
}

// Units from the greatest, and how many bytes they are.
const UNITS: [(u64, &str); 4] = [
    (1_000_000_000_000, "TB"),
    (1_000_000_000, "GB"),
    (1_000_000, "MB"),
    (1_000, "kB"),
];

const TENTHS: [&str; 10] = [".0", ".1", ".2", ".3", ".4", ".5", ".6", ".7", ".8", ".9"];

impl Size {
    // Rounded up to a tenth of its unit; to a whole unit from a hundred on.
    fn of(bytes: u64) -> Size {
        for (unit, name) in UNITS {
            if bytes >= unit {
                let tenths = bytes.div_ceil(unit / 10);
                let (whole, tenth) = if tenths < 1000 {
                    (tenths / 10, TENTHS[(tenths % 10) as usize])
                } else {
                    (bytes.div_ceil(unit), "")
                };
                return Size {
                    whole,
                    tenth,
                    unit: name,
                };
            }
        }
        Size {
            whole: bytes,
            tenth: "",
            unit: "bytes",
        }
    }
}

// How many whole seconds passed between both.
fn seconds_since(began: Option<Instant>, now: Instant) -> u64 {
    match began {
        Some(began) => now.saturating_duration_since(began).as_secs(),
        None => 0,
    }
}

// How many seconds the rest takes, if what was done took this many.
fn seconds_left(seconds: u64, done: u64, all: u64) -> u64 {
    let left = u128::from(seconds).saturating_mul(u128::from(all.saturating_sub(done)));
    u64::try_from(left / u128::from(done.max(1))).unwrap_or(u64::MAX)
}

// How many per cent of few parts were done.
fn part_of(done: u64, all: u64) -> u64 {
    done.saturating_mul(100) / all.max(1)
}

fn per_cent(given: u64, length: u64) -> u64
    ensures { result ≤ 100 }
{
    (given / (length / 100).max(1)).min(100)
}

impl<R: Clock + Eprint> Drop for ProgressLine<'_, R> {
    fn drop(self) {
        let ProgressLine {
            rt,
            start: _,
            began: _,
            next: _,
            is_shown,
        } = self;
        if is_shown {
            let _ = eprint!(rt; "{CLEARED}");
        }
    }
}

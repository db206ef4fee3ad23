//! Whether what callers did side by side is one history of the plain machine.
ghost use Rattle.std.specs.Prelude.{◌<◌, length, IfSome};

use crate::plain_mux::{Answer, Event, Plain};
use dns_multiplexer::Draws;
use dns_record::NoMemory;

/// What a caller did, and what it was answered.
#[derive(Clone, Copy)]
pub(crate) struct Step {
    pub(crate) event: Event,
    pub(crate) answer: Answer,
}

/// What one caller did, in its order, and how much of it was played.
#[derive(Drop)]
pub(crate) struct Log {
    steps: Vec<Step>,
    played: usize,
}

impl Log {
    /// Nothing of it was played.
    pub(crate) fn new(steps: Vec<Step>) -> Log {
        Log { steps, played: 0 }
    }

    // How many responses its caller was given.
    fn responses(&self) -> u64 {
        let mut count: u64 = 0;
        for step in &self.steps {
            if let Answer::Response(_) = step.answer {
                count = count.saturating_add(1);
            }
        }
        count
    }

    // The step that is to be played next.
    fn next(&self) -> Option<Step> {
        self.steps.get(self.played).copied()
    }

    // The same, which counts as played then.
    fn play(&mut self) -> Option<Step> {
        let step = self.next()?;
        self.played = self.played.saturating_add(1);
        Some(step)
    }
}

// Whether a log's next step may be the machine's.
fn is_ready<D: Draws + Drop>(plain: &Plain<D>, log: &Log) -> bool {
    match log.next() {
        Some(step) => plain.is_ready(step.event, step.answer),
        None => false,
    }
}

// The first log whose next step may be the machine's.
fn ready_log<D: Draws + Drop>(plain: &Plain<D>, logs: &[Log]) -> Option<usize>
    ensures { IfSome result (λ place. place < length logs.now) }
{
    for place in 0..logs.len() {
        if is_ready(plain, &logs[place]) {
            return Some(place);
        }
    }
    None
}

// Plays the next step of a log. Whether it was answered alike.
fn is_alike<D: Draws + Drop>(plain: &mut Plain<D>, log: &mut Log) -> Result<bool, NoMemory> {
    match log.play() {
        Some(step) => Ok(plain.answer(step.event)? == step.answer),
        None => Ok(false),
    }
}

// How many steps all logs have.
fn count_of(logs: &[Log]) -> usize {
    let mut count: usize = 0;
    for log in logs {
        count = count.saturating_add(log.steps.len());
    }
    count
}

/// How many responses all callers were given.
pub(crate) fn responses(logs: &[Log]) -> u64 {
    let mut count: u64 = 0;
    for log in logs {
        count = count.saturating_add(log.responses());
    }
    count
}

/// Whether the steps of all logs, each in its order, are one history in which the plain machine answers each alike. Where a message
/// goes out, comes and is taken, the answers say the order; and a response comes only once no other step can be next. That is why the
/// last log is that of the one caller who hands responses over.
pub(crate) fn is_history<D: Draws + Drop>(
    plain: &mut Plain<D>,
    logs: &mut Vec<Log>,
) -> Result<bool, NoMemory> {
    for _ in 0..count_of(logs) {
        let Some(place) = ready_log(plain, logs) else {
            return Ok(false);
        };
        if !is_alike(plain, &mut logs[place])? {
            return Ok(false);
        }
    }
    Ok(true)
}

//! Gates that count the tunes that enter, and one at which two tunes wait for each other.

use crate::case::RunCase;
use crate::running::{Finished, PIECE, Streams, ran_through};
use abcps::Gate;
use case_texts::Meeting;
use std::alloc::{AllocError, Global};
use std::sync::atomic::AtomicU64;
use std::sync::atomic::Ordering::SeqCst;
use std::thread::Threads;

/// The number of tunes that a gate knows.
const MOST_TUNES: usize = 1000;

/// The number of turns that a tune waits for the other.
const TURNS: u32 = 200_000_000;

/// A gate that records how often each tune entered, by its number in the book.
#[derive(Drop)]
struct Counter {
    entered: Vec<AtomicU64>,
}

impl Gate for Counter {
    fn enter(&self, tune: u32) {
        if let Some(count) = self.entered.get(tune as usize) {
            count.fetch_add(1, SeqCst);
        }
    }
}

fn make_counter(alloc: Global) -> Result<Counter, AllocError> {
    let mut entered = Vec::new(alloc);
    for _ in 0..MOST_TUNES {
        entered.push(AtomicU64::new(0))?;
    }
    Ok(Counter { entered })
}

/// How many tunes entered a gate, and how often: the fewest times and the most.
#[derive(Clone, Copy)]
pub(crate) struct Entered {
    pub(crate) tunes: u64,
    pub(crate) least: u64,
    pub(crate) most: u64,
}

impl Counter {
    fn sum(&self) -> Entered {
        let mut sum = Entered {
            tunes: 0,
            least: 0,
            most: 0,
        };
        for count in &self.entered {
            let count = count.load(SeqCst);
            if count > 0 {
                sum.least = if sum.tunes == 0 {
                    count
                } else {
                    sum.least.min(count)
                };
                sum.most = sum.most.max(count);
                sum.tunes = sum.tunes.saturating_add(1);
            }
        }
        sum
    }
}

/// Runs a case over streams that never fail, and returns the run and who entered its gate.
pub(crate) fn ran_counted<R: Threads + Sync>(
    rt: &R,
    case: &RunCase,
) -> Result<(Finished, Entered), AllocError> {
    let counter = make_counter(case.alloc)?;
    let finished = ran_through(rt, case, &Streams::sound(PIECE), &counter)?;
    Ok((finished, counter.sum()))
}

/// A gate at which each of two tunes waits for the other.
#[derive(Drop)]
struct MeetingGate {
    meeting: Meeting,
}

impl Gate for MeetingGate {
    fn enter(&self, tune: u32) {
        self.meeting.wait((tune % 2) as usize);
    }
}

/// Runs a case of two tunes over streams that never fail, and returns whether the tunes met.
pub(crate) fn ran_meeting<R: Threads + Sync>(
    rt: &R,
    case: &RunCase,
) -> Result<(Finished, bool), AllocError> {
    let gate = MeetingGate {
        meeting: Meeting::new(TURNS),
    };
    let finished = ran_through(rt, case, &Streams::sound(PIECE), &gate)?;
    Ok((finished, gate.meeting.have_met()))
}

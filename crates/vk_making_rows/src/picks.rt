//! Which of several makes the next call: in every order, one after the other, or at random.

use std::alloc::Global;
use vk_base::Memory;

// Which one was taken, counted from 0, and of how many.
#[derive(Clone, Copy)]
struct Pick {
    taken: usize,
    of: usize,
}

/// What picks.
#[derive(Drop)]
pub enum Picks {
    /// The first ones, and so on from where the order before this one has another choice.
    All(Steps),
    /// By a generator of numbers.
    Random(u64),
}

/// The picks of an order.
#[derive(Drop)]
pub struct Steps {
    steps: Vec<Pick>,
    at: usize,
}

impl Steps {
    /// No picks yet: the first one of all is taken each time.
    pub fn new(alloc: Global) -> Steps {
        Steps {
            steps: Vec::new(alloc),
            at: 0,
        }
    }

    fn pick(&mut self, of: usize) -> Result<usize, Memory> {
        let at = self.at;
        self.at = at.saturating_add(1);
        if let Some(step) = self.steps.get(at) {
            return Ok(step.taken);
        }
        self.steps.push(Pick { taken: 0, of })?;
        Ok(0)
    }

    // Takes the last pick away, or takes another one there, where there is one.
    fn turn_last(&mut self) -> Result<bool, Memory> {
        let Some(last) = self.steps.pop() else {
            return Ok(false);
        };
        let taken = last.taken.saturating_add(1);
        if taken < last.of {
            self.steps.push(Pick { taken, of: last.of })?;
            return Ok(true);
        }
        Ok(false)
    }

    // Goes to the next order, where there is one.
    fn turn_page(&mut self) -> Result<bool, Memory> {
        self.at = 0;
        for _ in 0..self.steps.len() {
            if self.turn_last()? {
                return Ok(true);
            }
        }
        Ok(false)
    }
}

// The next number of a generator: linear, with 64 bits.
fn next_seed(seed: u64) -> u64 {
    seed.wrapping_mul(6_364_136_223_846_793_005)
        .wrapping_add(1_442_695_040_888_963_407)
}

fn pick_by(seed: u64, of: usize) -> usize {
    let number = (seed >> 33) as usize;
    number.checked_rem(of).unwrap_or(0)
}

impl Picks {
    /// One of so many.
    pub fn pick(&mut self, of: usize) -> Result<usize, Memory> {
        match self {
            Picks::All(steps) => steps.pick(of),
            Picks::Random(seed) => {
                *seed = next_seed(*seed);
                Ok(pick_by(*seed, of))
            }
        }
    }

    /// Ends an order. `false` where there is no other one.
    pub fn turn_page(&mut self) -> Result<bool, Memory> {
        match self {
            Picks::All(steps) => steps.turn_page(),
            Picks::Random(_) => Ok(true),
        }
    }
}

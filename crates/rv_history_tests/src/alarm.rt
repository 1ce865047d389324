//! An interrupt for the tests.
use rv_history::Interrupt;

/// An interrupt that is raised at only one poll, or never.
#[derive(Drop)]
pub struct Alarm {
    polls: u32,
    rises_at: u32,
    was_raised: bool,
}

impl Alarm {
    /// Creates an interrupt that is raised when it is polled for the `rises_at`-th time, counted from 1.
    pub fn at(rises_at: u32) -> Alarm {
        Alarm {
            polls: 0,
            rises_at,
            was_raised: false,
        }
    }

    /// Creates an interrupt that is never raised.
    pub fn never() -> Alarm {
        Alarm::at(0)
    }
}

impl Interrupt for Alarm {
    ghost was_raised = { λ alarm. alarm.was_raised };

    // Counts the poll, and returns whether the interrupt is raised at it.
    fn is_raised(&mut self) -> bool {
        self.polls = self.polls.saturating_add(1);
        self.was_raised = self.polls == self.rises_at;
        self.was_raised
    }
}

//! The ids that an end draws for the messages that it sends.

ghost use Rattle.std.specs.Prelude.{◌≡◌};
ghost use Rattle.wef_ids.specs.Ids.{ids_of_boot, next_id, with_drawn};

use crate::MessageId;

/// The ids of an end since a start: no two of them have one value until 2^64 - 1 are drawn.
#[derive(Clone, Copy, Debug, PartialEq, Eq)]
pub struct Ids {
    /// The boot number that is kept since that start.
    pub boot: u64,

    /// The last number that was drawn, 0 before the first.
    pub drawn: u64,
}

impl Ids {
    /// The ids of an end that has just started.
    pub fn of_boot(boot: u64) -> Ids
        ensures { result ≡ ids_of_boot boot }
    {
        Ids { boot, drawn: 0 }
    }

    /// Draws the value of the next id. It takes no memory.
    pub fn draw(&mut self) -> u128
        ensures value { result ≡ next_id self.old }
        ensures drawn { self.new ≡ with_drawn 1 self.old }
    {
        self.drawn = self.drawn.saturating_add(1);
        MessageId::of(self.boot, self.drawn)
    }
}

// A node's row: the wave that it stands in, or none while it is asleep.
ghost use Rattle.std.specs.Prelude.{◌≡◌};
ghost use Rattle.tables.specs.Tables.{standing_in};

use crate::standing::Joined;
use wave::step::Record;

#[derive(Clone, Copy, Default)]
pub struct Row {
    pub joined: Option<Joined>,
}

impl Row {
    // The node stands in a wave now, with this record.
    pub(crate) fn join(&mut self, wave: u8, kept: Record)
        ensures after { self.new ≡ standing_in wave kept }
    {
        self.joined = Some(Joined { wave, kept });
    }
}

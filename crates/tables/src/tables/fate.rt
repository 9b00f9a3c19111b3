// What becomes of a message at its receiver.
ghost use Rattle.std.specs.Prelude.{◌≡◌, Some};
ghost use Rattle.tables.specs.Fates.{fate as fate_of};
ghost use Rattle.tables.specs.Tables.{rank_in};

use super::Tables;
use crate::standing::{Fate, Joined};

impl Tables {
    // A node that is asleep joins every wave.
    pub(super) fn fate(&self, joined: Option<Joined>, starter: u8) -> Fate
        ensures value { result ≡ fate_of (rank_in self.now) joined starter }
    {
        match joined {
            None => Fate::Joins,
            Some(at) => self.fate_against(at, starter),
        }
    }

    // A node that stands in a wave joins a better one, and puts out the messages of a worse one. Most messages are of
    // its own wave, so that is asked first; its starter has the same rank as itself.
    fn fate_against(&self, at: Joined, starter: u8) -> Fate
        ensures value { result ≡ fate_of (rank_in self.now) (Some at) starter }
    {
        if starter == at.wave {
            Fate::Stays(at.kept)
        } else if self.rank(starter) < self.rank(at.wave) {
            Fate::Joins
        } else {
            Fate::GoesOut
        }
    }
}

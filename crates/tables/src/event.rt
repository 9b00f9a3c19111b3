// An event: a node takes a step in a wave, with its new running holding.
ghost use Rattle.std.specs.Prelude.{◌≡◌};
ghost use Rattle.tables.specs.Events.{verdict_of};
ghost use Rattle.tables.specs.Tables.{sends};

use crate::verdict::Verdict;
use wave::step::Step;

#[derive(Clone, Copy)]
pub struct Event<T> {
    // the wave, by its starter
    pub(crate) starter: u8,
    pub(crate) node: u8,
    pub(crate) holding: T,
    pub(crate) step: Step,
}

impl<T: Copy> Event<T> {
    // How many messages the node sends.
    pub(crate) fn sent(&self) -> u32
        ensures value { result ≡ sends self.now.step }
    {
        sent_by(&self.step)
    }

    // The decision, if the node decides.
    pub(crate) fn verdict(&self) -> Option<Verdict<T>>
        ensures value { result ≡ verdict_of self.now }
    {
        self.step.decides.then_some(Verdict {
            node: self.node,
            named: self.starter,
            holding: self.holding,
        })
    }
}

// How many messages a step sends.
pub(crate) fn sent_by(step: &Step) -> u32
    ensures value { result ≡ sends step.now }
{
    step.first_kind.len() as u32 + step.second_kind.len() as u32
}

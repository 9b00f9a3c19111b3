// That every election keeps its promise, as a call, so that a check asks for the proof by name.
ghost use Rattle.extinction.specs.Promises.{Promise};

use values::holding::Holding;
use values::key::KeyOrder;
use wave::wave::Wave;

pub fn every_election_keeps_the_promise<W: Wave, K: KeyOrder, T: Holding>()
    ensures promise { Promise W.admitted W.most W.opening W.arrival K.precedes T.meet }
{}

// What a channel has to allow for: starters times the bound of one wave.
ghost use Rattle.std.specs.Prelude.{◌≡◌, ◌*◌};
ghost use Rattle.extinction.specs.Promises.{Enough};

use network::network::Network;
use values::holding::Holding;
use values::key::KeyOrder;
use wave::wave::Wave;

// The most messages that an election with so many starters sends on this network.
pub fn allowance<W: Wave, K: KeyOrder, T: Holding>(network: &Network, starters: u8) -> u32
    ensures value { result ≡ starters * W.most network.now }
    ensures enough { Enough W.admitted W.opening W.arrival K.precedes T.meet network.now starters result }
{
    times_bound::<W, K, T>(network, starters)
}

// The same, with the proof; what is wrong in the entry is refused there.
fn times_bound<W: Wave, K: KeyOrder, T: Holding>(network: &Network, starters: u8) -> u32
    ensures value { result ≡ starters * W.most network.now }
    ensures enough { Enough W.admitted W.opening W.arrival K.precedes T.meet network.now starters result }
{
    starters as u32 * W::bound(network)
}

// One run, played in an order that the generator chooses until it comes to rest.
use crate::generator::Generator;
use crate::seen::Seen;
use crate::totals::Totals;
use base::bag::Bag;
use base::node_set::NodeSet;
use election::run::Run;
use network::network::Network;
use tables::message::Message;
use tables::stores::Stores;
use values::holding::Holding;
use values::key::KeyOrder;
use wave::wave::Wave;

mod calls;
mod checks;
mod turns;

// What an election is played on, with a key and an own holding for each node; calls take keys and holdings apart.
#[derive(Drop)]
pub(crate) struct Setup<K, T> {
    pub(crate) network: Network,
    pub(crate) keys: Vec<K>,
    pub(crate) own: Vec<T>,
    // while starters are wanted, on average one turn in so many is a start
    pub(crate) pace: usize,
}

// A run under way, with what was seen of it.
#[derive(Drop)]
struct Play<'a, W, K, T> {
    setup: &'a Setup<K, T>,
    run: Run<W, K, T>,
    stores: Stores<'a, 'a, T>,
    // starters that were not tried yet
    wanted: NodeSet,
    generator: Generator,
    seen: Seen,
}

// Plays one run. Its number is the seed of the generator.
pub(crate) fn play_run<W: Wave, K: KeyOrder, T: Holding + PartialEq>(
    setup: &Setup<K, T>,
    running: &mut [T],
    places: &mut [Message<T>],
    starters: NodeSet,
    totals: &mut Totals,
) {
    let transit = Bag::over(places);
    let mut stores = Stores {
        own: &setup.own,
        running,
        transit,
    };
    let Ok(run) = Run::<W, K, T>::make(&setup.network, &setup.keys, &mut stores) else {
        totals.add_fault();
        return;
    };
    let mut play = Play {
        setup,
        run,
        stores,
        wanted: starters,
        generator: Generator::seeded(totals.runs()),
        seen: Seen::default(),
    };
    play.take_turns();
    play.check_rest();
    totals.add_run(&play.seen);
}

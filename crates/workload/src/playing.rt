// Elections played to their end, one after another.
use crate::ending::ending;
use crate::networks::NODES;
use crate::order::Order;
use crate::tally::Tally;
use base::bag::Bag;
use election::run::Run;
use network::network::Network;
use std::array;
use tables::message::Message;
use tables::stores::Stores;
use values::least::Least;
use values::number::Number;
use wave::wave::Wave;

// What 32 starters of an echo wave over 96 links send at most, and so the most that is ever in transit.
const PLACES: usize = 6144;

// Plays the election so many times. The generator of an order goes on from one election to the next. The stores stay
// a variable here, as the run does: as a field of one struct with the order and the tally, an echo wave is slower.
pub(crate) fn play<W: Wave>(network: &Network, shift: u32, mut order: Order, times: u32) -> Tally {
    let keys = some_keys(shift);
    let own = some_holdings(shift);
    let mut running = own;
    let mut places = [Message::default(); PLACES];
    let transit = Bag::over(&mut places);
    let mut stores = Stores {
        own: &own,
        running: &mut running,
        transit,
    };
    let mut tally = Tally::default();
    for turn in 0..times {
        let Ok(mut run) = Run::<W, Number, Least>::make(network, &keys, &mut stores) else {
            return tally;
        };
        start_all(&mut run, &mut stores, &mut tally);
        deliver_all(&mut run, &mut stores, &mut order, &mut tally);
        // the turns are counted only to know the last, whose run is gone after it
        if turn + 1 == times {
            tally.state = ending(&run, &stores);
        }
    }
    tally
}

// Starts the nodes in number order, each while it is asleep.
fn start_all<W: Wave>(
    run: &mut Run<W, Number, Least>,
    stores: &mut Stores<Least>,
    tally: &mut Tally,
) {
    for node in 0..NODES {
        if let Ok(answer) = run.start(stores, node) {
            tally.note_start(answer);
        }
    }
}

// Delivers until nothing is in transit. Every delivery takes one message out for good, and no more are ever sent
// than there are places.
fn deliver_all<W: Wave>(
    run: &mut Run<W, Number, Least>,
    stores: &mut Stores<Least>,
    order: &mut Order,
    tally: &mut Tally,
) {
    for _ in 0..PLACES {
        if stores.transit.count() == 0 {
            return;
        }
        let place = order.place(stores.transit.count());
        if let Ok(answer) = run.deliver(stores, place) {
            tally.note_delivery(answer);
        }
    }
}

// Keys that are not in node order, so that waves put each other out. Keys and holdings are two lines of their own:
// one function would take both numbers and the maker.
fn some_keys(shift: u32) -> [Number; 32] {
    array::from_fn(|node| Number::new((node as u32 * 13).wrapping_add(shift) % 32))
}

// Holdings in another order than the keys.
fn some_holdings(shift: u32) -> [Least; 32] {
    array::from_fn(|node| Least::new((node as u32 * 7).wrapping_add(shift) % 101))
}

// Runs: what they refuse, and the mistakes that such runs are known for.
use base::bag::Bag;
use base::node_set::NodeSet;
use base::refusal::Refusal;
use election::run::Run;
use network::network::Network;
use samples::networks::{path, triangle};
use std::mem;
use std::test::Fail;
use tables::message::Message;
use tables::stores::Stores;
use tables::verdict::Verdict;
use values::least::Least;
use values::number::Number;
use wave::wave::Wave;
use waves::echo::Echo;
use waves::tree::Tree;

// A run on three nodes with its stores. The rehearsal, a program that can lend nothing, has one of a single wave.
#[derive(Drop)]
struct Stage<'a, W> {
    run: Run<W, Number, Least>,
    stores: Stores<'a, 'a, Least>,
}

// What the stores of such a run lie in, with so many places for messages.
#[derive(Drop)]
struct Room<const N: usize> {
    own: [Least; 3],
    running: [Least; 3],
    places: [Message<Least>; N],
}

// Three nodes times the bound of an echo wave over three links.
const PLACES: usize = 18;

impl<const N: usize> Room<N> {
    fn new() -> Room<N> {
        Room {
            own: holdings(),
            running: holdings(),
            places: [Message::default(); N],
        }
    }

    fn stores(&mut self) -> Stores<'_, '_, Least> {
        let running = &mut self.running;
        let places = &mut self.places;
        let transit = Bag::over(places);
        Stores {
            own: &self.own,
            running,
            transit,
        }
    }
}

impl<W: Wave> Stage<'_, W> {
    // How many messages a start sends.
    fn start(&mut self, node: u8) -> Result<u32, Refusal> {
        Ok(self.run.start(&mut self.stores, node)?.sent)
    }

    // How many messages a delivery sends.
    fn deliver(&mut self, place: usize) -> Result<u32, Refusal> {
        Ok(self.run.deliver(&mut self.stores, place)?.sent)
    }

    // The node that the first decision on the way to rest names, and the holding that it shows.
    fn outcome(&mut self) -> Option<(u8, u32)> {
        for _ in 0..PLACES {
            let delivered = self.run.deliver(&mut self.stores, 0).ok()?;
            if let Some(verdict) = delivered.verdict {
                return Some(told(verdict));
            }
        }
        None
    }
}

fn holdings() -> [Least; 3] {
    [Least::new(7), Least::new(5), Least::new(9)]
}

fn keys() -> [Number; 3] {
    [Number::new(30), Number::new(10), Number::new(20)]
}

fn told(verdict: Verdict<Least>) -> (u8, u32) {
    (verdict.named, verdict.holding.value())
}

fn message(starter: u8, sender: u8, receiver: u8, kind: u8) -> Message<Least> {
    Message {
        starter,
        sender,
        receiver,
        kind,
        holding: Least::new(1),
    }
}

#[test]
fn one_place_is_too_few_for_a_start(rt: HostRuntime) -> Result<(), Fail> {
    let mut room = Room::<1>::new();
    let mut stores = room.stores();
    let run = Run::make(&triangle(), &keys(), &mut stores)?;
    let mut stage = Stage::<Echo> { run, stores };
    assert_eq!(rt; stage.start(0), Err(Refusal::NoFreePlace));
    assert_eq!(rt; stage.stores.transit.count(), 0);
    Ok(())
}

#[test]
fn two_places_are_enough_for_a_start(rt: HostRuntime) -> Result<(), Fail> {
    let mut room = Room::<2>::new();
    let mut stores = room.stores();
    let run = Run::make(&triangle(), &keys(), &mut stores)?;
    let mut stage = Stage::<Echo> { run, stores };
    assert_eq!(rt; stage.start(0), Ok(2));
    assert_eq!(rt; stage.start(0), Err(Refusal::NotAsleep));
    assert_eq!(rt; stage.start(3), Err(Refusal::NoSuchNode));
    assert_eq!(rt; stage.deliver(2), Err(Refusal::NoSuchPlace));
    assert_eq!(rt; stage.deliver(1), Ok(1));
    Ok(())
}

// The least key of all nodes is not named where its node never started.
#[test]
fn the_least_starter_is_named(rt: HostRuntime) -> Result<(), Fail> {
    let mut room = Room::<PLACES>::new();
    let mut stores = room.stores();
    let run = Run::make(&path(), &keys(), &mut stores)?;
    let mut stage = Stage::<Echo> { run, stores };
    assert_eq!(rt; stage.start(0), Ok(1));
    assert_eq!(rt; stage.outcome(), Some((0, 5)));
    Ok(())
}

#[test]
fn a_reached_node_starts_no_more(rt: HostRuntime) -> Result<(), Fail> {
    let mut room = Room::<PLACES>::new();
    let mut stores = room.stores();
    let run = Run::make(&path(), &keys(), &mut stores)?;
    let mut stage = Stage::<Echo> { run, stores };
    assert_eq!(rt; stage.start(0), Ok(1));
    assert_eq!(rt; stage.deliver(0), Ok(1));
    assert_eq!(rt; stage.start(1), Err(Refusal::NotAsleep));
    Ok(())
}

// Node 1 has noted node 0 in the wave of node 0. In the better wave of node 2 it has noted node 2 alone, and still
// sends to node 0.
#[test]
fn the_old_record_is_left_on_joining(rt: HostRuntime) -> Result<(), Fail> {
    let mut room = Room::<PLACES>::new();
    let mut stores = room.stores();
    let run = Run::make(&path(), &keys(), &mut stores)?;
    let mut stage = Stage::<Echo> { run, stores };
    assert_eq!(rt; stage.start(0), Ok(1));
    assert_eq!(rt; stage.deliver(0), Ok(1));
    assert_eq!(rt; stage.start(2), Ok(1));
    assert_eq!(rt; stage.deliver(1), Ok(1));
    let Some(joined) = stage.run.row(1)?.joined else {
        assert!(rt; false);
        return Ok(());
    };
    assert_eq!(rt; joined.wave, 2);
    assert_eq!(rt; joined.kept.marked, NodeSet::empty().with(2));
    Ok(())
}

// Messages that no run on this path with starter 0 has sent.
#[test]
fn foreign_messages_are_refused(rt: HostRuntime) -> Result<(), Fail> {
    let mut room = Room::<PLACES>::new();
    let mut stores = room.stores();
    let run = Run::make(&path(), &keys(), &mut stores)?;
    let mut stage = Stage::<Echo> { run, stores };
    assert_eq!(rt; stage.start(0), Ok(1));
    stage.stores.transit.put(message(0, 0, 2, 1))?;
    stage.stores.transit.put(message(1, 1, 2, 1))?;
    stage.stores.transit.put(message(200, 1, 2, 1))?;
    stage.stores.transit.put(message(0, 1, 2, 3))?;
    for place in 1..5usize {
        assert_eq!(rt; stage.deliver(place), Err(Refusal::ForeignMessage));
    }
    assert_eq!(rt; stage.stores.transit.count(), 5);
    assert_eq!(rt; stage.deliver(0), Ok(1));
    Ok(())
}

#[test]
fn refused_makings(rt: HostRuntime) {
    let own = holdings();
    let mut room = Room::<PLACES>::new();
    let mut stores = room.stores();
    let same = [Number::new(1), Number::new(2), Number::new(1)];
    assert_eq!(rt;
        made::<Echo>(&path(), &keys()[0..2], &mut stores),
        Err(Refusal::NotOneEach)
    );
    stores.own = &own[0..2];
    assert_eq!(rt;
        made::<Echo>(&path(), &keys(), &mut stores),
        Err(Refusal::NotOneEach)
    );
    stores.own = &own;
    assert_eq!(rt;
        made::<Tree>(&triangle(), &same, &mut stores),
        Err(Refusal::NotAdmitted)
    );
    assert_eq!(rt;
        made::<Tree>(&path(), &same, &mut stores),
        Err(Refusal::EqualKeys)
    );
    assert_eq!(rt; made::<Tree>(&path(), &keys(), &mut stores), Ok(()));
}

// What a making answers, without the run.
fn made<W: Wave>(
    network: &Network,
    keys: &[Number],
    stores: &mut Stores<Least>,
) -> Result<(), Refusal> {
    Run::<W, Number, Least>::make(network, keys, stores).map(|_| ())
}

#[test]
fn refused_questions(rt: HostRuntime) -> Result<(), Fail> {
    let mut room = Room::<PLACES>::new();
    let run = Run::<Echo, Number, Least>::make(&path(), &keys(), &mut room.stores())?;
    assert_eq!(rt; run.rank(0), Ok(2));
    assert_eq!(rt; run.rank(3), Err(Refusal::NoSuchNode));
    assert!(rt; run.row(3).is_err());
    assert!(rt; run.account(3).is_err());
    let told = run.holdings(&room.own, &room.running[0..2], 3);
    assert!(rt; matches!(told, Err(Refusal::NotOneEach)));
    Ok(())
}

// A start by one to whom the bag is only lent: it goes into the stores, and comes back.
fn start_with_a_lent_bag(
    run: &mut Run<Echo, Number, Least>,
    own: &[Least],
    running: &mut [Least],
    transit: &mut Bag<Message<Least>>,
) -> Result<u32, Refusal> {
    let mut stores = Stores {
        own,
        running,
        transit: mem::replace(transit, Bag::over(&mut [])),
    };
    let started = run.start(&mut stores, 0);
    *transit = stores.transit;
    Ok(started?.sent)
}

#[test]
fn a_lent_bag_serves_for_a_call(rt: HostRuntime) -> Result<(), Fail> {
    let own = holdings();
    let mut running = own;
    let mut places = [Message::default(); PLACES];
    let transit = Bag::over(&mut places);
    let mut stores = Stores {
        own: &own,
        running: &mut running,
        transit,
    };
    let mut run = Run::make(&triangle(), &keys(), &mut stores)?;
    let mut transit = stores.transit;
    let sent = start_with_a_lent_bag(&mut run, &own, &mut running, &mut transit);
    assert_eq!(rt; sent, Ok(2));
    assert_eq!(rt; transit.count(), 2);
    Ok(())
}

// From the making to the first decision, by one to whom holdings and transit are lent apart.
fn outcome_apart(
    own: &[Least],
    running: &mut [Least],
    transit: &mut Bag<Message<Least>>,
) -> Result<Option<(u8, u32)>, Refusal> {
    let mut run = Run::<Echo, Number, Least>::make_apart(&path(), &keys(), own, running, transit)?;
    run.start_apart(own, running, transit, 0)?;
    for _ in 0..PLACES {
        let delivered = run.deliver_apart(own, running, transit, 0)?;
        if let Some(verdict) = delivered.verdict {
            return Ok(Some(told(verdict)));
        }
    }
    Ok(None)
}

#[test]
fn parts_that_are_lent_apart_serve_for_a_run(rt: HostRuntime) {
    let own = holdings();
    let mut running = own;
    let mut places = [Message::default(); PLACES];
    let mut transit = Bag::over(&mut places);
    let too_few = outcome_apart(&own[0..2], &mut running, &mut transit);
    assert_eq!(rt; too_few, Err(Refusal::NotOneEach));
    let outcome = outcome_apart(&own, &mut running, &mut transit);
    assert_eq!(rt; outcome, Ok(Some((0, 5))));
    assert_eq!(rt; transit.count(), 0);
}

// The making of a run: every node is asleep, running holdings are the own ones, and nothing is in transit.
ghost use Rattle.std.specs.Prelude.{◌≡◌, length, IfOk, MatchResult, OnOk};
ghost use Rattle.tables.specs.Calls.{stand, state};
ghost use Rattle.election.specs.Histories.{nothing_said, past};
ghost use Rattle.election.specs.Making.{Fresh, Makes, MakesApart, MayMake, Unmade, one_key_each};
ghost use Rattle.election.specs.Promises.{Lasting};

use super::Run;
use base::bag::Bag;
use base::refusal::Refusal;
use network::network::Network;
use std::marker::PhantomData;
use tables::ledger::Account;
use tables::message::Message;
use tables::row::Row;
use tables::stores::Stores;
use tables::tables::Tables;
use values::holding::Holding;
use values::key::KeyOrder;
use values::rank::{any_equal, rank_keys};
use wave::wave::Wave;

// A making, a start and a delivery have two entries each, one for stores and one for parts that are lent apart, over a
// worker with the contract of the latter: what is wrong in an entry is refused there, and the worker has the proof. A
// network and keys are what a run is made of.
impl<W: Wave, K: KeyOrder, T: Holding> Run<W, K, T> {
    // Makes a run of the network under the wave, among nodes with these keys and own holdings.
    pub fn make(
        network: &Network,
        keys: &[K],
        stores: &mut Stores<T>,
    ) -> Result<Run<W, K, T>, Refusal>
        ensures made { Makes W.admitted K.precedes network.now keys.now stores.old result stores.new }
        ensures promise { IfOk result (λ run. Lasting W.admitted W.most W.opening W.arrival K.precedes T.meet network.now keys.now stores.old.own.now (past nothing_said (stand run.tables stores.new))) }
        ensures lender { stores.new.running.ghost_name ≡ stores.old.running.ghost_name }
        ensures own { stores.new.own ≡ stores.old.own }
    {
        let transit = &mut stores.transit;
        Run::promised_making(network, keys, stores.own, stores.running, transit)
    }

    // The same for a caller to whom holdings and transit are lent apart.
    pub fn make_apart(
        network: &Network,
        keys: &[K],
        own: &[T],
        running: &mut [T],
        transit: &mut Bag<Message<T>>,
    ) -> Result<Run<W, K, T>, Refusal>
        ensures made { MakesApart W.admitted K.precedes network.now keys.now own.now running.old transit.old result running.new transit.new }
        ensures promise { IfOk result (λ run. Lasting W.admitted W.most W.opening W.arrival K.precedes T.meet network.now keys.now own.now (past nothing_said (state run.tables transit.new own.now running.new))) }
    {
        Run::promised_making(network, keys, own, running, transit)
    }

    // The work of both; the promise follows from what it says of all histories.
    fn promised_making(
        network: &Network,
        keys: &[K],
        own: &[T],
        running: &mut [T],
        transit: &mut Bag<Message<T>>,
    ) -> Result<Run<W, K, T>, Refusal>
        ensures made { MakesApart W.admitted K.precedes network.now keys.now own.now running.old transit.old result running.new transit.new }
        ensures promise { IfOk result (λ run. Lasting W.admitted W.most W.opening W.arrival K.precedes T.meet network.now keys.now own.now (past nothing_said (state run.tables transit.new own.now running.new))) }
    {
        Run::take_making(network, keys, own, running, transit)
    }

    fn take_making(
        network: &Network,
        keys: &[K],
        own: &[T],
        running: &mut [T],
        transit: &mut Bag<Message<T>>,
    ) -> Result<Run<W, K, T>, Refusal>
        ensures made { MakesApart W.admitted K.precedes network.now keys.now own.now running.old transit.old result running.new transit.new }
    {
        may_make::<W, K>(network, keys, own.len(), running.len())?;
        running.copy_from_slice(own);
        transit.clear();
        Ok(Run {
            tables: fresh(network, keys),
            kinds: PhantomData,
        })
    }
}

// The refusals of a making, in their order. Kept out of what plays a run: inlined there, the search for equal keys takes
// registers from the deliveries behind it.
#[inline(never)]
#[tactic(auto, using(crate::specs::Making::not_one_each, crate::specs::Making::not_admitted, crate::specs::Making::equal_keys))]
fn may_make<W: Wave, K: KeyOrder>(
    network: &Network,
    keys: &[K],
    own: usize,
    running: usize,
) -> Result<(), Refusal>
    ensures value { MatchResult result (λ _. MayMake W.admitted network.now keys.now own) (Unmade W.admitted network.now keys.now own running) }
    ensures running { OnOk result (running ≡ own) }
{
    if !one_key_each(network, keys.len(), own, running) {
        return Err(Refusal::NotOneEach);
    }
    if !W::admits(network) {
        return Err(Refusal::NotAdmitted);
    }
    if any_equal(keys) {
        return Err(Refusal::EqualKeys);
    }
    Ok(())
}

// Keys and holdings, own and running, are one a node. What is compared are numbers, so no stores are handed in.
fn one_key_each(network: &Network, keys: usize, own: usize, running: usize) -> bool
    ensures value { result ≡ one_key_each network.now keys own running }
{
    let nodes = network.nodes() as usize;
    keys == nodes && own == nodes && running == nodes
}

// Tables in which nothing has happened.
fn fresh<K: KeyOrder>(network: &Network, keys: &[K]) -> Tables
    requires keyed { length keys.now ≡ network.now.nodes }
    ensures value { Fresh K.precedes network.now keys.now result }
{
    let mut ranks = [0; 32];
    let _ = rank_keys(keys, &mut ranks);
    Tables {
        network: *network,
        ranks,
        rows: [Row::default(); 32],
        ledger: [Account::default(); 32],
    }
}

// The program: it plays an election from its starts to its rest, and tells it in words.

#![tactic(auto)]

use base::bag::Bag;
use base::refusal::Refusal;
use election::run::Run;
use samples::networks::path;
use std::io;
use tables::message::Message;
use tables::stores::Stores;
use tables::verdict::Verdict;
use values::least::Least;
use values::number::Number;
use waves::echo::Echo;

// As many as three nodes times the bound of an echo wave over two links.
const PLACES: usize = 12;

// A run with its stores.
#[derive(Drop)]
struct Stage<'a> {
    run: Run<Echo, Number, Least>,
    stores: Stores<'a, 'a, Least>,
}

fn main(rt: HostRuntime) -> io::Result<()> {
    println!(rt;
        "Echo election on the path 0-1-2 with the keys 30, 10 and 20 and the holdings 7, 5 and 9:"
    )?;
    let keys = [Number::new(30), Number::new(10), Number::new(20)];
    let own = [Least::new(7), Least::new(5), Least::new(9)];
    let mut running = own;
    let mut places = [Message::default(); PLACES];
    let transit = Bag::over(&mut places);
    let mut stores = Stores {
        own: &own,
        running: &mut running,
        transit,
    };
    match Run::make(&path(), &keys, &mut stores) {
        Ok(run) => Stage { run, stores }.play(&rt),
        Err(why) => tell_refusal(&rt, why),
    }
}

impl Stage<'_> {
    // Nodes 0 and 2 start, every message is delivered, and node 1 comes too late.
    fn play(&mut self, rt: &impl Print) -> io::Result<()> {
        self.start(rt, 0)?;
        self.start(rt, 2)?;
        for _ in 0..PLACES {
            self.deliver(rt)?;
        }
        self.start(rt, 1)?;
        for node in 0..3u8 {
            self.tell_account(rt, node)?;
        }
        let left = self.stores.transit.count();
        println!(rt; "  {left} messages are in transit")
    }

    fn start(&mut self, rt: &impl Print, node: u8) -> io::Result<()> {
        print!(rt; "  start of node {node}: ")?;
        match self.run.start(&mut self.stores, node) {
            Ok(started) => {
                println!(rt; "{} sent", started.sent)?;
                tell_verdict(rt, started.verdict)
            }
            Err(why) => tell_refusal(rt, why),
        }
    }

    // The message at place 0, if there is one.
    fn deliver(&mut self, rt: &impl Print) -> io::Result<()> {
        match self.run.deliver(&mut self.stores, 0) {
            Ok(delivered) => tell_verdict(rt, delivered.verdict),
            Err(Refusal::NoSuchPlace) => Ok(()),
            Err(why) => tell_refusal(rt, why),
        }
    }

    // The account of a node that is an accepted starter. The words are this program's own, so they are no `Display`.
    fn tell_account(&self, rt: &impl Print, node: u8) -> io::Result<()> {
        let Ok(account) = self.run.account(node) else {
            return Ok(());
        };
        if !account.accepted {
            return Ok(());
        }
        println!(rt;
            "  the wave of node {node}: {} sent, {} handled, {} put out",
            account.sent, account.handled, account.put_out
        )
    }
}

// Verdicts, accounts and refusals are told in this program's own words; a `Display` would say them for all programs.
fn tell_verdict(rt: &impl Print, verdict: Option<Verdict<Least>>) -> io::Result<()> {
    let Some(verdict) = verdict else {
        return Ok(());
    };
    println!(rt;
        "  node {} decides: node {} is named, with the holding {}",
        verdict.node,
        verdict.named,
        verdict.holding.value()
    )
}

fn tell_refusal(rt: &impl Print, why: Refusal) -> io::Result<()> {
    println!(rt; "refused, {}: {why}", why.number())
}

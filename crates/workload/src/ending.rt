// How an election stands at its end, mixed into one number.
use crate::mixture::Mixture;
use crate::networks::NODES;
use base::refusal::Refusal;
use election::run::Run;
use tables::ledger::Account;
use tables::row::Row;
use tables::stores::Stores;
use values::least::Least;
use values::number::Number;
use wave::step::{Record, Standing};
use wave::wave::Wave;

pub(crate) fn ending<W: Wave>(run: &Run<W, Number, Least>, stores: &Stores<Least>) -> u64 {
    let mut mixture = Mixture::new(0);
    for node in 0..NODES {
        let _ = add_node(&mut mixture, run, stores, node);
    }
    mixture.value()
}

fn add_node<W: Wave>(
    mixture: &mut Mixture,
    run: &Run<W, Number, Least>,
    stores: &Stores<Least>,
    node: u8,
) -> Result<(), Refusal> {
    mixture.add(run.rank(node)? as u32);
    let holdings = run.holdings(stores.own, stores.running, node)?;
    mixture.add(holdings.running.value());
    add_account(mixture, run.account(node)?);
    add_row(mixture, run.row(node)?);
    Ok(())
}

fn add_account(mixture: &mut Mixture, account: Account) {
    mixture.add(account.accepted as u32);
    mixture.add(account.sent);
    mixture.add(account.handled);
    mixture.add(account.put_out);
}

fn add_row(mixture: &mut Mixture, row: Row) {
    let Some(joined) = row.joined else {
        return;
    };
    mixture.add(joined.wave as u32);
    add_record(mixture, joined.kept);
}

fn add_record(mixture: &mut Mixture, record: Record) {
    match record.standing {
        Standing::Starter => mixture.add(0),
        Standing::Follower(parent) => mixture.add(parent as u32 + 1),
    }
    mixture.add(record.token_sent as u32);
    for neighbour in record.marked.members() {
        mixture.add(neighbour as u32);
    }
}

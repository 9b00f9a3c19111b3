// A run: the tables of an election under a wave, with keys and holdings of some kinds. Messages and holdings are the
// caller's, and are handed to every call.
use std::marker::PhantomData;
use tables::tables::Tables;

mod deliver;
mod making;
mod questions;
mod start;

#[derive(Drop)]
pub struct Run<W, K, T> {
    tables: Tables,
    // which wave is played, by which kind of key the ranks are, and which kind of holding the nodes have
    kinds: PhantomData<(W, K, T)>,
}

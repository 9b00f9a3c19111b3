// The sweep under way: where its lists are made, and what it has come to.
use crate::totals::Totals;
use std::alloc::Global;

#[derive(Drop)]
pub(crate) struct Sweep {
    pub(crate) heap: Global,
    pub(crate) totals: Totals,
}

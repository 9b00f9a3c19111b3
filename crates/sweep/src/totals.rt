// The totals of the sweep.
use crate::seen::Seen;
use std::fmt;

#[derive(Clone, Copy, Default)]
pub(crate) struct Totals {
    networks: u32,
    runs: u32,
    accepted: u32,
    refused: u32,
    decisions: u32,
    faults: u32,
}

impl Totals {
    // How many runs there were so far.
    pub(crate) fn runs(&self) -> u32 {
        self.runs
    }

    pub(crate) fn add_network(&mut self) {
        self.networks = self.networks.saturating_add(1);
    }

    // What should have been made was refused.
    pub(crate) fn add_fault(&mut self) {
        self.faults = self.faults.saturating_add(1);
    }

    pub(crate) fn add_run(&mut self, seen: &Seen) {
        self.runs = self.runs.saturating_add(1);
        self.accepted = self.accepted.saturating_add(seen.accepted_calls);
        self.refused = self.refused.saturating_add(seen.refused_calls);
        self.decisions = self.decisions.saturating_add(seen.decisions);
        if seen.at_fault {
            self.add_fault();
        }
    }
}

impl fmt::Display for Totals {
    fn fmt<W: fmt::Write>(&self, f: &mut fmt::Formatter<W>) -> fmt::Result {
        let Totals {
            networks,
            runs,
            accepted,
            refused,
            decisions,
            faults,
        } = self;
        write!(
            f,
            "{networks} networks, {runs} runs, {accepted} calls accepted and {refused} refused, {decisions} decisions, {faults} faults"
        )
    }
}

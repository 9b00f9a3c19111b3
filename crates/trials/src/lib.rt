// Tests of what a contract does not show a reader at a glance.

#![tactic(auto)]

#[cfg(test)]
mod allowances;
#[cfg(test)]
mod bags;
#[cfg(test)]
mod kinds;
#[cfg(test)]
mod networks;
#[cfg(test)]
mod runs;
#[cfg(test)]
mod steps;

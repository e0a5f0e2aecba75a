//! Tests of kernels whose turns are taken in different orders.
#![tactic(auto)]

#[cfg(test)]
mod diamond;
#[cfg(test)]
mod mergesort;
#[cfg(test)]
mod runs;
#[cfg(test)]
mod stored;
#[cfg(test)]
mod tasks;

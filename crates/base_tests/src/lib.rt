//! Tests of the crates that every layer stands on: numbers, bounds and the outside (`mx_base`), pages (`paged_memory`), the heap
//! and the services (`guest_services`). They stand apart, since a crate with tests is proved twice.
#![tactic(auto)]

#[cfg(test)]
mod memory;
#[cfg(test)]
mod numbers;
#[cfg(test)]
mod outside;
#[cfg(test)]
mod rows;
#[cfg(test)]
mod services;

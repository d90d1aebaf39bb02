//! Tests of the parts of the machine: arithmetic (`x86_alu`), single MPX instructions (`mpx_core`), code of the first path (`x86_core`),
//! tables and their entries (`bound_tables`, `br_runtime`) and the watch (`seal_watch`). They stand apart, since a crate with tests is
//! proved twice. Instructions and their bytes, objects, images and runs are rows of `machine_rows`.
#![tactic(auto)]

#[cfg(test)]
mod arithmetic;
#[cfg(test)]
mod bounds;
#[cfg(test)]
mod early_code;
#[cfg(test)]
mod entries;
#[cfg(test)]
mod serving;
#[cfg(test)]
mod watch;

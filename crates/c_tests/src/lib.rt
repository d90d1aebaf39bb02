//! Tests of trees (`c_tree`), types (`c_types`), members and elements (`narrowing`) and fat steps (`fat_ir`) that are built call by call. They stand
//! apart, since a crate with tests is proved twice. Tokens, trees and checks of sources are rows of `source_rows`.
#![tactic(auto)]

#[cfg(test)]
mod fat_programs;
#[cfg(test)]
mod members;
#[cfg(test)]
mod trees;
#[cfg(test)]
mod types;

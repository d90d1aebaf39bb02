//! Images and their parts.

ghost use Rattle.std.specs.Prelude.{◌≡◌};

use crate::lists::{Bytes, Text};
use std::marker::Model;

/// A program as the machine loads it.
#[derive(Drop)]
pub struct Image {
    /// How many outer entries stand from the start of instrumented code on.
    pub outers: u32,
    pub segments: Segments,
    /// The names of the sources.
    pub files: Files,
    pub places: Spots4,
}

/// Bytes that are loaded at an address.
#[derive(Drop)]
pub struct Segment {
    pub at: u64,
    pub bytes: Bytes,
}

/// The place in the sources of the instruction at an address: a file by its number, line and column from 1, and the access that it
/// checks.
#[derive(Clone, Copy, Debug, PartialEq, Eq, Drop)]
pub struct Spot4 {
    pub at: u64,
    pub file: u32,
    pub line: u32,
    pub col: u32,
    /// 0 unknown, 1 read, 2 write.
    pub kind: u8,
    /// How many bytes are accessed, 1 to 16,777,216; 0 where the kind is unknown.
    pub size: u32,
}

/// Segments in order.
#[derive(Drop)]
pub struct Segments {
    items: Vec<Segment>,
}

impl Model for Segments {
    ghost use Rattle.std.specs.Prelude.{List};
    ghost use Rattle.obj_file.specs.declared.image.Segment.{Segment};

    ghost Value = { List Segment };

    ghost view = { λ held. held.items.items };
}

impl Segments {
    pub fn from_vec(items: Vec<Segment>) -> Segments
        ensures { result ≡ items.items }
    {
        Segments { items }
    }

    pub fn as_slice(&self) -> &[Segment]
        ensures { result.now ≡ self.now }
    {
        self.items.as_slice()
    }

    pub fn into_vec(self) -> Vec<Segment>
        ensures { result.items ≡ self }
    {
        self.items
    }
}

/// Names of files in order.
#[derive(Drop)]
pub struct Files {
    items: Vec<Text>,
}

impl Model for Files {
    ghost use Rattle.std.specs.Prelude.{ℕ, List};

    ghost Value = { List (List ℕ) };

    ghost view = { λ held. held.items.items };
}

impl Files {
    pub fn from_vec(items: Vec<Text>) -> Files
        ensures { result ≡ items.items }
    {
        Files { items }
    }

    pub fn as_slice(&self) -> &[Text]
        ensures { result.now ≡ self.now }
    {
        self.items.as_slice()
    }

    pub fn into_vec(self) -> Vec<Text>
        ensures { result.items ≡ self }
    {
        self.items
    }
}

/// Spots4 in order of their addresses.
#[derive(Drop)]
pub struct Spots4 {
    items: Vec<Spot4>,
}

impl Model for Spots4 {
    ghost use Rattle.std.specs.Prelude.{List};
    ghost use Rattle.obj_file.specs.declared.image.Spot4.{Spot4};

    ghost Value = { List Spot4 };

    ghost view = { λ held. held.items.items };
}

impl Spots4 {
    pub fn from_vec(items: Vec<Spot4>) -> Spots4
        ensures { result ≡ items.items }
    {
        Spots4 { items }
    }

    pub fn as_slice(&self) -> &[Spot4]
        ensures { result.now ≡ self.now }
    {
        self.items.as_slice()
    }

    pub fn into_vec(self) -> Vec<Spot4>
        ensures { result.items ≡ self }
    {
        self.items
    }
}

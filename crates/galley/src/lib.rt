// A galley's bytes: its words and marks, the ranges of its fields, which mark fits where, and what reading gives. Document 01, "The galley
// file".
#![tactic(auto)]

use model::answer::Refusal;
use std::ops::ControlFlow;

pub mod place; // place.rt: which mark fits where
pub mod range; // range.rt: the ranges of the fields
pub mod word; // word.rt: bytes, fields and marks

// The page specification that `GS` holds, or `G2` in its second edition; the least height of the last page is 0 in the first.
#[derive(Clone, Copy, PartialEq, Eq, Debug)]
pub struct Spec {
    pub htmin: u32,
    pub htmax: u32,
    pub smin: u32,
    pub smax: u32,
    pub sides: u32,
    pub alpha: u32,
    pub beta: u32,
    pub edition: u32, // 1 or 2: a number, since a theorem of promises.Editions states it
    pub lastmin: u32,
}

// The height of a block, a line, a figure or a table, and the least and the greatest height of the space after it.
#[derive(Clone, Copy, PartialEq, Eq, Debug)]
pub struct Block {
    pub height: u32,
    pub least: u32,
    pub most: u32,
}

// A text line; `legal` is 1 where a page may end in the space after it. It is the field as read, which `LineRanged` holds to 0 and 1.
#[derive(Clone, Copy, PartialEq, Eq, Debug)]
pub struct Line {
    pub block: Block,
    pub legal: u32,
}

// A figure or a table, the number of the line that cites it, and whether it is kept with the next one, as only a figure can be.
#[derive(Clone, Copy, PartialEq, Eq, Debug)]
pub struct Float {
    pub block: Block,
    pub cite: u32,
    pub kept: bool,
}

// Where the fields of a block stand, counted from its mark.
pub const HEIGHT: usize = 2;

pub const LEAST: usize = 6;

pub const MOST: usize = 10;
// The last field: of a line whether a page may end after it, of a float its citation.
pub const LEGAL: usize = 14;

pub const CITE: usize = 14;

// What stands at an offset.
#[derive(Clone, Copy, PartialEq, Eq, Debug)]
pub enum Record {
    Spec(Spec),
    Folio(u32),
    Line(Line),
    Figure(Float),
    Table(Float),
    End,
}

// The number that turns a record away, and the offset where it starts.
#[derive(Clone, Copy, PartialEq, Eq, Debug)]
pub struct Unread {
    pub number: u32,
    pub place: usize,
}

// One stream of blocks, the lines, the figures or the tables: how many there are, and the offset of the first, from which every other is
// found.
#[derive(Clone, Copy, PartialEq, Eq, Debug)]
pub struct Stream {
    pub first: usize,
    pub count: usize,
}

// A galley that was read: its specification, the folio of its first page, and its streams.
#[derive(Clone, Copy, PartialEq, Eq, Debug)]
pub struct Galley {
    pub spec: Spec,
    pub folio: u32,
    pub text: Stream,
    pub figures: Stream,
    pub tables: Stream,
}

// What reading a whole galley gives.
pub type Reading = Result<Galley, Refusal>;

// A kind of record: the stage that it reaches, the first and the last stage after which it may come, how many there may be of
// its stage, and its bytes.
#[derive(Clone, Copy, PartialEq, Eq, Debug)]
pub struct Kind {
    pub stage: u32,
    pub earliest: u32,
    pub latest: u32,
    pub most: usize,
    pub size: usize,
}

// How far reading has come: the stage reached, how many records of that stage there were, the line cited last in it, where the
// next record is due, the folio of the first page, where the text begins, and how many blocks of each stream there were. The
// specification is not carried along: it stands at the start of the bytes, and is read once, at the end.
#[derive(Clone, Copy, PartialEq, Eq, Debug)]
pub struct Sofar {
    pub stage: u32,
    pub count: usize,
    pub last: usize,
    pub at: usize,
    pub folio: u32,
    pub first: usize,
    pub lines: usize,
    pub figures: usize,
    pub tables: usize,
}

// What one record more gives: reading goes on, or it is done.
pub type Step = ControlFlow<Reading, Sofar>;

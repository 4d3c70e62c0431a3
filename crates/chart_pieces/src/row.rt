//! What is drawn of a task.

use std::marker::Model;

/// A stay of a task on a CPU, from one time to another, in microseconds.
#[derive(Clone, Copy)]
pub struct Bar {
    /// The CPU of the domain, from 0.
    pub cpu: u16,
    pub start: u64,
    pub stop: u64,
}

/// A time between its bars, from one time to another, in microseconds.
#[derive(Clone, Copy)]
pub struct Gap {
    /// Whether the task is throttled then; else it wants a CPU.
    pub throttled: bool,
    pub start: u64,
    pub stop: u64,
}

/// What is marked at a time.
#[derive(Clone, Copy)]
pub enum Sign {
    /// A job is released.
    Released,
    /// A job is due.
    Due,
    /// The task ended, left, or went to another domain.
    Ended,
}

/// A mark at a time, in microseconds.
#[derive(Clone, Copy)]
pub struct Mark {
    pub sign: Sign,
    pub time: u64,
}

/// What is drawn of a task.
#[derive(Drop)]
pub struct Row {
    /// The task's number.
    pub number: u32,
    /// Where it ran, in the order of the switches by which it came.
    pub bars: Vec<Bar>,
    /// Where it wanted a CPU, or was throttled, in order.
    pub gaps: Vec<Gap>,
    /// Its releases, deadlines and its end, in the order in which they became known.
    pub marks: Vec<Mark>,
}

impl Model for Row {
    ghost use Rattle.chart_pieces.specs.RowView.{RowView};

    ghost Value = { RowView };

    ghost view = { λ r. record {
      number = r.number;
      bars = r.bars.items;
      gaps = r.gaps.items;
      marks = r.marks.items;
    } };
}

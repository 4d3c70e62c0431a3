//! A row of the chart.

use chart_pieces::Row;

/// A row of the chart.
#[derive(Clone, Copy)]
pub struct ChartRow<'a> {
    /// The task's name.
    pub name: &'a [u8],
    /// The CPU of the machine that is CPU 0 of the task's domain.
    pub base: u32,
    /// What is drawn of the task.
    pub row: &'a Row,
}

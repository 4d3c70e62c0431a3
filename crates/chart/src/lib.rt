//! The chart of a run: one SVG file without script, of which task ran where.
//!
//! Meets the definition of the chart's text (`specs/Chart.antt`) over its elements
//! (`specs/Pieces.antt`), its axis (`specs/Axis.antt`) and its legend (`specs/Legend.antt`). To the
//! crate above it promises that [`put_chart`] puts exactly that text behind what stands before, or
//! tells that memory was refused, and that each name in it is escaped.
#![tactic(auto)]

mod axis;
mod chart;
mod colours;
mod legend;
mod over;
mod pieces;
mod row;
mod sheet;
mod texts;

pub use chart::put_chart;
pub use row::ChartRow;

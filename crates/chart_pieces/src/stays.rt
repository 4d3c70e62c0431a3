//! The bars of a run, logged from its first switch to the last. A bar of a task that has a CPU
//! lasts to the end of the run, until the CPU switches again.

ghost use Rattle.std.specs.Prelude.{◌≡◌, ◌<◌, IfOk, OnOk, All, None, length, map, replicate, slice_index_or, slice_set};
ghost use Rattle.chart_pieces.specs.private.Lines as lines;

use crate::lines::{Line, no_lines, put_bar, put_stop};
use crate::window::Window;
use domain_run::{NoMemory, Switch};
use run_figures::{Admitted, Places};
use std::alloc::Global;

/// The lines of all tasks, and which task has each CPU while its bar may have to be stopped.
#[derive(Drop)]
pub(crate) struct Table {
    pub(crate) lines: Vec<Line>,
    /// Of each CPU, from 0: the number of the task that has it, if its bar has a part in the
    /// window.
    pub(crate) holders: Vec<Option<u32>>,
}

/// No task has a CPU.
fn no_holders(alloc: Global, cpus: u32) -> Result<Vec<Option<u32>>, NoMemory>
    ensures { IfOk result (λ v. v.items ≡ replicate cpus None) }
{
    let mut holders = Vec::new(alloc);
    holders.resize(cpus as usize, None)?;
    Ok(holders)
}

impl Table {
    /// Before the first switch.
    pub(crate) fn open(alloc: Global, cpus: u32, tasks: &[Admitted]) -> Result<Table, NoMemory>
        ensures lines { IfOk result (λ t. t.lines.items
            ≡ map (λ a. lines.line_without_bars a.number) tasks.now) }
        ensures holders { IfOk result (λ t. t.holders.items ≡ replicate cpus None) }
    {
        Ok(Table {
            lines: no_lines(alloc, tasks)?,
            holders: no_holders(alloc, cpus)?,
        })
    }
}

/// The task that comes by a switch, if its bar to the end of the run has a part in the window.
fn drawn_next(window: &Window, switch: &Switch, end: u64) -> Option<u32>
    ensures { result ≡ lines.drawn_next window.now end switch.now }
{
    if window.touches(switch.time(), end) {
        switch.next()
    } else {
        None
    }
}

/// Puts a switch after those before it, where the run ends at this time. Looks at the lines of the
/// two tasks of the switch alone.
pub(crate) fn put_switch(
    table: &mut Table,
    places: &Places,
    window: &Window,
    end: u64,
    switch: &Switch,
) -> Result<(), NoMemory>
    requires keyed { map (λ l. l.number) table.old.lines.items ≡ places.now }
    requires drawn { All (λ l. lines.AreDrawn window.now switch.now.time l.bars)
        table.old.lines.items }
    requires inside { switch.now.cpu < length table.old.holders.items }
    ensures lines { OnOk result (table.new.lines.items ≡ map
        (lines.with_bar_of switch.now.next window.now switch.now end)
        (map (lines.with_stop_of (slice_index_or table.old.holders.items switch.now.cpu None)
        window.now switch.now) table.old.lines.items)) }
    ensures holders { OnOk result (table.new.holders.items
        ≡ slice_set table.old.holders.items switch.now.cpu
        (lines.drawn_next window.now end switch.now)) }
{
    let cpu = switch.cpu() as usize;
    let holder = table.holders[cpu];
    put_stop(&mut table.lines, places, window, switch, holder);
    put_bar(&mut table.lines, places, window, switch, end)?;
    table.holders[cpu] = drawn_next(window, switch, end);
    Ok(())
}

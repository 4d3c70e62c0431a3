//! All moments of a run, logged of its tasks.

ghost use Rattle.std.specs.Prelude.{◌≡◌, nat_le, IfOk, OnOk, map, take};
ghost use Rattle.std.specs.List.{prefix_len};
ghost use Rattle.chart_pieces.specs.Moments as moments;
ghost use Rattle.chart_pieces.specs.private.Lines as lines;

use crate::lines::{Line, say};
use crate::status::{Moment, Turn};
use crate::window::Window;
use domain_run::{Happened, NoMemory, Switch};
use run_figures::Places;

fn moment_of(happened: &Happened) -> Moment
    ensures { result ≡ moments.moment_of happened.now }
{
    Moment {
        time: happened.time,
        number: happened.number,
        turn: Turn::Happens(happened.what),
    }
}

/// Tells what happened up to a time, and answers how much that is.
fn log_until(
    table: &mut Vec<Line>,
    places: &Places,
    window: &Window,
    happened: &[Happened],
    time: u64,
) -> Result<usize, NoMemory>
    requires keyed { map (λ l. l.number) table.old.items ≡ places.now }
    ensures logged { IfOk result (λ n. table.new.items ≡ map
        (lines.bars_all window.now (map moments.moment_of (take n happened.now))) table.old.items) }
    ensures count { IfOk result (λ n. n ≡ prefix_len (λ h. nat_le h.time time) happened.now) }
{
    let mut count = 0;
    for entry in happened {
        if entry.time > time {
            return Ok(count);
        }
        say(table, places, window, &moment_of(entry))?;
        count += 1;
    }
    Ok(count)
}

/// Tells all of this.
fn log_all(
    table: &mut Vec<Line>,
    places: &Places,
    window: &Window,
    happened: &[Happened],
) -> Result<(), NoMemory>
    requires keyed { map (λ l. l.number) table.old.items ≡ places.now }
    ensures { OnOk result (table.new.items ≡ map
        (lines.bars_all window.now (map moments.moment_of happened.now)) table.old.items) }
{
    for entry in happened {
        say(table, places, window, &moment_of(entry))?;
    }
    Ok(())
}

/// Applies a turn of a task, if there is a task.
fn log_turn(
    table: &mut Vec<Line>,
    places: &Places,
    window: &Window,
    time: u64,
    number: Option<u32>,
    turn: Turn,
) -> Result<(), NoMemory>
    requires keyed { map (λ l. l.number) table.old.items ≡ places.now }
    ensures { OnOk result (table.new.items ≡ map
        (lines.bars_all window.now (moments.moment_if time turn number)) table.old.items) }
{
    match number {
        None => Ok(()),
        Some(number) => say(table, places, window, &Moment { time, number, turn }),
    }
}

/// Tells a switch.
fn log_switch(
    table: &mut Vec<Line>,
    places: &Places,
    window: &Window,
    switch: &Switch,
) -> Result<(), NoMemory>
    requires keyed { map (λ l. l.number) table.old.items ≡ places.now }
    ensures { OnOk result (table.new.items ≡ map
        (lines.bars_all window.now (moments.moments_by switch.now)) table.old.items) }
{
    let time = switch.time();
    let cpu = switch.cpu();
    let state = switch.state();
    let leaves = Turn::Leaves { cpu, state };
    log_turn(table, places, window, time, switch.prev(), leaves)?;
    log_turn(
        table,
        places,
        window,
        time,
        switch.next(),
        Turn::Comes { cpu },
    )
}

/// Tells all that happened, and each switch after what happened up to its time.
pub(crate) fn log_moments(
    table: &mut Vec<Line>,
    places: &Places,
    window: &Window,
    happened: &[Happened],
    switches: &[Switch],
) -> Result<(), NoMemory>
    requires keyed { map (λ l. l.number) table.old.items ≡ places.now }
    ensures { OnOk result (table.new.items ≡ map
        (lines.bars_all window.now (moments.moments happened.now switches.now)) table.old.items) }
{
    let mut from = 0;
    for switch in switches {
        from += log_until(table, places, window, &happened[from..], switch.time())?;
        log_switch(table, places, window, switch)?;
    }
    log_all(table, places, window, &happened[from..])
}

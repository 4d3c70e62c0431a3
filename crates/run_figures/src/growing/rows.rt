//! The rows of a table, each beside its row at the beginning of a period.

ghost use Rattle.std.specs.Prelude.{◌≡◌, IsTrue, All, length, vec_capacity};
ghost use Rattle.run_figures.specs.private.Growing as growing;

use super::{grow_cpu, grow_logged, grow_ran, is_logged_back, is_logged_soon};
use crate::logged::TaskTally;
use crate::ran::{Cpu, Ran};

pub(crate) fn all_logged_back(
    before: &[TaskTally],
    now: &[TaskTally],
    micros: u64,
    shift: u64,
) -> bool
    requires same { length before.now ≡ length now.now }
    ensures back { IsTrue result
        → growing.AreBoth (growing.IsLoggedBack micros) before.now now.now }
    ensures soon { IsTrue result → All (growing.IsLoggedSoon shift) now.now }
{
    for (place, row) in now.iter().enumerate() {
        if !is_logged_back(micros, &before[place], row) || !is_logged_soon(shift, row) {
            return false;
        }
    }
    true
}

pub(crate) fn all_ran_back(before: &[Ran], now: &[Ran]) -> bool
    requires same { length before.now ≡ length now.now }
    ensures { IsTrue result → growing.AreBoth growing.IsRanBack before.now now.now }
{
    for (place, row) in now.iter().enumerate() {
        if before[place].last != row.last {
            return false;
        }
    }
    true
}

pub(crate) fn all_cpus_back(before: &[Cpu], now: &[Cpu]) -> bool
    requires same { length before.now ≡ length now.now }
    ensures { IsTrue result → growing.AreBoth growing.IsCpuBack before.now now.now }
{
    for (place, row) in now.iter().enumerate() {
        if before[place].task != row.task {
            return false;
        }
    }
    true
}

pub(crate) fn grow_all_logged(
    table: &mut Vec<TaskTally>,
    before: &[TaskTally],
    periods: u64,
    shift: u64,
)
    requires same { length before.now ≡ length table.old.items }
    requires soon { All (growing.IsLoggedSoon shift) table.old.items }
    requires counted { All growing.IsLoggedCounted
        (growing.rows_grown (growing.grown_logged shift periods) before.now table.old.items) }
    ensures grown { table.new.items
        ≡ growing.rows_grown (growing.grown_logged shift periods) before.now table.old.items }
    ensures same_room { vec_capacity table.new ≡ vec_capacity table.old }
{
    for (place, row) in before.iter().enumerate() {
        grow_logged(&mut table[place], row, periods, shift);
    }
}

pub(crate) fn grow_all_ran(table: &mut Vec<Ran>, before: &[Ran], periods: u64)
    requires same { length before.now ≡ length table.old.items }
    requires counted { All growing.IsRanCounted
        (growing.rows_grown (growing.grown_ran periods) before.now table.old.items) }
    ensures grown { table.new.items
        ≡ growing.rows_grown (growing.grown_ran periods) before.now table.old.items }
    ensures same_room { vec_capacity table.new ≡ vec_capacity table.old }
{
    for (place, row) in before.iter().enumerate() {
        grow_ran(&mut table[place], row, periods);
    }
}

pub(crate) fn grow_all_cpus(table: &mut Vec<Cpu>, before: &[Cpu], periods: u64)
    requires same { length before.now ≡ length table.old.items }
    requires counted { All growing.IsCpuCounted
        (growing.rows_grown (growing.grown_cpu periods) before.now table.old.items) }
    ensures grown { table.new.items
        ≡ growing.rows_grown (growing.grown_cpu periods) before.now table.old.items }
    ensures same_room { vec_capacity table.new ≡ vec_capacity table.old }
{
    for (place, row) in before.iter().enumerate() {
        grow_cpu(&mut table[place], row, periods);
    }
}

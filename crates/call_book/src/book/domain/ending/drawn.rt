//! A book at its end whose run is drawn.

ghost use Rattle.std.specs.Prelude.{◌≡◌, ◌≤◌, ◌+◌, [], true, false, IfOk, IfErr, OnErr};
ghost use Rattle.domain_run.specs.declared.call.Call.TheVariants as Call;
ghost use Rattle.domain_run.specs.declared.call.Reply.TheVariants as Reply;
ghost use Rattle.domain_run.specs.Keys.{AreKept};
ghost use Rattle.domain_run.specs.Passing.{without_switches};
ghost use Rattle.domain_run.specs.Tick.{ticks as ticks_of};
ghost use Rattle.streamed_run.specs.Streamed.{streamed_of, streamed_after, nothing_streamed};
ghost use Rattle.limits.specs.Limits.{clock_end};

use super::EndingBook;
use crate::book::Pass;
use crate::book::domain::AdvanceError;
use bw_gate::Gate;
use chart_pieces::{Drawing, Window};
use domain_run::{Call, NoMemory, Reply, State};
use std::alloc::Global;
use streamed_run::{advance_from_start, tasks_of};

/// What an advance returns that was drawn.
#[derive(Drop)]
pub struct DrawnAdvance {
    /// How many ticks were made, and entered.
    pub ticks: u64,
    /// The drawing of all switches of the run, and of what happened in this advance.
    pub drawing: Drawing,
}

/// A drawing of the run of a domain that is to end `n` ticks from now.
fn open_drawing(alloc: Global, state: &State, n: u64, window: Window) -> Result<Drawing, NoMemory>
    requires { state.now.time + n ≤ clock_end }
    ensures window { IfOk result (λ d. d.window ≡ window) }
    ensures drawn { IfOk result (λ d. d.streamed ≡ nothing_streamed n state.now) }
{
    let tasks = tasks_of(alloc, state)?;
    Drawing::open(alloc, window, state.cpus(), state.now() + n, &tasks)
}

/// Makes `n` ticks and draws them, after all switches so far. Answers how many were made: fewer
/// only if a growth was refused. The state forgets its switches.
fn draw_on(alloc: Global, state: &mut State, n: u64, drawing: &mut Drawing) -> u64
    requires early { state.old.time + n ≤ clock_end }
    requires new { drawing.old.streamed ≡ nothing_streamed n state.old }
    ensures state { state.new ≡ without_switches (ticks_of result state.old) }
    ensures most { result ≤ n }
    ensures keys { AreKept state.old.tasks state.new.tasks }
    ensures window { drawing.new.window ≡ drawing.old.window }
    ensures drawn { drawing.new.streamed ≡ streamed_after n result state.old }
{
    advance_from_start(alloc, state, n, drawing).ticks
}

impl EndingBook {
    ghost use Rattle.calls_text.specs.Limits.{IsCall};
    ghost use Rattle.call_book.specs.Book.{state_of, IsPassOf};
    ghost use Rattle.call_book.specs.BookAnswers.{IsAdvanced, IsNotAdvanced};

    /// Draws the switches of the run in this window, and forgets them. Nothing is entered.
    ///
    /// # Errors
    /// 12 [`NoMemory`]: a growth was refused; nothing has changed.
    pub fn draw(&mut self, window: Window) -> Result<Drawing, NoMemory>
        requires { self.old.streamed ≡ false }
        ensures ok { IfOk result (λ _. self.new ≡ record self.old { streamed = true }) }
        ensures window { IfOk result (λ d. d.window ≡ window) }
        ensures drawn { IfOk result (λ d. d.streamed ≡ streamed_of (state_of self.old.book) []) }
        ensures err { OnErr result (self.new ≡ self.old) }
    {
        // For the prover alone: a look at the state brings what every domain keeps.
        let _ = self.state.now();
        let mut drawing = open_drawing(self.alloc, &self.state, 0, window)?;
        draw_on(self.alloc, &mut self.state, 0, &mut drawing);
        self.streamed = true;
        Ok(drawing)
    }

    /// As [`EndingBook::advance_streamed`], but draws the run in this window: all its switches, and
    /// what happens in these ticks. The drawing keeps only what is in the window.
    ///
    /// # Errors
    /// [`AdvanceError::Full`] and [`AdvanceError::Memory`]: no tick was made, and nothing is
    /// entered. If memory was refused, the switches may be forgotten.
    pub fn advance_drawn(
        &mut self,
        pass: &mut Pass,
        gate: &Gate,
        n: u64,
        window: Window,
    ) -> Result<DrawnAdvance, AdvanceError>
        requires unstreamed { self.old.streamed ≡ false }
        requires pass { IsPassOf self.old.book pass.old }
        requires gate { gate.now ≡ self.old.book.gate }
        requires call { IsCall (Call.Advance n) }
        ensures done { IfOk result (λ r. IsAdvanced self.old.book self.new.book pass.old pass.new n
            (Reply.Done r.ticks)) }
        ensures window { IfOk result (λ r. r.drawing.window ≡ window) }
        ensures drawn { IfOk result (λ r. r.drawing.streamed
            ≡ streamed_after n r.ticks (state_of self.old.book)) }
        ensures forgotten { IfOk result (λ _. self.new.streamed ≡ true) }
        ensures stopped { IfErr result
            (IsNotAdvanced self.old.book self.new.book pass.old pass.new) }
    {
        if self.ledger.is_full() {
            return Err(AdvanceError::Full);
        }
        let Ok(mut drawing) = open_drawing(self.alloc, &self.state, n, window) else {
            return Err(AdvanceError::Memory);
        };
        let ticks = draw_on(self.alloc, &mut self.state, n, &mut drawing);
        self.streamed = true;
        if ticks == 0 {
            // By one call, not written out with all that is inside.
            drop(drawing);
            return Err(AdvanceError::Memory);
        }
        self.stock.sweep(gate, &self.state);
        self.ledger
            .enter(pass, Call::Advance { ticks }, Reply::Done { ticks });
        Ok(DrawnAdvance { ticks, drawing })
    }
}

//! What scripts keep: phases with the events of all once more, for one script alone or shared.

ghost use Rattle.std.specs.Prelude.{◌≡◌, [], IfOk, All};
ghost use Rattle.task_script.specs.script.ScriptView.{IsPhase};
ghost use Rattle.task_script.specs.private.Steps.{AreSteps, LaidView};
ghost use Rattle.task_script.specs.private.Bodies.{laid_of};

use crate::phase::Phase;
use crate::steps;
use crate::steps::Step;
use no_memory::NoMemory;
use std::alloc::Global;
use std::marker::Model;
use std::ops::Deref;
use std::sync::Arc;

/// The phases of a script, and the events of all phases once more, or none.
#[derive(Drop)]
pub(crate) struct Laid {
    phases: Vec<Phase>,
    steps: Vec<Step>,
}

impl Model for Laid {
    ghost use Rattle.task_script.specs.private.Steps.{LaidView};

    ghost Value = { LaidView };

    ghost view = { λ l. record { phases = l.phases.items; steps = l.steps.items } };
}

/// Where a script has its phases.
#[derive(Drop)]
pub(crate) enum Body {
    /// In itself.
    Own(Laid),
    /// In a block that copies of the script share.
    Shared(Arc<Laid, Global>),
}

fn copies_of(alloc: Global, phases: &[Phase]) -> Result<Vec<Phase>, NoMemory>
    ensures { IfOk result (λ v. v.items ≡ phases.now) }
{
    let mut copies = Vec::with_capacity(alloc, phases.len())?;
    for phase in phases {
        copies.push_reserved(Phase {
            count: phase.count,
            events: Vec::from_slice(alloc, &phase.events)?,
        });
    }
    Ok(copies)
}

impl Laid {
    /// Phases without steps. Takes no memory.
    pub(crate) fn bare(phases: Vec<Phase>) -> Laid
        ensures { result ≡ record { phases = phases.items; steps = [] } }
    {
        let steps = Vec::new(*phases.allocator());
        Laid { phases, steps }
    }

    /// The phases.
    #[inline(always)]
    pub(crate) fn phases(&self) -> &[Phase]
        ensures { result.now ≡ self.now.phases }
    {
        &self.phases
    }

    /// The steps, or none.
    #[inline(always)]
    pub(crate) fn steps(&self) -> &[Step]
        ensures { result.now ≡ self.now.steps }
    {
        &self.steps
    }

    /// Makes the steps, where there is more than one phase and memory allows.
    pub(crate) fn lay_out(&mut self)
        requires { All IsPhase self.old.phases }
        ensures phases { self.new.phases ≡ self.old.phases }
        ensures steps { AreSteps self.new.phases self.new.steps }
    {
        self.steps = steps::of(*self.phases.allocator(), &self.phases);
    }

    /// Copies of the phases, without steps.
    fn copy(&self, alloc: Global) -> Result<Laid, NoMemory>
        ensures { IfOk result (λ l. l ≡ record { phases = self.now.phases; steps = [] }) }
    {
        Ok(Laid::bare(copies_of(alloc, &self.phases)?))
    }
}

// Lays phases out, and puts them into a block.
fn block_of(alloc: Global, mut laid: Laid) -> Body
    requires { All IsPhase laid.phases }
    ensures phases { (laid_of result).phases ≡ laid.phases }
    ensures steps { AreSteps (laid_of result).phases (laid_of result).steps }
{
    laid.lay_out();
    match Arc::new(alloc, laid) {
        Ok(block) => Body::Shared(block),
        Err(refused) => Body::Own(refused.value),
    }
}

impl Body {
    /// What it keeps.
    #[inline(always)]
    pub(crate) fn laid(&self) -> &Laid
        ensures { result.now ≡ laid_of self.now }
    {
        match self {
            Body::Own(laid) => laid,
            Body::Shared(laid) => laid.deref(),
        }
    }

    /// The same in a block to share, with steps, where memory allows.
    pub(crate) fn shared(self, alloc: Global) -> Body
        requires phases { All IsPhase (laid_of self).phases }
        requires steps { AreSteps (laid_of self).phases (laid_of self).steps }
        ensures phases { (laid_of result).phases ≡ (laid_of self).phases }
        ensures steps { AreSteps (laid_of result).phases (laid_of result).steps }
    {
        match self {
            Body::Own(laid) => block_of(alloc, laid),
            Body::Shared(laid) => Body::Shared(laid),
        }
    }

    /// The same phases again: those of a shared block without memory.
    pub(crate) fn copy(&self, alloc: Global) -> Result<Body, NoMemory>
        requires steps { AreSteps (laid_of self.now).phases (laid_of self.now).steps }
        ensures phases { IfOk result (λ b. (laid_of b).phases ≡ (laid_of self.now).phases) }
        ensures steps { IfOk result (λ b. AreSteps (laid_of b).phases (laid_of b).steps) }
    {
        match self {
            Body::Own(laid) => Ok(Body::Own(laid.copy(alloc)?)),
            Body::Shared(laid) => Ok(Body::Shared(Arc::try_clone(laid)?)),
        }
    }
}

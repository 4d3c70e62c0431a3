//! The sections of a calls text, all read before the calls of the first are made.

ghost use Rattle.std.specs.Prelude.{◌≡◌, IfErr, IfOk, fold, max};
ghost use Rattle.calls_text.specs.BadLine.{IsReadFault};
ghost use Rattle.calls_trace.specs.private.Sketched.{AreForeseen};

use crate::foreseen::{Foreseen, foreseen_read};
use calls_text::{CallsFault, CallsReader};
use domain_run::NoMemory;
use std::alloc::Global;

/// The most sections of a text.
const MOST_SECTIONS: usize = 8;

/// The CPUs and the limit of a section, and its calls.
#[derive(Drop)]
pub(crate) struct ForeseenSection {
    pub(crate) cpus: u32,
    pub(crate) limit: u64,
    pub(crate) foreseen: Foreseen,
}

/// The sections of a text, with their calls.
pub(crate) fn foreseen_of_text(
    alloc: Global,
    text: &[u8],
) -> Result<Vec<ForeseenSection>, CallsFault>
    ensures sections { IfOk result (λ v. AreForeseen text.now v.items) }
    ensures fault { IfErr result (IsReadFault text.now) }
{
    let mut reader = CallsReader::open(text)?;
    let Ok(mut all) = Vec::with_capacity(alloc, MOST_SECTIONS) else {
        return Err(CallsFault::Memory);
    };
    'sections: while let Some((cpus, limit)) = reader.next_domain()? {
        match foreseen_read(alloc, cpus, limit, &mut reader) {
            Ok(foreseen) => all.push_reserved(ForeseenSection {
                cpus,
                limit,
                foreseen,
            }),
            Err(NoMemory) => return Err(CallsFault::Memory),
        }
    }
    Ok(all)
}

/// The time at which the run of the last of these sections ends.
pub(crate) fn end_of(sections: &[ForeseenSection]) -> u64
    ensures { result ≡ fold (λ end f. max end f.foreseen.ticks) 0 sections.now }
{
    let mut end = 0;
    for section in sections {
        end = section.foreseen.ticks.max(end);
    }
    end
}

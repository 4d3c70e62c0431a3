//! The runs of the sections of a calls text, which are made while they are written.

ghost use Rattle.std.specs.Prelude.{◌≤◌, vec_capacity};

use crate::kept_section::{KeptSection, section_read};
use crate::playing::Playing;
use calls_text::{CallsFault, CallsReader};
use domain_run::NoMemory;
use std::alloc::Global;

/// The most sections of a text.
const MOST_SECTIONS: usize = 8;

/// The runs under way of the sections of a text so far, each on a domain of its own: the first has
/// the first CPUs of the machine, the second the next ones, and so on.
#[derive(Drop)]
pub(crate) struct PlayingSoFar {
    runs: Vec<Playing>,
    /// The first CPU of the machine that is no domain's.
    base: u32,
    ghost room: { 8 ≤ vec_capacity runs },
}

impl PlayingSoFar {
    ghost use Rattle.std.specs.Prelude.{◌<◌, ◌+◌, ℕ, [], ◌∷◌, ◌++◌, List, length, IfOk, IfErr, OnOk};
    ghost use Rattle.calls_text.specs.SectionView.{SectionView};
    ghost use Rattle.calls_text.specs.Limits.{IsSection};
    ghost use Rattle.calls_text.specs.BadLine.{IsReadFault};
    ghost use Rattle.calls_text.specs.Reader.{IsWithin, empty_section, bytes_left};
    ghost use Rattle.calls_trace.specs.private.Kept.{IsKeptSection, KeepsSection};
    ghost use Rattle.calls_trace.specs.private.ReadRuns.{IsBegun};
    ghost use Rattle.calls_trace.specs.private.ReadText.{ArePlayingFor, ArePlayingSoFar, IsPlayingUnderWay, ArePlaying};

    /// The runs of no section yet.
    pub(crate) fn open(alloc: Global) -> Result<PlayingSoFar, NoMemory>
        ensures { IfOk result (ArePlayingFor []) }
    {
        Ok(PlayingSoFar {
            runs: Vec::with_capacity(alloc, MOST_SECTIONS)?,
            base: 0,
        })
    }

    /// One run more, that of a section whose calls are kept.
    fn put(&mut self, alloc: Global, kept: KeptSection) -> Result<(), NoMemory>
        requires kept { KeepsSection kept }
        requires few { length self.old.runs.items < 8 }
        requires inside { self.old.base + kept.cpus ≤ 512 }
        ensures { (done : List SectionView) (section : SectionView) → ArePlayingFor done self.old
            → IsSection section → IsKeptSection section kept
            → OnOk result (ArePlayingFor (done ++ section ∷ []) self.new) }
    {
        let cpus = kept.cpus;
        let run = match Playing::open(alloc, self.base, kept) {
            Ok(run) => run,
            Err(error) => return Err(error),
        };
        self.runs.push_reserved(run);
        self.base += cpus;
        Ok(())
    }

    /// One run more, that of the section that a reader has begun, of which it has read no call yet.
    fn read(
        &mut self,
        alloc: Global,
        cpus: u32,
        limit: u64,
        reader: &mut CallsReader<'_>,
    ) -> Result<(), NoMemory>
        requires begun { IsBegun cpus limit reader.old }
        requires few { length self.old.runs.items < 8 }
        requires inside { self.old.base ≤ 448 }
        ensures read { (text : List ℕ) (done : List SectionView)
            → IsWithin text done (empty_section cpus limit) reader.old
            → ArePlayingFor done self.old
            → OnOk result (ArePlayingSoFar text reader.new self.new) }
        ensures never_more { bytes_left reader.new ≤ bytes_left reader.old }
    {
        let kept = section_read(alloc, cpus, limit, reader)?;
        match self.put(alloc, kept) {
            Ok(()) => Ok(()),
            Err(error) => Err(error),
        }
    }

    /// The runs of all sections of a text, after whose sections so far a reader stands.
    pub(crate) fn read_on(
        mut self,
        alloc: Global,
        reader: &mut CallsReader<'_>,
    ) -> Result<Vec<Playing>, CallsFault>
        requires under_way { IsPlayingUnderWay reader.old self }
        ensures runs { (text : List ℕ) → ArePlayingSoFar text reader.old self
            → IfOk result (λ v. ArePlaying text v.items) }
        ensures fault { (text : List ℕ) → ArePlayingSoFar text reader.old self
            → IfErr result (IsReadFault text) }
    {
        'sections: while let Some((cpus, limit)) = reader.next_domain()? {
            match self.read(alloc, cpus, limit, reader) {
                Ok(()) => {}
                Err(NoMemory) => return Err(CallsFault::Memory),
            }
        }
        Ok(self.runs)
    }
}

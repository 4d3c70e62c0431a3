//! The replies of calls that are made.

ghost use Rattle.std.specs.Prelude.{◌≡◌, ◌≤◌, ◌*◌, ◌+◌, ◌++◌, All, IfOk, OnOk, length, codes};
ghost use Rattle.draft.specs.Draft.{Adds};
ghost use Rattle.calls_text.specs.Limits.{IsEntry, IsSection};
ghost use Rattle.calls_text.specs.Spelling.{text_of};
ghost use Rattle.domain_run.specs.Calls.{reply_to, after_call};
ghost use Rattle.domain_run.specs.Passing.{without_switches};
ghost use Rattle.reply_text.specs.Replies.{answered_line, answered_lines, section_replies, replies_of};
ghost use Rattle.limits.specs.Limits.{clock_end, max_advance};

use crate::making::make;
use crate::text::{put_answer, put_asked};
use calls_text::{Entry, NoMemory, Section, put_domain};
use domain_run::State;
use draft::Draft;
use repeat_run::Repeating;
use std::alloc::Global;
use std::collections::VecDeque;

/// Makes the call of an entry, and puts down its line. The switches may be forgotten.
fn put_made(out: &mut Draft, domain: &mut Repeating, entry: Entry)
    requires entry { IsEntry entry }
    requires early { domain.old.time + max_advance ≤ clock_end }
    ensures text { Adds out.old out.new
        (answered_line entry (reply_to domain.old entry.call) ++ codes "\n") }
    ensures domain { without_switches domain.new
        ≡ without_switches (after_call domain.old entry.call) }
    ensures time { domain.new.time ≤ domain.old.time + max_advance }
{
    put_asked(out, &entry);
    let reply = make(domain, entry.call);
    put_answer(out, reply);
}

/// Makes the calls of entries, and puts down their lines.
fn put_all_made(out: &mut Draft, domain: &mut Repeating, entries: Vec<Entry>)
    requires entries { All IsEntry entries.items }
    requires early { domain.old.time + length entries.items * max_advance ≤ clock_end }
    ensures { Adds out.old out.new (text_of (answered_lines domain.old entries.items)) }
{
    let mut left = VecDeque::from_vec(entries);
    while let Some(entry) = left.pop_front() {
        put_made(out, domain, entry);
    }
}

/// Makes the calls of a section on a domain of its own, and puts down its lines. The switches of
/// its run are forgotten while it is made.
fn put_section(alloc: Global, out: &mut Draft, section: Section) -> Result<(), NoMemory>
    requires section { IsSection section }
    ensures { OnOk result (Adds out.old out.new (text_of (section_replies section))) }
{
    put_domain(out, &section);
    out.put(b"\n");
    let Section {
        cpus,
        limit,
        entries,
    } = section;
    let state = State::open(alloc, cpus, limit)?;
    let mut domain = Repeating::of(alloc, state)?;
    put_all_made(out, &mut domain, entries);
    // Dropped by one call; at the end of the scope each of its fields would be.
    drop(domain);
    Ok(())
}

/// Makes the calls of sections, each section's on a domain of its own, and gives each call's line
/// with its reply. Time is in microseconds. The switches of the runs are forgotten while they are
/// made, so the memory depends on the number of calls, and not on how long the runs are.
///
/// # Errors
/// 12 [`NoMemory`]: a growth was refused; nothing of the text is left.
pub fn write_replies(alloc: Global, sections: Vec<Section>) -> Result<Vec<u8>, NoMemory>
    requires sections { All IsSection sections.items }
    ensures { IfOk result (λ v. v.items ≡ replies_of sections.items) }
{
    let mut out = Draft::new(alloc);
    let mut left = VecDeque::from_vec(sections);
    while let Some(section) = left.pop_front() {
        put_section(alloc, &mut out, section)?;
    }
    out.into_text()
}

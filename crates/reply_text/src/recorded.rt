//! The replies that histories have.

ghost use Rattle.std.specs.Prelude.{◌≡◌, IfOk};
ghost use Rattle.draft.specs.Draft.{Adds};
ghost use Rattle.calls_text.specs.Histories.{AreLegal};
ghost use Rattle.calls_text.specs.Histories.{IsLegal};
ghost use Rattle.calls_text.specs.Spelling.{text_of};
ghost use Rattle.reply_text.specs.Replies.{section_replies, replies_of};
ghost use Rattle.reply_text.specs.private.Recorded.{recorded_line, recorded_lines};

use crate::text::put_answered;
use calls_text::{Entry, NoMemory, Section, put_domain};
use draft::Draft;
use std::alloc::Global;

/// The line of an entry with the reply that it has.
fn put_entry(out: &mut Draft, entry: &Entry)
    ensures { Adds out.old out.new (recorded_line entry.now) }
{
    match entry.reply {
        Some(reply) => put_answered(out, entry, reply),
        None => {}
    }
}

fn put_entries(out: &mut Draft, entries: &[Entry])
    ensures { Adds out.old out.new (recorded_lines entries.now) }
{
    for entry in entries {
        put_entry(out, entry);
    }
}

/// The lines of a history.
fn put_history(out: &mut Draft, history: &Section)
    requires legal { IsLegal history.now.cpus history.now.limit history.now.entries }
    ensures { Adds out.old out.new (text_of (section_replies history.now)) }
{
    put_domain(out, history);
    out.put(b"\n");
    put_entries(out, &history.entries);
}

/// The lines of histories, each call's with the reply that it got. No call is made again.
///
/// # Errors
/// 12 [`NoMemory`]: a growth was refused; nothing of the text is left.
pub fn write_recorded(alloc: Global, histories: &[Section]) -> Result<Vec<u8>, NoMemory>
    requires legal { AreLegal histories.now }
    ensures { IfOk result (λ v. v.items ≡ replies_of histories.now) }
{
    let mut out = Draft::new(alloc);
    for history in histories {
        put_history(&mut out, history);
    }
    out.into_text()
}

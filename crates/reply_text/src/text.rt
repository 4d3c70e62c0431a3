//! The text of a reply, put behind what stands before.

ghost use Rattle.std.specs.Prelude.{◌++◌, codes, decimal};
ghost use Rattle.draft.specs.Draft.{Adds};
ghost use Rattle.calls_text.specs.Spelling.{entry_line};
ghost use Rattle.reply_text.specs.Replies.{reply_text, answered_line};

use calls_text::{Entry, Reply, put_call};
use draft::Draft;

/// Words and a number.
fn put_counted(out: &mut Draft, words: &[u8], n: u64)
    ensures { Adds out.old out.new (words.now ++ decimal n) }
{
    out.put(words);
    out.put_decimal(n);
}

fn put_reply(out: &mut Draft, reply: Reply)
    ensures { Adds out.old out.new (reply_text reply) }
{
    match reply {
        Reply::Admitted => out.put(b"Admitted"),
        Reply::Changed => out.put(b"Changed"),
        Reply::Woken => out.put(b"Woken"),
        Reply::Left => out.put(b"Left"),
        Reply::Done { ticks } => put_counted(out, b"Done ", ticks),
        Reply::Set => out.put(b"Set"),
        Reply::Departed => out.put(b"Departed"),
        Reply::Full => out.put(b"Full 40"),
        Reply::Twice => out.put(b"Twice 41"),
        Reply::Busy { seen } => put_counted(out, b"EBUSY 16 seen ", seen),
        Reply::NotListed => out.put(b"ESRCH 3"),
        Reply::NotWaiting => out.put(b"NotWaiting 42"),
    }
}

/// What follows the line of a call: its reply, and the line break.
pub(crate) fn put_answer(out: &mut Draft, reply: Reply)
    ensures { Adds out.old out.new (codes " = " ++ (reply_text reply ++ codes "\n")) }
{
    out.put(b" = ");
    put_reply(out, reply);
    out.put(b"\n");
}

/// The line of a call, without its reply.
pub(crate) fn put_asked(out: &mut Draft, entry: &Entry)
    ensures { Adds out.old out.new (entry_line entry.now) }
{
    put_call(out, entry.client, &entry.call);
}

/// The line of a call with this reply, and its line break.
pub(crate) fn put_answered(out: &mut Draft, entry: &Entry, reply: Reply)
    ensures { Adds out.old out.new (answered_line entry.now reply ++ codes "\n") }
{
    put_asked(out, entry);
    put_answer(out, reply);
}

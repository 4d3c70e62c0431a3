//! The text of sections, put after one another piece by piece.

ghost use Rattle.std.specs.Prelude.{◌≡◌, ◌∷◌, ◌++◌, map, codes, decimal, IfOk};
ghost use Rattle.std.specs.List.{flat_map};
ghost use Rattle.draft.specs.Draft.{Adds};
ghost use Rattle.calls_text.specs.Spelling.{event_text, events_text, phase_text, loops_text, script_text, line_of, call_fields, entry_line, domain_line, section_lines, header_line, text_of, spelling};
ghost use Rattle.calls_text.specs.Limits.{AreRead};
ghost use Rattle.calls_text.specs.ReadSoFar.{entries_text};
ghost use Rattle.calls_text.specs.private.Writing.{params_text, head_text, busy_text};
ghost use Rattle.calls_text.specs.RoundTrip.{without_replies, IsReadAs};

use crate::header::has_later;
use crate::section::{Entry, Section};
use attr_check::Params;
use domain_run::{Call, Event, Name, NoMemory, Phase, Script};
use draft::Draft;
use itoa::Buffer;
use std::alloc::Global;

/// A space and a number.
fn put_field(out: &mut Draft, n: u64)
    ensures { Adds out.old out.new (32 ∷ decimal n) }
{
    out.put(b" ");
    out.put_decimal(n);
}

/// A letter and a number.
fn put_lasting(out: &mut Draft, letter: &[u8], n: u64)
    ensures { Adds out.old out.new (letter.now ++ decimal n) }
{
    out.put(letter);
    out.put_decimal(n);
}

fn put_event(out: &mut Draft, event: &Event)
    ensures { Adds out.old out.new (event_text event.now) }
{
    match event {
        Event::Run(n) => put_lasting(out, b"r", *n),
        Event::Sleep(n) => put_lasting(out, b"s", *n),
        Event::Timer(n) => put_lasting(out, b"t", *n),
        Event::Wait => out.put(b"w"),
    }
}

/// With a comma between each two.
fn put_events(out: &mut Draft, events: &[Event])
    ensures { Adds out.old out.new (events_text events.now) }
{
    let [first, others @ ..] = events else {
        return;
    };
    put_event(out, first);
    for event in others {
        out.put(b",");
        put_event(out, event);
    }
}

fn put_phase(out: &mut Draft, phase: &Phase)
    ensures { Adds out.old out.new (phase_text phase.now) }
{
    out.put_decimal(phase.count);
    out.put(b"{");
    put_events(out, &phase.events);
    out.put(b"}");
}

fn put_phases(out: &mut Draft, phases: &[Phase])
    ensures { Adds out.old out.new (flat_map phase_text phases.now) }
{
    for phase in phases {
        put_phase(out, phase);
    }
}

/// The number of rounds, -1 for no end.
#[tactic(auto, using(crate::proofs::Written::loops_said))]
fn put_loops(out: &mut Draft, script: &Script)
    ensures { Adds out.old out.new (loops_text script.now.rounds) }
{
    let mut buffer = Buffer::new();
    out.put(buffer.format(script.loops()).as_bytes());
}

fn put_script(out: &mut Draft, script: &Script)
    ensures { Adds out.old out.new (script_text script.now) }
{
    put_loops(out, script);
    out.put(b":");
    put_phases(out, script.phases());
}

/// A space, the times and the flag of a task.
fn put_params(out: &mut Draft, params: &Params)
    ensures { Adds out.old out.new (32 ∷ params_text params.now) }
{
    put_field(out, params.runtime);
    put_field(out, params.deadline);
    put_field(out, params.period);
    out.put(if params.reclaim { b" R" } else { b" -" });
}

/// A space and the name of a task, and its parameters.
fn put_named(out: &mut Draft, name: &Name, params: &Params)
    ensures { Adds out.old out.new (32 ∷ (name.now ++ 32 ∷ params_text params.now)) }
{
    out.put(b" ");
    out.put(name.as_str().as_bytes());
    put_params(out, params);
}

/// The first fields of a call's line: its word, the client and a number.
fn put_head(out: &mut Draft, word: &[u8], client: u32, n: u64)
    ensures { Adds out.old out.new (head_text word.now client n) }
{
    out.put(word);
    put_field(out, u64::from(client));
    put_field(out, n);
}

/// What follows the parameters of a regrade, and a new limit.
fn put_busy(out: &mut Draft, word: Option<u64>)
    ensures { Adds out.old out.new (busy_text word) }
{
    match word {
        None => {}
        Some(seen) => {
            out.put(b" busy");
            put_field(out, seen);
        }
    }
}

/// What follows the parameters of an admission.
fn put_plan(out: &mut Draft, delay: u64, script: &Script)
    ensures { Adds out.old out.new (32 ∷ (decimal delay ++ 32 ∷ script_text script.now)) }
{
    put_field(out, delay);
    out.put(b" ");
    put_script(out, script);
}

/// Puts the line of a client's call after a text, as calls text has it (own), without a line break.
pub fn put_call(out: &mut Draft, client: u32, call: &Call)
    ensures { Adds out.old out.new (line_of (call_fields client call.now)) }
{
    match call {
        Call::Admit {
            number,
            name,
            params,
            delay,
            script,
        } => {
            put_head(out, b"admit", client, u64::from(*number));
            put_named(out, name, params);
            put_plan(out, *delay, script);
        }
        Call::Regrade {
            number,
            params,
            word,
        } => {
            put_head(out, b"regrade", client, u64::from(*number));
            put_params(out, params);
            put_busy(out, *word);
        }
        Call::Wake { number } => put_head(out, b"wake", client, u64::from(*number)),
        Call::Leave { number } => put_head(out, b"leave", client, u64::from(*number)),
        Call::Advance { ticks } => put_head(out, b"advance", client, *ticks),
        Call::Limit { limit, word } => {
            put_head(out, b"limit", client, *limit);
            put_busy(out, *word);
        }
        Call::Depart { number } => put_head(out, b"depart", client, u64::from(*number)),
        Call::Arrive {
            number,
            name,
            params,
            script,
        } => {
            put_head(out, b"arrive", client, u64::from(*number));
            put_named(out, name, params);
            out.put(b" ");
            put_script(out, script);
        }
    }
}

/// The line of an entry, with its line break.
fn put_entry(out: &mut Draft, entry: &Entry)
    ensures { Adds out.old out.new (entry_line entry.now ++ codes "\n") }
{
    put_call(out, entry.client, &entry.call);
    out.put(b"\n");
}

fn put_entries(out: &mut Draft, entries: &[Entry])
    ensures { Adds out.old out.new (entries_text entries.now) }
{
    for entry in entries {
        put_entry(out, entry);
    }
}

/// Puts the line of a section's domain after a text, as calls text has it (own), without a line
/// break.
pub fn put_domain(out: &mut Draft, section: &Section)
    ensures { Adds out.old out.new (domain_line section.now) }
{
    out.put(b"domain");
    put_field(out, u64::from(section.cpus));
    put_field(out, section.limit);
}

/// The lines of a section, each with its line break.
fn put_section(out: &mut Draft, section: &Section)
    ensures { Adds out.old out.new (text_of (section_lines section.now)) }
{
    put_domain(out, section);
    out.put(b"\n");
    put_entries(out, &section.entries);
}

/// The first line of a text that has calls of the second form or has none.
fn put_header(out: &mut Draft, later: bool)
    ensures { Adds out.old out.new (header_line later ++ codes "\n") }
{
    if later {
        out.put(b"dlcalls 2\n");
    } else {
        out.put(b"dlcalls 1\n");
    }
}

/// The calls text of sections (own): the one spelling of them, with the header `dlcalls 2` where a
/// call changes the limit of its domain, or a task departs or arrives, and else `dlcalls 1`.
/// Neither replies nor sequence numbers are looked at; where the text is read again, there are no
/// replies, and each client's calls are numbered 0, 1, 2, .. No limit is tested: sections outside
/// those of the format (1 to 8 of them, 1 to 64 CPUs, a limit of 10485 to 1048576, at most 65536
/// calls, clients 1 to 64, and so on) are written in the same way, as a text that is not accepted.
///
/// # Errors
/// 12 [`NoMemory`]: a growth was refused; nothing of the text is left.
pub fn write_calls(alloc: Global, sections: &[Section]) -> Result<Vec<u8>, NoMemory>
    // What is written is the spelling.
    ensures found { IfOk result (λ v. v.items ≡ spelling sections.now) }
    // Where `read_calls` reads such sections, it reads the text as these, without their replies,
    // and as no others.
    ensures back { IfOk result (λ v. AreRead (map without_replies sections.now)
        → IsReadAs v.items (map without_replies sections.now)) }
{
    let mut out = Draft::new(alloc);
    put_header(&mut out, has_later(sections));
    for section in sections {
        put_section(&mut out, section);
    }
    out.into_text()
}

//! What is used again from call to call.

ghost use Rattle.std.specs.Prelude.{◌≡◌, Some};
ghost use Rattle.std.specs.Option.{ForSome};
ghost use Rattle.calls_text.specs.KeptCall.{call_kept};
ghost use Rattle.calls_text.specs.private.Reading.{PartGives, script_at};

use crate::fault::PartFault;
use crate::kept_call::Kept;
use crate::script_text::script_of;
use domain_run::{Call, Script};
use std::alloc::Global;
use std::mem;

/// What is used again from call to call: a block for a call, and the script that was read last. It
/// changes no answer. A task with the same script as the task before takes no memory for it, from
/// the third such task on: they share the script.
#[derive(Drop)]
pub struct Reused<'t> {
    /// A block for a call. The call in it is of no use.
    block: Option<Box<Call>>,
    /// The text of the script that was read last.
    text: &'t [u8],
    /// This script, in a block to share; none before its second time.
    script: Option<Script>,
    ghost spelled: { ForSome script (λ s. script_at text.now ≡ Some s) },
}

/// A copy of a script.
#[inline(always)]
fn copied(alloc: Global, script: &Script) -> Result<Script, PartFault>
    ensures { PartGives (λ s. s) result (Some script.now) }
{
    match script.copy(alloc) {
        Ok(copy) => Ok(copy),
        Err(_) => Err(PartFault::Memory),
    }
}

impl<'t> Reused<'t> {
    /// Nothing to use again. Takes no memory.
    pub fn none() -> Reused<'t> {
        Reused {
            block: None,
            text: b"".as_slice(),
            script: None,
        }
    }

    /// The script that a text spells.
    pub(crate) fn script_of(&mut self, alloc: Global, text: &'t [u8]) -> Result<Script, PartFault>
        ensures { PartGives (λ s. s) result (script_at text.now) }
    {
        if text != self.text {
            self.text = text;
            self.script = None;
            return script_of(alloc, text);
        }
        match &self.script {
            Some(script) => copied(alloc, script),
            None => self.shared(alloc),
        }
    }

    /// The script that the text spells. It is put into a block to share.
    #[inline(never)]
    fn shared(&mut self, alloc: Global) -> Result<Script, PartFault>
        ensures { PartGives (λ s. s) result (script_at self.old.text.now) }
    {
        let script = script_of(alloc, self.text)?.share(alloc);
        let copy = copied(alloc, &script)?;
        self.script = Some(script);
        Ok(copy)
    }

    /// A call in a block of its own.
    #[inline(always)]
    pub(crate) fn long(&mut self, alloc: Global, call: Call) -> Result<Kept, PartFault>
        ensures { PartGives call_kept result (Some call) }
    {
        match self.block.take() {
            Some(mut block) => {
                *block = call;
                Ok(Kept::Long(block))
            }
            None => Kept::long(alloc, call),
        }
    }

    /// The call. Its block is used again.
    #[inline(always)]
    pub fn into_call(&mut self, kept: Kept) -> Call
        ensures { result ≡ call_kept kept }
    {
        match kept {
            Kept::Long(mut block) => {
                let call = mem::replace(&mut *block, Call::Wake { number: 0 });
                self.block = Some(block);
                call
            }
            short => short.into_call(),
        }
    }
}

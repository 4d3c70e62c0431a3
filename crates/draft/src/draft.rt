//! A text, and whether a growth of it was refused.

ghost use Rattle.std.specs.Prelude.{◌≡◌, ◌<◌, ◌^◌, true, false, [], ◌∷◌, replicate, decimal, IfOk, OnOk, OnErr};
ghost use Rattle.draft.specs.Draft.{Adds};

use itoa::Buffer;
use no_memory::NoMemory;
use std::alloc::Global;
use std::marker::Model;

/// A text that is put together piece by piece, and is asked once, at its end, whether memory was
/// refused. Nothing is put any more once it was. To a contract it is its text, and whether no
/// growth was refused.
#[derive(Drop)]
pub struct Draft {
    bytes: Vec<u8>,
    whole: bool,
}

impl Model for Draft {
    ghost use Rattle.draft.specs.Draft.{DraftView};

    ghost Value = { DraftView };

    ghost view = { λ d. record {
      text = d.bytes.items;
      whole = d.whole;
    } };
}

impl Draft {
    /// An empty text. Takes no memory.
    pub fn new(alloc: Global) -> Draft
        ensures text { result.text ≡ [] }
        ensures whole { result.whole ≡ true }
    {
        Draft {
            bytes: Vec::new(alloc),
            whole: true,
        }
    }

    /// Puts a text behind what stands before.
    pub fn put(&mut self, text: &[u8])
        ensures { Adds self.old self.new text.now }
    {
        if self.whole && self.bytes.extend_from_slice(text).is_err() {
            self.refuse();
        }
    }

    /// Puts a byte behind what stands before, so many times, below 2^32.
    pub fn fill(&mut self, byte: u8, count: usize)
        requires { count < 2 ^ 32 }
        ensures { Adds self.old self.new (replicate count byte) }
    {
        let len = self.bytes.len();
        if self.whole && self.bytes.resize(len + count, byte).is_err() {
            self.refuse();
        }
    }

    /// Puts a byte behind what stands before.
    pub fn push(&mut self, byte: u8)
        ensures { Adds self.old self.new (byte ∷ []) }
    {
        self.put(&[byte]);
    }

    /// Puts a number behind what stands before, in decimal digits.
    pub fn put_decimal(&mut self, n: u64)
        ensures { Adds self.old self.new (decimal n) }
    {
        let mut buffer = Buffer::new();
        self.put(buffer.format(n).as_bytes());
    }

    /// Notes that memory was refused to what was to be put.
    pub fn refuse(&mut self)
        ensures { self.new.whole ≡ false }
    {
        self.whole = false;
    }

    /// The whole text.
    ///
    /// # Errors
    /// 12 [`NoMemory`]: a growth was refused; the text is gone.
    pub fn into_text(self) -> Result<Vec<u8>, NoMemory>
        ensures text { IfOk result (λ v. v.items ≡ self.text) }
        ensures ok { OnOk result (self.whole ≡ true) }
        ensures err { OnErr result (self.whole ≡ false) }
    {
        let Draft { bytes, whole } = self;
        if whole { Ok(bytes) } else { Err(NoMemory) }
    }
}

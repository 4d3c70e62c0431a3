ghost use Rattle.std.specs.Prelude.{◌≡◌};
ghost use Rattle.bw_gate.specs.Word.{used_of as used_part, cap_of as cap_part};

/// What is used of a bandwidth word, in 1/2^20 of a CPU.
pub fn used_of(word: u64) -> u64
    ensures { result ≡ used_part word }
{
    word % (1 << 32)
}

/// The cap that a bandwidth word carries, in 1/2^20 of a CPU.
pub fn cap_of(word: u64) -> u64
    ensures { result ≡ cap_part word }
{
    word >> 32
}

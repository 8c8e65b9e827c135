// A decoder that keeps the words that it decoded last.
ghost use Rattle.std.specs.Prelude.{◌≡◌, Some, None, IfSome, IsNone};
ghost use Rattle.std.specs.Bool.{OnTrue, OnFalse};
ghost use Rattle.rv_decode.specs.Fits.{IsFit};
ghost use Rattle.rv_decode.specs.InsnTable.{insn_of};

use crate::decoding::decode;
use crate::instruction::Insn;

// How many words are kept: a power of 2, so that a place is some bits of the address.
const PLACES: usize = 4096;

// A word with the instruction that it stands for.
#[derive(Clone, Copy)]
struct Decoded {
    word: u32,
    insn: Insn,
    ghost stands: { insn_of word ≡ Some insn },
}

impl Decoded {
    // The word of ADDI x0, x0, 0.
    #[tactic(auto, unfolding(crate::specs::InsnTable::insn_of, crate::specs::InsnTable::op_imm_of))]
    fn nop() -> Decoded {
        Decoded {
            word: 0x13,
            insn: Insn::Addi {
                rd: 0,
                rs1: 0,
                imm: 0,
            },
        }
    }

    // Decodes another word in this one's place. False where it stands for no instruction.
    #[cold]
    #[inline(never)]
    fn learn(&mut self, word: u32) -> bool
        ensures learned { OnTrue result (self.new.word ≡ word) }
        ensures unknown { OnFalse result (insn_of word ≡ None) }
    {
        match decode(word) {
            Some(insn) => {
                *self = Decoded { word, insn };
                true
            }
            None => false,
        }
    }
}

/// Decodes words, and keeps some of them with their instructions, so that the words of a loop are decoded once. The
/// address of a word chooses its place. The word itself is compared each time, so nothing needs to be told of a store
/// into code.
#[derive(Drop)]
pub struct Decoder {
    places: [Decoded; PLACES],
}

impl Decoder {
    /// A decoder that has decoded nothing yet.
    pub fn new() -> Decoder {
        Decoder {
            places: [Decoded::nop(); PLACES],
        }
    }

    /// As `decode`, of the word at this address.
    #[inline(always)]
    pub fn decode(&mut self, at: u64, word: u32) -> Option<&Insn>
        ensures known { IfSome result (λ insn. insn_of word ≡ Some insn.now) }
        ensures unknown { IsNone result → insn_of word ≡ None }
        ensures in_range { IfSome result (λ insn. IsFit insn.now) }
    {
        let seen = &mut self.places[(at / 4) as usize % PLACES];
        if seen.word != word && !seen.learn(word) {
            return None;
        }
        Some(&seen.insn)
    }
}

// Instructions that were decoded, each beside its word.
ghost use Rattle.std.specs.Prelude.{◌≡◌, ◌<◌, ◌/◌, ◌%◌, Some, true, IfSome, option_map, vec_len};
ghost use Rattle.isa_model.specs.Decode.{AreRegisters, decoded};
ghost use Rattle.rv64i_user.specs.Lines.{HasLine, SameElsewhere};

use crate::page_numbers::four;
use crate::slots::{Slot, slot_of};
use isa_model::Form;
use mck_word::NoMemory;
use rv_code::decode;
use std::alloc::Global;

// A word and the instruction that it is.
#[derive(Clone, Copy)]
struct Known {
    word: u32,
    form: Form,
    ghost said: { decoded word ≡ Some form },
}

/// Instructions that were decoded, by the low bits of their addresses, each with its word.
///
/// It rests on no memory: an instruction that is found has the very word that was fetched. So it serves any memory and any page, stays
/// right under stores, and can be kept for as long as it pays.
///
/// Beside them are the slots of the words of a code page, by their places in the page, 16 to a line.
#[derive(Drop)]
pub struct KnownWords {
    known: Vec<Known>,
    pub slots: Vec<Slot>,
    ghost size: { vec_len known ≡ 1024 },
    ghost slots_size: { vec_len slots ≡ 1024 },
}

impl KnownWords {
    /// With an instruction that changes nothing in each of its 1,024 places. NoMemory where there is none for them.
    #[tactic(auto, unfolding(isa_model::specs::Decode::decoded))]
    pub fn new(alloc: Global) -> Result<KnownWords, NoMemory> {
        let nothing = Known {
            word: 0x13,
            form: Form::I {
                op: isa_model::Op::Addi,
                rd: 0,
                rs1: 0,
                imm: 0,
            },
        };
        let known = vec![in alloc; nothing; 1024]?;
        let slots = vec![in alloc; slot_of(0); 1024]?;
        Ok(KnownWords { known, slots })
    }

    // Decodes the words of a line of a code page, from its number.
    #[cold]
    #[inline(never)]
    fn learn_line(&mut self, line: usize, code: &[u8; 4096])
        requires { line < 64 }
        ensures same { SameElsewhere self.old.slots.items self.new.slots.items line }
        ensures known { HasLine self.new.slots.items (Some code.now) line }
    {
        for k in line * 16..line * 16 + 16 {
            self.slots[k] = slot_of(four(code, 4 * k));
        }
    }

    // Whether the slots of a line are those of a code page's words.
    #[inline(never)]
    fn has_line(&self, line: usize, code: &[u8; 4096]) -> bool
        requires { line < 64 }
        ensures { result ≡ true → HasLine self.now.slots.items (Some code.now) line }
    {
        for k in line * 16..line * 16 + 16 {
            if self.slots[k].word != four(code, 4 * k) {
                return false;
            }
        }
        true
    }

    /// Sees to it that the slots of a line are those of a code page's words; decodes them where they are not.
    #[inline(never)]
    pub fn check_line(&mut self, line: usize, code: &[u8; 4096])
        requires { line < 64 }
        ensures same { SameElsewhere self.old.slots.items self.new.slots.items line }
        ensures known { HasLine self.new.slots.items (Some code.now) line }
    {
        if !self.has_line(line, code) {
            self.learn_line(line, code);
        }
    }

    // Decodes a word, and keeps what it is.
    #[cold]
    #[inline(never)]
    fn learn(&mut self, place: usize, w: u32) -> Option<Form>
        requires { place < 1024 }
        ensures decoded { result ≡ decoded w }
        ensures registers { IfSome result AreRegisters }
    {
        match decode(w) {
            Some(ins) => {
                let form = ins.form;
                self.known[place] = Known { word: w, form };
                Some(form)
            }
            None => None,
        }
    }

    /// The instruction that the word at an address is.
    #[inline(always)]
    pub fn form(&mut self, pc: u64, w: u32) -> Option<Form>
        ensures decoded { result ≡ decoded w }
        ensures registers { IfSome result AreRegisters }
    {
        let place = (pc / 4 % 1024) as usize;
        let known = &self.known[place];
        if known.word == w {
            return Some(known.form);
        }
        self.learn(place, w)
    }
}

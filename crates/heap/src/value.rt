// value.rs: Obj, and the word that every register holds. 01: Leaves the listed files lack.
ghost use Rattle.std.specs.Prelude.{◌≡◌};
ghost use Rattle.heap.specs.Coding.{of_bits};
ghost use Rattle.heap.specs.Int.{inline_of};
ghost use Rattle.heap.specs.Word.{nil, reference, class_of, slot_of, tag_of};

// A word of the machine.
#[derive(Clone, Copy)]
pub struct Word(pub u64);

// value.rs: Obj, a handle to an object: a word that is a reference.
#[derive(Clone, Copy)]
pub struct Obj(pub u64);

// How many numbers 32 bits hold, 16, and 8.
pub const BITS32: u64 = 0x1_0000_0000;

pub const BITS16: u64 = 0x1_0000;

pub const BITS8: u64 = 0x100;

// The largest number of 64 bits, of 32 and of 16.
pub const MOST64: u64 = 0xFFFF_FFFF_FFFF_FFFF;

pub const MOST32: u64 = BITS32 - 1;

pub const MOST16: u64 = BITS16 - 1;

// What a word is.
#[derive(Clone, Copy)]
pub enum Class {
    Nil,
    Ref(Obj),
    // an inline integer, as its 64 bits of two's complement
    Int(u64),
    Opaque,
}

impl Word {
    // 01: "Nil is word 0."
    pub const NIL: u64 = 0;
    // 01: "References are 2^48 up to 2^49 - 1"
    pub const REF: u64 = 0x1_0000_0000_0000;
    // 01: "top sixteen bits FFFE (hex)"
    pub const INT: u64 = 0xFFFE_0000_0000_0000;
    // What lies below a word's top sixteen bits; those bits of a reference, and of an integer.
    const LOW: u64 = 0x1_0000_0000_0000;

    const REF_TAG: u64 = 1;

    const INT_TAG: u64 = 0xFFFE;
    // The sign of an inline integer, which has 48 bits; what stands above them in a negative one's 64 bits; the least of these.
    const SIGN: u64 = 0x8000_0000_0000;

    const ABOVE: u64 = 0xFFFF_0000_0000_0000;

    const LEAST: u64 = Word::ABOVE + Word::SIGN;

    pub fn nil() -> Self
        ensures { result.0 ≡ nil }
    {
        Word(Word::NIL)
    }

    // The reference to a slot with a tag.
    pub fn reference(slot: u32, tag: u16) -> Self
        ensures { result.0 ≡ reference slot tag }
    {
        Word(Word::REF + (tag as u64) * BITS32 + (slot as u64))
    }

    // dynv: inline_int. The word of an integer, given as its 64 bits of two's complement, where it has one.
    pub fn inline_int(bits: u64) -> Option<Word>
        ensures { result ≡ inline_of (of_bits 63 bits) }
    {
        if bits < Word::SIGN {
            Some(Word(Word::INT + bits))
        } else if bits < Word::LEAST {
            None
        } else {
            Some(Word(bits - Word::LOW))
        }
    }

    pub fn class(self) -> Class
        ensures { result ≡ class_of self.0 }
    {
        let w = self.0;
        let top = w / Word::LOW;
        if w == Word::NIL {
            Class::Nil
        } else if top == Word::REF_TAG {
            Class::Ref(Obj(w))
        } else if top == Word::INT_TAG {
            let n = w % Word::LOW;
            if n < Word::SIGN {
                Class::Int(n)
            } else {
                Class::Int(n + Word::ABOVE)
            }
        } else {
            Class::Opaque
        }
    }
}

impl Obj {
    // 01: "slot in bits 0-31"
    pub fn slot(self) -> usize
        ensures { result ≡ slot_of self.0 }
    {
        (self.0 % BITS32) as usize
    }

    // 01: "tag in bits 32-47"
    pub fn tag(self) -> u64
        ensures { result ≡ tag_of self.0 }
    {
        self.0 / BITS32 % BITS16
    }
}

// What a person reads, as text.
use crate::note;
use crate::watch::{base, field, owner};
use heap::value::{Class, Obj, Word};
use memory_tables::frame::{FRAME_WIDTH, PC};
use memory_world::machine::Machine;
use model::machine::Fuel;
use std::fmt;

// The functions, by number.
fn function(f: u64) -> &'static str {
    match f {
        0 => "line",
        1 => "heat",
        2 => "sensor",
        3 => "trim",
        4 => "survey",
        _ => "recipe",
    }
}

// What the story makes, by slot.
fn made(o: Obj) -> &'static str {
    match o.slot() {
        6 => "zone 1",
        7 => "zone 2",
        8 => "recipe",
        9 => "sensor",
        10 => "readings",
        _ => "function",
    }
}

// The coroutine that a word names.
pub(crate) fn name(w: u64) -> &'static str {
    match Word(w).class() {
        Class::Ref(o) => made(o),
        _ => "      ",
    }
}

// Who runs: the innermost running coroutine, or the line where there is none.
pub(crate) fn runner(w: u64) -> &'static str {
    match Word(w).class() {
        Class::Ref(o) => made(o),
        _ => "the line",
    }
}

// A word in a sentence: an integer as its number, a reference by what it names.
#[derive(Clone, Copy)]
pub(crate) struct Value(pub(crate) u64);

impl fmt::Display for Value {
    fn fmt<W: fmt::Write>(&self, f: &mut fmt::Formatter<W>) -> fmt::Result {
        let w = self.0;
        match Word(w).class() {
            Class::Nil => write!(f, "nil"),
            Class::Ref(o) => write!(f, "@{}", made(o)),
            Class::Int(n) => write!(f, "{n}"),
            Class::Opaque => write!(f, "{w}"),
        }
    }
}

// A word among others, at the right of five columns; nil as a dash.
#[derive(Clone, Copy)]
struct Cell(u64);

impl fmt::Display for Cell {
    fn fmt<W: fmt::Write>(&self, f: &mut fmt::Formatter<W>) -> fmt::Result {
        let w = self.0;
        match Word(w).class() {
            Class::Nil => write!(f, "    -"),
            Class::Ref(o) => write!(f, " @{}", made(o)),
            Class::Int(n) => write!(f, " {n:>4}"),
            Class::Opaque => write!(f, " {w:>4}"),
        }
    }
}

// The one that was sent, in brackets.
#[derive(Clone, Copy)]
struct SentCell(u64);

impl fmt::Display for SentCell {
    fn fmt<W: fmt::Write>(&self, f: &mut fmt::Formatter<W>) -> fmt::Result {
        let w = self.0;
        match Word(w).class() {
            Class::Nil => write!(f, "  [-]"),
            Class::Ref(o) => write!(f, " [@{}]", made(o)),
            Class::Int(n) => write!(f, "  [{n}]"),
            Class::Opaque => write!(f, "  [{w}]"),
        }
    }
}

// Words in a row, the one at `mark` in brackets.
#[derive(Clone, Copy)]
pub(crate) struct Row<'a> {
    pub(crate) words: &'a [u64],
    pub(crate) mark: Option<usize>,
}

impl fmt::Display for Row<'_> {
    fn fmt<W: fmt::Write>(&self, f: &mut fmt::Formatter<W>) -> fmt::Result {
        for (i, &w) in self.words.iter().enumerate() {
            if self.mark == Some(i) {
                write!(f, "{}", SentCell(w))?;
            } else {
                write!(f, "{}", Cell(w))?;
            }
        }
        Ok(())
    }
}

// The functions and pcs of frames, from place `floor` on.
#[derive(Clone, Copy)]
pub(crate) struct Bodies<'a> {
    pub(crate) frames: &'a [u64],
    pub(crate) floor: usize,
    pub(crate) depth: usize,
}

impl fmt::Display for Bodies<'_> {
    fn fmt<W: fmt::Write>(&self, f: &mut fmt::Formatter<W>) -> fmt::Result {
        write!(f, "   at")?;
        for i in self.floor..self.depth {
            let function = function(field(self.frames, i, 0));
            write!(f, "  {function:<6} {}", field(self.frames, i, PC))?;
        }
        Ok(())
    }
}

// Where a note's second frame ends.
const NOTED: usize = note::BODIES + FRAME_WIDTH + PC + 1;

// The frames of the note at `at`, one or two of them.
pub(crate) fn noted(notes: &[u64], at: usize) -> Bodies<'_> {
    if notes.len() < NOTED || notes.len() - NOTED < at {
        return Bodies {
            frames: notes,
            floor: 0,
            depth: 0,
        };
    }
    let n = notes[at + note::FRAMES] as usize;
    Bodies {
        frames: &notes[at + note::BODIES..],
        floor: 0,
        depth: if 1 < n { 2 } else { 1 },
    }
}

// The stack as it stands, the top frame first, with its registers `top`, which a look handed back; the word at `mark` above `own` in brackets.
#[derive(Clone, Copy)]
pub(crate) struct Picture<'a> {
    pub(crate) stack: &'a [u64],
    pub(crate) frames: &'a [u64],
    pub(crate) chain: &'a [u64],
    pub(crate) top: &'a [u64],
    pub(crate) m: Machine,
    pub(crate) own: usize,
    pub(crate) mark: Option<usize>,
}

impl<'a> Picture<'a> {
    // The words of frame i, which begins at `start` and ends at `end`.
    fn row(&self, i: usize, start: usize, end: usize) -> Row<'a> {
        let mark = self.mark_from(start);
        if i == self.m.depth.saturating_sub(1) {
            return Row {
                words: self.top,
                mark,
            };
        }
        match self.stack.get(start..end) {
            Some(words) => Row { words, mark },
            None => Row { words: &[], mark },
        }
    }

    // Where the marked word stands in a frame that begins at `start`.
    fn mark_from(&self, start: usize) -> Option<usize> {
        self.mark?.checked_sub(start.checked_sub(self.own)?)
    }
}

impl fmt::Display for Picture<'_> {
    fn fmt<W: fmt::Write>(&self, f: &mut fmt::Formatter<W>) -> fmt::Result {
        let mut end = self.m.height;
        for i in (0..self.m.depth).rev() {
            let start = base(self.frames, i);
            let function = function(field(self.frames, i, 0));
            let pc = field(self.frames, i, PC);
            let owner = name(owner(self.chain, self.m.active, i));
            let row = self.row(i, start, end);
            writeln!(
                f,
                "     | {start:>4}..{end:<2} | {function:<6} {pc:>4} | {owner} |{row}"
            )?;
            end = start;
        }
        Ok(())
    }
}

// The fuel at hand, and what is set aside.
#[derive(Clone, Copy)]
pub(crate) struct AtHand(pub(crate) Fuel);

impl fmt::Display for AtHand {
    fn fmt<W: fmt::Write>(&self, f: &mut fmt::Formatter<W>) -> fmt::Result {
        let Fuel { fuel, bank, .. } = self.0;
        match bank {
            None => write!(f, "(fuel at hand {fuel})"),
            Some(n) => write!(f, "(fuel at hand {fuel}, banked {n})"),
        }
    }
}

// Whether what came back is what was held, with the word sent, if one was, where the sleeper waited.
pub(crate) fn verdict(equal: bool, sent: bool) -> &'static str {
    match (equal, sent) {
        (false, _) => "NOT EQUAL",
        (true, true) => "EQUAL, with the word sent",
        (true, false) => "EQUAL",
    }
}

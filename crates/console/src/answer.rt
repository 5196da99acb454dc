// An answer of the door `batch`, read from the answers' bytes and printed: its numbers as they stand there.
ghost use Rattle.std.specs.Prelude.{◌≡◌, ◌+◌, ◌*◌};
ghost use Rattle.fields.specs.Number.{get_le};

use format::answer;
use std::fmt;
use std::fmt::{Display, Formatter, Write};

#[derive(Clone, Copy)]
pub struct Answer {
    pub code: u8,
    pub kind: u8,
    pub slot: u16,
    pub stamp: u32,
    pub key: u64,
    pub start: u32,
    pub len: u16,
}

impl Answer {
    // The answer i, counted from 0.
    pub fn read(answers: &[u8], i: u16) -> Answer
        ensures { result ≡ record { code = get_le 1 answers.now (24 * i); kind = get_le 1 answers.now (24 * i + 1); slot = get_le 2 answers.now (24 * i + 2); stamp = get_le 4 answers.now (24 * i + 4); key = get_le 8 answers.now (24 * i + 8); start = get_le 4 answers.now (24 * i + 16); len = get_le 2 answers.now (24 * i + 20) } }
    {
        let at = answer::SIZE * (i as usize);
        Answer {
            code: fields::get(answers, at + answer::CODE),
            kind: fields::get(answers, at + answer::KIND),
            slot: fields::get(answers, at + answer::SLOT),
            stamp: fields::get(answers, at + answer::STAMP),
            key: fields::get(answers, at + answer::KEY),
            start: fields::get(answers, at + answer::NAME_START),
            len: fields::get(answers, at + answer::NAME_LEN),
        }
    }
}

// What the answer tells of the command and of the record; not where the record's name lies.
impl Display for Answer {
    fn fmt<W: Write>(&self, f: &mut Formatter<W>) -> fmt::Result {
        write!(
            f,
            "{} {} {} {} {}",
            self.code, self.kind, self.slot, self.stamp, self.key
        )
    }
}

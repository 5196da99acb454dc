// An answer: 24 bytes.
ghost use Rattle.std.specs.Prelude.{◌≡◌};
ghost use Rattle.slots.specs.Answer.{put_answer_n};

use super::record::Record;
use format::answer;

// An answer into its row of the answers: code and cursor kind, bytes that C reads, and the record v of slot x,
// which is zeros where there is none. It is inlined, so that the row's length, which the caller knows, settles each
// store's test.
#[inline]
#[tactic(auto, unfolding(crate::specs::Answer::put_answer_n))]
pub fn put_answer(row: &mut [u8], code: u8, kind: u8, x: u16, v: Record)
    ensures { row.new ≡ put_answer_n row.old 0 code kind x v }
{
    fields::put::<u8>(row, answer::CODE, code);
    fields::put::<u8>(row, answer::KIND, kind);
    fields::put::<u16>(row, answer::SLOT, x);
    fields::put::<u32>(row, answer::STAMP, v.stamp);
    fields::put::<u64>(row, answer::KEY, v.key);
    fields::put::<u32>(row, answer::NAME_START, v.start);
    fields::put::<u16>(row, answer::NAME_LEN, v.len);
    fields::put::<u16>(row, answer::ZEROS, 0);
}

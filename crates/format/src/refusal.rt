// Why a door or a command is refused, and the numbers by which C and an answer tell it.
ghost use Rattle.std.specs.Prelude.{◌≡◌};
ghost use Rattle.format.specs.Refusal.{number, code};

#[derive(Clone, Copy, PartialEq, Eq)]
pub enum Refusal {
    Damaged = 1,
    BadBatch = 2,
    BadOut = 3,
    BadSize = 4,
    BadOp = 10,
    BadTree = 11,
    BadCursor = 12,
    BadName = 13,
    BadSlot = 14,
    Stale = 15,
    OtherTree = 16,
    Present = 17,
    Order = 18,
    None = 19,
    NoSlot = 20,
    NoText = 21,
    NoStamp = 22,
    NoMark = 23,
    MarkOpen = 24,
}

impl From<Refusal> for u8 {
    ghost from_gives = { λ why given. given ≡ number why };

    fn from(why: Refusal) -> u8 {
        why as u8
    }
}

// The number of what is done.
pub const DONE: u8 = 0;

// The number of what is done or refused.
pub fn code<T: Copy>(done: Result<T, Refusal>) -> u8
    ensures { result ≡ code done }
{
    match done {
        Ok(_) => DONE,
        Err(why) => u8::from(why),
    }
}

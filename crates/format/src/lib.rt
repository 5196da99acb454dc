// Format: the numbers of a pool, a batch and its answers by name, as docs/REFERENCE.md gives them, and why a door
// or a command is refused (refusal.rt). Offsets and sizes are in bytes; an offset counts from the start of the
// part that it is in. The numbers of balances, kinds and ops are those that stand in the bytes of pools, batches
// and answers; in code a kind is a `Cursor` (crate cursor), an op an `Op` (crate ops).
#![tactic(auto)]

pub mod refusal;

// The header of a pool. The fields TABLE, RECORDS and TEXT hold the offsets of what follows it.
pub mod header {
    pub const EDITION: usize = 0;

    pub const SLOTS: usize = 2;

    pub const TREES: usize = 4;

    pub const LIVE: usize = 6;

    pub const TABLE: usize = 8;

    pub const RECORDS: usize = 12;

    pub const TEXT: usize = 16;

    pub const TEXT_SIZE: usize = 20;

    pub const TEXT_USED: usize = 24;

    pub const NEXT_STAMP: usize = 28;

    pub const SIZE: usize = 32;
}

// An entry of the tree table.
pub mod entry {
    pub const ROOT: usize = 0;

    pub const COUNT: usize = 2;

    pub const ZEROS: usize = 4;

    pub const SIZE: usize = 8;
}

pub mod record {
    pub const KEY: usize = 0;

    pub const LEFT: usize = 8;

    pub const RIGHT: usize = 10;

    pub const PARENT: usize = 12;

    pub const BALANCE: usize = 14;

    pub const TREE: usize = 15;

    pub const STAMP: usize = 16;

    pub const NAME_START: usize = 20;

    pub const NAME_LEN: usize = 24;

    pub const SIZE: usize = 32;
}

// The links of a record as offsets of one byte, which no sum with a slot's place takes out of range.
pub mod link {
    pub const LEFT: u8 = super::record::LEFT as u8;

    pub const RIGHT: u8 = super::record::RIGHT as u8;

    pub const PARENT: u8 = super::record::PARENT as u8;
}

// A record's balance: no side is higher, or which. A byte and no enum: a pool that is not sound may have any, and what
// is read, compared and stored is the byte.
pub mod balance {
    pub const EVEN: u8 = 0;

    pub const RIGHT: u8 = 1;

    pub const LEFT: u8 = 2;
}

// The header of a batch. The fields COMMANDS and NAMES hold the offsets of what follows it.
pub mod batch {
    pub const EDITION: usize = 0;

    pub const COUNT: usize = 2;

    pub const COMMANDS: usize = 4;

    pub const NAMES: usize = 8;

    pub const NAMES_LEN: usize = 12;

    pub const SIZE: usize = 16;
}

pub mod command {
    pub const OP: usize = 0;

    pub const TREE: usize = 1;

    pub const SLOT: usize = 2;

    pub const STAMP: usize = 4;

    pub const KEY: usize = 8;

    pub const NAME_AT: usize = 16;

    pub const NAME_LEN: usize = 20;

    pub const SIZE: usize = 24;
}

pub mod answer {
    pub const CODE: usize = 0;

    pub const KIND: usize = 1;

    pub const SLOT: usize = 2;

    pub const STAMP: usize = 4;

    pub const KEY: usize = 8;

    pub const NAME_START: usize = 16;

    pub const NAME_LEN: usize = 20;

    pub const ZEROS: usize = 22;

    pub const SIZE: usize = 24;
}

pub mod limit {
    // the editions of pools and of batches
    pub const POOL_EDITION: u16 = 1;

    pub const BATCH_EDITION: u16 = 1;

    pub const SLOTS: u32 = 1_024;

    pub const TREES: u32 = 8;
    // the number of the last tree that there can be
    pub const LAST_TREE: u8 = 8;

    pub const TEXT_SIZE: u32 = 8_192;

    pub const COMMANDS: u16 = 256;

    pub const NAMES_LEN: u32 = 16_384;

    pub const NAME_LEN: u16 = 255;

    pub const BALANCE: u8 = 2;
    // records on the longest way down a sound tree
    pub const LEVELS: u8 = 14;
    // no record has it: the next stamp when all are taken
    pub const LAST_STAMP: u32 = 4_294_967_295;
}

// The cursor's kinds, as answers show them.
pub mod kind {
    pub const NOWHERE: u8 = 0;

    pub const OCCUPIED: u8 = 1;

    pub const VACANT: u8 = 2;

    pub const FIRST: u8 = 3;

    pub const LAST: u8 = 4;
}

// The ops. Up to LAST_NAMING_TREE they name their tree, from MARK on they settle marks or reset.
pub mod op {
    pub const ADD: u8 = 1;

    pub const GET: u8 = 2;

    pub const REMOVE_BY_KEY: u8 = 3;

    pub const REMOVE: u8 = 4;

    pub const NEXT: u8 = 5;

    pub const PREV: u8 = 6;

    pub const FIRST: u8 = 7;

    pub const LAST: u8 = 8;

    pub const ENTRY: u8 = 9;

    pub const FIRST_ENTRY: u8 = 10;

    pub const LAST_ENTRY: u8 = 11;

    pub const PEEK_NEXT: u8 = 12;

    pub const PEEK_PREV: u8 = 13;

    pub const MOVE_NEXT: u8 = 14;

    pub const MOVE_PREV: u8 = 15;

    pub const INSERT_BEFORE: u8 = 16;

    pub const INSERT_AFTER: u8 = 17;

    pub const INSERT_BEFORE_AND_MOVE: u8 = 18;

    pub const INSERT_AFTER_AND_MOVE: u8 = 19;

    pub const INSERT_NODE: u8 = 20;

    pub const REMOVE_HERE: u8 = 21;

    pub const REMOVE_PREV: u8 = 22;

    pub const REMOVE_NEXT: u8 = 23;

    pub const APPEND: u8 = 24;

    pub const PREPEND: u8 = 25;

    pub const MARK: u8 = 26;

    pub const ROLLBACK: u8 = 27;

    pub const COMMIT: u8 = 28;

    pub const RESET: u8 = 29;

    pub const LAST_NAMING_TREE: u8 = 11;
}

// The sizes of a model, each said once.

// Bytes of a block and of a record, records of a block, and blocks of a file.
pub(crate) const BLOCK_BYTES: usize = 512;

pub(crate) const RECORD_BYTES: usize = 12;

pub(crate) const MOST_RECORDS: u8 = 42;

pub(crate) const LAST_RECORD: usize = MOST_RECORDS as usize - 1;

pub(crate) const MOST_BLOCKS: usize = 43;

pub const MOST_SUBJECTS: usize = 16;

pub const MOST_STATES: usize = 32;

// Places for states: those of subject s from s * MOST_STATES on.
pub const STATE_PLACES: usize = 512;

pub const MOST_EXITS: usize = 8;

pub const MOST_EXITS_IN_ALL: usize = 1024;

pub const MOST_ROWS: usize = 8;

// The highest limit of a row.
pub(crate) const MOST_LIMIT: u8 = 16;

// Message types.
pub(crate) const TYPES: u8 = 32;

// 'any' as a sender or a type, and 'none' as a timeout or cancel target.
pub(crate) const ANY: u8 = 255;

pub(crate) const NONE: u8 = 255;

// The kind of an end.
pub(crate) const END_KIND: u8 = 7;

// Keys of states: subject and state as one number.
pub(crate) const KEYS: usize = 65536;

// The same sizes beside numbers of one byte, each made of the one above: a cast at each use is no plainer.
pub(crate) const MOST_SUBJECTS_U8: u8 = MOST_SUBJECTS as u8;

pub(crate) const MOST_STATES_U8: u8 = MOST_STATES as u8;

pub(crate) const MOST_EXITS_U8: u8 = MOST_EXITS as u8;

pub(crate) const MOST_ROWS_U8: u8 = MOST_ROWS as u8;

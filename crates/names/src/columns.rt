// The columns of the sheet, numbered in the order of its header (definition 8.2).
pub const PAIR: usize = 0;

pub const REQUEST: usize = 1;

pub const RET_TO_SRC: usize = 2;

pub const DO_NOT_GO_TO_SD: usize = 3;

pub const EXCL: usize = 4;

pub const TAG: usize = 5;

pub const RESPONSE: usize = 6;

pub const TAG_OP: usize = 7;

pub const RESP_ERR: usize = 8;

pub const FORWARD: usize = 9;

pub const FINAL: usize = 10;

pub const FWD_ERR: usize = 11;

// The number of columns: a line has one field for each.
pub const COLUMNS: usize = 12;

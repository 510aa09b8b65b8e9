// The offset of each field in an event (definition 2.3).
pub const REQUEST: usize = 0;

pub const RET_TO_SRC: usize = 1;

pub const DO_NOT_GO_TO_SD: usize = 2;

pub const EXCL: usize = 3;

pub const TAG: usize = 4;

pub const CHANNEL: usize = 5;

pub const OPCODE: usize = 6;

pub const RESP: usize = 7;

pub const FWD_STATE: usize = 8;

pub const TAG_OP: usize = 9;

pub const RESP_ERR: usize = 10;

pub const FORWARDED: usize = 11;

pub const FORWARDED_RESP: usize = 12;

pub const STATE_AFTER: usize = 13;

pub const FORWARDED_ERR: usize = 14;

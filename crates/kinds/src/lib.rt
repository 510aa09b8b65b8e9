// The types that the judge speaks of: states, codes, answers and numbers, each with its codes (definition 2).
#![tactic(auto)]

ghost use Rattle.std.specs.Prelude.{◌≡◌, cond, ltb, length, set};
ghost use Rattle.kinds.specs.Codes.{dirty, requests, resp_pd, fwd_pd};
ghost use Rattle.kinds.specs.Refusals.{refusal_number};
ghost use Rattle.kinds.specs.Tests.{◌∈?◌};
ghost use Rattle.kinds.specs.Answers.{forward_at, forward_wire, present, forward_error};
ghost use Rattle.kinds.specs.Answers.{wire, has_data, forward_of, answer_resp, answer_fwd};
ghost use Rattle.kinds.specs.Places.{set_in, pair_in, event_in};

pub mod place;

// The length of an event in bytes (definition 2.3).
pub const EVENT_BYTES: usize = 15;

// The most events that a trace may have (definition 3.3).
pub const MOST_EVENTS: usize = 4096;

// The most pairs that a table of sets may have (definition 3.3). A sheet has exactly as many (definition 8.5).
pub const MOST_PAIRS: usize = 65536;

// The highest pair number on a sheet.
pub const HIGHEST_PAIR: u32 = 65535;

// The set of all seven states, one bit each (definition 2.2). It is the highest set.
pub const ALL_STATES: u8 = 127;

// One value where the test holds, else the other.
pub fn choose<T: Copy>(test: bool, one: T, other: T) -> T
    ensures { result ≡ cond test one other }
{
    if test { one } else { other }
}

// The state of a cache line (definition 2.1).
// Stays: this and the ten other codes are numbers with constants, as the form for codes has it; most are arguments, where any byte may come.
#[derive(Clone, Copy, PartialEq, Eq)]
pub struct LineState(pub u8);

impl LineState {
    pub const I: LineState = LineState(0);

    pub const UC: LineState = LineState(1);

    pub const UCE: LineState = LineState(2);

    pub const UD: LineState = LineState(3);

    pub const UDP: LineState = LineState(4);

    pub const SC: LineState = LineState(5);

    pub const SD: LineState = LineState(6);

    pub const NOT_SEEN: LineState = LineState(7);

    // Whether the line is Dirty, so that somebody has to write it back.
    pub fn dirty(self) -> bool
        ensures { result ≡ dirty self.0 }
    {
        matches!(self, LineState::UD | LineState::UDP | LineState::SD)
    }
}

// The state of the line's memory tags (definition 2.3, byte 4).
#[derive(Clone, Copy, PartialEq, Eq)]
pub struct TagState(pub u8);

impl TagState {
    pub const INVALID: TagState = TagState(0);

    pub const CLEAN: TagState = TagState(1);

    pub const DIRTY: TagState = TagState(2);

    pub const NOT_SEEN: TagState = TagState(3);
}

// What an answer says about the tags it carries (definition 2.3, byte 9).
#[derive(Clone, Copy, PartialEq, Eq)]
pub struct TagOp(pub u8);

impl TagOp {
    pub const INVALID: TagOp = TagOp(0);

    pub const TRANSFER: TagOp = TagOp(1);

    pub const UPDATE: TagOp = TagOp(2);

    pub const MATCH: TagOp = TagOp(3);
}

// An error field: that of the answer to Home, or that of the forwarded data (definition 2.3, bytes 10 and 14).
#[derive(Clone, Copy, PartialEq, Eq)]
pub struct RespErr(pub u8);

impl RespErr {
    pub const OK: RespErr = RespErr(0);

    pub const EXOK: RespErr = RespErr(1);

    pub const DERR: RespErr = RespErr(2);

    pub const NDERR: RespErr = RespErr(3);
}

// The snoop that Home sends (definition 2.4).
#[derive(Clone, Copy, PartialEq, Eq)]
pub struct Request(pub u8);

impl Request {
    pub const SNP_SHARED: Request = Request(1);

    pub const SNP_CLEAN: Request = Request(2);

    pub const SNP_NOT_SHARED_DIRTY: Request = Request(4);

    pub const SNP_UNIQUE: Request = Request(7);

    pub const SNP_CLEAN_INVALID: Request = Request(9);

    pub const SNP_MAKE_INVALID: Request = Request(10);

    pub const SNP_CLEAN_FWD: Request = Request(18);

    pub const SNP_NOT_SHARED_DIRTY_FWD: Request = Request(20);

    pub const SNP_PREFER_UNIQUE: Request = Request(21);

    pub const SNP_PREFER_UNIQUE_FWD: Request = Request(22);

    // Whether it is one of the ten that are judged.
    pub fn known(self) -> bool
        ensures { result ≡ self.0 ∈? requests }
    {
        matches!(
            self,
            Request::SNP_SHARED
                | Request::SNP_CLEAN
                | Request::SNP_NOT_SHARED_DIRTY
                | Request::SNP_UNIQUE
                | Request::SNP_CLEAN_INVALID
                | Request::SNP_MAKE_INVALID
                | Request::SNP_CLEAN_FWD
                | Request::SNP_NOT_SHARED_DIRTY_FWD
                | Request::SNP_PREFER_UNIQUE
                | Request::SNP_PREFER_UNIQUE_FWD
        )
    }
}

// The channel that carries an answer.
#[derive(Clone, Copy, PartialEq, Eq)]
pub struct Channel(pub u8);

impl Channel {
    pub const RSP: Channel = Channel(0);

    pub const DAT: Channel = Channel(1);
}

// The message, among those of its channel (definition 2.5).
#[derive(Clone, Copy, PartialEq, Eq)]
pub struct Opcode(pub u8);

impl Opcode {
    pub const SNP_RESP: Opcode = Opcode(1);

    pub const SNP_RESP_FWDED: Opcode = Opcode(9);

    pub const SNP_RESP_DATA: Opcode = Opcode(1);

    pub const SNP_RESP_DATA_PTL: Opcode = Opcode(5);

    pub const SNP_RESP_DATA_FWDED: Opcode = Opcode(6);
}

// The state that an answer names, and whether it passes the duty to write back to Home (definition 2.6).
#[derive(Clone, Copy, PartialEq, Eq)]
pub struct Resp(pub u8);

impl Resp {
    pub const I: Resp = Resp(0);

    pub const SC: Resp = Resp(1);

    pub const SD: Resp = Resp(3);

    pub const I_PD: Resp = Resp(4);

    pub const SC_PD: Resp = Resp(5);

    // Whether it carries PD (Pass Dirty).
    pub fn passes_dirty(self) -> bool
        ensures { result ≡ resp_pd self.0 }
    {
        matches!(self, Resp::I_PD | Resp::SC_PD)
    }
}

// The state that forwarded data names, and whether it passes the duty to write back to the Requester (definition 2.6).
#[derive(Clone, Copy, PartialEq, Eq)]
pub struct FwdState(pub u8);

impl FwdState {
    pub const NONE: FwdState = FwdState(0);

    pub const SC: FwdState = FwdState(1);

    pub const UC: FwdState = FwdState(2);

    pub const UD_PD: FwdState = FwdState(6);

    pub const SD_PD: FwdState = FwdState(7);

    // Whether it carries PD (Pass Dirty).
    // Stays: apart from that of `Resp`, since the codes that carry PD are others.
    pub fn passes_dirty(self) -> bool
        ensures { result ≡ fwd_pd self.0 }
    {
        matches!(self, FwdState::UD_PD | FwdState::SD_PD)
    }
}

// What the snoopee forwards to the Requester: data with its state and its own error field, or nothing (definition 2.7).
// Stays: no Option, since the form for the answer asks for an enum whose cases hold another enum.
#[derive(Clone, Copy, PartialEq, Eq)]
pub enum Forward {
    NoForward,
    CompData(FwdState, RespErr),
}

impl Forward {
    // The forward that a FwdState and the data's error field stand for.
    pub fn from_state(state: FwdState, error: RespErr) -> Forward
        ensures { result ≡ forward_at state.0 error.0 }
    {
        if state == FwdState::NONE {
            Forward::NoForward
        } else {
            Forward::CompData(state, error)
        }
    }

    // Bytes 11 and 12 of the event: whether data is forwarded, and its Resp.
    pub fn wire(self) -> [u8; 2]
        ensures { result ≡ forward_wire self }
    {
        match self {
            Forward::NoForward => [0, 0],
            Forward::CompData(f, _) => [1, f.0],
        }
    }

    // Whether data is forwarded.
    pub fn present(self) -> bool
        ensures { result ≡ present self }
    {
        matches!(self, Forward::CompData(_, _))
    }

    // Byte 14 of the event: the error field of the forwarded data; OK without a forward.
    pub fn error(self) -> RespErr
        ensures { result.0 ≡ forward_error self }
    {
        match self {
            Forward::NoForward => RespErr::OK,
            Forward::CompData(_, error) => error,
        }
    }
}

// The snoopee's answer to Home, together with what it forwarded to the Requester (definition 2.7).
#[derive(Clone, Copy, PartialEq, Eq)]
pub enum Answer {
    // Without data: SnpResp, or SnpRespFwded with a forward.
    SnpResp(Resp, Forward),
    // With data: SnpRespData, or SnpRespDataFwded with a forward.
    SnpRespData(Resp, Forward),
    // With part of the data, and never with a forward.
    SnpRespDataPtl(Resp),
}

impl Answer {
    // Bytes 5 to 8, 11 and 12 of the event: channel, opcode, Resp, FwdState, forwarded data present, its Resp.
    pub fn wire(self) -> [u8; 6]
        ensures { result ≡ wire self }
    {
        match self {
            Answer::SnpResp(r, Forward::NoForward) => {
                [Channel::RSP.0, Opcode::SNP_RESP.0, r.0, 0, 0, 0]
            }
            Answer::SnpResp(r, Forward::CompData(f, _)) => {
                [Channel::RSP.0, Opcode::SNP_RESP_FWDED.0, r.0, f.0, 1, f.0]
            }
            Answer::SnpRespData(r, Forward::NoForward) => {
                [Channel::DAT.0, Opcode::SNP_RESP_DATA.0, r.0, 0, 0, 0]
            }
            Answer::SnpRespData(r, Forward::CompData(f, _)) => {
                [
                    Channel::DAT.0,
                    Opcode::SNP_RESP_DATA_FWDED.0,
                    r.0,
                    f.0,
                    1,
                    f.0,
                ]
            }
            Answer::SnpRespDataPtl(r) => {
                [Channel::DAT.0, Opcode::SNP_RESP_DATA_PTL.0, r.0, 0, 0, 0]
            }
        }
    }

    // Whether it brings data to Home.
    pub fn has_data(self) -> bool
        ensures { result ≡ has_data self }
    {
        matches!(self, Answer::SnpRespData(_, _) | Answer::SnpRespDataPtl(_))
    }

    // What it forwards.
    pub fn forward(self) -> Forward
        ensures { result ≡ forward_of self }
    {
        match self {
            Answer::SnpResp(_, sent) | Answer::SnpRespData(_, sent) => sent,
            Answer::SnpRespDataPtl(_) => Forward::NoForward,
        }
    }

    // Its Resp.
    pub fn resp(self) -> Resp
        ensures { result.0 ≡ answer_resp self }
    {
        match self {
            Answer::SnpResp(r, _) | Answer::SnpRespData(r, _) | Answer::SnpRespDataPtl(r) => r,
        }
    }

    // Its FwdState; 0 without a forward.
    pub fn fwd_state(self) -> FwdState
        ensures { result.0 ≡ answer_fwd self }
    {
        match self.forward() {
            Forward::NoForward => FwdState::NONE,
            Forward::CompData(f, _) => f,
        }
    }
}

// What the judge says about an event (definition 2.9, 7.3).
#[derive(Clone, Copy, PartialEq, Eq)]
pub struct Verdict(pub u8);

impl Verdict {
    pub const EXPLAINED: Verdict = Verdict(0);

    pub const UNEXPLAINED: Verdict = Verdict(1);

    pub const NOT_JUDGED: Verdict = Verdict(2);
}

// Who has to write the line back after an explained event (definition 2.9, 6.3).
#[derive(Clone, Copy, PartialEq, Eq)]
pub struct Duty(pub u8);

impl Duty {
    pub const NONE: Duty = Duty(0);

    pub const HOME: Duty = Duty(1);

    pub const REQUESTER: Duty = Duty(2);

    pub const LOST: Duty = Duty(3);

    pub const DISCARDED: Duty = Duty(4);
}

// Why a call is refused (definition 4.1, 8.7, 11.5).
#[derive(Clone, Copy, PartialEq, Eq)]
pub enum Refusal {
    Lengths,
    Set,
    Pair,
    Range,
    Request,
    Header,
    Line,
    Fields,
    Room,
}

impl From<Refusal> for u8 {
    ghost from_gives = { λ refusal number. number ≡ refusal_number refusal };

    // The refusal's number. An accepted call has 0.
    fn from(refusal: Refusal) -> u8 {
        match refusal {
            Refusal::Lengths => 1,
            Refusal::Set => 2,
            Refusal::Pair => 3,
            Refusal::Range => 4,
            Refusal::Request => 5,
            Refusal::Header => 6,
            Refusal::Line => 7,
            Refusal::Fields => 8,
            Refusal::Room => 9,
        }
    }
}

// The number of a pair, which is one line in one cache. Only this number looks up the table of sets (definition 1.3).
#[derive(Clone, Copy, PartialEq, Eq)]
pub struct PairNumber(pub u16);

impl PairNumber {
    // The pair's set in the table of sets; the empty set if the table does not have the pair.
    pub fn set_in(self, table: &[u8]) -> u8
        ensures { result ≡ set_in table.now self.0 }
    {
        table.get(self.0 as usize).copied().unwrap_or(0)
    }

    // Whether the table has the pair.
    pub fn within(self, table: &[u8]) -> bool
        ensures { result ≡ ltb self.0 (length table.now) }
    {
        (self.0 as usize) < table.len()
    }

    // Writes the pair's set into the table, if the table has the pair.
    pub fn put_in(self, table: &mut [u8], states: u8)
        ensures { table.new ≡ set table.old self.0 states }
    {
        let at = self.0 as usize;
        if at < table.len() {
            table[at] = states;
        }
    }
}

// The number of an event in its trace, counted from 0.
// Stays: apart from `PairNumber`, though both have a `put_in`, since the form for the two numbers keeps them from being confused.
#[derive(Clone, Copy, PartialEq, Eq)]
pub struct EventNumber(pub u32);

impl EventNumber {
    // The bytes of the event, as a part of the buffer: those from offset 15 times its number (definition 3.3).
    pub fn event_in(self, events: &[u8]) -> &[u8]
        ensures { result.now ≡ event_in events.now self.0 }
    {
        let start = (self.0 as usize) * EVENT_BYTES;
        let len = events.len();
        if len <= start {
            return &events[..0];
        }
        if len - start < EVENT_BYTES {
            return &events[start..];
        }
        &events[start..start + EVENT_BYTES]
    }

    // The pair of the event; pair 0 past the end.
    pub fn pair_in(self, pairs: &[u16]) -> PairNumber
        ensures { result.0 ≡ pair_in pairs.now self.0 }
    {
        match pairs.get(self.0 as usize) {
            Some(&pair) => PairNumber(pair),
            None => PairNumber(0),
        }
    }

    // Writes a byte at the event's index, if the buffer is that long.
    pub fn put_in(self, bytes: &mut [u8], byte: u8)
        ensures { bytes.new ≡ set bytes.old self.0 byte }
    {
        let at = self.0 as usize;
        if at < bytes.len() {
            bytes[at] = byte;
        }
    }
}

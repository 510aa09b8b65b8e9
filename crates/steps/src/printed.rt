// The rows as the judge reads them: one line per printed row, in the printed order. A row is a word, the sum of its columns.
use kinds::{FwdState, LineState, Resp};

// The bit at which each column starts. A column has four bits, and the set of states after lies below them all.
pub const BEFORE_AT: u32 = 8;

pub const RET_AT: u32 = 12;

pub const TABLE_AT: u32 = 16;

pub const RESP_AT: u32 = 20;

pub const FWD_AT: u32 = 24;

pub const MESSAGE_AT: u32 = 28;

// One more than the highest value of a column.
pub const COLUMN: u32 = 16;

// The key starts at this bit: table (without its lowest bit), Resp, FwdState and message. The weights are those columns' places in it.
pub const KEY_AT: u32 = TABLE_AT + 1;

pub const RESP_WEIGHT: u32 = 1 << (RESP_AT - KEY_AT);

pub const FWD_WEIGHT: u32 = 1 << (FWD_AT - KEY_AT);

pub const MESSAGE_WEIGHT: u32 = 1 << (MESSAGE_AT - KEY_AT);

// The tables.
const B46: u32 = 0 << TABLE_AT;

const B57: u32 = 1 << TABLE_AT;

const B59: u32 = 2 << TABLE_AT;

const B60: u32 = 3 << TABLE_AT;

const UNIQUE: u32 = 4 << TABLE_AT;

const CLEAN_INVALID: u32 = 5 << TABLE_AT;

const MAKE_INVALID: u32 = 6 << TABLE_AT;

const ND_ERR: u32 = 7 << TABLE_AT;

// The states before.
const I: u32 = (LineState::I.0 as u32) << BEFORE_AT;

const UC: u32 = (LineState::UC.0 as u32) << BEFORE_AT;

const UCE: u32 = (LineState::UCE.0 as u32) << BEFORE_AT;

const UD: u32 = (LineState::UD.0 as u32) << BEFORE_AT;

const UDP: u32 = (LineState::UDP.0 as u32) << BEFORE_AT;

const SC: u32 = (LineState::SC.0 as u32) << BEFORE_AT;

const SD: u32 = (LineState::SD.0 as u32) << BEFORE_AT;

// The sets of states after.
const TO_I: u32 = 1;

const TO_SC: u32 = 32;

const SC_OR_I: u32 = 33;

const TO_SD: u32 = 64;

// The star: DoNotGoToSD forbids the row. The set of states after lies below this bit.
pub const MARK: u32 = 128;

// RetToSrc: 0, 1, or X for both.
const RET_0: u32 = 0;

const RET_1: u32 = 1 << RET_AT;

const X: u32 = 2 << RET_AT;

// The parts of an answer: message, Resp, and FwdState.
const SNP_RESP: u32 = 0;

const SNP_RESP_DATA: u32 = 1 << MESSAGE_AT;

const SNP_RESP_DATA_PTL: u32 = 2 << MESSAGE_AT;

const RESP_I: u32 = (Resp::I.0 as u32) << RESP_AT;

const RESP_SC: u32 = (Resp::SC.0 as u32) << RESP_AT;

const RESP_SD: u32 = (Resp::SD.0 as u32) << RESP_AT;

const RESP_I_PD: u32 = (Resp::I_PD.0 as u32) << RESP_AT;

const RESP_SC_PD: u32 = (Resp::SC_PD.0 as u32) << RESP_AT;

const FWDED_SC: u32 = (FwdState::SC.0 as u32) << FWD_AT;

const FWDED_UC: u32 = (FwdState::UC.0 as u32) << FWD_AT;

const FWDED_UD_PD: u32 = (FwdState::UD_PD.0 as u32) << FWD_AT;

const FWDED_SD_PD: u32 = (FwdState::SD_PD.0 as u32) << FWD_AT;

// The answers under their names in the tables (definition 2.8).
const SnpResp_I: u32 = SNP_RESP + RESP_I;

const SnpResp_SC: u32 = SNP_RESP + RESP_SC;

const SnpRespData_SC: u32 = SNP_RESP_DATA + RESP_SC;

const SnpRespData_I: u32 = SNP_RESP_DATA + RESP_I;

const SnpRespData_SD: u32 = SNP_RESP_DATA + RESP_SD;

const SnpRespData_SC_PD: u32 = SNP_RESP_DATA + RESP_SC_PD;

const SnpRespData_I_PD: u32 = SNP_RESP_DATA + RESP_I_PD;

const SnpRespDataPtl_I_PD: u32 = SNP_RESP_DATA_PTL + RESP_I_PD;

const SnpResp_SC_Fwded_SC: u32 = SNP_RESP + RESP_SC + FWDED_SC;

const SnpResp_I_Fwded_SC: u32 = SNP_RESP + RESP_I + FWDED_SC;

const SnpResp_SD_Fwded_SC: u32 = SNP_RESP + RESP_SD + FWDED_SC;

const SnpResp_SC_Fwded_SD_PD: u32 = SNP_RESP + RESP_SC + FWDED_SD_PD;

const SnpResp_I_Fwded_SD_PD: u32 = SNP_RESP + RESP_I + FWDED_SD_PD;

const SnpResp_I_Fwded_UC: u32 = SNP_RESP + RESP_I + FWDED_UC;

const SnpResp_I_Fwded_UD_PD: u32 = SNP_RESP + RESP_I + FWDED_UD_PD;

const SnpRespData_SC_Fwded_SC: u32 = SNP_RESP_DATA + RESP_SC + FWDED_SC;

const SnpRespData_I_Fwded_SC: u32 = SNP_RESP_DATA + RESP_I + FWDED_SC;

const SnpRespData_SD_Fwded_SC: u32 = SNP_RESP_DATA + RESP_SD + FWDED_SC;

const SnpRespData_SC_Fwded_SD_PD: u32 = SNP_RESP_DATA + RESP_SC + FWDED_SD_PD;

const SnpRespData_SC_PD_Fwded_SC: u32 = SNP_RESP_DATA + RESP_SC_PD + FWDED_SC;

const SnpRespData_I_Fwded_SD_PD: u32 = SNP_RESP_DATA + RESP_I + FWDED_SD_PD;

const SnpRespData_I_PD_Fwded_SC: u32 = SNP_RESP_DATA + RESP_I_PD + FWDED_SC;

// The number of rows: 66 printed ones, 23 of the bench copy, and one for NDERR from each state.
pub const ROW_COUNT: usize = 96;

// All rows, as in specs/Rows.antt of the crate rows.
// Stays: words and not structs, since the edits row_key_one_bit_off and rows_of_another_request are about the keys in the words.
pub static ROWS: [u32; ROW_COUNT] = [
    // Table B4.46: SnpClean, SnpShared, SnpNotSharedDirty and SnpPreferUnique
    B46 + I + TO_I + X + SnpResp_I,
    B46 + UC + SC_OR_I + X + SnpResp_SC,
    B46 + UC + SC_OR_I + X + SnpRespData_SC,
    B46 + UC + TO_I + X + SnpResp_I,
    B46 + UC + TO_I + X + SnpRespData_I,
    B46 + UCE + TO_I + X + SnpResp_I,
    B46 + UD + TO_SD + X + SnpRespData_SD + MARK,
    B46 + UD + SC_OR_I + X + SnpRespData_SC_PD,
    B46 + UD + TO_I + X + SnpRespData_I_PD,
    B46 + UDP + TO_I + X + SnpRespDataPtl_I_PD,
    B46 + SC + SC_OR_I + RET_0 + SnpResp_SC,
    B46 + SC + SC_OR_I + RET_1 + SnpRespData_SC,
    B46 + SC + TO_I + RET_0 + SnpResp_I,
    B46 + SC + TO_I + RET_1 + SnpRespData_I,
    B46 + SD + TO_SD + X + SnpRespData_SD + MARK,
    B46 + SD + SC_OR_I + X + SnpRespData_SC_PD,
    B46 + SD + TO_I + X + SnpRespData_I_PD,
    // Table B4.57: SnpCleanFwd and SnpNotSharedDirtyFwd
    B57 + I + TO_I + X + SnpResp_I,
    B57 + UC + SC_OR_I + RET_0 + SnpResp_SC_Fwded_SC,
    B57 + UC + SC_OR_I + RET_1 + SnpRespData_SC_Fwded_SC,
    B57 + UC + TO_I + RET_0 + SnpResp_I_Fwded_SC,
    B57 + UC + TO_I + RET_1 + SnpRespData_I_Fwded_SC,
    B57 + UCE + TO_I + X + SnpResp_I,
    B57 + UD + TO_SD + RET_0 + SnpResp_SD_Fwded_SC + MARK,
    B57 + UD + TO_SD + RET_1 + SnpRespData_SD_Fwded_SC + MARK,
    B57 + UD + SC_OR_I + RET_0 + SnpResp_SC_Fwded_SD_PD,
    B57 + UD + SC_OR_I + RET_1 + SnpRespData_SC_Fwded_SD_PD,
    B57 + UD + SC_OR_I + X + SnpRespData_SC_PD_Fwded_SC,
    B57 + UD + TO_I + RET_0 + SnpResp_I_Fwded_SD_PD,
    B57 + UD + TO_I + RET_1 + SnpRespData_I_Fwded_SD_PD,
    B57 + UD + TO_I + X + SnpRespData_I_PD_Fwded_SC,
    B57 + UDP + TO_I + X + SnpRespDataPtl_I_PD,
    B57 + SC + SC_OR_I + RET_0 + SnpResp_SC_Fwded_SC,
    B57 + SC + SC_OR_I + RET_1 + SnpRespData_SC_Fwded_SC,
    B57 + SC + TO_I + RET_0 + SnpResp_I_Fwded_SC,
    B57 + SC + TO_I + RET_1 + SnpRespData_I_Fwded_SC,
    B57 + SD + TO_SD + RET_0 + SnpResp_SD_Fwded_SC + MARK,
    B57 + SD + TO_SD + RET_1 + SnpRespData_SD_Fwded_SC + MARK,
    B57 + SD + SC_OR_I + RET_0 + SnpResp_SC_Fwded_SD_PD,
    B57 + SD + SC_OR_I + RET_1 + SnpRespData_SC_Fwded_SD_PD,
    B57 + SD + SC_OR_I + X + SnpRespData_SC_PD_Fwded_SC,
    B57 + SD + TO_I + RET_0 + SnpResp_I_Fwded_SD_PD,
    B57 + SD + TO_I + RET_1 + SnpRespData_I_Fwded_SD_PD,
    B57 + SD + TO_I + X + SnpRespData_I_PD_Fwded_SC,
    // Table B4.59: SnpPreferUniqueFwd with either excl
    B59 + I + TO_I + X + SnpResp_I,
    B59 + UC + TO_SC + RET_0 + SnpResp_SC_Fwded_SC,
    B59 + UC + TO_SC + RET_1 + SnpRespData_SC_Fwded_SC,
    B59 + UCE + TO_I + X + SnpResp_I,
    B59 + UD + TO_SD + RET_0 + SnpResp_SD_Fwded_SC + MARK,
    B59 + UD + TO_SD + RET_1 + SnpRespData_SD_Fwded_SC + MARK,
    B59 + UD + TO_SC + X + SnpRespData_SC_PD_Fwded_SC,
    B59 + UDP + TO_I + X + SnpRespDataPtl_I_PD,
    B59 + SC + TO_SC + RET_0 + SnpResp_SC_Fwded_SC,
    B59 + SC + TO_SC + RET_1 + SnpRespData_SC_Fwded_SC,
    B59 + SD + TO_SD + RET_0 + SnpResp_SD_Fwded_SC + MARK,
    B59 + SD + TO_SD + RET_1 + SnpRespData_SD_Fwded_SC + MARK,
    B59 + SD + TO_SC + X + SnpRespData_SC_PD_Fwded_SC,
    // Table B4.60: SnpPreferUniqueFwd with excl 0, together with B4.59
    B60 + I + TO_I + X + SnpResp_I,
    B60 + UC + TO_I + X + SnpResp_I_Fwded_UC,
    B60 + UCE + TO_I + X + SnpResp_I,
    B60 + UD + TO_I + X + SnpResp_I_Fwded_UD_PD,
    B60 + UD + TO_I + X + SnpRespData_I_PD,
    B60 + UDP + TO_I + X + SnpRespDataPtl_I_PD,
    B60 + SC + TO_I + X + SnpResp_I_Fwded_UC,
    B60 + SD + TO_I + X + SnpResp_I_Fwded_UD_PD,
    B60 + SD + TO_I + X + SnpRespData_I_PD,
    // Bench copy: SnpUnique
    UNIQUE + I + TO_I + X + SnpResp_I,
    UNIQUE + UCE + TO_I + X + SnpResp_I,
    UNIQUE + UC + TO_I + X + SnpResp_I,
    UNIQUE + UC + TO_I + X + SnpRespData_I,
    UNIQUE + UD + TO_I + X + SnpRespData_I_PD,
    UNIQUE + SD + TO_I + X + SnpRespData_I_PD,
    UNIQUE + UDP + TO_I + X + SnpRespDataPtl_I_PD,
    UNIQUE + SC + TO_I + RET_0 + SnpResp_I,
    UNIQUE + SC + TO_I + RET_1 + SnpRespData_I,
    // Bench copy: SnpCleanInvalid
    CLEAN_INVALID + I + TO_I + X + SnpResp_I,
    CLEAN_INVALID + UCE + TO_I + X + SnpResp_I,
    CLEAN_INVALID + UD + TO_I + X + SnpRespData_I_PD,
    CLEAN_INVALID + UDP + TO_I + X + SnpRespDataPtl_I_PD,
    CLEAN_INVALID + SD + TO_I + X + SnpRespData_I_PD,
    CLEAN_INVALID + UC + TO_I + X + SnpResp_I,
    CLEAN_INVALID + SC + TO_I + X + SnpResp_I,
    // Bench copy: SnpMakeInvalid, from every state, and no data
    MAKE_INVALID + I + TO_I + X + SnpResp_I,
    MAKE_INVALID + UC + TO_I + X + SnpResp_I,
    MAKE_INVALID + UCE + TO_I + X + SnpResp_I,
    MAKE_INVALID + UD + TO_I + X + SnpResp_I,
    MAKE_INVALID + UDP + TO_I + X + SnpResp_I,
    MAKE_INVALID + SC + TO_I + X + SnpResp_I,
    MAKE_INVALID + SD + TO_I + X + SnpResp_I,
    // NDERR: one row, from every state
    ND_ERR + I + TO_I + X + SnpResp_I,
    ND_ERR + UC + TO_I + X + SnpResp_I,
    ND_ERR + UCE + TO_I + X + SnpResp_I,
    ND_ERR + UD + TO_I + X + SnpResp_I,
    ND_ERR + UDP + TO_I + X + SnpResp_I,
    ND_ERR + SC + TO_I + X + SnpResp_I,
    ND_ERR + SD + TO_I + X + SnpResp_I,
];

// What the rows say, as the judge looks it up: the lists of Table.antt without their first 256 zeros.
// scripts/lookup-tables writes this file from the printed rows.

// What spreads the packed answers over the slots, each in its own.
pub const FACTOR: u64 = 3362128852;

// The answers of the rows by slot: the lower 32 bits are the packed answer, those above its kind; 0 if empty.
pub static SLOTS: [u64; 256] = [
    0, // slot 0
    0, // slot 1
    0, // slot 2
    0x1ce7210621, // slot 3: SnpRespData_SC_Fwded_SD_PD, Transfer, OK, OK
    0, // slot 4
    0, // slot 5
    0x1121230601, // slot 6: SnpRespData_SD_Fwded_SC, Invalid, OK, OK
    0x0d21200621, // slot 7: SnpRespData_I_Fwded_SC, Transfer, OK, OK
    0x19c6200900, // slot 8: SnpResp_I_Fwded_UD_PD, Invalid, OK, OK
    0, // slot 9
    0x1421240601, // slot 10: SnpRespData_I_PD_Fwded_SC, Invalid, OK, OK
    0x0f21210621, // slot 11: SnpRespData_SC_Fwded_SC, Transfer, OK, OK
    0, // slot 12
    0, // slot 13
    0x1621250601, // slot 14: SnpRespData_SC_PD_Fwded_SC, Invalid, OK, OK
    0, // slot 15
    0, // slot 16
    0, // slot 17
    0, // slot 18
    0x1221230621, // slot 19: SnpRespData_SD_Fwded_SC, Transfer, OK, OK
    0x1ae7200605, // slot 20: SnpRespData_I_Fwded_SD_PD, Invalid, OK, DERR
    0, // slot 21
    0, // slot 22
    0x1421240621, // slot 23: SnpRespData_I_PD_Fwded_SC, Transfer, OK, OK
    0x1ce7210605, // slot 24: SnpRespData_SC_Fwded_SD_PD, Invalid, OK, DERR
    0, // slot 25
    0x1621250621, // slot 26: SnpRespData_SC_PD_Fwded_SC, Transfer, OK, OK
    0, // slot 27
    0x0d21200605, // slot 28: SnpRespData_I_Fwded_SC, Invalid, OK, DERR
    0, // slot 29
    0, // slot 30
    0, // slot 31
    0x0f21210605, // slot 32: SnpRespData_SC_Fwded_SC, Invalid, OK, DERR
    0x1ae7200625, // slot 33: SnpRespData_I_Fwded_SD_PD, Transfer, OK, DERR
    0, // slot 34
    0x1521240641, // slot 35: SnpRespData_I_PD_Fwded_SC, Update, OK, OK
    0, // slot 36
    0x1ce7210625, // slot 37: SnpRespData_SC_Fwded_SD_PD, Transfer, OK, DERR
    0, // slot 38
    0x1721250641, // slot 39: SnpRespData_SC_PD_Fwded_SC, Update, OK, OK
    0x1121230605, // slot 40: SnpRespData_SD_Fwded_SC, Invalid, OK, DERR
    0x0d21200625, // slot 41: SnpRespData_I_Fwded_SC, Transfer, OK, DERR
    0x19c6200904, // slot 42: SnpResp_I_Fwded_UD_PD, Invalid, OK, DERR
    0x1421240605, // slot 43: SnpRespData_I_PD_Fwded_SC, Invalid, OK, DERR
    0, // slot 44
    0x0f21210625, // slot 45: SnpRespData_SC_Fwded_SC, Transfer, OK, DERR
    0x0200000101, // slot 46: SnpRespData_I, Invalid, OK
    0x1621250605, // slot 47: SnpRespData_SC_PD_Fwded_SC, Invalid, OK, DERR
    0, // slot 48
    0, // slot 49
    0x0500010101, // slot 50: SnpRespData_SC, Invalid, OK
    0, // slot 51
    0x1221230625, // slot 52: SnpRespData_SD_Fwded_SC, Transfer, OK, DERR
    0, // slot 53
    0, // slot 54
    0, // slot 55
    0x1421240625, // slot 56: SnpRespData_I_PD_Fwded_SC, Transfer, OK, DERR
    0x0600030101, // slot 57: SnpRespData_SD, Invalid, OK
    0, // slot 58
    0x0200000121, // slot 59: SnpRespData_I, Transfer, OK
    0x1621250625, // slot 60: SnpRespData_SC_PD_Fwded_SC, Transfer, OK, DERR
    0x0800040101, // slot 61: SnpRespData_I_PD, Invalid, OK
    0x0500010121, // slot 62: SnpRespData_SC, Transfer, OK
    0, // slot 63
    0, // slot 64
    0x0b00050101, // slot 65: SnpRespData_SC_PD, Invalid, OK
    0, // slot 66
    0, // slot 67
    0, // slot 68
    0x1521240645, // slot 69: SnpRespData_I_PD_Fwded_SC, Update, OK, DERR
    0x0700030121, // slot 70: SnpRespData_SD, Transfer, OK
    0, // slot 71
    0, // slot 72
    0x1721250645, // slot 73: SnpRespData_SC_PD_Fwded_SC, Update, OK, DERR
    0x0800040121, // slot 74: SnpRespData_I_PD, Transfer, OK
    0, // slot 75
    0, // slot 76
    0, // slot 77
    0x0b00050121, // slot 78: SnpRespData_SC_PD, Transfer, OK
    0, // slot 79
    0, // slot 80
    0, // slot 81
    0, // slot 82
    0, // slot 83
    0, // slot 84
    0, // slot 85
    0x0a00044501, // slot 86: SnpRespDataPtl_I_PD, Invalid, DERR
    0x0900040141, // slot 87: SnpRespData_I_PD, Update, OK
    0, // slot 88
    0, // slot 89
    0, // slot 90
    0x0c00050141, // slot 91: SnpRespData_SC_PD, Update, OK
    0x1be7200900, // slot 92: SnpResp_I_Fwded_SD_PD, Invalid, OK, OK
    0, // slot 93
    0, // slot 94
    0, // slot 95
    0x1de7210900, // slot 96: SnpResp_SC_Fwded_SD_PD, Invalid, OK, OK
    0, // slot 97
    0, // slot 98
    0, // slot 99
    0x0e21200900, // slot 100: SnpResp_I_Fwded_SC, Invalid, OK, OK
    0, // slot 101
    0x0100000100, // slot 102: SnpResp_I, Invalid, OK
    0, // slot 103
    0x1021210900, // slot 104: SnpResp_SC_Fwded_SC, Invalid, OK, OK
    0x0400010100, // slot 105: SnpResp_SC, Invalid, OK
    0, // slot 106
    0, // slot 107
    0, // slot 108
    0, // slot 109
    0, // slot 110
    0, // slot 111
    0x1321230900, // slot 112: SnpResp_SD_Fwded_SC, Invalid, OK, OK
    0, // slot 113
    0, // slot 114
    0x1ae7204601, // slot 115: SnpRespData_I_Fwded_SD_PD, Invalid, DERR, OK
    0, // slot 116
    0, // slot 117
    0, // slot 118
    0x1ce7214601, // slot 119: SnpRespData_SC_Fwded_SD_PD, Invalid, DERR, OK
    0, // slot 120
    0, // slot 121
    0, // slot 122
    0x0d21204601, // slot 123: SnpRespData_I_Fwded_SC, Invalid, DERR, OK
    0, // slot 124
    0, // slot 125
    0x1be7200904, // slot 126: SnpResp_I_Fwded_SD_PD, Invalid, OK, DERR
    0x0f21214601, // slot 127: SnpRespData_SC_Fwded_SC, Invalid, DERR, OK
    0x1ae7204621, // slot 128: SnpRespData_I_Fwded_SD_PD, Transfer, DERR, OK
    0, // slot 129
    0x1de7210904, // slot 130: SnpResp_SC_Fwded_SD_PD, Invalid, OK, DERR
    0, // slot 131
    0x1ce7214621, // slot 132: SnpRespData_SC_Fwded_SD_PD, Transfer, DERR, OK
    0, // slot 133
    0x0e21200904, // slot 134: SnpResp_I_Fwded_SC, Invalid, OK, DERR
    0x1121234601, // slot 135: SnpRespData_SD_Fwded_SC, Invalid, DERR, OK
    0x0d21204621, // slot 136: SnpRespData_I_Fwded_SC, Transfer, DERR, OK
    0, // slot 137
    0x1021210904, // slot 138: SnpResp_SC_Fwded_SC, Invalid, OK, DERR
    0x1421244601, // slot 139: SnpRespData_I_PD_Fwded_SC, Invalid, DERR, OK
    0x0f21214621, // slot 140: SnpRespData_SC_Fwded_SC, Transfer, DERR, OK
    0, // slot 141
    0, // slot 142
    0x1621254601, // slot 143: SnpRespData_SC_PD_Fwded_SC, Invalid, DERR, OK
    0, // slot 144
    0x1321230904, // slot 145: SnpResp_SD_Fwded_SC, Invalid, OK, DERR
    0, // slot 146
    0, // slot 147
    0x1221234621, // slot 148: SnpRespData_SD_Fwded_SC, Transfer, DERR, OK
    0x1ae7204605, // slot 149: SnpRespData_I_Fwded_SD_PD, Invalid, DERR, DERR
    0, // slot 150
    0, // slot 151
    0x1421244621, // slot 152: SnpRespData_I_PD_Fwded_SC, Transfer, DERR, OK
    0x1ce7214605, // slot 153: SnpRespData_SC_Fwded_SD_PD, Invalid, DERR, DERR
    0, // slot 154
    0x1621254621, // slot 155: SnpRespData_SC_PD_Fwded_SC, Transfer, DERR, OK
    0, // slot 156
    0x0d21204605, // slot 157: SnpRespData_I_Fwded_SC, Invalid, DERR, DERR
    0, // slot 158
    0, // slot 159
    0, // slot 160
    0x0f21214605, // slot 161: SnpRespData_SC_Fwded_SC, Invalid, DERR, DERR
    0x1ae7204625, // slot 162: SnpRespData_I_Fwded_SD_PD, Transfer, DERR, DERR
    0, // slot 163
    0x1521244641, // slot 164: SnpRespData_I_PD_Fwded_SC, Update, DERR, OK
    0, // slot 165
    0x1ce7214625, // slot 166: SnpRespData_SC_Fwded_SD_PD, Transfer, DERR, DERR
    0x0300006100, // slot 167: SnpResp_I, Invalid, NDERR
    0x1721254641, // slot 168: SnpRespData_SC_PD_Fwded_SC, Update, DERR, OK
    0x1121234605, // slot 169: SnpRespData_SD_Fwded_SC, Invalid, DERR, DERR
    0x0d21204625, // slot 170: SnpRespData_I_Fwded_SC, Transfer, DERR, DERR
    0, // slot 171
    0x1421244605, // slot 172: SnpRespData_I_PD_Fwded_SC, Invalid, DERR, DERR
    0, // slot 173
    0x0f21214625, // slot 174: SnpRespData_SC_Fwded_SC, Transfer, DERR, DERR
    0x0200004101, // slot 175: SnpRespData_I, Invalid, DERR
    0x1621254605, // slot 176: SnpRespData_SC_PD_Fwded_SC, Invalid, DERR, DERR
    0, // slot 177
    0, // slot 178
    0x0500014101, // slot 179: SnpRespData_SC, Invalid, DERR
    0, // slot 180
    0x1221234625, // slot 181: SnpRespData_SD_Fwded_SC, Transfer, DERR, DERR
    0, // slot 182
    0, // slot 183
    0x1842200900, // slot 184: SnpResp_I_Fwded_UC, Invalid, OK, OK
    0x1421244625, // slot 185: SnpRespData_I_PD_Fwded_SC, Transfer, DERR, DERR
    0x0600034101, // slot 186: SnpRespData_SD, Invalid, DERR
    0, // slot 187
    0x0200004121, // slot 188: SnpRespData_I, Transfer, DERR
    0x1621254625, // slot 189: SnpRespData_SC_PD_Fwded_SC, Transfer, DERR, DERR
    0x0800044101, // slot 190: SnpRespData_I_PD, Invalid, DERR
    0x0500014121, // slot 191: SnpRespData_SC, Transfer, DERR
    0, // slot 192
    0, // slot 193
    0x0b00054101, // slot 194: SnpRespData_SC_PD, Invalid, DERR
    0, // slot 195
    0, // slot 196
    0, // slot 197
    0x1521244645, // slot 198: SnpRespData_I_PD_Fwded_SC, Update, DERR, DERR
    0x0700034121, // slot 199: SnpRespData_SD, Transfer, DERR
    0, // slot 200
    0, // slot 201
    0x1721254645, // slot 202: SnpRespData_SC_PD_Fwded_SC, Update, DERR, DERR
    0x0800044121, // slot 203: SnpRespData_I_PD, Transfer, DERR
    0, // slot 204
    0, // slot 205
    0, // slot 206
    0x0b00054121, // slot 207: SnpRespData_SC_PD, Transfer, DERR
    0, // slot 208
    0, // slot 209
    0, // slot 210
    0, // slot 211
    0, // slot 212
    0x0a00040501, // slot 213: SnpRespDataPtl_I_PD, Invalid, OK
    0, // slot 214
    0, // slot 215
    0x0900044141, // slot 216: SnpRespData_I_PD, Update, DERR
    0, // slot 217
    0x1842200904, // slot 218: SnpResp_I_Fwded_UC, Invalid, OK, DERR
    0, // slot 219
    0x0c00054141, // slot 220: SnpRespData_SC_PD, Update, DERR
    0, // slot 221
    0, // slot 222
    0, // slot 223
    0, // slot 224
    0, // slot 225
    0, // slot 226
    0, // slot 227
    0, // slot 228
    0, // slot 229
    0, // slot 230
    0, // slot 231
    0, // slot 232
    0, // slot 233
    0, // slot 234
    0, // slot 235
    0, // slot 236
    0, // slot 237
    0, // slot 238
    0, // slot 239
    0, // slot 240
    0, // slot 241
    0x1ae7200601, // slot 242: SnpRespData_I_Fwded_SD_PD, Invalid, OK, OK
    0, // slot 243
    0, // slot 244
    0, // slot 245
    0x1ce7210601, // slot 246: SnpRespData_SC_Fwded_SD_PD, Invalid, OK, OK
    0, // slot 247
    0, // slot 248
    0, // slot 249
    0x0d21200601, // slot 250: SnpRespData_I_Fwded_SC, Invalid, OK, OK
    0, // slot 251
    0, // slot 252
    0, // slot 253
    0x0f21210601, // slot 254: SnpRespData_SC_Fwded_SC, Invalid, OK, OK
    0x1ae7200621, // slot 255: SnpRespData_I_Fwded_SD_PD, Transfer, OK, OK
];

// Where the entries of a request start, by the request: requests with the same rows share them, and 192 is for none of the ten.
pub static STARTS: [u8; 32] = [
    192, // request 0
    0, // request 1
    0, // request 2
    192, // request 3
    0, // request 4
    192, // request 5
    192, // request 6
    96, // request 7
    192, // request 8
    128, // request 9
    160, // request 10
    192, // request 11
    192, // request 12
    192, // request 13
    192, // request 14
    192, // request 15
    192, // request 16
    192, // request 17
    32, // request 18
    192, // request 19
    32, // request 20
    0, // request 21
    64, // request 22
    192, // request 23
    192, // request 24
    192, // request 25
    192, // request 26
    192, // request 27
    192, // request 28
    192, // request 29
    192, // request 30
    192, // request 31
];

// By the kind of an answer, two bits for each context: which of the three sets of states before holds.
pub static CHOICES: [u64; 32] = [
    0, // kind 0
    0x6666000066666666, // kind 1: SnpResp_I, Invalid, OK
    0x6666000066666666, // kind 2: SnpRespData_I, Invalid, OK
    0x5555aaaa55555555, // kind 3: SnpResp_I, Invalid, NDERR
    0x6666000066666666, // kind 4: SnpResp_SC, Invalid, OK
    0x6666000066666666, // kind 5: SnpRespData_SC, Invalid, OK
    0x0505000005050505, // kind 6: SnpRespData_SD, Invalid, OK
    0x0505050505050505, // kind 7: SnpRespData_SD, Transfer, OK
    0x55aa000055aa55aa, // kind 8: SnpRespData_I_PD, Invalid, OK
    0x55aa55aa00000000, // kind 9: SnpRespData_I_PD, Update, OK
    0x5555000055555555, // kind 10: SnpRespDataPtl_I_PD, Invalid, OK
    0x5555000055555555, // kind 11: SnpRespData_SC_PD, Invalid, OK
    0x5555555500000000, // kind 12: SnpRespData_SC_PD, Update, OK
    0x4444000044444444, // kind 13: SnpRespData_I_Fwded_SC, Invalid, OK, OK
    0x1111000011111111, // kind 14: SnpResp_I_Fwded_SC, Invalid, OK, OK
    0x4444000044444444, // kind 15: SnpRespData_SC_Fwded_SC, Invalid, OK, OK
    0x1111000011111111, // kind 16: SnpResp_SC_Fwded_SC, Invalid, OK, OK
    0x0404000004040404, // kind 17: SnpRespData_SD_Fwded_SC, Invalid, OK, OK
    0x0404040404040404, // kind 18: SnpRespData_SD_Fwded_SC, Transfer, OK, OK
    0x0101010101010101, // kind 19: SnpResp_SD_Fwded_SC, Invalid, OK, OK
    0x5555000055555555, // kind 20: SnpRespData_I_PD_Fwded_SC, Invalid, OK, OK
    0x5555555500000000, // kind 21: SnpRespData_I_PD_Fwded_SC, Update, OK, OK
    0x5555000055555555, // kind 22: SnpRespData_SC_PD_Fwded_SC, Invalid, OK, OK
    0x5555555500000000, // kind 23: SnpRespData_SC_PD_Fwded_SC, Update, OK, OK
    0x0055000000550055, // kind 24: SnpResp_I_Fwded_UC, Invalid, OK, OK
    0x0055000000550055, // kind 25: SnpResp_I_Fwded_UD_PD, Invalid, OK, OK
    0x4444000044444444, // kind 26: SnpRespData_I_Fwded_SD_PD, Invalid, OK, OK
    0x1111000011111111, // kind 27: SnpResp_I_Fwded_SD_PD, Invalid, OK, OK
    0x4444000044444444, // kind 28: SnpRespData_SC_Fwded_SD_PD, Invalid, OK, OK
    0x1111000011111111, // kind 29: SnpResp_SC_Fwded_SD_PD, Invalid, OK, OK
    0, // kind 30
    0, // kind 31
];

// By request and kind of answer, a byte each: three sets of states before, 0, the set of states after, the duty.
pub static ENTRIES: [u64; 256] = [
    0, // entry 0
    0x000100270700, // entry 1: SnpResp_I, Invalid, OK
    0x000100022200, // entry 2: SnpRespData_I, Invalid, OK
    0x030100487f00, // entry 3: SnpResp_I, Invalid, NDERR
    0x002100220200, // entry 4: SnpResp_SC, Invalid, OK
    0x002100022200, // entry 5: SnpRespData_SC, Invalid, OK
    0x004000004800, // entry 6: SnpRespData_SD, Invalid, OK
    0x004000004800, // entry 7: SnpRespData_SD, Transfer, OK
    0x010100484800, // entry 8: SnpRespData_I_PD, Invalid, OK
    0x010100484800, // entry 9: SnpRespData_I_PD, Update, OK
    0x010100001000, // entry 10: SnpRespDataPtl_I_PD, Invalid, OK
    0x012100004800, // entry 11: SnpRespData_SC_PD, Invalid, OK
    0x012100004800, // entry 12: SnpRespData_SC_PD, Update, OK
    0, // entry 13
    0, // entry 14
    0, // entry 15
    0, // entry 16
    0, // entry 17
    0, // entry 18
    0, // entry 19
    0, // entry 20
    0, // entry 21
    0, // entry 22
    0, // entry 23
    0, // entry 24
    0, // entry 25
    0, // entry 26
    0, // entry 27
    0, // entry 28
    0, // entry 29
    0, // entry 30
    0, // entry 31
    0, // entry 32
    0x000100050500, // entry 33: SnpResp_I, Invalid, OK
    0, // entry 34
    0x030100487f00, // entry 35: SnpResp_I, Invalid, NDERR
    0, // entry 36
    0, // entry 37
    0, // entry 38
    0, // entry 39
    0, // entry 40
    0, // entry 41
    0x010100001000, // entry 42: SnpRespDataPtl_I_PD, Invalid, OK
    0, // entry 43
    0, // entry 44
    0x000100002200, // entry 45: SnpRespData_I_Fwded_SC, Invalid, OK, OK
    0x000100002200, // entry 46: SnpResp_I_Fwded_SC, Invalid, OK, OK
    0x002100002200, // entry 47: SnpRespData_SC_Fwded_SC, Invalid, OK, OK
    0x002100002200, // entry 48: SnpResp_SC_Fwded_SC, Invalid, OK, OK
    0x004000004800, // entry 49: SnpRespData_SD_Fwded_SC, Invalid, OK, OK
    0x004000004800, // entry 50: SnpRespData_SD_Fwded_SC, Transfer, OK, OK
    0x004000004800, // entry 51: SnpResp_SD_Fwded_SC, Invalid, OK, OK
    0x010100004800, // entry 52: SnpRespData_I_PD_Fwded_SC, Invalid, OK, OK
    0x010100004800, // entry 53: SnpRespData_I_PD_Fwded_SC, Update, OK, OK
    0x012100004800, // entry 54: SnpRespData_SC_PD_Fwded_SC, Invalid, OK, OK
    0x012100004800, // entry 55: SnpRespData_SC_PD_Fwded_SC, Update, OK, OK
    0, // entry 56
    0, // entry 57
    0x020100004800, // entry 58: SnpRespData_I_Fwded_SD_PD, Invalid, OK, OK
    0x020100004800, // entry 59: SnpResp_I_Fwded_SD_PD, Invalid, OK, OK
    0x022100004800, // entry 60: SnpRespData_SC_Fwded_SD_PD, Invalid, OK, OK
    0x022100004800, // entry 61: SnpResp_SC_Fwded_SD_PD, Invalid, OK, OK
    0, // entry 62
    0, // entry 63
    0, // entry 64
    0x000100050500, // entry 65: SnpResp_I, Invalid, OK
    0, // entry 66
    0x030100487f00, // entry 67: SnpResp_I, Invalid, NDERR
    0, // entry 68
    0, // entry 69
    0, // entry 70
    0, // entry 71
    0x010100480000, // entry 72: SnpRespData_I_PD, Invalid, OK
    0x010100480000, // entry 73: SnpRespData_I_PD, Update, OK
    0x010100001000, // entry 74: SnpRespDataPtl_I_PD, Invalid, OK
    0, // entry 75
    0, // entry 76
    0, // entry 77
    0, // entry 78
    0x002000002200, // entry 79: SnpRespData_SC_Fwded_SC, Invalid, OK, OK
    0x002000002200, // entry 80: SnpResp_SC_Fwded_SC, Invalid, OK, OK
    0x004000004800, // entry 81: SnpRespData_SD_Fwded_SC, Invalid, OK, OK
    0x004000004800, // entry 82: SnpRespData_SD_Fwded_SC, Transfer, OK, OK
    0x004000004800, // entry 83: SnpResp_SD_Fwded_SC, Invalid, OK, OK
    0, // entry 84
    0, // entry 85
    0x012000004800, // entry 86: SnpRespData_SC_PD_Fwded_SC, Invalid, OK, OK
    0x012000004800, // entry 87: SnpRespData_SC_PD_Fwded_SC, Update, OK, OK
    0x000100002200, // entry 88: SnpResp_I_Fwded_UC, Invalid, OK, OK
    0x020100004800, // entry 89: SnpResp_I_Fwded_UD_PD, Invalid, OK, OK
    0, // entry 90
    0, // entry 91
    0, // entry 92
    0, // entry 93
    0, // entry 94
    0, // entry 95
    0, // entry 96
    0x000100270700, // entry 97: SnpResp_I, Invalid, OK
    0x000100022200, // entry 98: SnpRespData_I, Invalid, OK
    0x030100487f00, // entry 99: SnpResp_I, Invalid, NDERR
    0, // entry 100
    0, // entry 101
    0, // entry 102
    0, // entry 103
    0x010100484800, // entry 104: SnpRespData_I_PD, Invalid, OK
    0x010100484800, // entry 105: SnpRespData_I_PD, Update, OK
    0x010100001000, // entry 106: SnpRespDataPtl_I_PD, Invalid, OK
    0, // entry 107
    0, // entry 108
    0, // entry 109
    0, // entry 110
    0, // entry 111
    0, // entry 112
    0, // entry 113
    0, // entry 114
    0, // entry 115
    0, // entry 116
    0, // entry 117
    0, // entry 118
    0, // entry 119
    0, // entry 120
    0, // entry 121
    0, // entry 122
    0, // entry 123
    0, // entry 124
    0, // entry 125
    0, // entry 126
    0, // entry 127
    0, // entry 128
    0x000100272700, // entry 129: SnpResp_I, Invalid, OK
    0, // entry 130
    0x030100487f00, // entry 131: SnpResp_I, Invalid, NDERR
    0, // entry 132
    0, // entry 133
    0, // entry 134
    0, // entry 135
    0x010100484800, // entry 136: SnpRespData_I_PD, Invalid, OK
    0x010100484800, // entry 137: SnpRespData_I_PD, Update, OK
    0x010100001000, // entry 138: SnpRespDataPtl_I_PD, Invalid, OK
    0, // entry 139
    0, // entry 140
    0, // entry 141
    0, // entry 142
    0, // entry 143
    0, // entry 144
    0, // entry 145
    0, // entry 146
    0, // entry 147
    0, // entry 148
    0, // entry 149
    0, // entry 150
    0, // entry 151
    0, // entry 152
    0, // entry 153
    0, // entry 154
    0, // entry 155
    0, // entry 156
    0, // entry 157
    0, // entry 158
    0, // entry 159
    0, // entry 160
    0x0401007f7f48, // entry 161: SnpResp_I, Invalid, OK
    0, // entry 162
    0x030100487f00, // entry 163: SnpResp_I, Invalid, NDERR
    0, // entry 164
    0, // entry 165
    0, // entry 166
    0, // entry 167
    0, // entry 168
    0, // entry 169
    0, // entry 170
    0, // entry 171
    0, // entry 172
    0, // entry 173
    0, // entry 174
    0, // entry 175
    0, // entry 176
    0, // entry 177
    0, // entry 178
    0, // entry 179
    0, // entry 180
    0, // entry 181
    0, // entry 182
    0, // entry 183
    0, // entry 184
    0, // entry 185
    0, // entry 186
    0, // entry 187
    0, // entry 188
    0, // entry 189
    0, // entry 190
    0, // entry 191
    0, // entry 192
    0, // entry 193
    0, // entry 194
    0, // entry 195
    0, // entry 196
    0, // entry 197
    0, // entry 198
    0, // entry 199
    0, // entry 200
    0, // entry 201
    0, // entry 202
    0, // entry 203
    0, // entry 204
    0, // entry 205
    0, // entry 206
    0, // entry 207
    0, // entry 208
    0, // entry 209
    0, // entry 210
    0, // entry 211
    0, // entry 212
    0, // entry 213
    0, // entry 214
    0, // entry 215
    0, // entry 216
    0, // entry 217
    0, // entry 218
    0, // entry 219
    0, // entry 220
    0, // entry 221
    0, // entry 222
    0, // entry 223
    0, // entry 224
    0, // entry 225
    0, // entry 226
    0, // entry 227
    0, // entry 228
    0, // entry 229
    0, // entry 230
    0, // entry 231
    0, // entry 232
    0, // entry 233
    0, // entry 234
    0, // entry 235
    0, // entry 236
    0, // entry 237
    0, // entry 238
    0, // entry 239
    0, // entry 240
    0, // entry 241
    0, // entry 242
    0, // entry 243
    0, // entry 244
    0, // entry 245
    0, // entry 246
    0, // entry 247
    0, // entry 248
    0, // entry 249
    0, // entry 250
    0, // entry 251
    0, // entry 252
    0, // entry 253
    0, // entry 254
    0, // entry 255
];

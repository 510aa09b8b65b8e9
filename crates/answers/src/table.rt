// The lists of permitted answers as the code reads them. scripts/answer-lists writes this file from the printed rows.

// The list of each context: by tables, RetToSrc, DoNotGoToSD, Dirty tags and state before; eight for the seven states.
pub static LISTS: [u8; 448] = [
    0, 1, 0, 2, 3, 4, 2, 0, 5, 5, 5, 6, 5, 5, 6, 0, 0, 1, 0, 7, 3, 4, 7, 0, 5, 5, 5, 8, 5, 5, 8, 0,
    0, 1, 0, 2, 3, 9, 2, 0, 5, 5, 5, 6, 5, 5, 6, 0, 0, 1, 0, 7, 3, 9, 7, 0, 5, 5, 5, 8, 5, 5, 8, 0,
    0, 10, 0, 11, 3, 10, 11, 0, 5, 5, 5, 12, 5, 5, 12, 0, 0, 10, 0, 13, 3, 10, 13, 0, 5, 5, 5, 14,
    5, 5, 14, 0, 0, 15, 0, 16, 3, 15, 16, 0, 5, 5, 5, 17, 5, 5, 17, 0, 0, 15, 0, 18, 3, 15, 18, 0,
    5, 5, 5, 14, 5, 5, 14, 0, 0, 19, 0, 20, 3, 19, 20, 0, 5, 5, 5, 21, 5, 5, 21, 0, 0, 19, 0, 22,
    3, 19, 22, 0, 5, 5, 5, 23, 5, 5, 23, 0, 0, 24, 0, 25, 3, 24, 25, 0, 5, 5, 5, 26, 5, 5, 26, 0,
    0, 24, 0, 22, 3, 24, 22, 0, 5, 5, 5, 23, 5, 5, 23, 0, 0, 27, 0, 28, 3, 27, 28, 0, 5, 5, 5, 29,
    5, 5, 29, 0, 0, 27, 0, 30, 3, 27, 30, 0, 5, 5, 5, 31, 5, 5, 31, 0, 0, 32, 0, 33, 3, 32, 33, 0,
    5, 5, 5, 34, 5, 5, 34, 0, 0, 32, 0, 30, 3, 32, 30, 0, 5, 5, 5, 31, 5, 5, 31, 0, 0, 35, 0, 36,
    3, 0, 36, 0, 5, 5, 5, 37, 5, 5, 37, 0, 0, 35, 0, 36, 3, 0, 36, 0, 5, 5, 5, 37, 5, 5, 37, 0, 0,
    35, 0, 36, 3, 38, 36, 0, 5, 5, 5, 37, 5, 5, 37, 0, 0, 35, 0, 36, 3, 38, 36, 0, 5, 5, 5, 37, 5,
    5, 37, 0, 0, 0, 0, 36, 3, 0, 36, 0, 5, 5, 5, 37, 5, 5, 37, 0, 0, 0, 0, 36, 3, 0, 36, 0, 5, 5,
    5, 37, 5, 5, 37, 0, 0, 0, 0, 36, 3, 0, 36, 0, 5, 5, 5, 37, 5, 5, 37, 0, 0, 0, 0, 36, 3, 0, 36,
    0, 5, 5, 5, 37, 5, 5, 37, 0, 0, 0, 0, 0, 0, 0, 0, 0, 5, 5, 5, 0, 5, 5, 0, 0, 0, 0, 0, 0, 0, 0,
    0, 0, 5, 5, 5, 0, 5, 5, 0, 0, 0, 0, 0, 0, 0, 0, 0, 0, 5, 5, 5, 0, 5, 5, 0, 0, 0, 0, 0, 0, 0, 0,
    0, 0, 5, 5, 5, 0, 5, 5, 0, 0,
];

// Where each list starts among the numbers, and how many answers it has.
pub static SPANS: [(u16, u8); 39] = [
    (0, 2),
    (2, 16),
    (18, 17),
    (35, 3),
    (38, 4),
    (42, 0),
    (42, 9),
    (51, 13),
    (64, 7),
    (71, 13),
    (84, 7),
    (91, 33),
    (124, 15),
    (139, 31),
    (170, 13),
    (183, 25),
    (208, 57),
    (265, 17),
    (282, 49),
    (331, 3),
    (334, 11),
    (345, 7),
    (352, 9),
    (361, 5),
    (366, 9),
    (375, 17),
    (392, 9),
    (401, 5),
    (406, 17),
    (423, 9),
    (432, 15),
    (447, 7),
    (454, 11),
    (465, 23),
    (488, 11),
    (499, 6),
    (505, 5),
    (510, 3),
    (513, 5),
];

// The numbers of the answers of each list, one list after another; 128 more with DERR on the forwarded data.
pub static NUMBERS: [u8; 518] = *b"\
\x00\x01\x00\x01\x02\x03\x0d\x0e\x0f\x10\x11\x12\x13\x14\x15\x16\x17\x18\x01\x19\x1a\x1b\x1c\x1d\x1e\x1f\x20\x23\x24\x25\
\x26\x27\x28\x29\x2a\x01\x2f\x30\x00\x01\x02\x03\x01\x1b\x1c\x21\x22\x2b\x2c\x2d\x2e\x01\x1d\x1e\x1f\x20\x23\x24\x25\x26\
\x27\x28\x29\x2a\x01\x21\x22\x2b\x2c\x2d\x2e\x01\x0d\x0e\x0f\x10\x11\x12\x13\x14\x15\x16\x17\x18\x01\x04\x84\x08\x88\x09\
\x89\x01\x07\x87\x0a\x8a\x0b\x8b\x0c\x8c\x4d\xcd\x4e\xce\x4f\xcf\x50\xd0\x53\xd3\x54\xd4\x55\xd5\x56\xd6\x57\xd7\x58\xd8\
\x59\xd9\x5a\xda\x01\x0c\x8c\x51\xd1\x52\xd2\x5b\xdb\x5c\xdc\x5d\xdd\x5e\xde\x01\x07\x87\x0a\x8a\x0b\x8b\x4d\xcd\x4e\xce\
\x4f\xcf\x50\xd0\x53\xd3\x54\xd4\x55\xd5\x56\xd6\x57\xd7\x58\xd8\x59\xd9\x5a\xda\x01\x51\xd1\x52\xd2\x5b\xdb\x5c\xdc\x5d\
\xdd\x5e\xde\x01\x31\xb1\x32\xb2\x33\xb3\x34\xb4\x39\xb9\x3a\xba\x3b\xbb\x3c\xbc\x3d\xbd\x3e\xbe\x3f\xbf\x40\xc0\x01\x35\
\xb5\x36\xb6\x37\xb7\x38\xb8\x41\xc1\x42\xc2\x43\xc3\x44\xc4\x45\xc5\x46\xc6\x47\xc7\x48\xc8\x49\xc9\x4a\xca\x4b\xcb\x4c\
\xcc\x4d\xcd\x4e\xce\x4f\xcf\x50\xd0\x53\xd3\x54\xd4\x55\xd5\x56\xd6\x57\xd7\x58\xd8\x59\xd9\x5a\xda\x01\x4b\xcb\x4c\xcc\
\x51\xd1\x52\xd2\x5b\xdb\x5c\xdc\x5d\xdd\x5e\xde\x01\x35\xb5\x36\xb6\x37\xb7\x38\xb8\x41\xc1\x42\xc2\x43\xc3\x44\xc4\x45\
\xc5\x46\xc6\x47\xc7\x48\xc8\x4d\xcd\x4e\xce\x4f\xcf\x50\xd0\x53\xd3\x54\xd4\x55\xd5\x56\xd6\x57\xd7\x58\xd8\x59\xd9\x5a\
\xda\x01\x09\x89\x01\x0c\x8c\x54\xd4\x56\xd6\x58\xd8\x5a\xda\x01\x0c\x8c\x5c\xdc\x5e\xde\x01\x54\xd4\x56\xd6\x58\xd8\x5a\
\xda\x01\x5c\xdc\x5e\xde\x01\x3a\xba\x3c\xbc\x3e\xbe\x40\xc0\x01\x49\xc9\x4a\xca\x4b\xcb\x4c\xcc\x54\xd4\x56\xd6\x58\xd8\
\x5a\xda\x01\x4b\xcb\x4c\xcc\x5c\xdc\x5e\xde\x01\x05\x85\x09\x89\x01\x06\x86\x0c\x8c\x1d\x1e\x1f\x20\x54\xd4\x56\xd6\x58\
\xd8\x5a\xda\x01\x0c\x8c\x21\x22\x5c\xdc\x5e\xde\x01\x06\x86\x1d\x1e\x1f\x20\x54\xd4\x56\xd6\x58\xd8\x5a\xda\x01\x21\x22\
\x5c\xdc\x5e\xde\x01\x05\x85\x3a\xba\x3c\xbc\x3e\xbe\x40\xc0\x01\x06\x86\x1d\x1e\x1f\x20\x49\xc9\x4a\xca\x4b\xcb\x4c\xcc\
\x54\xd4\x56\xd6\x58\xd8\x5a\xda\x01\x21\x22\x4b\xcb\x4c\xcc\x5c\xdc\x5e\xde\x00\x01\x0d\x0e\x0f\x10\x01\x1d\x1e\x1f\x20\
\x01\x21\x22\x01\x0d\x0e\x0f\x10";

// The answers by number: all bytes of each but the error field of its forwarded data.
pub static ANSWERS: [[u8; 9]; 95] = [
    // SnpResp_I, Invalid, OK, I
    [0, 1, 0, 0, 0, 0, 0, 0, 0],
    // SnpResp_I, Invalid, NDERR, I
    [0, 1, 0, 0, 0, 3, 0, 0, 0],
    // SnpResp_SC, Invalid, OK, I
    [0, 1, 1, 0, 0, 0, 0, 0, 0],
    // SnpResp_SC, Invalid, OK, SC
    [0, 1, 1, 0, 0, 0, 0, 0, 5],
    // SnpResp_I_Fwded_SC, Invalid, OK, I
    [0, 9, 0, 1, 0, 0, 1, 1, 0],
    // SnpResp_I_Fwded_UC, Invalid, OK, I
    [0, 9, 0, 2, 0, 0, 1, 2, 0],
    // SnpResp_I_Fwded_UD_PD, Invalid, OK, I
    [0, 9, 0, 6, 0, 0, 1, 6, 0],
    // SnpResp_I_Fwded_SD_PD, Invalid, OK, I
    [0, 9, 0, 7, 0, 0, 1, 7, 0],
    // SnpResp_SC_Fwded_SC, Invalid, OK, I
    [0, 9, 1, 1, 0, 0, 1, 1, 0],
    // SnpResp_SC_Fwded_SC, Invalid, OK, SC
    [0, 9, 1, 1, 0, 0, 1, 1, 5],
    // SnpResp_SC_Fwded_SD_PD, Invalid, OK, I
    [0, 9, 1, 7, 0, 0, 1, 7, 0],
    // SnpResp_SC_Fwded_SD_PD, Invalid, OK, SC
    [0, 9, 1, 7, 0, 0, 1, 7, 5],
    // SnpResp_SD_Fwded_SC, Invalid, OK, SD
    [0, 9, 3, 1, 0, 0, 1, 1, 6],
    // SnpRespData_I, Invalid, OK, I
    [1, 1, 0, 0, 0, 0, 0, 0, 0],
    // SnpRespData_I, Invalid, DERR, I
    [1, 1, 0, 0, 0, 2, 0, 0, 0],
    // SnpRespData_I, Transfer, OK, I
    [1, 1, 0, 0, 1, 0, 0, 0, 0],
    // SnpRespData_I, Transfer, DERR, I
    [1, 1, 0, 0, 1, 2, 0, 0, 0],
    // SnpRespData_SC, Invalid, OK, I
    [1, 1, 1, 0, 0, 0, 0, 0, 0],
    // SnpRespData_SC, Invalid, OK, SC
    [1, 1, 1, 0, 0, 0, 0, 0, 5],
    // SnpRespData_SC, Invalid, DERR, I
    [1, 1, 1, 0, 0, 2, 0, 0, 0],
    // SnpRespData_SC, Invalid, DERR, SC
    [1, 1, 1, 0, 0, 2, 0, 0, 5],
    // SnpRespData_SC, Transfer, OK, I
    [1, 1, 1, 0, 1, 0, 0, 0, 0],
    // SnpRespData_SC, Transfer, OK, SC
    [1, 1, 1, 0, 1, 0, 0, 0, 5],
    // SnpRespData_SC, Transfer, DERR, I
    [1, 1, 1, 0, 1, 2, 0, 0, 0],
    // SnpRespData_SC, Transfer, DERR, SC
    [1, 1, 1, 0, 1, 2, 0, 0, 5],
    // SnpRespData_SD, Invalid, OK, SD
    [1, 1, 3, 0, 0, 0, 0, 0, 6],
    // SnpRespData_SD, Invalid, DERR, SD
    [1, 1, 3, 0, 0, 2, 0, 0, 6],
    // SnpRespData_SD, Transfer, OK, SD
    [1, 1, 3, 0, 1, 0, 0, 0, 6],
    // SnpRespData_SD, Transfer, DERR, SD
    [1, 1, 3, 0, 1, 2, 0, 0, 6],
    // SnpRespData_I_PD, Invalid, OK, I
    [1, 1, 4, 0, 0, 0, 0, 0, 0],
    // SnpRespData_I_PD, Invalid, DERR, I
    [1, 1, 4, 0, 0, 2, 0, 0, 0],
    // SnpRespData_I_PD, Transfer, OK, I
    [1, 1, 4, 0, 1, 0, 0, 0, 0],
    // SnpRespData_I_PD, Transfer, DERR, I
    [1, 1, 4, 0, 1, 2, 0, 0, 0],
    // SnpRespData_I_PD, Update, OK, I
    [1, 1, 4, 0, 2, 0, 0, 0, 0],
    // SnpRespData_I_PD, Update, DERR, I
    [1, 1, 4, 0, 2, 2, 0, 0, 0],
    // SnpRespData_SC_PD, Invalid, OK, I
    [1, 1, 5, 0, 0, 0, 0, 0, 0],
    // SnpRespData_SC_PD, Invalid, OK, SC
    [1, 1, 5, 0, 0, 0, 0, 0, 5],
    // SnpRespData_SC_PD, Invalid, DERR, I
    [1, 1, 5, 0, 0, 2, 0, 0, 0],
    // SnpRespData_SC_PD, Invalid, DERR, SC
    [1, 1, 5, 0, 0, 2, 0, 0, 5],
    // SnpRespData_SC_PD, Transfer, OK, I
    [1, 1, 5, 0, 1, 0, 0, 0, 0],
    // SnpRespData_SC_PD, Transfer, OK, SC
    [1, 1, 5, 0, 1, 0, 0, 0, 5],
    // SnpRespData_SC_PD, Transfer, DERR, I
    [1, 1, 5, 0, 1, 2, 0, 0, 0],
    // SnpRespData_SC_PD, Transfer, DERR, SC
    [1, 1, 5, 0, 1, 2, 0, 0, 5],
    // SnpRespData_SC_PD, Update, OK, I
    [1, 1, 5, 0, 2, 0, 0, 0, 0],
    // SnpRespData_SC_PD, Update, OK, SC
    [1, 1, 5, 0, 2, 0, 0, 0, 5],
    // SnpRespData_SC_PD, Update, DERR, I
    [1, 1, 5, 0, 2, 2, 0, 0, 0],
    // SnpRespData_SC_PD, Update, DERR, SC
    [1, 1, 5, 0, 2, 2, 0, 0, 5],
    // SnpRespDataPtl_I_PD, Invalid, OK, I
    [1, 5, 4, 0, 0, 0, 0, 0, 0],
    // SnpRespDataPtl_I_PD, Invalid, DERR, I
    [1, 5, 4, 0, 0, 2, 0, 0, 0],
    // SnpRespData_I_Fwded_SC, Invalid, OK, I
    [1, 6, 0, 1, 0, 0, 1, 1, 0],
    // SnpRespData_I_Fwded_SC, Invalid, DERR, I
    [1, 6, 0, 1, 0, 2, 1, 1, 0],
    // SnpRespData_I_Fwded_SC, Transfer, OK, I
    [1, 6, 0, 1, 1, 0, 1, 1, 0],
    // SnpRespData_I_Fwded_SC, Transfer, DERR, I
    [1, 6, 0, 1, 1, 2, 1, 1, 0],
    // SnpRespData_I_Fwded_SD_PD, Invalid, OK, I
    [1, 6, 0, 7, 0, 0, 1, 7, 0],
    // SnpRespData_I_Fwded_SD_PD, Invalid, DERR, I
    [1, 6, 0, 7, 0, 2, 1, 7, 0],
    // SnpRespData_I_Fwded_SD_PD, Transfer, OK, I
    [1, 6, 0, 7, 1, 0, 1, 7, 0],
    // SnpRespData_I_Fwded_SD_PD, Transfer, DERR, I
    [1, 6, 0, 7, 1, 2, 1, 7, 0],
    // SnpRespData_SC_Fwded_SC, Invalid, OK, I
    [1, 6, 1, 1, 0, 0, 1, 1, 0],
    // SnpRespData_SC_Fwded_SC, Invalid, OK, SC
    [1, 6, 1, 1, 0, 0, 1, 1, 5],
    // SnpRespData_SC_Fwded_SC, Invalid, DERR, I
    [1, 6, 1, 1, 0, 2, 1, 1, 0],
    // SnpRespData_SC_Fwded_SC, Invalid, DERR, SC
    [1, 6, 1, 1, 0, 2, 1, 1, 5],
    // SnpRespData_SC_Fwded_SC, Transfer, OK, I
    [1, 6, 1, 1, 1, 0, 1, 1, 0],
    // SnpRespData_SC_Fwded_SC, Transfer, OK, SC
    [1, 6, 1, 1, 1, 0, 1, 1, 5],
    // SnpRespData_SC_Fwded_SC, Transfer, DERR, I
    [1, 6, 1, 1, 1, 2, 1, 1, 0],
    // SnpRespData_SC_Fwded_SC, Transfer, DERR, SC
    [1, 6, 1, 1, 1, 2, 1, 1, 5],
    // SnpRespData_SC_Fwded_SD_PD, Invalid, OK, I
    [1, 6, 1, 7, 0, 0, 1, 7, 0],
    // SnpRespData_SC_Fwded_SD_PD, Invalid, OK, SC
    [1, 6, 1, 7, 0, 0, 1, 7, 5],
    // SnpRespData_SC_Fwded_SD_PD, Invalid, DERR, I
    [1, 6, 1, 7, 0, 2, 1, 7, 0],
    // SnpRespData_SC_Fwded_SD_PD, Invalid, DERR, SC
    [1, 6, 1, 7, 0, 2, 1, 7, 5],
    // SnpRespData_SC_Fwded_SD_PD, Transfer, OK, I
    [1, 6, 1, 7, 1, 0, 1, 7, 0],
    // SnpRespData_SC_Fwded_SD_PD, Transfer, OK, SC
    [1, 6, 1, 7, 1, 0, 1, 7, 5],
    // SnpRespData_SC_Fwded_SD_PD, Transfer, DERR, I
    [1, 6, 1, 7, 1, 2, 1, 7, 0],
    // SnpRespData_SC_Fwded_SD_PD, Transfer, DERR, SC
    [1, 6, 1, 7, 1, 2, 1, 7, 5],
    // SnpRespData_SD_Fwded_SC, Invalid, OK, SD
    [1, 6, 3, 1, 0, 0, 1, 1, 6],
    // SnpRespData_SD_Fwded_SC, Invalid, DERR, SD
    [1, 6, 3, 1, 0, 2, 1, 1, 6],
    // SnpRespData_SD_Fwded_SC, Transfer, OK, SD
    [1, 6, 3, 1, 1, 0, 1, 1, 6],
    // SnpRespData_SD_Fwded_SC, Transfer, DERR, SD
    [1, 6, 3, 1, 1, 2, 1, 1, 6],
    // SnpRespData_I_PD_Fwded_SC, Invalid, OK, I
    [1, 6, 4, 1, 0, 0, 1, 1, 0],
    // SnpRespData_I_PD_Fwded_SC, Invalid, DERR, I
    [1, 6, 4, 1, 0, 2, 1, 1, 0],
    // SnpRespData_I_PD_Fwded_SC, Transfer, OK, I
    [1, 6, 4, 1, 1, 0, 1, 1, 0],
    // SnpRespData_I_PD_Fwded_SC, Transfer, DERR, I
    [1, 6, 4, 1, 1, 2, 1, 1, 0],
    // SnpRespData_I_PD_Fwded_SC, Update, OK, I
    [1, 6, 4, 1, 2, 0, 1, 1, 0],
    // SnpRespData_I_PD_Fwded_SC, Update, DERR, I
    [1, 6, 4, 1, 2, 2, 1, 1, 0],
    // SnpRespData_SC_PD_Fwded_SC, Invalid, OK, I
    [1, 6, 5, 1, 0, 0, 1, 1, 0],
    // SnpRespData_SC_PD_Fwded_SC, Invalid, OK, SC
    [1, 6, 5, 1, 0, 0, 1, 1, 5],
    // SnpRespData_SC_PD_Fwded_SC, Invalid, DERR, I
    [1, 6, 5, 1, 0, 2, 1, 1, 0],
    // SnpRespData_SC_PD_Fwded_SC, Invalid, DERR, SC
    [1, 6, 5, 1, 0, 2, 1, 1, 5],
    // SnpRespData_SC_PD_Fwded_SC, Transfer, OK, I
    [1, 6, 5, 1, 1, 0, 1, 1, 0],
    // SnpRespData_SC_PD_Fwded_SC, Transfer, OK, SC
    [1, 6, 5, 1, 1, 0, 1, 1, 5],
    // SnpRespData_SC_PD_Fwded_SC, Transfer, DERR, I
    [1, 6, 5, 1, 1, 2, 1, 1, 0],
    // SnpRespData_SC_PD_Fwded_SC, Transfer, DERR, SC
    [1, 6, 5, 1, 1, 2, 1, 1, 5],
    // SnpRespData_SC_PD_Fwded_SC, Update, OK, I
    [1, 6, 5, 1, 2, 0, 1, 1, 0],
    // SnpRespData_SC_PD_Fwded_SC, Update, OK, SC
    [1, 6, 5, 1, 2, 0, 1, 1, 5],
    // SnpRespData_SC_PD_Fwded_SC, Update, DERR, I
    [1, 6, 5, 1, 2, 2, 1, 1, 0],
    // SnpRespData_SC_PD_Fwded_SC, Update, DERR, SC
    [1, 6, 5, 1, 2, 2, 1, 1, 5],
];

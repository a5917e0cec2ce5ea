// Cases for what sequences cost, with the answers of a second program. Written by tools/make_cost_cases.py.

// A sequence, and what it costs.
pub struct Case {
    pub list: &'static [u8],
    pub peak: u16,
    pub spread: u32,
    pub lateness: u32,
}

// A job, and lists of its sheets.
pub struct Cases {
    pub file: &'static [u8],
    pub sequences: &'static [Case],
    // no sequences, with a step that no rule permits
    pub forbidden: &'static [&'static [u8]],
    // no sequences, since they end too early
    pub short: &'static [&'static [u8]],
}

// job A
pub const A: Cases = Cases {
    file: b"\x01\x00\x03\x00\x03\x00\x0c\x00\x24\x00\x39\x00\x03\x00\x00\x00\x00\x00\x00\x00\x06\x00\x00\x00\x00\x00\x00\x00\x01\x00\x00\x00\x00\x00\x00\x00\x02\x00\x36\x00\x01\x00\x00\x00\x37\x00\x01\x00\x03\x00\x38\x00\x01\x00\x21\x22\x23",
    sequences: &[
        Case {
            list: &[0, 1, 2],
            peak: 3,
            spread: 6,
            lateness: 1,
        },
        Case {
            list: &[0, 2, 1],
            peak: 2,
            spread: 6,
            lateness: 0,
        },
        Case {
            list: &[1, 0, 2],
            peak: 2,
            spread: 5,
            lateness: 1,
        },
        Case {
            list: &[1, 2, 0],
            peak: 2,
            spread: 6,
            lateness: 1,
        },
        Case {
            list: &[2, 0, 1],
            peak: 2,
            spread: 5,
            lateness: 0,
        },
        Case {
            list: &[2, 1, 0],
            peak: 3,
            spread: 6,
            lateness: 1,
        },
    ],
    forbidden: &[
        &[0, 0, 1],
        &[1, 2, 1],
        &[2, 2, 2],
        &[0, 1, 3],
        &[3, 1, 0],
        &[255, 1, 2],
        &[0, 1, 2, 0],
        &[0, 1, 2, 3],
        &[1, 1],
        &[3],
    ],
    short: &[&[], &[2], &[0, 1], &[2, 1]],
};

// job B
pub const B: Cases = Cases {
    file: b"\x01\x00\x04\x00\x06\x00\x0c\x00\x2c\x00\x56\x00\x03\x00\x00\x00\x00\x00\x00\x00\x06\x00\x00\x00\x00\x00\x00\x00\x01\x00\x00\x00\x00\x00\x00\x00\x38\x00\x00\x00\x00\x00\x00\x00\x00\x00\x50\x00\x01\x00\x00\x00\x51\x00\x01\x00\x00\x00\x52\x00\x01\x00\x00\x00\x53\x00\x01\x00\x00\x00\x54\x00\x01\x00\x00\x00\x55\x00\x01\x00\x21\x22\x23\x24\x25\x26",
    sequences: &[
        Case {
            list: &[0, 1, 2, 3],
            peak: 3,
            spread: 9,
            lateness: 0,
        },
        Case {
            list: &[0, 1, 3, 2],
            peak: 4,
            spread: 10,
            lateness: 0,
        },
        Case {
            list: &[0, 2, 1, 3],
            peak: 3,
            spread: 9,
            lateness: 0,
        },
        Case {
            list: &[0, 2, 3, 1],
            peak: 4,
            spread: 10,
            lateness: 0,
        },
        Case {
            list: &[0, 3, 1, 2],
            peak: 5,
            spread: 11,
            lateness: 0,
        },
        Case {
            list: &[0, 3, 2, 1],
            peak: 5,
            spread: 11,
            lateness: 0,
        },
        Case {
            list: &[1, 0, 2, 3],
            peak: 3,
            spread: 8,
            lateness: 0,
        },
        Case {
            list: &[1, 0, 3, 2],
            peak: 4,
            spread: 9,
            lateness: 0,
        },
        Case {
            list: &[1, 2, 0, 3],
            peak: 3,
            spread: 9,
            lateness: 0,
        },
        Case {
            list: &[1, 2, 3, 0],
            peak: 5,
            spread: 11,
            lateness: 0,
        },
        Case {
            list: &[1, 3, 0, 2],
            peak: 4,
            spread: 9,
            lateness: 0,
        },
        Case {
            list: &[1, 3, 2, 0],
            peak: 4,
            spread: 10,
            lateness: 0,
        },
        Case {
            list: &[2, 0, 1, 3],
            peak: 3,
            spread: 8,
            lateness: 0,
        },
        Case {
            list: &[2, 0, 3, 1],
            peak: 4,
            spread: 9,
            lateness: 0,
        },
        Case {
            list: &[2, 1, 0, 3],
            peak: 3,
            spread: 9,
            lateness: 0,
        },
        Case {
            list: &[2, 1, 3, 0],
            peak: 5,
            spread: 11,
            lateness: 0,
        },
        Case {
            list: &[2, 3, 0, 1],
            peak: 4,
            spread: 9,
            lateness: 0,
        },
        Case {
            list: &[2, 3, 1, 0],
            peak: 4,
            spread: 10,
            lateness: 0,
        },
        Case {
            list: &[3, 0, 1, 2],
            peak: 3,
            spread: 9,
            lateness: 0,
        },
        Case {
            list: &[3, 0, 2, 1],
            peak: 3,
            spread: 9,
            lateness: 0,
        },
        Case {
            list: &[3, 1, 0, 2],
            peak: 3,
            spread: 8,
            lateness: 0,
        },
        Case {
            list: &[3, 1, 2, 0],
            peak: 3,
            spread: 9,
            lateness: 0,
        },
        Case {
            list: &[3, 2, 0, 1],
            peak: 3,
            spread: 8,
            lateness: 0,
        },
        Case {
            list: &[3, 2, 1, 0],
            peak: 3,
            spread: 9,
            lateness: 0,
        },
    ],
    forbidden: &[],
    short: &[],
};

// one sheet
pub const ONE: Cases = Cases {
    file: b"\x01\x00\x01\x00\x01\x00\x0c\x00\x14\x00\x1b\x00\x01\x00\x00\x00\x00\x00\x00\x00\x00\x00\x1a\x00\x01\x00\x21",
    sequences: &[Case {
        list: &[0],
        peak: 1,
        spread: 1,
        lateness: 0,
    }],
    forbidden: &[&[1], &[0, 0], &[0, 1], &[255]],
    short: &[&[]],
};

// three sheets with the same one order
pub const SAME: Cases = Cases {
    file: b"\x01\x00\x03\x00\x01\x00\x0c\x00\x24\x00\x2b\x00\x01\x00\x00\x00\x00\x00\x00\x00\x01\x00\x00\x00\x00\x00\x00\x00\x01\x00\x00\x00\x00\x00\x00\x00\x00\x00\x2a\x00\x01\x00\x21",
    sequences: &[
        Case {
            list: &[0, 1, 2],
            peak: 1,
            spread: 3,
            lateness: 0,
        },
        Case {
            list: &[0, 2, 1],
            peak: 1,
            spread: 3,
            lateness: 0,
        },
        Case {
            list: &[1, 0, 2],
            peak: 1,
            spread: 3,
            lateness: 0,
        },
        Case {
            list: &[1, 2, 0],
            peak: 1,
            spread: 3,
            lateness: 0,
        },
        Case {
            list: &[2, 0, 1],
            peak: 1,
            spread: 3,
            lateness: 0,
        },
        Case {
            list: &[2, 1, 0],
            peak: 1,
            spread: 3,
            lateness: 0,
        },
    ],
    forbidden: &[],
    short: &[],
};

// five sheets and ten orders
pub const FIVE: Cases = Cases {
    file: b"\x01\x00\x05\x00\x0a\x00\x0c\x00\x34\x00\x7a\x00\x8b\x02\x00\x00\x00\x00\x00\x00\x02\x02\x00\x00\x00\x00\x00\x00\x24\x01\x00\x00\x00\x00\x00\x00\xb9\x01\x00\x00\x00\x00\x00\x00\xf4\x00\x00\x00\x00\x00\x00\x00\x00\x00\x70\x00\x01\x00\x05\x00\x71\x00\x01\x00\x00\x00\x72\x00\x01\x00\x04\x00\x73\x00\x01\x00\x00\x00\x74\x00\x01\x00\x03\x00\x75\x00\x01\x00\x00\x00\x76\x00\x01\x00\x03\x00\x77\x00\x01\x00\x00\x00\x78\x00\x01\x00\x02\x00\x79\x00\x01\x00\x21\x22\x23\x24\x25\x26\x27\x28\x29\x2a",
    sequences: &[
        Case {
            list: &[0, 1, 2, 3, 4],
            peak: 7,
            spread: 28,
            lateness: 4,
        },
        Case {
            list: &[4, 3, 2, 1, 0],
            peak: 7,
            spread: 28,
            lateness: 6,
        },
        Case {
            list: &[4, 3, 2, 0, 1],
            peak: 7,
            spread: 25,
            lateness: 4,
        },
        Case {
            list: &[2, 1, 3, 0, 4],
            peak: 9,
            spread: 30,
            lateness: 6,
        },
        Case {
            list: &[2, 0, 1, 4, 3],
            peak: 8,
            spread: 33,
            lateness: 6,
        },
        Case {
            list: &[1, 2, 0, 4, 3],
            peak: 8,
            spread: 29,
            lateness: 6,
        },
        Case {
            list: &[1, 2, 4, 3, 0],
            peak: 8,
            spread: 28,
            lateness: 7,
        },
        Case {
            list: &[0, 4, 1, 2, 3],
            peak: 9,
            spread: 35,
            lateness: 6,
        },
        Case {
            list: &[3, 0, 4, 2, 1],
            peak: 8,
            spread: 29,
            lateness: 4,
        },
        Case {
            list: &[4, 0, 1, 2, 3],
            peak: 8,
            spread: 34,
            lateness: 6,
        },
        Case {
            list: &[3, 1, 0, 4, 2],
            peak: 8,
            spread: 31,
            lateness: 4,
        },
        Case {
            list: &[2, 0, 4, 1, 3],
            peak: 10,
            spread: 35,
            lateness: 7,
        },
    ],
    forbidden: &[],
    short: &[],
};

// 16 sheets and 64 orders
pub const LARGE: Cases = Cases {
    file: b"\x01\x00\x10\x00\x40\x00\x0c\x00\x8c\x00\x4c\x02\x51\x1c\x01\x40\x09\x10\x01\x40\xa2\x08\x02\xc0\x82\x00\x2a\x60\x2e\x0a\x44\x40\x06\x08\x04\x0a\x08\x40\x0c\x08\x08\x02\x08\x24\x10\x00\x15\x00\x99\x00\x16\x10\x20\x02\xe9\x00\x20\xa4\x64\x00\x41\x80\xc0\x00\x48\x11\xc2\x00\x88\x80\x80\x01\x80\x80\x80\x00\x80\x01\x02\x41\x01\xa1\x00\x01\x06\x12\x00\x02\x00\x0a\x00\x02\x52\x04\x40\x1d\x84\x26\x81\x84\x00\x08\x01\x29\x62\x0a\x00\x4e\x90\x1a\x01\x18\x06\x14\x80\x10\x20\x34\x04\x30\x80\x20\x80\x20\x00\xc0\x80\x50\x10\xd0\x11\xd0\x00\xa0\x00\x82\x04\x80\x20\x98\x00\x00\x0c\x02\x01\x00\x05\x00\x0d\x02\x01\x00\x0a\x00\x0e\x02\x01\x00\x0f\x00\x0f\x02\x01\x00\x03\x00\x10\x02\x01\x00\x08\x00\x11\x02\x01\x00\x0d\x00\x12\x02\x01\x00\x01\x00\x13\x02\x01\x00\x06\x00\x14\x02\x01\x00\x0b\x00\x15\x02\x01\x00\x10\x00\x16\x02\x01\x00\x04\x00\x17\x02\x01\x00\x09\x00\x18\x02\x01\x00\x0e\x00\x19\x02\x01\x00\x02\x00\x1a\x02\x01\x00\x07\x00\x1b\x02\x01\x00\x0c\x00\x1c\x02\x01\x00\x00\x00\x1d\x02\x01\x00\x05\x00\x1e\x02\x01\x00\x0a\x00\x1f\x02\x01\x00\x0f\x00\x20\x02\x01\x00\x03\x00\x21\x02\x01\x00\x08\x00\x22\x02\x01\x00\x0d\x00\x23\x02\x01\x00\x01\x00\x24\x02\x01\x00\x06\x00\x25\x02\x01\x00\x0b\x00\x26\x02\x01\x00\x10\x00\x27\x02\x01\x00\x04\x00\x28\x02\x01\x00\x09\x00\x29\x02\x01\x00\x0e\x00\x2a\x02\x01\x00\x02\x00\x2b\x02\x01\x00\x07\x00\x2c\x02\x01\x00\x0c\x00\x2d\x02\x01\x00\x00\x00\x2e\x02\x01\x00\x05\x00\x2f\x02\x01\x00\x0a\x00\x30\x02\x01\x00\x0f\x00\x31\x02\x01\x00\x03\x00\x32\x02\x01\x00\x08\x00\x33\x02\x01\x00\x0d\x00\x34\x02\x01\x00\x01\x00\x35\x02\x01\x00\x06\x00\x36\x02\x01\x00\x0b\x00\x37\x02\x01\x00\x10\x00\x38\x02\x01\x00\x04\x00\x39\x02\x01\x00\x09\x00\x3a\x02\x01\x00\x0e\x00\x3b\x02\x01\x00\x02\x00\x3c\x02\x01\x00\x07\x00\x3d\x02\x01\x00\x0c\x00\x3e\x02\x01\x00\x00\x00\x3f\x02\x01\x00\x05\x00\x40\x02\x01\x00\x0a\x00\x41\x02\x01\x00\x0f\x00\x42\x02\x01\x00\x03\x00\x43\x02\x01\x00\x08\x00\x44\x02\x01\x00\x0d\x00\x45\x02\x01\x00\x01\x00\x46\x02\x01\x00\x06\x00\x47\x02\x01\x00\x0b\x00\x48\x02\x01\x00\x10\x00\x49\x02\x01\x00\x04\x00\x4a\x02\x01\x00\x09\x00\x4b\x02\x01\x00\x21\x22\x23\x24\x25\x26\x27\x28\x29\x2a\x2b\x2c\x2d\x2e\x2f\x30\x31\x32\x33\x34\x35\x36\x37\x38\x39\x3a\x3b\x3c\x3d\x3e\x3f\x40\x41\x42\x43\x44\x45\x46\x47\x48\x49\x4a\x4b\x4c\x4d\x4e\x4f\x50\x51\x52\x53\x54\x55\x56\x57\x58\x59\x5a\x5b\x5c\x5d\x5e\x5f\x60",
    sequences: &[
        Case {
            list: &[0, 1, 2, 3, 4, 5, 6, 7, 8, 9, 10, 11, 12, 13, 14, 15],
            peak: 49,
            spread: 565,
            lateness: 294,
        },
        Case {
            list: &[15, 14, 13, 12, 11, 10, 9, 8, 7, 6, 5, 4, 3, 2, 1, 0],
            peak: 49,
            spread: 565,
            lateness: 288,
        },
        Case {
            list: &[15, 11, 6, 3, 8, 2, 4, 7, 1, 14, 13, 12, 0, 5, 10, 9],
            peak: 51,
            spread: 585,
            lateness: 292,
        },
        Case {
            list: &[5, 1, 12, 10, 9, 3, 11, 0, 6, 8, 13, 15, 7, 14, 4, 2],
            peak: 48,
            spread: 580,
            lateness: 306,
        },
        Case {
            list: &[9, 14, 1, 8, 12, 3, 4, 15, 0, 11, 7, 10, 5, 6, 2, 13],
            peak: 47,
            spread: 573,
            lateness: 288,
        },
        Case {
            list: &[14, 0, 1, 7, 9, 5, 12, 11, 3, 15, 4, 8, 13, 10, 2, 6],
            peak: 55,
            spread: 626,
            lateness: 313,
        },
        Case {
            list: &[11, 7, 3, 10, 9, 1, 8, 0, 15, 14, 6, 2, 12, 5, 13, 4],
            peak: 50,
            spread: 568,
            lateness: 281,
        },
        Case {
            list: &[8, 10, 0, 4, 7, 11, 5, 6, 14, 12, 13, 15, 2, 9, 3, 1],
            peak: 50,
            spread: 534,
            lateness: 273,
        },
    ],
    forbidden: &[
        &[0, 1, 2, 3, 4, 5, 6, 7, 8, 9, 10, 11, 12, 13, 14, 0],
        &[0, 1, 2, 3, 4, 5, 6, 7, 8, 9, 10, 11, 12, 13, 14, 14],
        &[0, 1, 2, 3, 4, 5, 6, 7, 8, 9, 10, 11, 12, 13, 14, 16],
        &[0, 1, 2, 3, 4, 5, 6, 7, 8, 9, 10, 11, 12, 13, 14, 31],
        &[0, 1, 2, 3, 4, 5, 6, 7, 8, 9, 10, 11, 12, 13, 14, 32],
        &[0, 1, 2, 3, 4, 5, 6, 7, 8, 9, 10, 11, 12, 13, 14, 47],
        &[0, 1, 2, 3, 4, 5, 6, 7, 8, 9, 10, 11, 12, 13, 14, 63],
        &[0, 1, 2, 3, 4, 5, 6, 7, 8, 9, 10, 11, 12, 13, 14, 64],
        &[0, 1, 2, 3, 4, 5, 6, 7, 8, 9, 10, 11, 12, 13, 14, 255],
        &[0, 1, 2, 3, 4, 5, 6, 7, 8, 9, 10, 11, 12, 13, 14, 15, 0],
        &[0, 1, 2, 3, 4, 5, 6, 7, 8, 9, 10, 11, 12, 13, 14, 15, 16],
        &[0, 1, 2, 3, 4, 5, 6, 7, 8, 9, 10, 11, 12, 13, 14, 15, 32],
        &[64],
    ],
    short: &[
        &[],
        &[15],
        &[0, 1, 2, 3, 4, 5, 6, 7, 8, 9, 10, 11, 12, 13, 14],
        &[15, 14, 13, 12, 11, 10, 9, 8, 7, 6, 5, 4, 3, 2, 1],
    ],
};

// 16 sheets that serve 64 orders each, all due in step 1
pub const FULL: Cases = Cases {
    file: b"\x01\x00\x10\x00\x40\x00\x0c\x00\x8c\x00\x4c\x02\xff\xff\xff\xff\xff\xff\xff\xff\xff\xff\xff\xff\xff\xff\xff\xff\xff\xff\xff\xff\xff\xff\xff\xff\xff\xff\xff\xff\xff\xff\xff\xff\xff\xff\xff\xff\xff\xff\xff\xff\xff\xff\xff\xff\xff\xff\xff\xff\xff\xff\xff\xff\xff\xff\xff\xff\xff\xff\xff\xff\xff\xff\xff\xff\xff\xff\xff\xff\xff\xff\xff\xff\xff\xff\xff\xff\xff\xff\xff\xff\xff\xff\xff\xff\xff\xff\xff\xff\xff\xff\xff\xff\xff\xff\xff\xff\xff\xff\xff\xff\xff\xff\xff\xff\xff\xff\xff\xff\xff\xff\xff\xff\xff\xff\xff\xff\xff\xff\xff\xff\xff\xff\xff\xff\xff\xff\xff\xff\x01\x00\x0c\x02\x01\x00\x01\x00\x0d\x02\x01\x00\x01\x00\x0e\x02\x01\x00\x01\x00\x0f\x02\x01\x00\x01\x00\x10\x02\x01\x00\x01\x00\x11\x02\x01\x00\x01\x00\x12\x02\x01\x00\x01\x00\x13\x02\x01\x00\x01\x00\x14\x02\x01\x00\x01\x00\x15\x02\x01\x00\x01\x00\x16\x02\x01\x00\x01\x00\x17\x02\x01\x00\x01\x00\x18\x02\x01\x00\x01\x00\x19\x02\x01\x00\x01\x00\x1a\x02\x01\x00\x01\x00\x1b\x02\x01\x00\x01\x00\x1c\x02\x01\x00\x01\x00\x1d\x02\x01\x00\x01\x00\x1e\x02\x01\x00\x01\x00\x1f\x02\x01\x00\x01\x00\x20\x02\x01\x00\x01\x00\x21\x02\x01\x00\x01\x00\x22\x02\x01\x00\x01\x00\x23\x02\x01\x00\x01\x00\x24\x02\x01\x00\x01\x00\x25\x02\x01\x00\x01\x00\x26\x02\x01\x00\x01\x00\x27\x02\x01\x00\x01\x00\x28\x02\x01\x00\x01\x00\x29\x02\x01\x00\x01\x00\x2a\x02\x01\x00\x01\x00\x2b\x02\x01\x00\x01\x00\x2c\x02\x01\x00\x01\x00\x2d\x02\x01\x00\x01\x00\x2e\x02\x01\x00\x01\x00\x2f\x02\x01\x00\x01\x00\x30\x02\x01\x00\x01\x00\x31\x02\x01\x00\x01\x00\x32\x02\x01\x00\x01\x00\x33\x02\x01\x00\x01\x00\x34\x02\x01\x00\x01\x00\x35\x02\x01\x00\x01\x00\x36\x02\x01\x00\x01\x00\x37\x02\x01\x00\x01\x00\x38\x02\x01\x00\x01\x00\x39\x02\x01\x00\x01\x00\x3a\x02\x01\x00\x01\x00\x3b\x02\x01\x00\x01\x00\x3c\x02\x01\x00\x01\x00\x3d\x02\x01\x00\x01\x00\x3e\x02\x01\x00\x01\x00\x3f\x02\x01\x00\x01\x00\x40\x02\x01\x00\x01\x00\x41\x02\x01\x00\x01\x00\x42\x02\x01\x00\x01\x00\x43\x02\x01\x00\x01\x00\x44\x02\x01\x00\x01\x00\x45\x02\x01\x00\x01\x00\x46\x02\x01\x00\x01\x00\x47\x02\x01\x00\x01\x00\x48\x02\x01\x00\x01\x00\x49\x02\x01\x00\x01\x00\x4a\x02\x01\x00\x01\x00\x4b\x02\x01\x00\x21\x22\x23\x24\x25\x26\x27\x28\x29\x2a\x2b\x2c\x2d\x2e\x2f\x30\x31\x32\x33\x34\x35\x36\x37\x38\x39\x3a\x3b\x3c\x3d\x3e\x3f\x40\x41\x42\x43\x44\x45\x46\x47\x48\x49\x4a\x4b\x4c\x4d\x4e\x4f\x50\x51\x52\x53\x54\x55\x56\x57\x58\x59\x5a\x5b\x5c\x5d\x5e\x5f\x60",
    sequences: &[
        Case {
            list: &[0, 1, 2, 3, 4, 5, 6, 7, 8, 9, 10, 11, 12, 13, 14, 15],
            peak: 64,
            spread: 1024,
            lateness: 960,
        },
        Case {
            list: &[15, 14, 13, 12, 11, 10, 9, 8, 7, 6, 5, 4, 3, 2, 1, 0],
            peak: 64,
            spread: 1024,
            lateness: 960,
        },
    ],
    forbidden: &[],
    short: &[],
};

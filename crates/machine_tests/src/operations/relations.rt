// Written by tools/int_ops_table.py.
pub(crate) static TESTS32: [[[bool; 6]; 6]; 10] = [
    // 0x46 i32.eq
    [
        [true, false, false, false, false, false],
        [false, true, false, false, false, false],
        [false, false, true, false, false, false],
        [false, false, false, true, false, false],
        [false, false, false, false, true, false],
        [false, false, false, false, false, true],
    ],
    // 0x47 i32.ne
    [
        [false, true, true, true, true, true],
        [true, false, true, true, true, true],
        [true, true, false, true, true, true],
        [true, true, true, false, true, true],
        [true, true, true, true, false, true],
        [true, true, true, true, true, false],
    ],
    // 0x48 i32.lt_s
    [
        [false, true, true, true, false, false],
        [false, false, true, true, false, false],
        [false, false, false, true, false, false],
        [false, false, false, false, false, false],
        [true, true, true, true, false, true],
        [true, true, true, true, false, false],
    ],
    // 0x49 i32.lt_u
    [
        [false, true, true, true, true, true],
        [false, false, true, true, true, true],
        [false, false, false, true, true, true],
        [false, false, false, false, true, true],
        [false, false, false, false, false, true],
        [false, false, false, false, false, false],
    ],
    // 0x4a i32.gt_s
    [
        [false, false, false, false, true, true],
        [true, false, false, false, true, true],
        [true, true, false, false, true, true],
        [true, true, true, false, true, true],
        [false, false, false, false, false, false],
        [false, false, false, false, true, false],
    ],
    // 0x4b i32.gt_u
    [
        [false, false, false, false, false, false],
        [true, false, false, false, false, false],
        [true, true, false, false, false, false],
        [true, true, true, false, false, false],
        [true, true, true, true, false, false],
        [true, true, true, true, true, false],
    ],
    // 0x4c i32.le_s
    [
        [true, true, true, true, false, false],
        [false, true, true, true, false, false],
        [false, false, true, true, false, false],
        [false, false, false, true, false, false],
        [true, true, true, true, true, true],
        [true, true, true, true, false, true],
    ],
    // 0x4d i32.le_u
    [
        [true, true, true, true, true, true],
        [false, true, true, true, true, true],
        [false, false, true, true, true, true],
        [false, false, false, true, true, true],
        [false, false, false, false, true, true],
        [false, false, false, false, false, true],
    ],
    // 0x4e i32.ge_s
    [
        [true, false, false, false, true, true],
        [true, true, false, false, true, true],
        [true, true, true, false, true, true],
        [true, true, true, true, true, true],
        [false, false, false, false, true, false],
        [false, false, false, false, true, true],
    ],
    // 0x4f i32.ge_u
    [
        [true, false, false, false, false, false],
        [true, true, false, false, false, false],
        [true, true, true, false, false, false],
        [true, true, true, true, false, false],
        [true, true, true, true, true, false],
        [true, true, true, true, true, true],
    ],
];

pub(crate) static TESTS64: [[[bool; 6]; 6]; 10] = [
    // 0x51 i64.eq
    [
        [true, false, false, false, false, false],
        [false, true, false, false, false, false],
        [false, false, true, false, false, false],
        [false, false, false, true, false, false],
        [false, false, false, false, true, false],
        [false, false, false, false, false, true],
    ],
    // 0x52 i64.ne
    [
        [false, true, true, true, true, true],
        [true, false, true, true, true, true],
        [true, true, false, true, true, true],
        [true, true, true, false, true, true],
        [true, true, true, true, false, true],
        [true, true, true, true, true, false],
    ],
    // 0x53 i64.lt_s
    [
        [false, true, true, true, false, false],
        [false, false, true, true, false, false],
        [false, false, false, true, false, false],
        [false, false, false, false, false, false],
        [true, true, true, true, false, true],
        [true, true, true, true, false, false],
    ],
    // 0x54 i64.lt_u
    [
        [false, true, true, true, true, true],
        [false, false, true, true, true, true],
        [false, false, false, true, true, true],
        [false, false, false, false, true, true],
        [false, false, false, false, false, true],
        [false, false, false, false, false, false],
    ],
    // 0x55 i64.gt_s
    [
        [false, false, false, false, true, true],
        [true, false, false, false, true, true],
        [true, true, false, false, true, true],
        [true, true, true, false, true, true],
        [false, false, false, false, false, false],
        [false, false, false, false, true, false],
    ],
    // 0x56 i64.gt_u
    [
        [false, false, false, false, false, false],
        [true, false, false, false, false, false],
        [true, true, false, false, false, false],
        [true, true, true, false, false, false],
        [true, true, true, true, false, false],
        [true, true, true, true, true, false],
    ],
    // 0x57 i64.le_s
    [
        [true, true, true, true, false, false],
        [false, true, true, true, false, false],
        [false, false, true, true, false, false],
        [false, false, false, true, false, false],
        [true, true, true, true, true, true],
        [true, true, true, true, false, true],
    ],
    // 0x58 i64.le_u
    [
        [true, true, true, true, true, true],
        [false, true, true, true, true, true],
        [false, false, true, true, true, true],
        [false, false, false, true, true, true],
        [false, false, false, false, true, true],
        [false, false, false, false, false, true],
    ],
    // 0x59 i64.ge_s
    [
        [true, false, false, false, true, true],
        [true, true, false, false, true, true],
        [true, true, true, false, true, true],
        [true, true, true, true, true, true],
        [false, false, false, false, true, false],
        [false, false, false, false, true, true],
    ],
    // 0x5a i64.ge_u
    [
        [true, false, false, false, false, false],
        [true, true, false, false, false, false],
        [true, true, true, false, false, false],
        [true, true, true, true, false, false],
        [true, true, true, true, true, false],
        [true, true, true, true, true, true],
    ],
];

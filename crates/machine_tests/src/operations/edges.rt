// Written by tools/int_ops_table.py.
pub(crate) static EDGES32: [u32; 6] = [0x0, 0x1, 0x21, 0x7fffffff, 0x80000000, 0xffffffff];

pub(crate) static EDGES64: [u64; 6] = [
    0x0,
    0x1,
    0x41,
    0x7fffffffffffffff,
    0x8000000000000000,
    0xffffffffffffffff,
];

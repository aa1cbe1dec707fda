// Where the fields of a word begin: `word / FIELD` brings the field to bit 0, and `% 2 ^ count` cuts it off.

// Any word: bits 31-28.
pub const KIND: u32 = 0x1000_0000;

// Head, kind 1: desks in bits 27-24, transactions in 23-16, words of the plan in 15-0.
pub const DESKS: u32 = 0x100_0000;

pub const TRANSACTIONS: u32 = 0x1_0000;

// Transaction, kind 2: parameters in bits 27-24, steps in 23-20, partitioning in 19-16, weight in 15-8, urgent in 7.
pub const PARAMETERS: u32 = 0x100_0000;

pub const STEPS: u32 = 0x10_0000;

pub const PARTITIONING: u32 = 0x1_0000;

pub const WEIGHT: u32 = 0x100;

pub const URGENT: u32 = 0x80;

// Read and write, kinds 3 and 4: table in bits 27-25, column in 24-23, row source in 22-20, fixed row in 4-0.
pub const TABLE: u32 = 0x200_0000;

pub const COLUMN: u32 = 0x80_0000;

pub const ROW_SOURCE: u32 = 0x10_0000;

// Set, add, need and take, kinds 5 to 8: operand source in bits 27-25, fixed number in 24-0.
pub const OPERAND_SOURCE: u32 = 0x200_0000;

// Frame head, kind 9: addressed desk in bits 27-24, words of the frame in 15-0.
pub const ADDRESSED: u32 = 0x100_0000;

// Update, kind 10: desk in bits 27-24, cells in 23-20.
pub const UPDATE_DESK: u32 = 0x100_0000;

pub const CELLS: u32 = 0x10_0000;

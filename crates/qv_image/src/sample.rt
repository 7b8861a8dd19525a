//! An image's file for the tests of reading and writing.

/// The file of a module that adds 1 to its first argument.
pub const FILE: [u8; 64] = [
    0x44, 0x14, 0x72, 0x12, 8, 0, 0, 0, 32, 0, 0, 0, 28, 0, 0, 0, // magic to code length
    60, 0, 0, 0, 4, 0, 0, 0, 0, 0, 0, 0, 0, 0, 1, 0, // data offset to bss length
    3, 8, 0, 0, 0, 9, 16, 0, 0, 0, 29, // ENTER 8, LOCAL 16, LOAD4
    8, 1, 0, 0, 0, 38, 4, 8, 0, 0, 0, // CONST 1, ADD, LEAVE 8
    6, 4, 8, 0, 0, 0, // PUSH, LEAVE 8
    0, 0, 0, 0, // data
];

// The limits of the tool chain. What passes one is refused by name.

/// The most bytes of an identifier.
pub const IDENTIFIER_BYTES: usize = 127;

/// How deep expressions, statements, declarators, initializers and records with members may nest in
/// the parse tree, each class by itself. Parentheses are counted.
pub const NESTING: usize = 200;

/// How deep the pointers, arrays and functions of one written or declared type may nest.
pub const DECLARATOR_NESTING: usize = 1_000;

/// How deep the expression of an `#if` or `#elif` may nest.
pub const CONDITION_NESTING: usize = 200;

/// How deep macro arguments may be expanded within arguments.
pub const ARGUMENT_NESTING: usize = 200;

/// The most tokens of the function definitions of one unit.
pub const UNIT_BODY_TOKENS: usize = 1 << 17;

/// The most tokens of the function definitions of all units.
pub const BODY_TOKENS: usize = 1 << 19;

/// The most tokens of one unit in preprocessing.
pub const UNIT_TOKENS: usize = 1 << 22;

/// The most tokens of all units.
pub const TOKENS: usize = 1 << 22;

/// The most macro replacements in one unit.
pub const MACRO_REPLACEMENTS: u32 = 1_000_000;

/// The most files that may be open at once by `#include`.
pub const OPEN_INCLUDES: usize = 64;

/// The most words of the arguments of one call.
pub const ARGUMENT_WORDS: usize = 62;

/// The cost of a function, and the frame of an assembly procedure, in bytes, is below this.
pub const FRAME_BYTES: u32 = 32_767;

/// The most bytes of a module's block of memory.
pub const BLOCK_BYTES: u32 = 1 << 26;

/// The bytes of the program stack, which linking adds and the machine keeps.
pub const STACK_BYTES: u32 = 65_536;

/// The most bytes of an image's code.
pub const CODE_BYTES: u32 = 1 << 27;

/// The most bytes of a file.
pub const FILE_BYTES: u32 = (1 << 31) - 1;

/// The most arguments of a trap, and the words of a call of a module.
pub const CALL_WORDS: usize = 14;

/// The most arguments of a trap that lend bytes to it, texts among them.
pub const TRAP_INPUTS: usize = 2;

/// The most arguments of a trap that it fills.
pub const TRAP_OUTPUTS: usize = 1;

// A compiled body token gives at most 32 instructions of at most 5 bytes, so no program that is
// within the limit of tokens passes the limit of code.
const _: () = prove!(32 * 5 * BODY_TOKENS <= CODE_BYTES as usize);

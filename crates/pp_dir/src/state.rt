//! What is known between the lines of a unit.
use pp_macro::MacroTable;
use pp_tok::token::PpTok;
use qv_base::name::Name;
use sqlite_items::Items;

/// What is known between two lines.
#[derive(Drop)]
pub struct State {
    /// The names of the files by their numbers: in the order in which they were first read.
    pub names: Items<Name>,
    /// The names that were tried, in order.
    pub tried: Items<Name>,
    /// The macros.
    pub table: MacroTable,
    /// How many replacements were made.
    pub count: u32,
    /// The tokens.
    pub toks: Items<PpTok>,
}

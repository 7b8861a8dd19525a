//! The options of a command, as they are read.
use crate::calls::Calls;
use indexmap::IndexMap;

/// The options read so far.
#[derive(Debug, Drop)]
pub struct Options {
    /// The folders of included files.
    pub dirs: Vec<String>,
    /// The texts of the macros, by their names.
    pub defs: IndexMap<String, String>,
    /// The file that binds traps, where it was given.
    pub binds: Option<String>,
    /// The folder of the texts, where it was given.
    pub folder: Option<String>,
    /// The image, where it was given.
    pub image: Option<String>,
    /// The file that names the files, where it was given.
    pub list: Option<String>,
    /// The seed and the size of a program that is made.
    pub seed_size: Option<(u32, u32)>,
    /// The most steps of a call, where they were given.
    pub steps: Option<u64>,
    /// The calls.
    pub calls: Calls,
}

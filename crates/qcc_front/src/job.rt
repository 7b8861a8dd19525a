// What the compiler is asked to do.

/// Units to compile, and how.
#[derive(Debug, Drop)]
pub struct SourceJob {
    /// The names of the units, in order.
    pub units: Vec<String>,
    /// The directories that are looked in for included files, behind that of the including file.
    pub dirs: Vec<String>,
    /// Macros with their texts, of which a later one of a name counts.
    pub defs: Vec<(String, String)>,
    /// The name of the file that binds names to traps.
    pub binds: Option<String>,
}

//! What the tool is asked to do.
use qv_base::limits::CALL_WORDS;

/// A command, with the defaults filled in and the names in order.
#[derive(Debug, Drop)]
pub enum Command {
    /// Compiles each unit; the texts go to the folder under the units' stems, which differ.
    Qcc {
        /// The folders of included files, in their order.
        dirs: Vec<String>,
        /// The macros that are defined, each name once, with their texts.
        defs: Vec<(String, String)>,
        /// The file that binds traps.
        binds: Option<String>,
        /// The folder of the texts.
        folder: String,
        /// 1 to 4,096 units.
        units: Vec<String>,
    },
    /// Links the files to the image.
    Q3asm {
        /// The image's name.
        image: String,
        /// 1 to 4,096 files, or none where there is a list.
        files: Vec<String>,
        /// The file that names the files.
        list: Option<String>,
    },
    /// Writes the text of an image.
    Qdis {
        /// The image's name.
        image: String,
        /// The name of the file that is written.
        file: String,
    },
    /// Calls the image's vmMain once for each words, in order.
    Qrun {
        /// The most steps of each call.
        steps: u64,
        /// The words of 1 to 4,096 calls.
        calls: Vec<[u32; CALL_WORDS]>,
        /// The image's name.
        image: String,
    },
    /// Compiles the units, or a program that is made, links them, writes the image and calls it.
    Qall {
        /// The folders of included files, in their order.
        dirs: Vec<String>,
        /// The macros that are defined, each name once, with their texts.
        defs: Vec<(String, String)>,
        /// The file that binds traps.
        binds: Option<String>,
        /// The seed and the size, from 1 to 10,000, of a program that is made.
        seed_size: Option<(u32, u32)>,
        /// The most steps of each call.
        steps: u64,
        /// The words of 1 to 4,096 calls.
        calls: Vec<[u32; CALL_WORDS]>,
        /// The image's name.
        image: String,
        /// 1 to 4,096 units, or none where the program is made.
        units: Vec<String>,
    },
}

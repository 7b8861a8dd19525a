//! The first word of a command, its options and its switches.
ghost use Rattle.std.specs.Prelude.{◌≡◌};
ghost use Rattle.qv_words.specs.Words.{verb_of, option_of, switch_of, takes, takes_switch, default_steps};

/// What the first words say is to be done.
#[derive(Clone, Copy, Debug, PartialEq, Eq)]
pub enum Verb {
    /// `qcc` compiles units to assembly texts.
    Compile,
    /// `q3asm` links assembly files to an image.
    Assemble,
    /// `qdis` writes an image's text.
    Disassemble,
    /// `qrun` calls an image's vmMain.
    Run,
    /// `qall` compiles, links and calls.
    Build,
    /// `qall --gen` does so with a program that it makes.
    Generate,
}

/// An option: a word with a value behind it.
#[derive(Clone, Copy, Debug, PartialEq, Eq)]
pub enum OptionName {
    /// `-I dir`: a folder of included files.
    IncludeDir,
    /// `-D name[=text]`: a macro.
    Definition,
    /// `-t binds`: the file that binds traps.
    Binds,
    /// `-d dir`: the folder of the texts that are written.
    Folder,
    /// `-o image`: the image that is written.
    Image,
    /// `-f list`: the file that names the files.
    ListFile,
    /// `-n N`: the most steps of each call.
    Steps,
    /// `-a W`: a word of the call.
    Word,
}

/// A switch: a word without a value.
#[derive(Clone, Copy, Debug, PartialEq, Eq)]
pub enum Switch {
    /// `-c`: ends the words of one call and begins those of the next.
    NextCall,
}

/// The command that begins with this word. None where no command does.
pub fn verb_named(word: &str) -> Option<Verb>
    ensures { result ≡ verb_of word.now }
{
    match word {
        "qcc" => Some(Verb::Compile),
        "q3asm" => Some(Verb::Assemble),
        "qdis" => Some(Verb::Disassemble),
        "qrun" => Some(Verb::Run),
        "qall" => Some(Verb::Build),
        _ => None,
    }
}

/// The option that is written so. None where no option is.
pub fn option_named(word: &str) -> Option<OptionName>
    ensures { result ≡ option_of word.now }
{
    match word {
        "-I" => Some(OptionName::IncludeDir),
        "-D" => Some(OptionName::Definition),
        "-t" => Some(OptionName::Binds),
        "-d" => Some(OptionName::Folder),
        "-o" => Some(OptionName::Image),
        "-f" => Some(OptionName::ListFile),
        "-n" => Some(OptionName::Steps),
        "-a" => Some(OptionName::Word),
        _ => None,
    }
}

/// The switch that is written so. None where no switch is.
pub fn switch_named(word: &str) -> Option<Switch>
    ensures { result ≡ switch_of word.now }
{
    match word {
        "-c" => Some(Switch::NextCall),
        _ => None,
    }
}

/// Whether the command takes the option, as the table at [`read_words`](crate::words::read_words) says.
pub fn takes(verb: Verb, option: OptionName) -> bool
    ensures { result ≡ takes verb option }
{
    match verb {
        Verb::Compile => matches!(
            option,
            OptionName::IncludeDir | OptionName::Definition | OptionName::Binds | OptionName::Folder
        ),
        Verb::Assemble => matches!(option, OptionName::Image | OptionName::ListFile),
        Verb::Disassemble => false,
        Verb::Run => matches!(option, OptionName::Steps | OptionName::Word),
        Verb::Build => matches!(
            option,
            OptionName::IncludeDir
                | OptionName::Definition
                | OptionName::Binds
                | OptionName::Image
                | OptionName::Steps
                | OptionName::Word
        ),
        Verb::Generate => matches!(
            option,
            OptionName::Image | OptionName::Steps | OptionName::Word
        ),
    }
}

/// Whether the command takes the switch, as the same table says.
pub fn takes_switch(verb: Verb, switch: Switch) -> bool
    ensures { result ≡ takes_switch verb switch }
{
    match switch {
        Switch::NextCall => matches!(verb, Verb::Run | Verb::Build | Verb::Generate),
    }
}

/// The most steps of a call where `-n` doesn't come. A command that takes no `-n` makes no call.
pub fn default_steps(verb: Verb) -> u64
    ensures { result ≡ default_steps verb }
{
    match verb {
        Verb::Run | Verb::Build | Verb::Generate => 10_000_000,
        Verb::Compile | Verb::Assemble | Verb::Disassemble => 0,
    }
}

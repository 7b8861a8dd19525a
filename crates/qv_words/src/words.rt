//! Reads the words of the command line.
ghost use Rattle.std.specs.Prelude.{◌≡◌, ◌∷◌, ◌≤◌, IfOk, IfSome, IsTrue, MatchOption, map, drop, length, option_map, string_bytes, None};
ghost use Rattle.qv_words.specs.Words.{reading, read_from, read_generator, begins_with_gen, seeded};
ghost use Rattle.qv_words.specs.Names.{begins_with_dash};
ghost use Rattle.qv_words.specs.Shown.{command_shown, options_shown, KeepsLimits};

use crate::command::Command;
use crate::finish::command_with;
use crate::names::begins_with_dash;
use crate::number::{seed, size};
use crate::options::Options;
use crate::read::{no_options, read_option, read_switch};
use crate::verb::{Verb, switch_named, verb_named};
use qv_base::NoMemory;
use std::alloc::Global;

/// The command that the words stand for, with the defaults filled in. None exactly where they have
/// another form than a row of this table. It says how often an option or a switch comes with a command, in
/// any order, and the names behind them.
///
/// ```text
///             -I  -D  -t  -d  -o  -f  -n  -a  -c   names
/// qcc         *   *   ?   1                        units, whose stems differ
/// q3asm                       1   ?                files, or none beside -f
/// qdis                                             an image and a file
/// qrun                                ?   *   *    an image
/// qall        *   *   ?       1       ?   *   *    units
/// qall --gen                  1       ?   *   *    none; behind --gen stand a seed and a size
///
/// *  any number of times: -c at most 4,095 times, and -a at most 14 times before, between and behind them
/// ?  at most once
/// 1  exactly once
/// Units and files are 1 to 4,096.
/// ```
///
/// # Errors
///
/// NoMemory where memory for the command is refused.
pub fn read_words(alloc: Global, words: &[String]) -> Result<Option<Command>, NoMemory>
    ensures reading { IfOk result (λ c. option_map command_shown c ≡ reading (map string_bytes words.now)) }
    ensures limits { IfOk result (λ c. IfSome c KeepsLimits) }
{
    let [first, rest @ ..] = words else {
        return Ok(None);
    };
    if first.as_str() == "qall" && begins_with_gen(rest) {
        return read_generator(alloc, rest);
    }
    let Some(verb) = verb_named(first.as_str()) else {
        return Ok(None);
    };
    read_from(alloc, verb, no_options(alloc), rest)
}

fn begins_with_gen(words: &[String]) -> bool
    ensures { result ≡ begins_with_gen (map string_bytes words.now) }
{
    match words {
        [first, ..] => first.as_str() == "--gen",
        [] => false,
    }
}

// The command of `--gen`, a seed, a size and options.
fn read_generator(alloc: Global, words: &[String]) -> Result<Option<Command>, NoMemory>
    ensures reading { IfOk result (λ c. option_map command_shown c ≡ read_generator (map string_bytes words.now)) }
    ensures limits { IfOk result (λ c. IfSome c KeepsLimits) }
{
    let [_, seed, size, rest @ ..] = words else {
        return Ok(None);
    };
    let Some(options) = seeded(alloc, seed.as_str(), size.as_str()) else {
        return Ok(None);
    };
    read_from(alloc, Verb::Generate, options, rest)
}

// The options of a program that is made.
fn seeded(alloc: Global, seed_word: &str, size_word: &str) -> Option<Options>
    ensures { option_map options_shown result ≡ seeded seed_word.now size_word.now }
{
    let seed = seed(seed_word.as_bytes())?;
    let size = size(size_word.as_bytes())?;
    let mut options = no_options(alloc);
    options.seed_size = Some((seed, size));
    Some(options)
}

// The command of options and names, after those read before.
fn read_from(
    alloc: Global,
    verb: Verb,
    mut options: Options,
    words: &[String],
) -> Result<Option<Command>, NoMemory>
    ensures reading { IfOk result (λ c. option_map command_shown c ≡ read_from verb (map string_bytes words.now) (options_shown options)) }
    ensures limits { IfOk result (λ c. IfSome c KeepsLimits) }
{
    let mut at = 0;
    while at < words.len() && begins_with_dash(words[at].as_bytes()) {
        let Some(values) = read_first(
            alloc,
            verb,
            &mut options,
            words[at].as_str(),
            &words[at + 1..],
        )?
        else {
            return Ok(None);
        };
        at += 1 + values;
    }
    command_with(alloc, verb, options, &words[at..])
}

// Reads the option or the switch that this word begins, and answers how many of the words behind it belong to it.
// None where these words have no reading.
fn read_first(
    alloc: Global,
    verb: Verb,
    options: &mut Options,
    word: &str,
    rest: &[String],
) -> Result<Option<usize>, NoMemory>
    requires { IsTrue (begins_with_dash word.now) }
    ensures reading { let all = read_from verb (word.now ∷ map string_bytes rest.now) (options_shown options.old) in IfOk result (λ values. MatchOption values (all ≡ None) (λ n. all ≡ read_from verb (map string_bytes (drop n rest.now)) (options_shown options.new))) }
    ensures within { IfOk result (λ values. IfSome values (λ n. n ≤ length rest.now)) }
{
    if switch_named(word).is_some() {
        if !read_switch(verb, options, word)? {
            return Ok(None);
        }
        return Ok(Some(0));
    }
    let [value, ..] = rest else {
        return Ok(None);
    };
    if !read_option(alloc, verb, options, word, value.as_str())? {
        return Ok(None);
    }
    Ok(Some(1))
}

#[cfg(test)]
mod tests {
    use super::*;
    use std::alloc::AllocError;
    use std::test::Fail;

    // The words that stand between bars.
    fn cut(alloc: Global, line: &str) -> Result<Vec<String>, AllocError> {
        let mut words = Vec::new(alloc);
        for word in line.split('|') {
            words.push(String::from_str(alloc, word)?)?;
        }
        Ok(words)
    }

    #[test]
    fn commands(rt: HostRuntime) -> Result<(), Fail> {
        let alloc = rt.alloc();
        for (line, shown) in [
            (
                "qcc|-D|A=1|-I|-x|-D|B|-t|b.txt|-D|A=2=3|-I|y|-d|-d|s/a.c|b.c",
                "Some(Qcc { dirs: [\"-x\", \"y\"], defs: [(\"A\", \"2=3\"), (\"B\", \"1\")], binds: Some(\"b.txt\"), folder: \"-d\", units: [\"s/a.c\", \"b.c\"] })",
            ),
            (
                "q3asm|-o|i|a|a",
                "Some(Q3asm { image: \"i\", files: [\"a\", \"a\"], list: None })",
            ),
            (
                "q3asm|-f|l|-o|i",
                "Some(Q3asm { image: \"i\", files: [], list: Some(\"l\") })",
            ),
            ("qdis|i|f", "Some(Qdis { image: \"i\", file: \"f\" })"),
            (
                "qrun|-a|-1|-c|-n|07|-c|-a|2|-a|3|i",
                "Some(Qrun { steps: 7, calls: [[4294967295, 0, 0, 0, 0, 0, 0, 0, 0, 0, 0, 0, 0, 0], [0, 0, 0, 0, 0, 0, 0, 0, 0, 0, 0, 0, 0, 0], [2, 3, 0, 0, 0, 0, 0, 0, 0, 0, 0, 0, 0, 0]], image: \"i\" })",
            ),
            (
                "qall|-o|i|a.c|s/a.c",
                "Some(Qall { dirs: [], defs: [], binds: None, seed_size: None, steps: 10000000, calls: [[0, 0, 0, 0, 0, 0, 0, 0, 0, 0, 0, 0, 0, 0]], image: \"i\", units: [\"a.c\", \"s/a.c\"] })",
            ),
            (
                "qall|--gen|0|10000|-n|0|-o|i",
                "Some(Qall { dirs: [], defs: [], binds: None, seed_size: Some((0, 10000)), steps: 0, calls: [[0, 0, 0, 0, 0, 0, 0, 0, 0, 0, 0, 0, 0, 0]], image: \"i\", units: [] })",
            ),
        ] {
            let command = read_words(alloc, &cut(alloc, line)?)?;
            let text = format!(in alloc; "{command:?}")?;
            assert_eq!(rt; text.as_str(), shown, "{line}");
        }
        Ok(())
    }

    #[test]
    fn forms(rt: HostRuntime) -> Result<(), Fail> {
        let alloc = rt.alloc();
        let read = "qcc|-d|o|a.c
qcc|-d|o|-D|A=/* ## */ x|a.c
qcc|-d|o|-D|A=\"##\"|a.c
qcc|-d|o|-D|A=\"a\\\"##\"|a.c
qcc|-d|o|-D|A='/*'|a.c
qcc|-d|o|-D|A=x ## y|a.c
qcc|-d|o|-D|A=x###|a.c
qcc|-d|o|-D|A=|a.c
qcc|-d|o|-D|__LINE=1|a.c
q3asm|-o|i|x/.c
qrun|-n|18446744073709551615|-a|-2147483648|-a|4294967295|i
qrun|-n|00000000000000000001|i
qrun|-a|1|-a|1|-a|1|-a|1|-a|1|-a|1|-a|1|-a|1|-a|1|-a|1|-a|1|-a|1|-a|1|-a|1|i
qall|--gen|4294967295|00001|-c|-o|i";
        let unread = "
q4asm
qcc
qcc|a.c
qcc|-d|o
qcc|-d||a.c
qcc|-d
qcc|-d|o|-d|o|a.c
qcc|-d|o|-t|b|-t|b|a.c
qcc|-d|o|-I||a.c
qcc|-d|o|-o|i|a.c
qcc|-d|o|-a.c
qcc|-d|o|a.c|-b.c
qcc|-d|o|a.c|x/a.c
qcc|-d|o|.c
qcc|-d|o|x/.c
qcc|-d|o|a.h
qcc|-d|o||a.c
qcc|-d|o|-D|9a|a.c
qcc|-d|o|-D||a.c
qcc|-d|o|-D|=1|a.c
qcc|-d|o|-D|f(x)=1|a.c
qcc|-d|o|-D|defined|a.c
qcc|-d|o|-D|__LINE__=1|a.c
qcc|-d|o|-D|A=/*|a.c
qcc|-d|o|-D|A=/*/|a.c
qcc|-d|o|-D|A='/*|a.c
qcc|-d|o|-D|A=#include <a/*b>|a.c
qcc|-d|o|-D|A=###|a.c
qcc|-d|o|-D|A= ## x|a.c
qcc|-d|o|-D|A=x ## /* c */|a.c
qcc|-d|o|-D|A='##|a.c
qcc|-d|o|-D|A=\"a\\\"##|a.c
q3asm|-o|i
q3asm|a
q3asm|-o|i|-f|l|a
q3asm|-o|i|
q3asm|-c|-o|i|a
qdis|i
qdis|i|f|g
qdis|-o|i|f
qrun
qrun|-c
qrun|i|j
qrun|-n|18446744073709551616|i
qrun|-n|000000000000000000001|i
qrun|-n|1|-n|1|i
qrun|-n||i
qrun|-a|4294967296|i
qrun|-a|-2147483649|i
qrun|-a|-|i
qrun|-a|+1|i
qrun|-a|00000000001|i
qrun|-a|1|-a|1|-a|1|-a|1|-a|1|-a|1|-a|1|-a|1|-a|1|-a|1|-a|1|-a|1|-a|1|-a|1|-a|1|i
qrun|-o|i|i
qall|-o|i
qall|a.c
qall|-o|i|--gen|1|1
qall|-n|1|--gen|1|1|-o|i
qall|--gen|1|10001|-o|i
qall|--gen|1|0|-o|i
qall|--gen|1|000001|-o|i
qall|--gen|4294967296|1|-o|i
qall|--gen|1|1|-o|i|a.c
qall|--gen|1|1|-I|d|-o|i
qall|--gen|1
qall|--gen|1|1
qcc|--gen|1|1|-d|o|a.c";
        for line in read.split('\n') {
            let command = read_words(alloc, &cut(alloc, line)?)?;
            assert!(rt; command.is_some(), "{line}");
        }
        for line in unread.split('\n') {
            let command = read_words(alloc, &cut(alloc, line)?)?;
            assert!(rt; command.is_none(), "{line}");
        }
        assert!(rt; read_words(alloc, &cut(alloc, "qcc|-d|o|-D|A=a\nb|a.c")?)?.is_none());
        assert!(rt; read_words(alloc, &[])?.is_none());
        Ok(())
    }

    // Words behind which one word stands many times.
    fn repeated(
        alloc: Global,
        line: &str,
        word: &str,
        times: usize,
    ) -> Result<Vec<String>, AllocError> {
        let mut words = cut(alloc, line)?;
        for _ in 0..times {
            words.push(String::from_str(alloc, word)?)?;
        }
        Ok(words)
    }

    #[test]
    fn limits(rt: HostRuntime) -> Result<(), Fail> {
        let alloc = rt.alloc();
        for (line, word, times, last, is_read) in [
            ("q3asm|-o|i", "a", 4095, "a", true),
            ("q3asm|-o|i", "a", 4096, "a", false),
            ("qall|-o|i", "a.c", 4095, "a.c", true),
            ("qall|-o|i", "a.c", 4096, "a.c", false),
            ("qrun", "-c", 4095, "i", true),
            ("qrun", "-c", 4096, "i", false),
        ] {
            let mut words = repeated(alloc, line, word, times)?;
            words.push(String::from_str(alloc, last)?)?;
            assert_eq!(rt;
                read_words(alloc, &words)?.is_some(),
                is_read,
                "{line} {word}"
            );
        }
        Ok(())
    }
}

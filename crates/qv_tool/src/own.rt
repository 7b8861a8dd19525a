// The words of the module itself, which stand behind a `--`.
ghost use Rattle.std.specs.Prelude.{◌≡◌, ◌<◌, ◌≤◌, ◌^◌, length, map, string_bytes};
ghost use Rattle.qv_tool.specs.Own.{own_place, argument_text, text_in, put_front};

use qv_outside::host::TrapReply;

/// The place of the first word `--`, or the count of words. The words before it are the tool's, and those
/// behind it the module's own.
pub fn own_from(words: &[String]) -> usize
    ensures { result ≡ own_place (map string_bytes words.now) }
{
    for (place, word) in words.iter().enumerate() {
        if word.as_str() == "--" {
            return place;
        }
    }
    words.len()
}

/// Puts the word of this number, from 0, cut to what the buffer has room for beside a NUL, and the NUL. Past
/// the last word it puts an empty text's NUL, and into an empty buffer nothing. All else of the buffer stays.
pub fn argv_into(words: &[String], number: u32, buffer: &mut [u8]) -> TrapReply
    requires { length buffer.old < 2 ^ 32 }
    ensures word { result.word ≡ 0 }
    ensures used { result.used ≡ length (argument_text (map string_bytes words.now) number (length buffer.old)) }
    ensures put { buffer.new ≡ put_front (argument_text (map string_bytes words.now) number (length buffer.old)) buffer.old }
    ensures within { result.used ≤ length buffer.old }
{
    let used = match words.get(number as usize) {
        Some(word) => put_text(word.as_bytes(), buffer),
        None => put_text(b"", buffer),
    };
    TrapReply { word: 0, used }
}

// Puts the text, cut to what the buffer has room for beside a NUL, and the NUL.
fn put_text(text: &[u8], buffer: &mut [u8]) -> u32
    requires { length buffer.old < 2 ^ 32 }
    ensures used { result ≡ length (text_in text.now (length buffer.old)) }
    ensures put { buffer.new ≡ put_front (text_in text.now (length buffer.old)) buffer.old }
    ensures within { result ≤ length buffer.old }
{
    if buffer.is_empty() {
        return 0;
    }
    let count = text.len().min(buffer.len() - 1);
    buffer[..count].copy_from_slice(&text[..count]);
    buffer[count] = 0;
    count as u32 + 1
}

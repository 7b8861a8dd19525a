//! The entry frame, from which a call begins.
ghost use Rattle.std.specs.Prelude.{◌≡◌, ◌*◌, length, flat_map};
ghost use Rattle.qv_ops.specs.Code.{word_bytes};
ghost use Rattle.vm_core.specs.Memory.{frame_words};

/// The bytes of an entry frame: the return place -1, then 0, then the words of the call.
pub fn entry_frame(args: &[u32; 14]) -> [u8; 64]
    ensures { result ≡ flat_map word_bytes (frame_words args.now) }
{
    let mut words = [0u32; 16];
    words[0] = u32::MAX;
    words[2..].copy_from_slice(args);
    let mut bytes = [0u8; 64];
    write_words(&mut bytes, &words);
    bytes
}

// Writes words one after another, each with its lowest byte first.
fn write_words(bytes: &mut [u8], words: &[u32])
    requires { 4 * length words.now ≡ length bytes.old }
    ensures { bytes.new ≡ flat_map word_bytes words.now }
{
    for (i, word) in words.iter().enumerate() {
        let start = 4 * i;
        bytes[start..start + 4].copy_from_slice(&word.to_le_bytes());
    }
}

ghost use Rattle.std.specs.Prelude.{◌≡◌, ◌≤◌, length, slice_index, EachIndex, bit_xor};
ghost use Rattle.scfs_stream.specs.Stream.{stream_byte, ciphered};

use rand_chacha::ChaCha20Rng;
use rand_core::SeedableRng;
use rand_core::utils::NextWord;

/// Adds the key's stream to the bytes, by exclusive or, from the stream's first byte on. A second call under the
/// same key gives the bytes back. At most 1,048,576 bytes.
pub fn xor_stream(key: &[u8; 32], bytes: &mut [u8])
    requires { length bytes.old ≤ 1048576 }
    ensures whole { bytes.new ≡ ciphered key.now bytes.old }
    ensures each { EachIndex bytes.new (λ i.
        slice_index bytes.new i ≡ bit_xor (slice_index bytes.old i) (stream_byte key.now i)) }
{
    let mut rng = ChaCha20Rng::from_seed(*key);
    let words = bytes.len() / 4;
    'words: for place in 0..words {
        let pad = rng.next_word().to_le_bytes();
        add_pad(&mut bytes[4 * place..4 * place + 4], pad);
    }
    let pad = rng.next_word().to_le_bytes();
    add_pad(&mut bytes[4 * words..], pad);
}

// Adds the pad to at most four bytes. Put in place at both calls, so that a whole word is one sum.
#[inline(always)]
fn add_pad(bytes: &mut [u8], pad: [u8; 4])
    requires { length bytes.old ≤ 4 }
    ensures { EachIndex bytes.new (λ k.
        slice_index bytes.new k ≡ bit_xor (slice_index bytes.old k) (slice_index pad k)) }
{
    for (k, byte) in bytes.iter_mut().enumerate() {
        *byte ^= pad[k];
    }
}

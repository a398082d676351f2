ghost use Rattle.std.specs.Prelude.{◌≡◌, ◌≤◌, ◌+◌, ◌*◌, take, drop, replicate, nat_le, if◌then◌else◌};
ghost use Rattle.scfs_stream.specs.Stream.{stream};
ghost use Rattle.scfs_stream.specs.Drawn.{drawn};

use crate::sealing::Draw;
use crate::xor_stream;
use scfs_base::Coefficients;

/// What the generator of a seed draws where f (1 to 3) clouds may lie: the first 8 words of its stream are the key,
/// and the next 8 words for each power 1 to f are the coefficients. The rows from f on are zero.
pub fn draw(seed: &[u8; 32], f: u8) -> Draw
    requires low { 1 ≤ f }
    requires high { f ≤ 3 }
    ensures { result ≡ drawn seed.now f }
{
    let stream = stream_start(seed);
    Draw {
        key: part(&stream, 0),
        coefficients: Coefficients {
            rows: [row(&stream, f, 1), row(&stream, f, 2), row(&stream, f, 3)],
        },
    }
}

// The coefficients of a power: its part of the stream, or zeros where it is above f.
fn row(stream: &[u8; 128], f: u8, power: u8) -> [u8; 32]
    requires { power ≤ 3 }
    ensures { result ≡ (if nat_le power f then take 32 (drop (32 * power) stream.now) else replicate 32 0) }
{
    if power <= f {
        part(stream, 32 * usize::from(power))
    } else {
        [0; 32]
    }
}

// The first 128 bytes of a key's stream, which are what zeros are encrypted to.
fn stream_start(key: &[u8; 32]) -> [u8; 128]
    ensures { result ≡ stream key.now 128 }
{
    let mut bytes = [0; 128];
    xor_stream(key, &mut bytes);
    bytes
}

// The 32 bytes from a place on.
fn part(bytes: &[u8; 128], from: usize) -> [u8; 32]
    requires { from + 32 ≤ 128 }
    ensures { result ≡ take 32 (drop from bytes.now) }
{
    let mut part = [0; 32];
    part.copy_from_slice(&bytes[from..from + 32]);
    part
}

ghost use Rattle.std.specs.Prelude.{◌≡◌};
ghost use Rattle.scfs_anchor.specs.Fields.{number_at, small_at, byte_at, text_at, digest_at};

use scfs_base::Digest;
use scfs_tuples::Field;

/// The number that the field at this place holds, 0 where it holds none.
pub fn number_at(fields: &[Field], at: usize) -> u64
    ensures { result ≡ number_at fields.now at }
{
    match fields.get(at) {
        Some(Field::Num(n)) => *n,
        _ => 0,
    }
}

/// The same as a number of 32 bits, the greatest where it is greater.
pub fn small_at(fields: &[Field], at: usize) -> u32
    ensures { result ≡ small_at fields.now at }
{
    number_at(fields, at).min(u64::from(u32::MAX)) as u32
}

/// The same as a number of 8 bits, the greatest where it is greater.
pub fn byte_at(fields: &[Field], at: usize) -> u8
    ensures { result ≡ byte_at fields.now at }
{
    number_at(fields, at).min(u64::from(u8::MAX)) as u8
}

/// The text that the field at this place holds, no bytes where it holds none.
pub fn text_at(fields: &[Field], at: usize) -> &[u8]
    ensures { result.now ≡ text_at fields.now at }
{
    match fields.get(at) {
        Some(Field::Text(text)) => text.as_slice(),
        _ => &[],
    }
}

/// The digest that the field at this place holds, zeros where it holds none.
pub fn digest_at(fields: &[Field], at: usize) -> Digest
    ensures { result ≡ digest_at fields.now at }
{
    let text = text_at(fields, at);
    let mut bytes = [0; 32];
    if text.len() == 32 {
        bytes.copy_from_slice(text);
    }
    Digest(bytes)
}

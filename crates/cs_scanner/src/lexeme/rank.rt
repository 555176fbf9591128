// The ranks of bytes.

ghost use Rattle.std.specs.Prelude.{◌≡◌, ◌<◌, ◌+◌, ◌*◌, IfOk};
ghost use Rattle.cs_scanner.specs.Lexeme.Bytes.{AreByRank};
ghost use Rattle.cs_scanner.specs.Lexeme.Rank as spec;

use std::alloc::{AllocError, Global};

/// The class of a byte, by which its rank is decided first.
fn class_of(byte: u8) -> u16
    ensures { result ≡ spec.class_of byte }
{
    match byte {
        b'a'..=b'z' => 0,
        b'0'..=b'9' => 1,
        b'A'..=b'Z' => 2,
        b'!'..=b'~' => 3,
        b' ' => 4,
        b'\n' => 5,
        b'\t' => 6,
        _ => 7,
    }
}

/// The rank of a byte.
pub(crate) fn rank(byte: u8) -> u16
    ensures { result ≡ spec.rank byte }
{
    256 * class_of(byte) + u16::from(byte)
}

/// Puts the bytes of the class behind those of lower classes.
fn put_class(bytes: &mut Vec<u8>, class: u16) -> Result<(), AllocError>
    requires class { class < 8 }
    requires lower { AreByRank (256 * class) bytes.old.items }
    ensures { IfOk result (λ _. AreByRank (256 * class + 256) bytes.new.items) }
{
    for value in 0..256u16 {
        let byte = value as u8;
        if class_of(byte) == class {
            bytes.push(byte)?;
        }
    }
    Ok(())
}

/// All bytes, by rank.
pub(crate) fn bytes_by_rank(alloc: Global) -> Result<Vec<u8>, AllocError>
    ensures { IfOk result (λ bytes. AreByRank 2048 bytes.items) }
{
    let mut bytes = Vec::new(alloc);
    for class in 0..8 {
        put_class(&mut bytes, class)?;
    }
    Ok(bytes)
}

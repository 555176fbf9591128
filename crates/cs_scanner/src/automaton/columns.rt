// Bytes that no class tells apart are one column.

ghost use Rattle.std.specs.Prelude.{◌≡◌, ◌*◌, ◌<◌, ◌≤◌, IfOk, length};
ghost use Rattle.cs_scanner.specs.Automaton.Bits.{Puts};
ghost use Rattle.cs_scanner.specs.Automaton.Built.{AreColumnsOf};
ghost use Rattle.cs_scanner.specs.Automaton.Programs.{values};
ghost use Rattle.cs_scanner.specs.Automaton.States.{IsRow, with_byte, class_has};

use crate::automaton::bits::put;
use crate::automaton::sets::add;
use cs_pattern_parts::ByteSet;
use indexmap::IndexSet;
use std::alloc::{AllocError, Global};

/// For each column the classes that have its bytes, and the column of each byte.
#[derive(Drop)]
pub(crate) struct Columns {
    pub(crate) rows: IndexSet<Vec<u64>>,
    pub(crate) column_of: Vec<usize>,
}

/// Whether the class has the byte.
fn class_has(classes: &[&ByteSet], n: usize, byte: u8) -> bool
    requires { n < length classes.now }
    ensures { result ≡ class_has (values classes.now) n byte }
{
    classes[n].contains(byte)
}

/// Puts the classes that have the byte.
fn mark(classes: &[&ByteSet], byte: u8, words: &mut [u64])
    ensures { Puts words.old words.new (with_byte 0 (values classes.now) byte) }
{
    for n in 0..classes.len() {
        if class_has(classes, n, byte) {
            put(words, n);
        }
    }
}

/// The classes that have the byte.
fn row_of(
    alloc: Global,
    classes: &[&ByteSet],
    width: usize,
    byte: u8,
) -> Result<Vec<u64>, AllocError>
    requires { length classes.now ≤ 64 * width }
    ensures long { IfOk result (λ v. length v.items ≡ width) }
    ensures row { IfOk result (λ v. IsRow (values classes.now) byte v.items) }
{
    let mut words = vec![in alloc; 0u64; width]?;
    mark(classes, byte, &mut words);
    Ok(words)
}

/// The columns of all bytes.
pub(crate) fn make_columns(
    alloc: Global,
    classes: &[&ByteSet],
    width: usize,
) -> Result<Columns, AllocError>
    requires { length classes.now ≤ 64 * width }
    ensures { IfOk result (λ c. AreColumnsOf (values classes.now) width c) }
{
    let mut rows = IndexSet::new(alloc);
    let mut column_of = Vec::new(alloc);
    for byte in 0..256usize {
        let row = row_of(alloc, classes, width, byte as u8)?;
        let column = add(&mut rows, row)?;
        column_of.push(column)?;
    }
    Ok(Columns { rows, column_of })
}

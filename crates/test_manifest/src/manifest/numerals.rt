// Numbers that count up: what is expected is the numbers' digits, written by hand.

ghost use Rattle.std.specs.Prelude.{◌+◌, ◌≤◌};
ghost use Rattle.cs_io.specs.Faults.{greatest};

use cs_io::{MemorySink, SinkError};
use cs_manifest::{LINE_LENGTH, Numeral, Output};
use cs_sample_files::Trouble;
use std::alloc::Global;
use std::test::Fail;

// A number, and its digits and those of the next two, each behind a space.
type Row = (u64, &'static [u8]);

const ROWS: &[Row] = &[
    (0, b" 0 1 2"),
    (8, b" 8 9 10"),
    (9, b" 9 10 11"),
    (98, b" 98 99 100"),
    (129, b" 129 130 131"),
    (1_899, b" 1899 1900 1901"),
    (999_998, b" 999998 999999 1000000"),
    (
        9_999_999_999_999_999_999,
        b" 9999999999999999999 10000000000000000000 10000000000000000001",
    ),
    (
        18_446_744_073_709_551_613,
        b" 18446744073709551613 18446744073709551614 18446744073709551615",
    ),
];

// Puts a number and the next two, each behind a space, behind so much.
fn put_three(sink: &mut MemorySink, front: &[u8], mut numeral: Numeral) -> Result<(), SinkError>
    requires { numeral + 2 ≤ greatest }
{
    let mut line = [0u8; LINE_LENGTH];
    let mut output = Output::new(sink, &mut line, 0);
    output.put(front);
    output.put(b" ");
    output.put_numeral(&numeral);
    numeral.advance();
    output.put(b" ");
    output.put_numeral(&numeral);
    numeral.advance();
    output.put(b" ");
    output.put_numeral(&numeral);
    output.end()?;
    Ok(())
}

// Whether a row's digits are put behind so much, which leaves a line more room or less.
fn is_counted(alloc: Global, front: &[u8], row: &Row) -> Result<bool, Trouble> {
    let (number, digits) = *row;
    if number > u64::MAX - 2 {
        return Ok(false);
    }
    let mut sink = MemorySink::new(alloc, 2_000, 500, Vec::new(alloc))?;
    put_three(&mut sink, front, Numeral::new(number))?;
    Ok(sink.written().strip_prefix(front) == Some(digits))
}

#[test]
fn numerals_count_up(rt: HostRuntime) -> Result<(), Fail> {
    let alloc = rt.alloc();
    for row in ROWS {
        assert!(rt; is_counted(alloc, b"", row)?);
        assert!(rt; is_counted(alloc, &[b'.'; 1_000], row)?);
    }
    Ok(())
}

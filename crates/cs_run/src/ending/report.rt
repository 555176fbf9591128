// What a run says at its end.

ghost use Rattle.std.specs.Prelude.{◌≡◌, IfOk, Result, string_bytes};
ghost use Rattle.cs_io.specs.Uses.{IsUnused, used};
ghost use Rattle.cs_run.specs.declared.ending.ending.Ending.TheVariants.{Denied, Written};
ghost use Rattle.cs_run.specs.Ending.Ending.{HasLine, IsReported, Says, line_of, status_of};
ghost use Rattle.cs_run.specs.Ending.Headline.{KeepsWhatPerforms};

use crate::ending::ending::Ending;
use crate::input::line as refusal_line;
use cs_io::{Halt, Sink, write_all};
use cs_words::Role;
use std::alloc::{AllocError, Global};

/// Says on `err` how a run ended, and gives the status: 0 where the whole output was written, 1 where the files are refused,
/// 2 where the words aren't accepted, 3 where a file can't be read, 4 where the output can't be written, 5 for want of memory, 6
/// where the whole output says no.
///
/// Whatever the words ask for and however desk and output were used: where the run ended so by its cause, it keeps the
/// promises of `specs/Headline`.
pub fn finish<E: Sink>(alloc: Global, ending: Ending, err: &mut E) -> u8
    requires { HasLine ending }
    ensures { KeepsWhatPerforms ending (used E.Sink err.old err.new) result }
{
    status(report(alloc, ending, err))
}

// Writes an ending's line, and gives the ending. Want of memory for the line is an ending of its own.
fn report<E: Sink>(alloc: Global, ending: Ending, err: &mut E) -> Ending
    requires { HasLine ending }
    ensures ending { IsReported ending result }
    ensures line { Says (line_of result) (used E.Sink err.old err.new) }
    ensures silent { result ≡ Written
        → IsUnused (used E.Sink err.old err.new) }
    ensures denied_silently { result ≡ Denied
        → IsUnused (used E.Sink err.old err.new) }
{
    if ending == Ending::Written {
        return ending;
    }
    if ending == Ending::Denied {
        return ending;
    }
    match line(alloc, ending) {
        Ok(line) => {
            let _ = write_all(err, line.as_bytes());
            ending
        }
        Err(_) => {
            let _ = write_all(err, b"conform: out of memory\n");
            Ending::Halted(Halt::Memory)
        }
    }
}

// The status of an ending.
fn status(ending: Ending) -> u8
    ensures { result ≡ status_of ending }
{
    match ending {
        Ending::Written => 0,
        Ending::Refused(_) => 1,
        Ending::BadWord { .. } => 2,
        Ending::NoFile(_) => 3,
        Ending::Halted(Halt::Failed) => 4,
        Ending::Halted(Halt::Memory) => 5,
        Ending::Denied => 6,
    }
}

fn line(alloc: Global, ending: Ending) -> Result<String, AllocError>
    requires { HasLine ending }
    ensures { IfOk result (λ line. string_bytes line ≡ line_of ending) }
{
    match ending {
        Ending::Written | Ending::Denied => Ok(String::new(alloc)),
        Ending::Refused(refusal) => refusal_line(alloc, refusal),
        Ending::BadWord { at } => format!(in alloc; "conform: usage: word {at}\n"),
        Ending::NoFile(Role::Yacc) => String::from_str(alloc, "conform: read fault: yacc\n"),
        Ending::NoFile(Role::Lex) => String::from_str(alloc, "conform: read fault: lex\n"),
        Ending::NoFile(Role::Text) => String::from_str(alloc, "conform: read fault: text\n"),
        Ending::NoFile(Role::Manifest) => {
            String::from_str(alloc, "conform: read fault: manifest\n")
        }
        Ending::Halted(Halt::Failed) => String::from_str(alloc, "conform: write fault\n"),
        Ending::Halted(Halt::Memory) => String::from_str(alloc, "conform: out of memory\n"),
    }
}

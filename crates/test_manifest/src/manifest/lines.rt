// The lines of a manifest: what is expected was written by hand from the page on formats.

use cs_goals::Goal;
use cs_grammar::Mark;
use cs_io::{MemorySink, NullSink, Sink, SinkError};
use cs_manifest::{Counts, Entry, Form, Head, Manifest, NumberedNegative};
use cs_mutate::{Edit, Negative};
use cs_texts::{Rendered, RenderedParts};
use cs_verdicts::Verdict;
use cs_yacc::{YaccFile, read_yacc};
use std::test::Fail;

const FILE: &[u8] = b"%token A\n%%\ns : A '\\'' | ;\n";

const LINES: &[u8] = b"conform 1 rules
token 1 A
token 2 '\\x27'
rule 1 s : A '\\x27'
rule 2 s :
goal 1 rule 1 large
goal 2 context 1 2 3 infeasible
goal 3 pair <begin> <end> infeasible
base 1 goal 3
negative 1 base 1 delete 0 pair <begin> <end> at 0
  tokens
  text \" a\\x22\\x5c\\x00~\\x7f'\"
negative 2 base 1 swap 7 pair <begin> <end> at 3
  tokens
  no text scan 4294967295
end goals 3 feasible 0 infeasible 2 large 1 negatives 2
";

/// The negative of a base of one token that lacks it.
pub(crate) const DELETED: Negative = Negative {
    edit: Edit::Delete(0),
    left: Mark::Begin,
    right: Mark::End,
    at: 0,
};

// The text of the first negative.
const TEXT: &[u8] = b" a\"\\\x00~\x7f'";

fn write_lines<S: Sink>(sink: &mut S, file: &YaccFile, text: Vec<u8>) -> Result<Counts, SinkError> {
    let head = Head {
        yacc: file,
        form: Form::Rules,
    };
    let mut manifest = Manifest::begin(sink, &head)?;
    write_goals(&mut manifest, sink)?;
    write_mutants(&mut manifest, sink, text)?;
    manifest.finish(sink)
}

fn write_goals<S: Sink>(manifest: &mut Manifest<'_>, sink: &mut S) -> Result<(), SinkError> {
    let rule = Entry::Goal {
        number: 1,
        goal: &Goal::Rule(1),
        verdict: &Verdict::Large,
        tokens: &[],
        rendered: None,
    };
    manifest.entry(sink, &rule)?;
    let context = Entry::Goal {
        number: 2,
        goal: &Goal::Context {
            outer: 1,
            place: 2,
            inner: 3,
        },
        verdict: &Verdict::Infeasible,
        tokens: &[],
        rendered: None,
    };
    manifest.entry(sink, &context)?;
    let pair = Entry::Goal {
        number: 3,
        goal: &Goal::Pair {
            left: Mark::Begin,
            right: Mark::End,
        },
        verdict: &Verdict::Infeasible,
        tokens: &[],
        rendered: None,
    };
    manifest.entry(sink, &pair)
}

fn write_mutants<S: Sink>(
    manifest: &mut Manifest<'_>,
    sink: &mut S,
    text: Vec<u8>,
) -> Result<(), SinkError> {
    let rendered = Rendered::Text(text);
    manifest.entry(sink, &Entry::Base { number: 1, goal: 3 })?;
    let first = Entry::Negative(NumberedNegative {
        number: 1,
        base: 1,
        negative: DELETED,
        tokens: &[],
        rendered: rendered.parts(),
    });
    manifest.entry(sink, &first)?;
    let second = Entry::Negative(NumberedNegative {
        number: 2,
        base: 1,
        negative: Negative {
            edit: Edit::Swap(7),
            left: Mark::Begin,
            right: Mark::End,
            at: 3,
        },
        tokens: &[],
        rendered: RenderedParts::Differs { after: u32::MAX },
    });
    manifest.entry(sink, &second)
}

#[test]
fn lines_stand_as_the_format_says(rt: HostRuntime) -> Result<(), Fail> {
    let alloc = rt.alloc();
    let file = read_yacc(alloc, FILE)?;
    let mut sink = MemorySink::new(alloc, LINES.len(), 7, Vec::new(alloc))?;
    let counts = write_lines(&mut sink, &file, TEXT.to_vec(alloc)?)?;
    assert_eq!(rt; sink.written(), LINES);
    assert_eq!(rt; counts.bytes, LINES.len() as u128);
    let mut sink = NullSink::new();
    let same = write_lines(&mut sink, &file, TEXT.to_vec(alloc)?)?;
    assert_eq!(rt; same, counts);
    Ok(())
}

#[test]
fn the_output_is_full_at_each_byte(rt: HostRuntime) -> Result<(), Fail> {
    let alloc = rt.alloc();
    let file = read_yacc(alloc, FILE)?;
    for capacity in 0..LINES.len() {
        let mut sink = MemorySink::new(alloc, capacity, 3, Vec::new(alloc))?;
        let answer = write_lines(&mut sink, &file, TEXT.to_vec(alloc)?);
        assert_eq!(rt; answer, Err(SinkError::Failed));
        assert_eq!(rt; sink.written(), &LINES[..capacity]);
    }
    Ok(())
}

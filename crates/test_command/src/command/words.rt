// Words of the command line. What is expected was worked by hand from the grammar of words that docs/FORMATS.md gives:
// which word may stand behind which, and the values of each option.

use cs_choices::{Format, Weigh};
use cs_samples::words;
use cs_words::{Arguments, BadWord, Command, PairCommand, read_words};
use std::alloc::{AllocError, Global};
use std::test::Fail;

// Words, and the place of the first bad one.
type Row = (&'static [&'static str], Option<usize>);

// The place of the first bad word.
fn bad_word(alloc: Global, texts: &[&str]) -> Result<Option<usize>, AllocError> {
    let words = words(alloc, texts)?;
    match read_words(&words) {
        Ok(_) => Ok(None),
        Err(BadWord { at }) => Ok(Some(at)),
    }
}

// The place of the first bad word behind `suite y l --mutate=none`.
fn bad_option(alloc: Global, texts: &[&str]) -> Result<Option<usize>, AllocError> {
    let mut all = words(alloc, &["suite", "y", "l", "--mutate=none"])?;
    for text in texts {
        all.push(String::from_str(alloc, text)?)?;
    }
    match read_words(&all) {
        Ok(_) => Ok(None),
        Err(BadWord { at }) => Ok(Some(at)),
    }
}

const COMMANDS: [Row; 80] = [
    (&[], Some(0)),
    (&[""], Some(0)),
    (&["--help"], Some(0)),
    (&["--version"], Some(0)),
    (&["Rules", "y"], Some(0)),
    (&["rules"], Some(1)),
    (&["rules", ""], Some(1)),
    (&["rules", "-y"], Some(1)),
    (&["rules", "y"], None),
    (&["rules", "y", "z"], Some(2)),
    (&["rules", "y", "--criteria=rule"], Some(2)),
    (&["rules", "y", ""], Some(2)),
    (&["rules", "y", "--format=1"], Some(2)),
    (&["suite"], Some(1)),
    (&["suite", "", "l"], Some(1)),
    (&["suite", "y"], Some(2)),
    (&["suite", "y", "-", "--mutate=none"], Some(2)),
    (&["suite", "y", "--mutate=none", "l"], Some(2)),
    (&["suite", "--mutate=none", "y", "l"], Some(1)),
    (&["suite", "y", "l", "x", "--mutate=none"], Some(3)),
    (&["suite", "y", "l", "--mutate=none"], None),
    (&["suite", "y", "y", "--mutate=none"], None),
    (&["suite", "y", "l"], None),
    (&["suite", "y", "l", "--bases=3"], None),
    (&["suite", "y", "l", "--mutate=swap,delete"], None),
    (&["suite", "y", "l", "--mutate=swap,swap"], Some(3)),
    (&["suite", "y", "l", "--mutate=none,swap"], Some(3)),
    (&["suite", "y", "l", "--mutate=all"], Some(3)),
    (&["suite", "y", "l", "--format=2"], None),
    (&["suite", "y", "l", "--weigh=bytes"], None),
    (&["suite", "y", "l", "--format=3"], Some(3)),
    (&["suite", "y", "l", "--format="], Some(3)),
    (&["suite", "y", "l", "--weigh=bits"], Some(3)),
    (&["lexical", "y"], Some(2)),
    (&["lexical", "y", "l", "--weigh=nodes"], Some(3)),
    (&["member", "y", "l", "--weigh=nodes"], Some(3)),
    (&["check", "y", "l"], Some(3)),
    (&["check", "y", "l", "m"], None),
    (&["check", "y", "l", "m", "--weigh=nodes"], Some(4)),
    (&["spell", "y", "l", "--separator=", "--weigh=bytes"], None),
    (&["spell", "y", "l", "--bases=1"], Some(3)),
    (&["spell", "y"], Some(2)),
    (&["deep", "y", "l", "--mutate=none", "--bases=1"], None),
    (&["deep", "y", "l", "--format=1"], Some(3)),
    (&["deep", "y", "-"], Some(2)),
    (&["chains", "y"], None),
    (&["chains", "--weigh=nodes", "l"], Some(1)),
    (&["chains", "y", "--weigh=nodes"], Some(2)),
    (&["chains", "y", "l"], None),
    (&["chains", "y", "l", "t"], Some(3)),
    (&["chains", "y", "l", "--weigh=bytes", "--separator="], None),
    (
        &["chains", "y", "l", "--separator=", "--separator="],
        Some(4),
    ),
    (&["chains", "y", "l", "--bases=1"], Some(3)),
    (&["wrong", "y", "l"], None),
    (&["wrong", "y"], Some(2)),
    (&["wrong", "y", "l", "--slips=drop"], None),
    (&["wrong", "y", "l", "--slips=swap,drop,double"], None),
    (&["wrong", "y", "l", "--slips="], Some(3)),
    (&["wrong", "y", "l", "--slips=drop,drop"], Some(3)),
    (&["wrong", "y", "l", "--slips=all"], Some(3)),
    (
        &["wrong", "y", "l", "--slips=drop", "--slips=drop"],
        Some(4),
    ),
    (&["wrong", "y", "l", "--separator=", "--weigh=bytes"], None),
    (&["wrong", "y", "l", "--bases=1"], Some(3)),
    (&["wrong", "y", "l", "--format=1"], Some(3)),
    (&["suite", "y", "l", "--slips=drop"], Some(3)),
    (&["deep", "y", "l", "--slips=drop"], Some(3)),
    (&["gen"], Some(1)),
    (&["gen", ""], Some(1)),
    (&["gen", "g.y"], Some(1)),
    (&["gen", "+1"], Some(1)),
    (&["gen", "1x"], Some(1)),
    (&["gen", "0"], None),
    (&["gen", "007"], None),
    (&["gen", "18446744073709551615"], None),
    (&["gen", "18446744073709551616"], Some(1)),
    (&["gen", "00000000000000000001"], None),
    (&["gen", "000000000000000000001"], Some(1)),
    (&["gen", "1", "2"], Some(2)),
    (&["gen", "1", "--bases=1"], Some(2)),
    (&["gen", "1", "--weigh=bytes"], Some(2)),
];

#[test]
fn commands_and_names(rt: HostRuntime) -> Result<(), Fail> {
    for (texts, want) in COMMANDS {
        let got = bad_word(rt.alloc(), texts)?;
        assert!(rt; got == want, "{texts:?}");
    }
    Ok(())
}

const OPTIONS: [Row; 52] = [
    (&["--criteria"], Some(4)),
    (&["--criteria="], Some(4)),
    (&["--criteria=rule,"], Some(4)),
    (&["--criteria=,rule"], Some(4)),
    (&["--criteria=rule,rule"], Some(4)),
    (&["--criteria=rule,cdrc,pair,rule"], Some(4)),
    (&["--criteria=rules"], Some(4)),
    (&["--criteria=Rule"], Some(4)),
    (&["--criteria=none"], Some(4)),
    (&["--criteria=rule cdrc"], Some(4)),
    (&["--criteria=pair"], None),
    (&["--criteria=pair,rule,cdrc"], None),
    (&["--criteria=rule", "--criteria=rule"], Some(5)),
    (&["--mutate=none"], Some(4)),
    (&["--mutate="], Some(4)),
    (&["--mutate=delete"], Some(4)),
    (&["--bases="], Some(4)),
    (&["--bases=0"], None),
    (&["--bases=0016"], None),
    (&["--bases=00016"], Some(4)),
    (&["--bases=1000"], None),
    (&["--bases=1001"], Some(4)),
    (&["--bases=9999"], Some(4)),
    (&["--bases=+1"], Some(4)),
    (&["--bases=-1"], Some(4)),
    (&["--bases= 1"], Some(4)),
    (&["--bases=1x"], Some(4)),
    (&["--bases=3", "--bases=3"], Some(5)),
    (&["--bases=3", "--separator=", "--bases=4"], Some(6)),
    (&["--separator"], Some(4)),
    (&["--separator="], None),
    (&["--separator=\\"], Some(4)),
    (&["--separator=\\n"], Some(4)),
    (&["--separator=\\X20"], Some(4)),
    (&["--separator=\\x2"], Some(4)),
    (&["--separator=\\x2g"], Some(4)),
    (&["--separator=a\\x0aB\\xfF"], None),
    (&["--separator=\\x5c\\x"], Some(4)),
    (
        &["--separator=0123456789012345678901234567890123456789012345678901234567890123"],
        None,
    ),
    (
        &["--separator=01234567890123456789012345678901234567890123456789012345678901234"],
        Some(4),
    ),
    (
        &["--separator=01234567890123456789012345678901234567890123456789012345678901\\x41\\x42"],
        None,
    ),
    (
        &["--separator=012345678901234567890123456789012345678901234567890123456789012\\x41\\x42"],
        Some(4),
    ),
    (&["--weigh="], Some(4)),
    (&["--weigh=Bytes"], Some(4)),
    (&["--weigh=nodes,bytes"], Some(4)),
    (&["--weigh=nodes", "--weigh=bytes"], Some(5)),
    (&["--format"], Some(4)),
    (&["--format=12"], Some(4)),
    (&["--format=1", "--format=1"], Some(5)),
    (&["--format=2", "--bases=1", "--format=1"], Some(6)),
    (&["--format=1", "--separator=a", "--weigh=bytes"], None),
    (&["--separator=a", "--criteria=rule", "--bases=1"], None),
];

#[test]
fn options_and_their_values(rt: HostRuntime) -> Result<(), Fail> {
    for (texts, want) in OPTIONS {
        let got = bad_option(rt.alloc(), texts)?;
        assert!(rt; got == want, "{texts:?}");
    }
    Ok(())
}

#[test]
fn names_and_defaults(rt: HostRuntime) -> Result<(), Fail> {
    let alloc = rt.alloc();
    let words = words(alloc, &["suite", "g.y", "g.l"])?;
    match read_words(&words) {
        Ok(request) => {
            let options = request.options;
            assert!(rt; request.command == Command::OfPair(PairCommand::Suite));
            match request.arguments {
                Arguments::Files([yacc, lex]) => {
                    assert!(rt; yacc.as_str() == "g.y" && lex.as_str() == "g.l");
                }
                _ => assert!(rt; false),
            }
            assert!(rt; options.operators.delete && options.operators.insert);
            assert!(rt; options.operators.replace && options.operators.swap);
            assert!(rt; options.criteria.rule && options.criteria.cdrc && options.criteria.pair);
            assert!(rt; options.bases == 16);
            assert!(rt; options.separator.bytes() == b" ".as_slice());
            assert!(rt; options.weigh == Weigh::Nodes);
            assert!(rt; options.format == Format::Two);
            assert!(rt; options.slips.drops && options.slips.doubles && options.slips.swaps);
        }
        Err(_) => assert!(rt; false),
    }
    Ok(())
}

#[test]
fn settings(rt: HostRuntime) -> Result<(), Fail> {
    let alloc = rt.alloc();
    let words = words(
        alloc,
        &[
            "suite",
            "g.y",
            "g.y",
            "--format=1",
            "--separator=\\x41b\\x0a",
            "--bases=0007",
            "--weigh=bytes",
            "--mutate=none",
            "--criteria=pair,rule",
        ],
    )?;
    match read_words(&words) {
        Ok(request) => {
            let options = request.options;
            assert!(rt; options.criteria.rule && !options.criteria.cdrc && options.criteria.pair);
            assert!(rt; !options.operators.delete && !options.operators.insert);
            assert!(rt; !options.operators.replace && !options.operators.swap);
            assert!(rt; options.bases == 7);
            assert!(rt; options.separator.bytes() == b"Ab\n".as_slice());
            assert!(rt; options.weigh == Weigh::Bytes);
            assert!(rt; options.format == Format::One);
        }
        Err(_) => assert!(rt; false),
    }
    Ok(())
}

#[test]
fn slips_that_are_wanted(rt: HostRuntime) -> Result<(), Fail> {
    let alloc = rt.alloc();
    let words = words(alloc, &["wrong", "g.y", "g.l", "--slips=swap,drop"])?;
    match read_words(&words) {
        Ok(request) => {
            let slips = request.options.slips;
            assert!(rt; slips.drops && slips.swaps && !slips.doubles);
        }
        Err(_) => assert!(rt; false),
    }
    Ok(())
}

#[test]
fn numbers_of_gen(rt: HostRuntime) -> Result<(), Fail> {
    let alloc = rt.alloc();
    let rows = [
        ("0", 0),
        ("007", 7),
        ("00000000000000000010", 10),
        ("18446744073709551615", u64::MAX),
    ];
    for (text, want) in rows {
        let words = words(alloc, &["gen", text])?;
        match read_words(&words) {
            Ok(request) => match request.arguments {
                Arguments::Seed(seed) => assert!(rt; seed == want),
                Arguments::Files(_) => assert!(rt; false),
            },
            Err(_) => assert!(rt; false),
        }
    }
    Ok(())
}

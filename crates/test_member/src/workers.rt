// Workers that share the judging of lists: by hand, of the grammar of sums.

ghost use Rattle.std.specs.Prelude.{◌≡◌, ◌≤◌, ◌<◌};

use cs_fan::{Counter, OpenGate, fan};
use cs_member::{MemberWork, Recognizer};
use cs_samples::grammar_of_sums;
use std::alloc::{AllocError, Global};
use std::test::Fail;
use std::thread::Threads;

// Whether NUM, NUM '+', the empty list and '(' NUM ')' are sentences, by so many workers.
fn judged<R: Threads + Sync>(
    rt: &R,
    alloc: Global,
    work: &MemberWork<'_>,
    workers: u16,
) -> Result<Vec<bool>, AllocError>
    requires tokens { work.now.recognizer.now.tokens ≡ 4 }
    requires some { 0 < workers }
    requires few { workers ≤ 64 }
{
    let lists = [
        vec![in alloc; 1]?,
        vec![in alloc; 1, 2]?,
        Vec::new(alloc),
        vec![in alloc; 3, 1, 4]?,
    ];
    let (counter, mut seat) = Counter::new(alloc, 4, workers)?;
    fan(rt, alloc, &lists, work, &OpenGate, &counter, &mut seat)
}

#[test]
fn workers_judge_lists(rt: HostRuntime) -> Result<(), Fail> {
    let grammar = grammar_of_sums(rt.alloc())?;
    let recognizer = Recognizer::new(rt.alloc(), &grammar)?;
    let work = MemberWork {
        recognizer: &recognizer,
    };
    for workers in 1..4 {
        let answers = judged(&rt, rt.alloc(), &work, workers)?;
        assert!(rt; answers.as_slice() == [true, false, false, true].as_slice());
    }
    Ok(())
}

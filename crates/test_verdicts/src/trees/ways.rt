// Ways over steps: the costs, the sources and the first steps were found by hand.

use cs_least::{Reach, Source, Step, Steps, first_steps, least_ways};
use std::alloc::{AllocError, Global};
use std::test::Fail;

fn steps_of(alloc: Global, triples: &[(u16, u16, u32)]) -> Result<Vec<Step>, AllocError> {
    let mut list = Vec::new(alloc);
    for (from, to, cost) in triples {
        list.push(Step {
            from: *from,
            to: *to,
            cost: *cost,
        })?;
    }
    Ok(list)
}

// Node 4 is a source too, node 5 is beyond the limit, and no way reaches node 6.
#[test]
fn least_ways_of_a_small_net(rt: HostRuntime) -> Result<(), Fail> {
    let alloc = rt.alloc();
    let list = steps_of(
        alloc,
        &[
            (1, 2, 7),
            (1, 3, 2),
            (3, 2, 4),
            (2, 4, 1),
            (4, 5, 100),
            (5, 1, 1),
            (3, 4, 5),
        ],
    )?;
    assert!(rt; Steps::fits(6, &list));
    let steps = Steps::new(alloc, 6, list)?;
    let sources = [Source { node: 4, cost: 7 }, Source { node: 1, cost: 0 }];
    let table = least_ways(alloc, &steps, &sources, 20)?;
    let want = [
        Reach::Least { cost: 0, origin: 1 },
        Reach::Least { cost: 6, origin: 1 },
        Reach::Least { cost: 2, origin: 1 },
        Reach::Least { cost: 7, origin: 0 },
        Reach::Large,
        Reach::Never,
    ];
    assert!(rt; table.as_slice() == want.as_slice());
    let firsts = first_steps(alloc, &steps, &table)?;
    let want = [None, Some(2), Some(1), Some(3), None, None];
    assert!(rt; firsts.as_slice() == want.as_slice());
    Ok(())
}

// Two sources reach each node at the same cost.
#[test]
fn first_source_of_equals(rt: HostRuntime) -> Result<(), Fail> {
    let alloc = rt.alloc();
    let list = steps_of(alloc, &[(1, 3, 5), (2, 3, 1), (3, 2, 0)])?;
    assert!(rt; Steps::fits(3, &list));
    let steps = Steps::new(alloc, 3, list)?;
    let sources = [Source { node: 1, cost: 0 }, Source { node: 2, cost: 4 }];
    let table = least_ways(alloc, &steps, &sources, 1_000_000)?;
    let want = [
        Reach::Least { cost: 0, origin: 0 },
        Reach::Least { cost: 4, origin: 1 },
        Reach::Least { cost: 5, origin: 0 },
    ];
    assert!(rt; table.as_slice() == want.as_slice());
    let firsts = first_steps(alloc, &steps, &table)?;
    assert!(rt; firsts.as_slice() == [None, None, Some(0)].as_slice());
    Ok(())
}

// Costs of 10 are within a limit of 10.
#[test]
fn costs_at_the_limit(rt: HostRuntime) -> Result<(), Fail> {
    let alloc = rt.alloc();
    let list = steps_of(alloc, &[(1, 2, 10), (2, 3, 1), (1, 4, u32::MAX), (4, 5, 1)])?;
    assert!(rt; Steps::fits(6, &list));
    let steps = Steps::new(alloc, 6, list)?;
    let table = least_ways(alloc, &steps, &[Source { node: 1, cost: 0 }], 10)?;
    let want = [
        Reach::Least { cost: 0, origin: 0 },
        Reach::Least {
            cost: 10,
            origin: 0,
        },
        Reach::Large,
        Reach::Large,
        Reach::Large,
        Reach::Never,
    ];
    assert!(rt; table.as_slice() == want.as_slice());
    Ok(())
}

//! A worked run of the book of jobs as a machine, and want of memory at each growth.

ghost use Rattle.std.specs.Prelude.{◌≡◌, length};

use crate::same::same;
use book_core::{Answer, Core, CoreFault, Event};
use std::process::Abort;
use std::test::Fail;

/// What two passes do over two jobs.
const EVENTS: [Event; 7] = [
    Event::Claim(0),
    Event::Claim(1),
    Event::Report(1, 9),
    Event::Look(0),
    Event::Report(0, 4),
    Event::Claim(0),
    Event::Claim(1),
];

/// Shows how a core stands after these events.
fn is_done(rt: &impl Abort, core: &Core)
    requires { length core.now.passes ≡ 2 }
{
    same(rt, &(core.next(), core.least()), &(4, Some(4)));
    same(rt, &core.drawn(0), &[0].as_slice());
    same(rt, &core.reported(1), &[9].as_slice());
    same(rt, &(core.seen(0), core.seen(1)), &(Some(9), None));
    same(rt, &core.ended(1), &true);
}

#[test]
fn two_passes_share_two_jobs(rt: HostRuntime) -> Result<(), Fail> {
    let events = EVENTS;
    let mut core = Core::start(rt.alloc(), 2, 2)?;
    let answers = core.run(&events)?;
    let expected = [
        Answer::Drawn(0),
        Answer::Drawn(1),
        Answer::Reported,
        Answer::Least(Some(9)),
        Answer::Reported,
        Answer::Ended,
        Answer::Ended,
    ];
    same(&rt, &answers.as_slice(), &expected.as_slice());
    is_done(&rt, &core);
    same(&rt, &core.step(Event::Look(1))?, &Answer::Least(Some(4)));
    Ok(())
}

// Run with each allocation refused in turn. A run that is cut short goes on from there.
#[test]
fn want_of_memory_is_answered_and_the_run_goes_on(rt: HostRuntime) -> Result<(), Fail> {
    let mut core = match Core::start(rt.alloc(), 2, 2) {
        Ok(core) => core,
        Err(_) => Core::start(rt.alloc(), 2, 2)?,
    };
    if let Err((done, fault)) = core.run(&EVENTS) {
        same(&rt, &fault, &CoreFault::Memory);
        let rest = EVENTS.get(done as usize..).expect(&rt, "events");
        assert!(rt; core.run(rest).is_ok());
    }
    is_done(&rt, &core);
    Ok(())
}

//! Two threads on one yard, in an order that messages force.

ghost use Rattle.std.specs.Prelude.{◌≡◌, IfOk};
ghost use Rattle.cilk_shared.specs.Values.{OfYard};
ghost use Rattle.cilk_thread_tests.specs.Settings.{AreOf};

use crate::settings::{Setting, on_its_own};
use crate::steps::{Done, last_values, step, take};
use crate::texts::{GETS, accepted};
use cilk_shared::taken::Taken;
use cilk_shared::yard::{Segment, Yard};
use cilk_tree::plan::Plan;
use cilk_types::event::{Event, Pos};
use crossbeam_channel::{Receiver, Sender, bounded};
use std::alloc::{AllocError, Global};
use std::process::Abort;
use std::sync::Wait;
use std::test::Fail;
use std::thread;
use std::time::{Clock, Duration};

// The seconds to wait for a message.
const PATIENCE: u64 = 10;

// A plan, the events of its run, and which of them the frames request.
#[derive(Clone, Copy)]
struct Followed<'a> {
    plan: &'a Plan,
    events: &'a [Event],
    asked: &'a [bool],
}

// Makes the events up to a position; all have to succeed. Returns the last result.
fn make_up_to<R: Abort>(
    rt: &R,
    yard: &Yard,
    followed: Followed<'_>,
    segment: &mut Segment,
    last: Pos,
) -> Done
    requires yard { OfYard yard.now segment.old }
    requires run { AreOf yard.now.event_order followed.plan.now followed.events.now followed.asked.now }
    ensures { OfYard yard.now segment.new }
{
    let Followed {
        plan,
        events,
        asked,
    } = followed;
    let mut done = Done::Nothing;
    'events: for _at in segment.upto()..last.saturating_add(1) {
        done = step(yard, plan, events, asked, segment);
        assert!(rt; done != Done::Nothing);
    }
    done
}

// The thread of the first child. It offers the continuation, waits until that is taken, and gets
// the answer No at the child's end.
fn makes_the_child<R: Abort + Wait + Clock>(
    rt: &R,
    yard: &Yard,
    followed: Followed<'_>,
    mut segment: Segment,
    tickets: &Sender<Pos, Global>,
    taken: &Receiver<bool, Global>,
) -> Segment
    requires yard { OfYard yard.now segment }
    requires run { AreOf yard.now.event_order followed.plan.now followed.events.now followed.asked.now }
    ensures { OfYard yard.now result }
{
    let Done::Offered(ticket) = make_up_to(rt, yard, followed, &mut segment, 4) else {
        panic!(rt; "no offer");
    };
    assert!(rt; tickets.send(rt, ticket).is_ok());
    assert!(rt;
        taken
            .recv_timeout(rt, Duration::from_secs(PATIENCE))
            .is_ok()
    );
    let read = make_up_to(rt, yard, followed, &mut segment, 6);
    assert_eq!(rt; read, Done::Loaded(7));
    make_up_to(rt, yard, followed, &mut segment, 9);
    assert!(rt;
        matches!(
            take(yard, followed.asked, &mut segment, ticket),
            Some(Taken::No(_))
        )
    );
    segment
}

// The thread that takes the continuation. It offers the next one, makes the second child, and takes
// its own continuation back. It can't pass the `sync` after that: the first child's `end` is in the
// other segment.
fn takes_the_rest<R: Abort + Wait + Clock>(
    rt: &R,
    yard: &Yard,
    followed: Followed<'_>,
    mut segment: Segment,
    tickets: &Receiver<Pos, Global>,
    taken: &Sender<bool, Global>,
) -> Segment
    requires yard { OfYard yard.now segment }
    requires run { AreOf yard.now.event_order followed.plan.now followed.events.now followed.asked.now }
    ensures { OfYard yard.now result }
{
    let Ok(ticket) = tickets.recv_timeout(rt, Duration::from_secs(PATIENCE)) else {
        panic!(rt; "no ticket");
    };
    assert!(rt;
        matches!(
            take(yard, followed.asked, &mut segment, ticket),
            Some(Taken::Yes)
        )
    );
    assert!(rt; taken.send(rt, true).is_ok());
    let Done::Offered(own) = make_up_to(rt, yard, followed, &mut segment, 11) else {
        panic!(rt; "no offer");
    };
    let read = make_up_to(rt, yard, followed, &mut segment, 13);
    assert_eq!(rt; read, Done::Loaded(7));
    make_up_to(rt, yard, followed, &mut segment, 16);
    assert!(rt;
        matches!(
            take(yard, followed.asked, &mut segment, own),
            Some(Taken::Yes)
        )
    );
    assert_eq!(rt; segment.upto(), 18);
    assert!(rt; !segment.may_pass(followed.plan));
    segment
}

// Makes the run's events from the `sync` of the two spawns on.
fn makes_the_end<R: Abort>(rt: &R, yard: &Yard, followed: Followed<'_>, segment: &mut Segment)
    requires yard { OfYard yard.now segment.old }
    requires run { AreOf yard.now.event_order followed.plan.now followed.events.now followed.asked.now }
    ensures { OfYard yard.now segment.new }
{
    let synced = make_up_to(rt, yard, followed, segment, 18);
    assert_eq!(rt; synced, Done::Passed);
    let first = make_up_to(rt, yard, followed, segment, 19);
    let second = make_up_to(rt, yard, followed, segment, 20);
    assert!(rt; first == Done::Loaded(7) && second == Done::Loaded(7));
    assert!(rt; !yard.ended(segment));
    let ended = make_up_to(rt, yard, followed, segment, 22);
    assert!(rt; ended == Done::Finished && yard.ended(segment));
}

// Ends the run, and compares the cells' last values.
fn ends<R: Abort>(rt: &R, alloc: Global, yard: Yard, followed: Followed<'_>, mut segment: Segment)
    requires yard { OfYard yard segment }
    requires run { AreOf yard.event_order followed.plan.now followed.events.now followed.asked.now }
{
    makes_the_end(rt, &yard, followed, &mut segment);
    let values = last_values(alloc, yard, followed.plan, followed.events, segment, 1);
    assert!(rt; matches!(&values, Some(values) if values.as_slice() == [7].as_slice()));
}

// The setting of the run of two calls.
fn of_gets<R: Abort>(rt: &R, alloc: Global) -> Result<Setting, AllocError>
    ensures segment { IfOk result (λ s. OfYard s.yard s.segment) }
    ensures run { IfOk result (λ s. AreOf s.yard.event_order s.plan s.events s.asked.items) }
{
    let Some(accepted) = accepted(alloc, GETS, "") else {
        panic!(rt; "not accepted");
    };
    on_its_own(alloc, &accepted)
}

#[test]
fn a_thief_takes_the_rest(rt: HostRuntime) -> Result<(), Fail> {
    let alloc = rt.alloc();
    let Setting {
        plan,
        yard,
        segment,
        events,
        asked,
    } = of_gets(&rt, alloc)?;
    let events = events.as_slice();
    let asked = asked.as_slice();
    let (first, second) = yard.apart(segment);
    let (give_ticket, get_ticket) = bounded(alloc, 1)?;
    let (tell_taken, hear_taken) = bounded(alloc, 1)?;
    let (first, second) = thread::join(
        &rt,
        || makes_the_child(
            &rt,
            &yard,
            Followed {
                plan: &plan,
                events,
                asked,
            },
            first,
            &give_ticket,
            &hear_taken,
        ),
        || takes_the_rest(
            &rt,
            &yard,
            Followed {
                plan: &plan,
                events,
                asked,
            },
            second,
            &get_ticket,
            &tell_taken,
        ),
    );
    assert!(rt; yard.adjoins(&first, &second));
    let whole = yard.together(first, second);
    let followed = Followed {
        plan: &plan,
        events,
        asked,
    };
    ends(&rt, alloc, yard, followed, whole);
    Ok(())
}

// One thread makes both children, and takes each continuation back.
fn makes_both<R: Abort>(rt: &R, yard: &Yard, followed: Followed<'_>, segment: &mut Segment)
    requires yard { OfYard yard.now segment.old }
    requires run { AreOf yard.now.event_order followed.plan.now followed.events.now followed.asked.now }
    ensures { OfYard yard.now segment.new }
{
    make_up_to(rt, yard, followed, segment, 9);
    let first = take(yard, followed.asked, segment, 4);
    assert!(rt; matches!(first, Some(Taken::Yes)));
    make_up_to(rt, yard, followed, segment, 16);
    let second = take(yard, followed.asked, segment, 11);
    assert!(rt; matches!(second, Some(Taken::Yes)));
}

#[test]
fn nobody_takes_the_rest(rt: HostRuntime) -> Result<(), Fail> {
    let alloc = rt.alloc();
    let Setting {
        plan,
        yard,
        mut segment,
        events,
        asked,
    } = of_gets(&rt, alloc)?;
    let followed = Followed {
        plan: &plan,
        events: events.as_slice(),
        asked: asked.as_slice(),
    };
    makes_both(&rt, &yard, followed, &mut segment);
    ends(&rt, alloc, yard, followed, segment);
    Ok(())
}

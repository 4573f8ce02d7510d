use plan_lang::lines::{Line, Plan};
use plan_lang::plan_reading::read_plan;
use primary_machine::primary::PrimaryState;
use rdf_core::events::Event;
use rdf_core::replies::Reply;
use rdf_machine::machine::Machine;
use rdf_monitor::text_of;
use rdf_types::layout::Layout;
use rdf_types::records::{Node, RecKey, TxnId, VolNo};
use std::alloc::{AllocError, Global};
use std::test::Fail;

// Before a line that tells how far the volumes of a session are, each of them comes up to what was received.
fn rise_all(machine: &mut Machine) -> Result<(), AllocError> {
    for number in 0..16u8 {
        if let Some(upto) = machine.may_rise(VolNo(number)) {
            let rise = Event::Apply {
                vol: VolNo(number),
                upto,
            };
            let _ = machine.step(&rise)?;
        }
    }
    Ok(())
}

fn tells_volumes(line: &Line) -> bool {
    matches!(line, Line::Read { .. } | Line::Purge { .. } | Line::End)
}

fn answer(machine: &mut Machine, line: &Line, out: &mut Vec<u8>) -> Result<(), AllocError> {
    if tells_volumes(line) {
        rise_all(machine)?;
    }
    if !machine.allows(line) {
        return Err(AllocError);
    }
    let reply = machine.line(line)?;
    text_of(&reply, out)
}

fn stopped_abort() -> &'static [u8] {
    b"rdfplan 1\nbackups 2\nvolumes 2\ntrail 0 1\nprotect 1 1\nextent 4\nretain 2\ngo\nbegin 1\ninsert 1 0 f k 1\ninsert 1 1 g h 2\nabort 1\n"
}

fn after_abort() -> &'static [u8] {
    b"rdfplan 1\nbackups 2\nvolumes 2\ntrail 0 1\nprotect 1 1\nextent 4\nretain 2\ngo\nget 1 0 f k\nrestart a\nstatus a\nrestart a\nlist a 0\n"
}

// What the restart answers where the stop left so many durable parts of the abort.
fn aborts() -> &'static [(u32, &'static [u8])] {
    &[
        (
            0,
            b"ok\nok 1\nok 2\nstopped a\nno down\nok 1\nok up trail 5 open 0\nno up\nok 5 0\n",
        ),
        (
            1,
            b"ok\nok 1\nok 2\nstopped a\nno down\nok 1\nok up trail 5 open 0\nno up\nok 5 0\n",
        ),
        (
            2,
            b"ok\nok 1\nok 2\nstopped a\nno down\nok 1\nok up trail 5 open 0\nno up\nok 5 0\n",
        ),
        (
            3,
            b"ok\nok 1\nok 2\nstopped a\nno down\nok 0\nok up trail 5 open 0\nno up\nok 5 0\n",
        ),
    ]
}

fn stopped_restart() -> &'static [u8] {
    b"rdfplan 1\nbackups 2\nvolumes 2\ntrail 0 1\nprotect 1 1\nextent 4\nretain 2\ngo\nbegin 2\nbegin 1\ninsert 2 0 f k 1\ninsert 1 1 g h 2\ncut a\nrestart a\n"
}

fn after_restart() -> &'static [u8] {
    b"rdfplan 1\nbackups 2\nvolumes 2\ntrail 0 1\nprotect 1 1\nextent 4\nretain 2\ngo\nrestart a\nstatus a\nbegin 1\nbegin 3\ninsert 3 0 f k 1\n"
}

// The same of the restart, which backs out the transactions 1 and 2.
fn restarts() -> &'static [(u32, &'static [u8])] {
    &[
        (
            0,
            b"ok\nok\nok 1\nok 2\nok\nstopped a\nok 2\nok up trail 6 open 0\nno used\nok\nok 7\n",
        ),
        (
            1,
            b"ok\nok\nok 1\nok 2\nok\nstopped a\nok 2\nok up trail 6 open 0\nno used\nok\nok 7\n",
        ),
        (
            2,
            b"ok\nok\nok 1\nok 2\nok\nstopped a\nok 1\nok up trail 6 open 0\nno used\nok\nok 7\n",
        ),
        (
            3,
            b"ok\nok\nok 1\nok 2\nok\nstopped a\nok 1\nok up trail 6 open 0\nno used\nok\nok 7\n",
        ),
        (
            4,
            b"ok\nok\nok 1\nok 2\nok\nstopped a\nok 0\nok up trail 6 open 0\nno used\nok\nok 7\n",
        ),
    ]
}

// A line on the primary.
fn on_primary(
    primary: &mut PrimaryState,
    layout: &Layout,
    line: &Line,
) -> Result<Reply, AllocError> {
    match line {
        Line::Begin { .. } => primary.line(layout, line),
        Line::Insert { .. } => primary.line(layout, line),
        Line::Get { .. } => primary.line(layout, line),
        Line::Cut { .. } => Ok(primary.cut(layout)),
        Line::Restart { .. } => primary.restart(layout),
        Line::List { vol, .. } => primary.list(layout, *vol),
        Line::Status { .. } => Ok(primary.status()),
        _ => Err(AllocError),
    }
}

fn each_on_primary(
    primary: &mut PrimaryState,
    layout: &Layout,
    lines: &[Line],
    out: &mut Vec<u8>,
) -> Result<(), AllocError> {
    for line in lines {
        let reply = on_primary(primary, layout, line)?;
        text_of(&reply, out)?;
    }
    Ok(())
}

fn stop_in_last(
    primary: &mut PrimaryState,
    layout: &Layout,
    lines: &[Line],
    done: u32,
    out: &mut Vec<u8>,
) -> Result<(), AllocError> {
    let Some((last, lines)) = lines.split_last() else {
        return Ok(());
    };
    each_on_primary(primary, layout, lines, out)?;
    let reply = primary.stop(layout, last, done)?;
    text_of(&reply, out)
}

// The replies to the lines of two plans, where a stop cuts off the last line of the first.
fn replies_of_both(
    alloc: Global,
    first: &[u8],
    done: u32,
    second: &[u8],
) -> Result<Vec<u8>, AllocError> {
    let Ok(plan) = read_plan(alloc, first) else {
        return Err(AllocError);
    };
    let Plan { layout, lines } = plan;
    let mut primary = PrimaryState::new(alloc);
    let mut out = Vec::new(alloc);
    stop_in_last(&mut primary, &layout, lines.all(), done, &mut out)?;
    let Ok(plan) = read_plan(alloc, second) else {
        return Err(AllocError);
    };
    each_on_primary(&mut primary, &layout, plan.lines.all(), &mut out)?;
    Ok(out)
}

fn answer_all(machine: &mut Machine, lines: &[Line], out: &mut Vec<u8>) -> Result<(), AllocError> {
    for line in lines {
        answer(machine, line, out)?;
    }
    Ok(())
}

#[test]
fn stop_in_a_backout(rt: HostRuntime) -> Result<(), Fail> {
    for (done, wanted) in aborts() {
        let out = replies_of_both(rt.alloc(), stopped_abort(), *done, after_abort())?;
        assert_eq!(rt; out.as_slice(), *wanted);
    }
    Ok(())
}

#[test]
fn stop_in_a_restart(rt: HostRuntime) -> Result<(), Fail> {
    for (done, wanted) in restarts() {
        let out = replies_of_both(rt.alloc(), stopped_restart(), *done, after_restart())?;
        assert_eq!(rt; out.as_slice(), *wanted);
    }
    Ok(())
}

fn before_a_halt() -> &'static [u8] {
    b"rdfplan 1\nbackups 1\nvolumes 2\ntrail 0 0\nprotect 1 0\nextent 4\nretain 2\ngo\nbegin 1\ninsert 1 0 f k 1\ncommit 1\nsend b 64\n"
}

fn replies_after_a_halt() -> &'static [u8] {
    b"stopped b\nno down\nstopped b\nok down\n"
}

fn key_of_a_row(alloc: Global) -> Result<RecKey, AllocError> {
    let Ok(plan) = read_plan(alloc, row()) else {
        return Err(AllocError);
    };
    match plan.lines.all().first() {
        Some(Line::Get { key, .. }) => key.try_clone(),
        _ => Err(AllocError),
    }
}

fn row() -> &'static [u8] {
    b"rdfplan 1\nbackups 1\nvolumes 2\ntrail 0 0\nprotect 1 0\nextent 4\nretain 2\ngo\nget 1 0 f k\n"
}

// The disk of a volume stops in a session: a read of it takes the node down, and so does the end.
fn after_a_halt(alloc: Global, out: &mut Vec<u8>) -> Result<(), AllocError> {
    let Ok(plan) = read_plan(alloc, before_a_halt()) else {
        return Err(AllocError);
    };
    let mut machine = Machine::new(alloc, &plan.layout)?;
    let mut before = Vec::new(alloc);
    answer_all(&mut machine, plan.lines.all(), &mut before)?;
    answer(&mut machine, &Line::Session { node: Node::B }, &mut before)?;
    answer(
        &mut machine,
        &Line::Deliver {
            node: Node::B,
            k: 0,
        },
        &mut before,
    )?;
    if !machine.may_halt(VolNo(0)) {
        return Err(AllocError);
    }
    let _ = machine.step(&Event::Halt { vol: VolNo(0) })?;
    let key = key_of_a_row(alloc)?;
    let again = key.try_clone()?;
    answer(&mut machine, &Line::Read { node: Node::B, key }, out)?;
    answer(
        &mut machine,
        &Line::Read {
            node: Node::B,
            key: again,
        },
        out,
    )?;
    answer(&mut machine, &Line::End, out)?;
    answer(&mut machine, &Line::Status { node: Node::B }, out)
}

#[test]
fn stop_of_a_volume_in_a_session(rt: HostRuntime) -> Result<(), Fail> {
    let mut out = Vec::new(rt.alloc());
    after_a_halt(rt.alloc(), &mut out)?;
    assert_eq!(rt; out.as_slice(), replies_after_a_halt());
    Ok(())
}

fn header() -> &'static [u8] {
    b"rdfplan 1\nbackups 2\nvolumes 2\ntrail 0 1\nprotect 1 1\nextent 4\nretain 2\ngo\nlose\n"
}

fn first_done(alloc: Global, layout: &Layout) -> Result<Option<Reply>, AllocError> {
    let mut machine = Machine::new(alloc, layout)?;
    done_if_allowed(&mut machine, Line::Begin { txn: TxnId(4) })
}

fn done_if_allowed(machine: &mut Machine, line: Line) -> Result<Option<Reply>, AllocError> {
    if !machine.allows(&line) {
        return Err(AllocError);
    }
    machine.step(&Event::Do { line })
}

fn layout_of(alloc: Global, text: &[u8]) -> Result<Layout, AllocError> {
    match read_plan(alloc, text) {
        Ok(plan) => Ok(plan.layout),
        Err(_) => Err(AllocError),
    }
}

#[test]
fn steps_of_events(rt: HostRuntime) -> Result<(), Fail> {
    let layout = layout_of(rt.alloc(), header())?;
    let begun = first_done(rt.alloc(), &layout)?;
    assert!(rt; matches!(begun, Some(Reply::Done)));
    Ok(())
}

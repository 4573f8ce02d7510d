use fault_tables::{Row, Stop, rows, stops};
use rdf_disk::Tear;
use std::test::Fail;

fn stop(calls: u32, tear: Tear) -> Stop {
    Stop { calls, tear }
}

#[test]
fn every_stop_once(rt: HostRuntime) -> Result<(), Fail> {
    assert!(rt; stops(rt.alloc(), 0)?.len() == 0);
    let two = stops(rt.alloc(), 2)?;
    assert!(rt; two.len() == 6);
    assert!(rt; two.contains(&stop(1, Tear::Mix)));
    Ok(())
}

// Six stops in the step, each alone and with nine stops in the restart.
#[test]
fn every_row_once(rt: HostRuntime) -> Result<(), Fail> {
    let table = rows(rt.alloc(), 2, 3)?;
    assert!(rt; table.len() == 60);
    let last = Row {
        step: stop(1, Tear::Keep),
        restart: Some(stop(2, Tear::Lose)),
    };
    assert!(rt; table.contains(&last));
    Ok(())
}

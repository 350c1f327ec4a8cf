use crate::{Met, meet};
use std::test::*;

fn have_met(met: Met) -> bool {
    match met {
        Met::Together => true,
        _ => false,
    }
}

#[test]
fn one_statement_works_at_two_segments_at_once(rt: HostRuntime) -> Result<(), Fail> {
    let script =
        b"segments 2\ntable t (k bigint, v bigint) distributed by (k)\ns1: INSERT INTO t VALUES (0, 1), (1, 1)\n";
    let met = meet(&rt, rt.alloc(), script);
    assert!(rt; have_met(met));
    Ok(())
}

#[test]
fn statements_of_two_sessions_work_at_once(rt: HostRuntime) -> Result<(), Fail> {
    let script =
        b"segments 2\ntable t (k bigint, v bigint) distributed by (k)\ns1: INSERT INTO t VALUES (0, 1)\ns2: INSERT INTO t VALUES (1, 1)\n";
    let met = meet(&rt, rt.alloc(), script);
    assert!(rt; have_met(met));
    Ok(())
}

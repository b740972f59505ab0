//! Reports of runs.
use crate::runs::{ends, texts};
use std::test::Fail;

const CONFLICT: &str = "\
store S1
table T1 notes causal 64 n:int
client C1 - T1
client C2 - T1
write C1 T1 00000000-0000-4000-8000-000000000001 5
write C2 T1 00000000-0000-4000-8000-000000000001 6
sync C1 T1
deliver 0
deliver 1
sync C2 T1
deliver 2
deliver 3
deliver 4
deliver 5
show C2 T1 00000000-0000-4000-8000-000000000001
";

const TABLES: &str = "\
store S1
table T3 c strong 64 n:int
table T1 a-1 eventual 1024 n:int o:object
table T2 b_2 causal 64 b:bool
client C1 - T1,T2
write C1 T1 00000000-0000-4000-8000-000000000001 1 h:00
sync C1 T1
deliver 0
deliver 1
deliver 2
write C1 T1 00000000-0000-4000-8000-000000000002 2 h:
sync C1 T1
deliver 3
deliver 4
write C1 T1 00000000-0000-4000-8000-000000000001 3 h:00
sync C1 T1
deliver 5
history T1
";

const STATES: &str = "\
store S1
draft T6 plans causal 64 n:int
draft T5 notes strong 64 n:int
client C1 - -
create C1 T5
deliver 0
deliver 1
write C1 T5 00000000-0000-4000-8000-000000000001 1
deliver 2
drop C1 T5
deliver 4
deliver 5
";

// A script, how its report ends, and what is written.
const REPORTS: [(&str, u8, &str); 7] = [
    ("", 0, "{\"lines\":0,\"tables\":[]}\n"),
    (
        "store S1\ntable T64 notes causal 64 n:int\n# no event\nclient C1 - T64\n",
        0,
        "{\"lines\":0,\"tables\":[{\"name\":\"notes\",\"rows\":0,\"scheme\":\"causal\",\"table\":64,\"version\":0}]}\n",
    ),
    (
        CONFLICT,
        0,
        "{\"lines\":23,\"tables\":[{\"name\":\"notes\",\"rows\":1,\"scheme\":\"causal\",\"table\":1,\"version\":1}]}\n",
    ),
    (
        TABLES,
        0,
        "{\"lines\":31,\"tables\":[\
{\"name\":\"a-1\",\"rows\":2,\"scheme\":\"eventual\",\"table\":1,\"version\":3},\
{\"name\":\"b_2\",\"rows\":0,\"scheme\":\"causal\",\"table\":2,\"version\":0},\
{\"name\":\"c\",\"rows\":0,\"scheme\":\"strong\",\"table\":3,\"version\":0}]}\n",
    ),
    (
        STATES,
        0,
        "{\"lines\":20,\"tables\":[\
{\"name\":\"notes\",\"rows\":1,\"scheme\":\"strong\",\"table\":5,\"version\":1},\
{\"name\":\"plans\",\"rows\":0,\"scheme\":\"causal\",\"table\":6,\"version\":0}]}\n",
    ),
    ("store S1\nshow C1 T1 x\n", 3, "stop 3 2 8\n"),
    ("store S17\n", 7, "stop 7 1 7\n"),
];

#[test]
fn a_run_is_reported_by_its_lines_and_tables(rt: HostRuntime) -> Result<(), Fail> {
    for (script, status, output) in REPORTS {
        let (ended, written) = ends(
            rt.alloc(),
            "report",
            texts(rt.alloc(), &[script])?,
            &[],
            &[],
        )?;
        assert_eq!(rt; ended, status, "{output}");
        assert!(rt; written.as_slice() == output.as_bytes(), "{output}");
    }
    Ok(())
}

// The first lines of the transcript would be written by then.
#[test]
fn a_report_whose_source_fails_is_not_written(rt: HostRuntime) -> Result<(), Fail> {
    for take in 0..5 {
        let (ended, written) = ends(
            rt.alloc(),
            "report",
            texts(rt.alloc(), &[CONFLICT])?,
            &[take],
            &[],
        )?;
        assert_eq!(rt; ended, 4, "{take}");
        assert!(rt; written.is_empty(), "{take}");
    }
    Ok(())
}

// Half of the one line, rounded down.
#[test]
fn a_report_whose_sink_fails(rt: HostRuntime) -> Result<(), Fail> {
    let (ended, written) = ends(rt.alloc(), "report", Vec::new(rt.alloc()), &[], &[0])?;
    assert_eq!(rt; ended, 5);
    assert!(rt; written.as_slice() == b"{\"lines\":0,\"".as_slice());
    Ok(())
}

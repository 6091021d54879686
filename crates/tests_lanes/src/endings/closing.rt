//! The last line and the status of each end of a run.

use kb_base::Seq;
use kb_catalog_text::TextFault;
use kb_ports::{BytesSink, Sips};
use kb_runs::{RunStop, Stop, close};
use std::test::Fail;

#[test]
fn statuses_and_last_lines(rt: HostRuntime) -> Result<(), Fail> {
    let alloc = rt.alloc();
    let key = Seq::from_vec(b"effective".to_vec(alloc)?);
    let cases = [
        (Ok(()), 0, ""),
        (Err(Stop::Words), 2, "billd: words\n"),
        (Err(Stop::Run(RunStop::Input)), 3, "billd: input\n"),
        (Err(Stop::Run(RunStop::Output)), 4, ""),
        (Err(Stop::Disk), 5, "billd: disk\n"),
        (
            Err(Stop::Journal { lane: 0, at: 8 }),
            6,
            "billd: journal 0 8\n",
        ),
        (Err(Stop::Run(RunStop::Memory)), 7, "billd: memory\n"),
        (Err(Stop::Text(TextFault::Memory)), 7, "billd: memory\n"),
        (Err(Stop::Text(TextFault::NotToml)), 8, "billd: text 1\n"),
        (
            Err(Stop::Text(TextFault::Missing(key))),
            8,
            "billd: text 2 effective\n",
        ),
        (
            Err(Stop::Text(TextFault::Rule(11, 1))),
            8,
            "billd: text 5 11 1\n",
        ),
        (
            Err(Stop::Text(TextFault::TooLong(60_001))),
            8,
            "billd: text 7 60001\n",
        ),
        (Err(Stop::Market), 10, "billd: market\n"),
        (
            Err(Stop::NotEmpty { lane: 63 }),
            11,
            "billd: not empty 63\n",
        ),
        (
            Err(Stop::Run(RunStop::LineTooLong)),
            12,
            "billd: line too long\n",
        ),
        (
            Err(Stop::Run(RunStop::InputTooLong)),
            13,
            "billd: input too long\n",
        ),
        (Err(Stop::Full), 14, "billd: full\n"),
    ];
    for (run, status, line) in cases {
        let mut output = BytesSink::new(Vec::new(alloc), Vec::new(alloc));
        let given = close(alloc, &mut output, run);
        assert_eq!(rt;
            (given, output.bytes()),
            (status, line.as_bytes()),
            "{line}"
        );
    }
    Ok(())
}

#[test]
fn an_output_that_fails(rt: HostRuntime) -> Result<(), Fail> {
    let alloc = rt.alloc();
    // the call that fails, the status, what is written by then, and how many calls were made
    let cases = [
        (1, 4, "", 1),
        (2, 4, "billd", 2),
        (5, 4, "billd: journal 12 34", 5),
        (6, 6, "billd: journal 12 34\n", 5),
    ];
    for (failing, status, written, calls) in cases {
        let inner = BytesSink::new(Vec::new(alloc), vec![in alloc; failing]?);
        let mut output = Sips { inner, most: 5 };
        let given = close(alloc, &mut output, Err(Stop::Journal { lane: 12, at: 34 }));
        assert_eq!(rt;
            (given, output.inner.bytes(), output.inner.calls()),
            (status, written.as_bytes(), calls),
            "with call {failing}"
        );
    }
    Ok(())
}

#[test]
fn a_run_that_its_output_stopped_writes_no_more(rt: HostRuntime) {
    let alloc = rt.alloc();
    let mut output = BytesSink::new(Vec::new(alloc), Vec::new(alloc));
    let given = close(alloc, &mut output, Err(Stop::Run(RunStop::Output)));
    assert_eq!(rt; (given, output.calls()), (4, 0));
}

//! Words of `bill` and `serve` that aren't in the grammar.

use crate::compare::same;
use crate::words_line::said::said;
use std::test::Fail;

/// Each option missing.
const MISSING: &str = "bill --day 2024-03-10 --workers 2
bill --dir d --workers 2
bill --dir d --day 2024-03-10
serve --port 80 --workers 4 --bus 2 --connections 9
serve --dir d --workers 4 --bus 2 --connections 9
serve --dir d --port 80 --bus 2 --connections 9
serve --dir d --port 80 --workers 4 --connections 9
serve --dir d --port 80 --workers 4 --bus 2";

/// Each option twice.
const TWICE: &str = "bill --dir d --day 2024-03-10 --workers 2 --gateway g --dir d
bill --dir d --day 2024-03-10 --workers 2 --gateway g --day=2024-03-10
bill --dir d --day 2024-03-10 --workers 2 --gateway g --workers 2
bill --dir d --day 2024-03-10 --workers 2 --gateway g --gateway=g
serve --dir d --port 80 --workers 4 --bus 2 --connections 9 --gateway g --dir d
serve --dir d --port 80 --workers 4 --bus 2 --connections 9 --gateway g --port=80
serve --dir d --port 80 --workers 4 --bus 2 --connections 9 --gateway g --workers 4
serve --dir d --port 80 --workers 4 --bus 2 --connections 9 --gateway g --bus=2
serve --dir d --port 80 --workers 4 --bus 2 --connections 9 --gateway g --connections 9
serve --dir d --port 80 --workers 4 --bus 2 --connections 9 --gateway g --gateway=g";

/// Values past their ranges, or of another kind.
const VALUES: &str = "bill --dir d --day 2024-03-10 --workers 0
bill --dir d --day 2024-03-10 --workers 65
serve --dir d --port 0 --workers 4 --bus 2 --connections 9
serve --dir d --port 65536 --workers 4 --bus 2 --connections 9
serve --dir d --port 80 --workers 0 --bus 2 --connections 9
serve --dir d --port 80 --workers 17 --bus 2 --connections 9
serve --dir d --port 80 --workers 4 --bus 0 --connections 9
serve --dir d --port 80 --workers 4 --bus 17 --connections 9
serve --dir d --port 80 --workers 4 --bus 2 --connections 0
serve --dir d --port 80 --workers 4 --bus 2 --connections 1000001";

#[test]
fn words_that_are_refused(rt: HostRuntime) -> Result<(), Fail> {
    for rows in [MISSING, TWICE, VALUES] {
        for line in rows.lines() {
            same(
                &rt,
                &(said(rt.alloc(), line)?.as_str()),
                &"Err(Words)",
                &line,
            );
        }
    }
    Ok(())
}

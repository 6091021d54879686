//! Words of `bill` and `serve`, beside what they say: no run shows it yet.

use crate::compare::same;
use crate::words_line::said::said;
use std::test::Fail;

/// Each command with each of its options, in either spelling and in several orders.
const COMMANDS: &str = r#"bill --dir d --day 2024-03-10 --workers 2
Bill(Bill { dir: "d", day: Day { number: 19792 }, workers: 2, gateway: None })

bill --dir=d --day=2024-03-10 --workers=2 --gateway=g
Bill(Bill { dir: "d", day: Day { number: 19792 }, workers: 2, gateway: Some("g") })

serve --dir d --port 80 --workers 4 --bus 2 --connections 9
Serve(Serve { dir: "d", port: 80, workers: 4, bus: 2, connections: 9, gateway: None })

serve --dir=d --port=80 --workers=4 --bus=2 --connections=9 --gateway=g
Serve(Serve { dir: "d", port: 80, workers: 4, bus: 2, connections: 9, gateway: Some("g") })

bill --gateway g --workers 2 --day 2024-03-10 --dir d
Bill(Bill { dir: "d", day: Day { number: 19792 }, workers: 2, gateway: Some("g") })

bill --day=2024-03-10 --workers 2 --gateway=g --dir d
Bill(Bill { dir: "d", day: Day { number: 19792 }, workers: 2, gateway: Some("g") })

serve --gateway g --connections 9 --bus 2 --workers 4 --port 80 --dir d
Serve(Serve { dir: "d", port: 80, workers: 4, bus: 2, connections: 9, gateway: Some("g") })

serve --port=80 --workers 4 --bus=2 --connections 9 --gateway=g --dir d
Serve(Serve { dir: "d", port: 80, workers: 4, bus: 2, connections: 9, gateway: Some("g") })"#;

/// Values, and numbers and days at the ends of their ranges.
const VALUES: &str = r#"bill --dir d --day 2024-03-10 --workers 1
Bill(Bill { dir: "d", day: Day { number: 19792 }, workers: 1, gateway: None })

bill --dir d --day 2024-03-10 --workers 64
Bill(Bill { dir: "d", day: Day { number: 19792 }, workers: 64, gateway: None })

serve --dir d --port 1 --workers 4 --bus 2 --connections 9
Serve(Serve { dir: "d", port: 1, workers: 4, bus: 2, connections: 9, gateway: None })

serve --dir d --port 65535 --workers 4 --bus 2 --connections 9
Serve(Serve { dir: "d", port: 65535, workers: 4, bus: 2, connections: 9, gateway: None })

serve --dir d --port 80 --workers 1 --bus 2 --connections 9
Serve(Serve { dir: "d", port: 80, workers: 1, bus: 2, connections: 9, gateway: None })

serve --dir d --port 80 --workers 16 --bus 2 --connections 9
Serve(Serve { dir: "d", port: 80, workers: 16, bus: 2, connections: 9, gateway: None })

serve --dir d --port 80 --workers 4 --bus 1 --connections 9
Serve(Serve { dir: "d", port: 80, workers: 4, bus: 1, connections: 9, gateway: None })

serve --dir d --port 80 --workers 4 --bus 16 --connections 9
Serve(Serve { dir: "d", port: 80, workers: 4, bus: 16, connections: 9, gateway: None })

serve --dir d --port 80 --workers 4 --bus 2 --connections 1
Serve(Serve { dir: "d", port: 80, workers: 4, bus: 2, connections: 1, gateway: None })

serve --dir d --port 80 --workers 4 --bus 2 --connections 1000000
Serve(Serve { dir: "d", port: 80, workers: 4, bus: 2, connections: 1000000, gateway: None })"#;

#[test]
fn words_that_are_read(rt: HostRuntime) -> Result<(), Fail> {
    let alloc = rt.alloc();
    for rows in [COMMANDS, VALUES] {
        for row in rows.split("\n\n") {
            let (line, what) = row.split_once('\n').ok_or("a row")?;
            let expected = format!(in alloc; "Ok({what})")?;
            same(
                &rt,
                &(said(alloc, line)?.as_str()),
                &expected.as_str(),
                &line,
            );
        }
    }
    Ok(())
}

//! Settlements, written down.
ghost use Rattle.std.specs.Prelude.{◌≡◌, ◌≤◌, ◌<◌, ◌^◌, Err, false, length, IsTrue, OnOk, OnErr};
ghost use Rattle.kb_disk.specs.Moments.{AtEachMoment};
ghost use Rattle.kb_journal.specs.Format.{IsWithOrWithout};
ghost use Rattle.kb_codec.specs.Entries.{payload, payloads};
ghost use Rattle.kb_lane.specs.Logs.{Appends};
ghost use Rattle.kb_machine.specs.Plans.{changed};
ghost use Rattle.kb_lane.specs.Private.Settlements.{IsReadyOf, fault_step};

use crate::log::Log;
use crate::settlement::Settlement;
use kb_book::Step;
use kb_days::Day;
use kb_disk::Disk;
use kb_journal::AppendFault;
use kb_machine::{Change, Machine};

/// Writes a settlement down, and takes it in. It takes no memory. If it can't be written down, the fault
/// tells why, as the log's `append` does, and the machine stays as it was.
pub fn write<D: Disk>(
    machine: &mut Machine,
    log: &mut Log<D>,
    today: Day,
    settlement: Settlement,
) -> Result<(), AppendFault>
    requires ready { IsReadyOf machine.old today settlement.command settlement }
    ensures outcome { Appends D.told.fault_count log.old log.new (today, settlement.command)
        (length (payload (today, settlement.command))) result }
    ensures few { OnOk result (length log.old.history < 2 ^ 32) }
    ensures machine { OnOk result (machine.new ≡ changed machine.old settlement.change) }
    ensures unchanged { OnErr result (machine.new ≡ machine.old) }
    ensures moments { log.old.journal.stopped ≡ false → IsTrue (D.told.honest log.old.journal.disk)
        → AtEachMoment D.told.moment D.told.left_since log.old.journal.disk log.new.journal.disk
        (IsWithOrWithout log.old.journal.lanes log.old.journal.lane (payloads log.old.history)
        (payload (today, settlement.command))) }
    ensures same { (log.new.opened ≡ log.old.opened) × (log.new.faults ≡ log.old.faults) }
    ensures place { (log.new.journal.lanes ≡ log.old.journal.lanes)
        × (log.new.journal.lane ≡ log.old.journal.lane) }
    ensures honesty { D.told.honest log.new.journal.disk ≡ D.told.honest log.old.journal.disk }
    ensures rising { D.told.fault_count log.old.journal.disk ≤ D.told.fault_count log.new.journal.disk }
{
    let Settlement {
        command,
        change,
        bytes,
    } = settlement;
    match log.append(today, &command, &bytes) {
        Ok(()) => {
            machine.commit(change);
            Ok(())
        }
        Err(fault) => unchanged(change, fault),
    }
}

/// Lets a change go that isn't written down.
fn unchanged(_change: Change, fault: AppendFault) -> Result<(), AppendFault>
    ensures { result ≡ Err fault }
{
    Err(fault)
}

/// The step that ends with an append that failed.
pub fn stopped_by(fault: AppendFault) -> Step
    ensures { result ≡ fault_step fault }
{
    match fault {
        AppendFault::DiskFault => Step::DiskFault,
        AppendFault::Stopped(count) => Step::Stopped(count),
        AppendFault::Full { commands, size } => Step::Full { commands, size },
    }
}

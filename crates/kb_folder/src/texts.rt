//! The two texts, read from their files, as the first commands of a lane.
ghost use Rattle.std.specs.Prelude.{◌≡◌, ◌≤◌, ℕ, Err, IfOk, IfErr, IfSome};
ghost use Rattle.kb_catalog_text.specs.Texts.{CatalogText, OverdueText, IsFaultOf, catalog_read};
ghost use Rattle.kb_catalog_text.specs.Texts.{overdue_read};
ghost use Rattle.kb_codec.specs.Commands.{IsCatalogText, IsOverdueText};
ghost use Rattle.kb_journal.specs.Format.{IsSized};
ghost use Rattle.kb_codec.specs.Entries.{payload};
ghost use Rattle.kb_disk.specs.Places.{SameFiles, SameLanes};
ghost use Rattle.kb_folder.specs.Foundings.{catalog_command, overdue_command, first_key, read_part};
ghost use Rattle.kb_folder.specs.Foundings.{text_fault, IsTextOf, AreTextsOf, TellsFault, CountsFaults};
ghost use Rattle.kb_folder.specs.Private.Readings.{IsReadAs};

use crate::unfounded::Unfounded;
use kb_catalog_text::{TextFault, read, read_overdue};
use kb_codec::{Catalog, Command, OverdueRules};
use kb_days::{Day, Name};
use kb_disk::Vault;
use kb_lane::payload_of;
use std::alloc::Global;

/// The texts of two files, as they are written down as the first two commands of a lane.
pub(crate) fn both_records<V: Vault>(
    alloc: Global,
    vault: &mut V,
    today: Day,
    catalog: &str,
    overdue: &str,
) -> Result<(Vec<u8>, Vec<u8>), Unfounded>
    ensures records { IfOk result (λ both. (version : CatalogText) × (states : OverdueText)
        × AreTextsOf ((V.told vault.old).file_bytes catalog.now) ((V.told vault.old).file_bytes overdue.now)
        version states
        × (both.0.items ≡ payload (today, catalog_command version))
        × (both.1.items ≡ payload (today, overdue_command states))) }
    ensures sized_first { IfOk result (λ both. IsSized both.0.items) }
    ensures sized_second { IfOk result (λ both. IsSized both.1.items) }
    ensures judged { IfSome ((V.told vault.old).file_bytes catalog.now)
        (λ version. IfSome ((V.told vault.old).file_bytes overdue.now)
        (λ states. TellsFault (text_fault version states) result)) }
    ensures of_text { (lane : ℕ) → result ≡ Err (Unfounded.NotEmpty lane) → ⊥ }
    ensures same_out { SameLanes (V.told vault.new).is_out (V.told vault.old).is_out }
    ensures same_lanes { SameLanes (V.told vault.new).lane_bytes (V.told vault.old).lane_bytes }
    ensures same_back { SameLanes (V.told vault.new).came_back (V.told vault.old).came_back }
    ensures same_files { SameFiles (V.told vault.new).file_bytes (V.told vault.old).file_bytes }
    ensures counted { CountsFaults (V.told vault.old).faults (V.told vault.new).faults result }
    ensures rising { (V.told vault.old).faults ≤ (V.told vault.new).faults }
{
    let first = catalog_record(alloc, vault, today, catalog)?;
    match overdue_record(alloc, vault, today, overdue) {
        Ok(second) => Ok((first, second)),
        Err(fault) => Err(fault),
    }
}

/// The catalog text of a file, as it is written down as the first command of a lane.
fn catalog_record<V: Vault>(
    alloc: Global,
    vault: &mut V,
    today: Day,
    name: &str,
) -> Result<Vec<u8>, Unfounded>
    ensures record { IfOk result (λ bytes. (text : CatalogText)
        × IsTextOf ((V.told vault.old).file_bytes name.now) text.text
        × IsCatalogText text × (bytes.items ≡ payload (today, catalog_command text))) }
    ensures sized { IfOk result (λ bytes. IsSized bytes.items) }
    ensures judged { IfSome ((V.told vault.old).file_bytes name.now) (λ whole.
        IsReadAs (catalog_read (read_part whole)) result) }
    ensures of_text { (lane : ℕ) → result ≡ Err (Unfounded.NotEmpty lane) → ⊥ }
    ensures same_out { SameLanes (V.told vault.new).is_out (V.told vault.old).is_out }
    ensures same_lanes { SameLanes (V.told vault.new).lane_bytes (V.told vault.old).lane_bytes }
    ensures same_back { SameLanes (V.told vault.new).came_back (V.told vault.old).came_back }
    ensures same_files { SameFiles (V.told vault.new).file_bytes (V.told vault.old).file_bytes }
    ensures counted { CountsFaults (V.told vault.old).faults (V.told vault.new).faults result }
    ensures rising { (V.told vault.old).faults ≤ (V.told vault.new).faults }
{
    let text = vault.file(alloc, name)?;
    Ok(written_catalog(alloc, today, text)?)
}

/// The overdue text of a file, as it is written down as the second command of a lane.
fn overdue_record<V: Vault>(
    alloc: Global,
    vault: &mut V,
    today: Day,
    name: &str,
) -> Result<Vec<u8>, Unfounded>
    ensures record { IfOk result (λ bytes. (text : OverdueText)
        × IsTextOf ((V.told vault.old).file_bytes name.now) text.text
        × IsOverdueText text × (bytes.items ≡ payload (today, overdue_command text))) }
    ensures sized { IfOk result (λ bytes. IsSized bytes.items) }
    ensures judged { IfSome ((V.told vault.old).file_bytes name.now) (λ whole.
        IsReadAs (overdue_read (read_part whole)) result) }
    ensures of_text { (lane : ℕ) → result ≡ Err (Unfounded.NotEmpty lane) → ⊥ }
    ensures same_out { SameLanes (V.told vault.new).is_out (V.told vault.old).is_out }
    ensures same_lanes { SameLanes (V.told vault.new).lane_bytes (V.told vault.old).lane_bytes }
    ensures same_back { SameLanes (V.told vault.new).came_back (V.told vault.old).came_back }
    ensures same_files { SameFiles (V.told vault.new).file_bytes (V.told vault.old).file_bytes }
    ensures counted { CountsFaults (V.told vault.old).faults (V.told vault.new).faults result }
    ensures rising { (V.told vault.old).faults ≤ (V.told vault.new).faults }
{
    let text = vault.file(alloc, name)?;
    Ok(written_overdue(alloc, today, text)?)
}

/// A catalog text as it is written down.
fn written_catalog(alloc: Global, today: Day, text: Vec<u8>) -> Result<Vec<u8>, TextFault>
    ensures record { IfOk result (λ bytes. (catalog : CatalogText) × (catalog.text ≡ text.items)
        × IsCatalogText catalog × (bytes.items ≡ payload (today, catalog_command catalog))) }
    ensures sized { IfOk result (λ bytes. IsSized bytes.items) }
    ensures fault { IfErr result (IsFaultOf (catalog_read text.items)) }
{
    match read(alloc, text) {
        Ok(text) => {
            let key = first_key();
            written(alloc, today, &Command::Catalog(Catalog { key, text }))
        }
        Err(fault) => Err(fault),
    }
}

/// An overdue text as it is written down.
fn written_overdue(alloc: Global, today: Day, text: Vec<u8>) -> Result<Vec<u8>, TextFault>
    ensures record { IfOk result (λ bytes. (overdue : OverdueText) × (overdue.text ≡ text.items)
        × IsOverdueText overdue × (bytes.items ≡ payload (today, overdue_command overdue))) }
    ensures sized { IfOk result (λ bytes. IsSized bytes.items) }
    ensures fault { IfErr result (IsFaultOf (overdue_read text.items)) }
{
    match read_overdue(alloc, text) {
        Ok(text) => {
            let key = first_key();
            written(
                alloc,
                today,
                &Command::OverdueRules(OverdueRules { key, text }),
            )
        }
        Err(fault) => Err(fault),
    }
}

/// A command as it is written down.
fn written(alloc: Global, today: Day, command: &Command) -> Result<Vec<u8>, TextFault>
    ensures record { IfOk result (λ bytes. bytes.items ≡ payload (today, command.now)) }
    ensures sized { IfOk result (λ bytes. IsSized bytes.items) }
    ensures fault { IfErr result (λ fault. fault ≡ TextFault.Memory) }
{
    match payload_of(alloc, today, command) {
        Ok(bytes) => Ok(bytes),
        Err(_) => Err(TextFault::Memory),
    }
}

/// The key of both commands.
fn first_key() -> Name
    ensures { result ≡ first_key }
{
    Name::new(b"init").unwrap()
}

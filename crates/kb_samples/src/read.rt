//! Texts and numbers, taken for what they stand for.

use crate::fault::SampleFault;
use kb_catalog::{AddFault, Catalog, Valid};
use kb_catalog_text::TextFault;
use kb_days::{Bcd, Day, Name, Reach};
use kb_money::Currency;
use std::alloc::Global;

/// The catalog of some texts, a version each.
pub fn catalog(alloc: Global, texts: &[&str]) -> Result<Catalog, SampleFault> {
    let mut catalog = Catalog::new(alloc);
    for text in texts {
        catalog = with_version(alloc, &catalog, version(alloc, text)?)?;
    }
    Ok(catalog)
}

fn version(alloc: Global, text: &str) -> Result<Valid, SampleFault> {
    match kb_catalog_text::read(alloc, text.as_bytes().to_vec(alloc)?) {
        Ok(checked) => Ok(checked.into_parts().1),
        Err(TextFault::Memory) => Err(SampleFault::NoMemory),
        Err(_) => Err(SampleFault::Catalog),
    }
}

fn with_version(alloc: Global, catalog: &Catalog, version: Valid) -> Result<Catalog, SampleFault> {
    match catalog.add(alloc, version) {
        Ok(catalog) => Ok(catalog),
        Err(AddFault::NoMemory) => Err(SampleFault::NoMemory),
        Err(_) => Err(SampleFault::Catalog),
    }
}

/// The currency of the texts: USD.
pub fn currency() -> Result<Currency, SampleFault> {
    Currency::new(b"USD").ok_or(SampleFault::Word)
}

/// The day of a date, as `2024-03-10`.
pub fn day(date: &str) -> Result<Day, SampleFault> {
    kb_days::parse(date.as_bytes())
        .ok()
        .ok_or(SampleFault::Word)
}

/// The day of a date, among those that billing reaches.
pub fn reach(date: &str) -> Result<Reach, SampleFault> {
    Ok(day(date)?.reach())
}

/// The cycle day of a number.
pub fn bcd(number: u32) -> Result<Bcd, SampleFault> {
    Bcd::new(number).ok_or(SampleFault::Word)
}

/// The name of a text.
pub fn name(text: &str) -> Result<Name, SampleFault> {
    Name::new(text.as_bytes()).ok_or(SampleFault::Word)
}

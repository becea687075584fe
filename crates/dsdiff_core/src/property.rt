//! The property of the sound: its rate, its channels, and that it is not compressed.

ghost use Rattle.std.specs.Prelude.{◌≡◌, ◌≤◌, ◌<◌, ◌*◌, All, IfOk, length, option_map};
ghost use Rattle.dsd_bits.specs.Limits.{IsRate};
ghost use Rattle.dsdiff_core.specs.Fields.{ids_in};
ghost use Rattle.dsdiff_core.specs.Properties.{fields_in, limits_of, ids_and_number, property_of, rate_of, raw_of, stated_of};
ghost use Rattle.dsdiff_core.specs.Held.{MayBeInMemory, IsInMemory, held};
ghost use Rattle.dsdiff_core.specs.Steps.{Gives};

use crate::fault::DsdiffFault;
use crate::held::{Held, walk_inside};
use crate::once::refuse_second_in_property;
use crate::spans::{data_with, first_sound_property};
use chunk_core::{Order, Span, id_at, u16_at, u32_at};
use dsd_bits::{GREATEST_RATE, LEAST_RATE, MOST_CHANNELS};
use std::alloc::Global;

/// What the property of the sound says.
#[derive(Drop)]
pub(crate) struct SoundProperty {
    /// Hertz.
    pub(crate) rate: u32,
    /// The ID of each channel.
    pub(crate) ids: Vec<[u8; 4]>,
    /// The property's chunks.
    pub(crate) parts: Vec<Span>,
}

/// The sound property among the form's chunks.
#[tactic(auto, unfolding(crate::specs::Properties::property_of))]
pub(crate) fn read_property(
    alloc: Global,
    file: Held,
    top: &[Span],
) -> Result<SoundProperty, DsdiffFault>
    requires { All (MayBeInMemory file) top.now }
    ensures exact { Gives stated_of result (property_of (held file.entry) top.now) }
    ensures inside { IfOk result (λ p. All (IsInMemory file.entry) p.parts.items) }
    ensures rate { IfOk result (λ p. IsRate p.rate) }
    ensures number { IfOk result (λ p. (1 ≤ length p.ids.items) × (length p.ids.items ≤ 6)) }
{
    let Some(property) = first_sound_property(file, top) else {
        return Err(DsdiffFault::NoProperty);
    };
    let parts = walk_inside(alloc, file, property, property.start + 4)?;
    refuse_second_in_property(&parts)?;
    let (rate, ids) = read_fields(
        alloc,
        data_with(file, &parts, *b"FS  "),
        data_with(file, &parts, *b"CHNL"),
        data_with(file, &parts, *b"CMPR"),
    )?;
    Ok(SoundProperty { rate, ids, parts })
}

// The rate and the IDs, from the data of `FS  `, `CHNL` and `CMPR`.
#[tactic(auto, unfolding(crate::specs::Properties::fields_of))]
fn read_fields(
    alloc: Global,
    rates: Option<&[u8]>,
    names: Option<&[u8]>,
    kinds: Option<&[u8]>,
) -> Result<(u32, Vec<[u8; 4]>), DsdiffFault>
    ensures exact { Gives (λ x. (x.0, x.1.items)) result (fields_in rates.entry names.entry kinds.entry) }
    ensures rate { IfOk result (λ x. IsRate x.0) }
    ensures number { IfOk result (λ x. (1 ≤ length x.1.items) × (length x.1.items ≤ 6)) }
{
    let rate = read_rate(rates)?;
    let (number, names) = read_names(names)?;
    refuse_compression(kinds)?;
    check_limits(rate, number)?;
    let ids = read_ids(alloc, number, names)?;
    Ok((rate, ids))
}

fn read_rate(bytes: Option<&[u8]>) -> Result<u32, DsdiffFault>
    ensures { Gives (λ n. n) result (rate_of (option_map (λ x. x.now) bytes.entry)) }
{
    let Some(bytes) = bytes else {
        return Err(DsdiffFault::NoRate);
    };
    if bytes.len() < 4 {
        return Err(DsdiffFault::NoRate);
    }
    Ok(u32_at(Order::Big, bytes, 0))
}

// The channel number, and the bytes of the IDs and after them.
fn read_names(bytes: Option<&[u8]>) -> Result<(u16, &[u8]), DsdiffFault>
    ensures exact { Gives (λ x. (x.0, x.1.now)) result (ids_and_number (option_map (λ x. x.now) bytes.entry)) }
    ensures long { IfOk result (λ x. 4 * x.0 ≤ length x.1.now) }
{
    let Some(bytes) = bytes else {
        return Err(DsdiffFault::NoChannels);
    };
    if bytes.len() < 2 {
        return Err(DsdiffFault::NoChannels);
    }
    let number = u16_at(Order::Big, bytes, 0);
    if bytes.len() < 2 + 4 * number as usize {
        return Err(DsdiffFault::NoChannels);
    }
    let (_, names) = bytes.split_at(2);
    Ok((number, names))
}

// The count and the name of the compression are not read.
fn refuse_compression(bytes: Option<&[u8]>) -> Result<(), DsdiffFault>
    ensures { Gives (λ _. tt) result (raw_of (option_map (λ x. x.now) bytes.entry)) }
{
    let Some(bytes) = bytes else {
        return Err(DsdiffFault::NoCompression);
    };
    if bytes.len() < 4 {
        return Err(DsdiffFault::NoCompression);
    }
    if id_at(bytes, 0) == *b"DSD " {
        Ok(())
    } else {
        Err(DsdiffFault::Compressed(id_at(bytes, 0)))
    }
}

fn check_limits(rate: u32, number: u16) -> Result<(), DsdiffFault>
    ensures exact { Gives (λ _. tt) result (limits_of rate number) }
    ensures rate { IfOk result (λ _. IsRate rate) }
    ensures number { IfOk result (λ _. (1 ≤ number) × (number ≤ 6)) }
{
    if rate < LEAST_RATE || GREATEST_RATE < rate {
        return Err(DsdiffFault::BadRate(rate));
    }
    if number < 1 || MOST_CHANNELS < number as usize {
        return Err(DsdiffFault::BadChannelNumber(number));
    }
    Ok(())
}

fn read_ids(alloc: Global, number: u16, bytes: &[u8]) -> Result<Vec<[u8; 4]>, DsdiffFault>
    requires { 4 * number ≤ length bytes.now }
    ensures exact { Gives (λ v. v.items) result (Ok (ids_in number bytes.now)) }
    ensures number { IfOk result (λ v. length v.items ≡ number) }
{
    let mut ids = Vec::new(alloc);
    for k in 0..number as usize {
        ids.push(id_at(bytes, 4 * k))?;
    }
    Ok(ids)
}

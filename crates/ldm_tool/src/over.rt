//! What the images of a host hold after a job, past damage or not.
ghost use Rattle.std.specs.Prelude.{IfSome};
ghost use Rattle.ldm_found.specs.Facts.{IsSoundGroup, LieOn};

use ldm_bytes::NoMemory;
use ldm_damage::{Damage, find_damage};
use ldm_found::{Found, find_group};
use ldm_host::Host;
use ldm_past::past_words;
use ldm_repair::{find_shown, host_of};
use std::alloc::Global;

// The words with the option behind the first.
fn with_option(alloc: Global, words: &[String]) -> Result<Vec<String>, NoMemory> {
    let mut longer = Vec::new(alloc);
    for (place, word) in words.iter().enumerate() {
        if place == 1 {
            longer.push("--past-damage".to_string(alloc)?)?;
        }
        longer.push(word.as_str().to_string(alloc)?)?;
    }
    Ok(longer)
}

/// Whether the job of the words can read past damage.
pub fn has_option(alloc: Global, words: &[String]) -> bool {
    match with_option(alloc, words) {
        Ok(longer) => matches!(past_words(alloc, &longer), Ok(Some(_))),
        Err(NoMemory) => false,
    }
}

fn is_damaged(damage: &Damage) -> bool {
    damage.label.is_some() || damage.copy.is_some()
}

/// Whether the images of a host hold a group past damage, where something is damaged. The host comes
/// back.
pub fn opens_past<H: Host>(alloc: Global, host: H) -> (H, bool) {
    let (under, found) = find_damage(alloc, host);
    match found {
        Ok(damages) if damages.iter().any(is_damaged) && under.host.disks() > 0 => {
            let (under, group) = find_shown(alloc, under);
            (host_of(under), group.is_ok())
        }
        _ => (host_of(under), false),
    }
}

// The group that the images of a host hold past damage, where they hold one. The host comes back.
fn group_past<H: Host>(alloc: Global, host: H) -> (H, Option<Found>)
    ensures sound { IfSome result.1 IsSoundGroup }
    ensures lies { IfSome result.1 (λ found. LieOn found.labels (H.seen result.0).sizes) }
{
    let (under, found) = find_damage(alloc, host);
    if found.is_err() || under.host.disks() == 0 {
        return (host_of(under), None);
    }
    let (under, group) = find_shown(alloc, under);
    (host_of(under), group.ok())
}

/// The group that the images of a host hold, past damage or not, where they hold one. The host comes
/// back.
pub fn group_of<H: Host>(alloc: Global, host: H, past: bool) -> (H, Option<Found>)
    ensures sound { IfSome result.1 IsSoundGroup }
    ensures lies { IfSome result.1 (λ found. LieOn found.labels (H.seen result.0).sizes) }
{
    if past {
        return group_past(alloc, host);
    }
    let mut host = host;
    if host.disks() == 0 {
        return (host, None);
    }
    let found = find_group(alloc, &mut host).ok();
    (host, found)
}

//! The words of a new group: its name, and the GUIDs of its disks.
ghost use Rattle.std.specs.Prelude.{◌≡◌, IfOk};
ghost use Rattle.std.specs.List.{list_all};
ghost use Rattle.ldm_words.specs.Names.{name_of};
ghost use Rattle.ldm_words.specs.Commands.{token_bytes, many};
ghost use Rattle.ldm_words.specs.NewGroup.{is_not_zero, is_group_name, new_group_name};
ghost use Rattle.ldm_bytes.specs.Guid.{guid_of};

use crate::name::read_name;
use ldm_bytes::{Bytes, NoMemory, read_guid};
use std::alloc::Global;
use std::marker::Model;

/// The GUIDs of the disks of a new group, in the order of its images. Contracts see them as that
/// list.
#[derive(Drop)]
pub struct Guids {
    items: Vec<u128>,
}

impl Model for Guids {
    ghost use Rattle.std.specs.Prelude.{List, ℕ};

    ghost Value = { List ℕ };

    ghost view = { λ guids. guids.items.items };
}

impl Guids {
    /// The list of these GUIDs. It takes no memory.
    pub fn from_vec(items: Vec<u128>) -> Guids
        ensures { result ≡ items.items }
    {
        Guids { items }
    }

    /// The GUIDs in their order.
    pub fn as_slice(&self) -> &[u128]
        ensures { result.now ≡ self.now }
    {
        self.items.as_slice()
    }
}

// The fewest and the most disks of a new group.
const FEWEST: usize = 2;

const MOST: usize = 64;

fn has_no_zero(name: &[u8]) -> bool
    ensures { result ≡ list_all is_not_zero name.now }
{
    name.iter().all(|c| *c != 0)
}

// Whether a group may be made with this name: 1 to 30 bytes, none of them zero.
fn is_group_name(name: &[u8]) -> bool
    ensures { result ≡ is_group_name name.now }
{
    (1..=30).contains(&name.len()) && has_no_zero(name)
}

/// The name of a new group that the token is.
pub fn read_group_name(alloc: Global, token: &[u8]) -> Result<Option<Bytes>, NoMemory>
    ensures { IfOk result (λ name. name ≡ new_group_name (name_of token.now)) }
{
    let name = read_name(alloc, token)?;
    Ok(name.filter(|name| is_group_name(name.as_slice())))
}

/// The GUIDs that the tokens are, 2 to 64 of them.
pub fn read_guids(alloc: Global, tokens: &[&[u8]]) -> Result<Option<Guids>, NoMemory>
    ensures { IfOk result (λ guids. guids ≡ many 2 guid_of (token_bytes tokens.now)) }
{
    if tokens.len() < FEWEST || tokens.len() > MOST {
        return Ok(None);
    }
    let mut guids = Vec::new(alloc);
    for token in tokens {
        let Some(guid) = read_guid(token) else {
            return Ok(None);
        };
        guids.push(guid)?;
    }
    Ok(Some(Guids::from_vec(guids)))
}

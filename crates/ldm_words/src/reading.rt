//! Commands from tokens.
ghost use Rattle.std.specs.Prelude.{◌≡◌, IfOk, IfSome};
ghost use Rattle.ldm_words.specs.Names.{name_of};
ghost use Rattle.ldm_words.specs.Commands.{token_bytes, many, piece_of, columns_asked, mirror_of};
ghost use Rattle.ldm_words.specs.Commands.{layout_asked, new_name, create_of, extend_of, delete_of};
ghost use Rattle.ldm_words.specs.Commands.{command_of};
ghost use Rattle.ldm_words.specs.Equals.{IsLastEquals};
ghost use Rattle.ldm_words.specs.Limits.{IsCommand, CommandsKeepLimits};

use crate::command::{Command, Names, NewLayout, Piece, Pieces};
use crate::name::read_name;
use crate::number::read_number;
use ldm_bytes::{Bytes, NoMemory, read_guid};
use std::alloc::Global;

// The most pieces or disks of a command.
const MOST: usize = 64;

// What a stripe and RAID-5 are made of.
#[derive(Drop)]
struct Columns {
    chunk: u64,
    len: u64,
    disks: Names,
}

// The place of the last `=`.
fn last_equals(token: &[u8]) -> Option<usize>
    ensures { IsLastEquals token.now result }
{
    let mut at = token.len();
    while at > 0 {
        if token[at - 1] == b'=' {
            return Some(at - 1);
        }
        at -= 1;
    }
    None
}

// The piece that the token is.
#[tactic(auto, unfolding(crate::specs::Commands::piece_of))]
fn read_piece(alloc: Global, token: &[u8]) -> Result<Option<Piece>, NoMemory>
    ensures { IfOk result (λ piece. piece ≡ piece_of token.now) }
{
    if let Some(place) = last_equals(token)
        && let Some(len) = read_number(&token[place + 1..])
        && let Some(disk) = read_name(alloc, &token[..place])?
    {
        Ok(Some(Piece { disk, len }))
    } else {
        Ok(None)
    }
}

// The pieces that the tokens are, 1 to 64 of them.
fn read_pieces(alloc: Global, tokens: &[&[u8]]) -> Result<Option<Pieces>, NoMemory>
    ensures { IfOk result (λ pieces. pieces ≡ many 1 piece_of (token_bytes tokens.now)) }
{
    if tokens.is_empty() || tokens.len() > MOST {
        return Ok(None);
    }
    let mut pieces = Vec::new(alloc);
    for token in tokens {
        let Some(piece) = read_piece(alloc, token)? else {
            return Ok(None);
        };
        pieces.push(piece)?;
    }
    Ok(Some(Pieces::from_vec(pieces)))
}

// The names that the tokens are, `least` to 64 of them.
fn read_names(alloc: Global, tokens: &[&[u8]], least: usize) -> Result<Option<Names>, NoMemory>
    ensures { IfOk result (λ names. names ≡ many least name_of (token_bytes tokens.now)) }
{
    if tokens.len() < least || tokens.len() > MOST {
        return Ok(None);
    }
    let mut names = Vec::new(alloc);
    for token in tokens {
        let Some(name) = read_name(alloc, token)? else {
            return Ok(None);
        };
        names.push(name)?;
    }
    Ok(Some(Names::from_vec(names)))
}

// The columns that the tokens are, on `least` to 64 disks.
fn read_columns(alloc: Global, tokens: &[&[u8]], least: usize) -> Result<Option<Columns>, NoMemory>
    ensures { IfOk result (λ columns. columns ≡ columns_asked least (token_bytes tokens.now)) }
{
    if let [chunk, len, disks @ ..] = tokens
        && let Some(chunk) = read_number(chunk)
        && let Some(len) = read_number(len)
        && let Some(disks) = read_names(alloc, disks, least)?
    {
        Ok(Some(Columns { chunk, len, disks }))
    } else {
        Ok(None)
    }
}

// The mirror that the tokens are.
fn read_mirror(alloc: Global, tokens: &[&[u8]]) -> Result<Option<NewLayout>, NoMemory>
    ensures { IfOk result (λ layout. layout ≡ mirror_of (token_bytes tokens.now)) }
{
    if let [len, disks @ ..] = tokens
        && let Some(len) = read_number(len)
        && let Some(disks) = read_names(alloc, disks, 2)?
    {
        Ok(Some(NewLayout::Mirror { len, disks }))
    } else {
        Ok(None)
    }
}

// The layout of this kind that the tokens are.
fn read_layout(alloc: Global, kind: &[u8], tokens: &[&[u8]]) -> Result<Option<NewLayout>, NoMemory>
    ensures { IfOk result (λ layout. layout ≡ layout_asked kind.now (token_bytes tokens.now)) }
{
    if kind == b"span".as_slice() {
        let pieces = read_pieces(alloc, tokens)?;
        Ok(pieces.map(|pieces| NewLayout::Span { pieces }))
    } else if kind == b"stripe".as_slice() {
        let columns = read_columns(alloc, tokens, 2)?;
        Ok(columns.map(|Columns { chunk, len, disks }| NewLayout::Stripe { chunk, len, disks }))
    } else if kind == b"mirror".as_slice() {
        read_mirror(alloc, tokens)
    } else if kind == b"raid5".as_slice() {
        let columns = read_columns(alloc, tokens, 3)?;
        Ok(columns.map(|Columns { chunk, len, disks }| NewLayout::Raid5 { chunk, len, disks }))
    } else {
        Ok(None)
    }
}

// The name of a new volume.
fn read_new_name(alloc: Global, token: &[u8]) -> Result<Option<Bytes>, NoMemory>
    ensures { IfOk result (λ name. name ≡ new_name (name_of token.now)) }
{
    let name = read_name(alloc, token)?;
    Ok(name.filter(|name| (1..=63).contains(&name.as_slice().len())))
}

// The command behind the word `create`.
fn read_create(alloc: Global, tokens: &[&[u8]]) -> Result<Option<Command>, NoMemory>
    ensures { IfOk result (λ command. command ≡ create_of (token_bytes tokens.now)) }
{
    if let [name, guid, kind, rest @ ..] = tokens
        && let Some(guid) = read_guid(guid)
        && let Some(name) = read_new_name(alloc, name)?
        && let Some(layout) = read_layout(alloc, kind, rest)?
    {
        Ok(Some(Command::Create { name, guid, layout }))
    } else {
        Ok(None)
    }
}

// The command behind the word `extend`.
fn read_extend(alloc: Global, tokens: &[&[u8]]) -> Result<Option<Command>, NoMemory>
    ensures { IfOk result (λ command. command ≡ extend_of (token_bytes tokens.now)) }
{
    if let [name, pieces @ ..] = tokens
        && let Some(name) = read_name(alloc, name)?
        && let Some(pieces) = read_pieces(alloc, pieces)?
    {
        Ok(Some(Command::Extend { name, pieces }))
    } else {
        Ok(None)
    }
}

// The command behind the word `delete`.
fn read_delete(alloc: Global, tokens: &[&[u8]]) -> Result<Option<Command>, NoMemory>
    ensures { IfOk result (λ command. command ≡ delete_of (token_bytes tokens.now)) }
{
    if let [name] = tokens
        && let Some(name) = read_name(alloc, name)?
    {
        Ok(Some(Command::Delete { name }))
    } else {
        Ok(None)
    }
}

// The command that the tokens say.
#[tactic(auto, unfolding(crate::specs::Commands::command_of))]
fn read_form(alloc: Global, tokens: &[&[u8]]) -> Result<Option<Command>, NoMemory>
    ensures { IfOk result (λ found. found ≡ command_of (token_bytes tokens.now)) }
{
    let [word, rest @ ..] = tokens else {
        return Ok(None);
    };
    if *word == b"create".as_slice() {
        read_create(alloc, rest)
    } else if *word == b"extend".as_slice() {
        read_extend(alloc, rest)
    } else if *word == b"delete".as_slice() {
        read_delete(alloc, rest)
    } else {
        Ok(None)
    }
}

/// The command that the tokens say. `None` exactly where they have no reading. On a command line
/// each word is one token.
#[tactic(auto, using(crate::proofs::LimitLaws::keep_limits, crate::proofs::LimitLaws::keeps))]
pub fn read_command(alloc: Global, tokens: &[&[u8]]) -> Result<Option<Command>, NoMemory>
    ensures is { IfOk result (λ found. found ≡ command_of (token_bytes tokens.now)) }
    ensures limits { IfOk result (λ found. IfSome found IsCommand) }
    ensures all_keep { CommandsKeepLimits }
{
    read_form(alloc, tokens)
}

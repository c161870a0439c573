//! Blocks (VBLKs) as they are read: the head, and the payload of one in use.
ghost use Rattle.std.specs.Prelude.{◌≡◌, ◌≤◌, ◌<◌, All, length, IfOk};
ghost use Rattle.ldm_frags.specs.Blocks.{count, parts, payload, has_magic};
ghost use Rattle.ldm_frags.specs.Kept.{head_at, blocks_of, IsPiece, IsWholePiece};

use ldm_bytes::{Bytes, NoMemory, get_u16, get_u32};
use std::alloc::Global;

/// What the head of a block says of its record.
#[derive(Clone, Copy)]
pub struct Head {
    /// Which group a fragment is of.
    pub group: u32,
    /// Which part of its group a fragment is.
    pub part: u16,
    /// 0 in an unused block, 1 in a whole record, and more in a fragment.
    pub parts: u16,
}

/// What is kept of a block.
#[derive(Drop)]
pub struct Piece {
    pub head: Head,
    /// Empty where the block is unused.
    pub payload: Bytes,
}

/// Whether the block begins with `VBLK`.
pub fn has_magic(block: &[u8; 128]) -> bool
    ensures { result ≡ has_magic block.now 0 }
{
    get_u32(block, 0) == 0x5642_4c4b
}

/// The head of the block.
pub fn head_of(block: &[u8; 128]) -> Head
    ensures { result ≡ head_at block.now 0 }
{
    Head {
        group: get_u32(block, 8),
        part: get_u16(block, 12),
        parts: get_u16(block, 14),
    }
}

// The payload of the block.
fn payload(block: &[u8; 128]) -> &[u8]
    ensures { result.now ≡ payload block.now 0 }
{
    &block[16..]
}

/// What is kept of the block.
pub fn piece_of(alloc: Global, block: &[u8; 128]) -> Result<Piece, NoMemory>
    ensures kept { IfOk result (λ piece. IsPiece block.now 0 piece) }
    ensures whole { IfOk result (λ piece. IsWholePiece piece) }
{
    let head = head_of(block);
    let kept = if head.parts > 0 { payload(block) } else { &[] };
    let payload = Bytes::from_slice(alloc, kept)?;
    Ok(Piece { head, payload })
}

/// The piece of block `k`.
#[tactic(auto, using(crate::proofs::KeptLaws::count_of))]
pub fn piece_at(pieces: &[Piece], k: usize) -> &Piece
    requires within { k < count (blocks_of pieces.now) }
    requires small { length pieces.now ≤ 8192 }
    requires whole { All IsWholePiece pieces.now }
    ensures { IsPiece (blocks_of pieces.now) k result.now }
{
    &pieces[k]
}

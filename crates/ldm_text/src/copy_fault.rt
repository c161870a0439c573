//! The text of each fault of a copy.
ghost use Rattle.std.specs.Prelude.{◌≡◌, ◌++◌, IfOk, codes, decimal};
ghost use Rattle.ldm_words.specs.Names.{hex_byte};
ghost use Rattle.ldm_text.specs.Records.{text_of_vmdb_fault, at_block, text_of_frag_fault};
ghost use Rattle.ldm_text.specs.Records.{text_of_copy_fault};

use crate::naming::hex_byte;
use crate::parts::{Part, text_of};
use ldm_bytes::{Bytes, NoMemory};
use ldm_copy::CopyFault;
use ldm_frags::FragFault;
use ldm_payloads::RecordFault;
use ldm_vmdb::VmdbFault;
use std::alloc::Global;

fn vmdb_text(fault: VmdbFault) -> &'static [u8]
    ensures { result.now ≡ text_of_vmdb_fault fault }
{
    match fault {
        VmdbFault::Magic => b"VMDB magic",
        VmdbFault::Version => b"VMDB version",
        VmdbFault::BlockSize => b"VBLK size",
        VmdbFault::Offset => b"first VBLK offset",
        VmdbFault::Unsettled => b"VMDB not settled",
        VmdbFault::Last => b"last VBLK",
        VmdbFault::Guid => b"group GUID",
    }
}

// block B: FAULT
fn block_text(alloc: Global, block: u32, fault: &[u8]) -> Result<Bytes, NoMemory>
    ensures { IfOk result (λ text. text ≡ at_block block fault.now) }
{
    let parts = [
        Part::Word(b"block "),
        Part::Number(u64::from(block)),
        Part::Word(b": "),
        Part::Word(fault),
    ];
    text_of(alloc, &parts)
}

// The block of a fault, and its text there.
fn frag_text(fault: FragFault) -> (u32, &'static [u8])
    ensures { at_block result.0 result.1.now ≡ text_of_frag_fault fault }
{
    match fault {
        FragFault::NoMagic(block) => (block, b"no VBLK"),
        FragFault::Parts(block) => (block, b"parts"),
        FragFault::Part(block) => (block, b"part"),
        FragFault::Mixed(block) => (block, b"mixed group"),
        FragFault::Repeated(block) => (block, b"repeated part"),
        FragFault::Missing(block) => (block, b"missing part"),
    }
}

// block B: type 0xKK
fn type_text(alloc: Global, block: u32, kind: u8) -> Result<Bytes, NoMemory>
    ensures { IfOk result (λ text. text ≡ at_block block (codes "type 0x" ++ hex_byte kind)) }
{
    let digits = hex_byte(kind);
    let parts = [
        Part::Word(b"block "),
        Part::Number(u64::from(block)),
        Part::Word(b": "),
        Part::Word(b"type 0x"),
        Part::Word(&digits),
    ];
    text_of(alloc, &parts)
}

// kind K id I twice
fn same_id_text(alloc: Global, kind: u8, id: u64) -> Result<Bytes, NoMemory>
    ensures { IfOk result (λ text. text ≡ codes "kind " ++ decimal kind ++ codes " id "
        ++ decimal id ++ codes " twice") }
{
    let parts = [
        Part::Word(b"kind "),
        Part::Number(u64::from(kind)),
        Part::Word(b" id "),
        Part::Number(id),
        Part::Word(b" twice"),
    ];
    text_of(alloc, &parts)
}

/// The text of a fault of a copy.
pub fn copy_fault_text(alloc: Global, fault: CopyFault) -> Result<Bytes, NoMemory>
    ensures { IfOk result (λ text. text ≡ text_of_copy_fault fault) }
{
    match fault {
        CopyFault::Vmdb(fault) => Bytes::from_slice(alloc, vmdb_text(fault)),
        CopyFault::Frag(fault) => {
            let (block, text) = frag_text(fault);
            block_text(alloc, block, text)
        }
        CopyFault::BadRecord(block, RecordFault::Malformed) => {
            block_text(alloc, block, b"malformed")
        }
        CopyFault::BadRecord(block, RecordFault::UnknownType(kind)) => {
            type_text(alloc, block, kind)
        }
        CopyFault::SameId { kind, id } => same_id_text(alloc, kind, id),
    }
}

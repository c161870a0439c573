//! All blocks of a list at once.
ghost use Rattle.std.specs.Prelude.{◌≡◌, ◌≤◌, ◌%◌, ◌↔◌, List, Some, None, length};
ghost use Rattle.ldm_frags.specs.declared.faults.FragFault.{FragFault};
ghost use Rattle.ldm_frags.specs.declared.faults.Joined.{Joined};
ghost use Rattle.ldm_frags.specs.Blocks.{count};
ghost use Rattle.ldm_frags.specs.Faults.{first_block_fault};
ghost use Rattle.ldm_frags.specs.Joins.{Joins};
ghost use Rattle.ldm_written.specs.Written.{Placed, Holds, joined_below};
ghost use Rattle.ldm_frags.specs.Answers.{AnswersBlocks};
ghost use Rattle.ldm_written.specs.Answers.{GivesList, Refuses};

use ldm_frags::{FragError, FragFault, Joined, Joiner};
use std::alloc::Global;

// The list of all blocks, or the first fault.
fn join_each(alloc: Global, blocks: &[u8]) -> Result<Vec<Joined>, FragError>
    requires whole { length blocks.now % 128 ≡ 0 }
    requires small { length blocks.now ≤ 1048576 }
    ensures { AnswersBlocks blocks.now result }
{
    let mut joiner = Joiner::new(alloc, (blocks.len() / 128) as u32)?;
    joiner.feed_all(blocks)?;
    joiner.finish()
}

/// The records that the blocks hold, in the order of their whole blocks and blocks of part 0, or
/// the first fault. `blocks` is the blocks from number 4 on.
pub fn join(alloc: Global, blocks: &[u8]) -> Result<Vec<Joined>, FragError>
    requires whole { length blocks.now % 128 ≡ 0 }
    requires small { length blocks.now ≤ 1048576 }
    ensures answers { AnswersBlocks blocks.now result }
    // A list is answered exactly where it is joined.
    ensures joined { (list : List Joined) → Joins blocks.now list → GivesList result list }
    // Each fault is answered exactly where it is the first.
    ensures refused { (fault : FragFault) → first_block_fault blocks.now ≡ Some fault
        → Refuses result fault }

    // There is a fault exactly where no list is joined, and at most one list is.
    ensures faultless { (first_block_fault blocks.now ≡ None)
        ↔ ((list : List Joined) × Joins blocks.now list) }
    ensures one { (a b : List Joined) → Joins blocks.now a → Joins blocks.now b → a ≡ b }
    // Blocks that hold records join to these, wherever their parts stand.
    ensures held { (records : List Placed) → Holds blocks.now records
        → Joins blocks.now (joined_below records (count blocks.now)) }
{
    join_each(alloc, blocks)
}

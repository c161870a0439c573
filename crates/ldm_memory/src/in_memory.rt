//! The calls of a host in memory.
// A host in memory is a host that tells everything.
use crate::MemoryHost;
use crate::outcome::{hand, is_read_to_fail, next_outcome, read_in};
use crate::steps::{end_call, end_read, hear_part, say_part, sync_part, write_part};
use ldm_host::{DiskRange, Failed, Host};

impl Host for MemoryHost {
    ghost use Rattle.std.specs.Prelude.{⊤};
    ghost use Rattle.ldm_memory.specs.Memory.{memory_seen};
    ghost use Rattle.ldm_memory.specs.Ending.{EndsCall};
    ghost use Rattle.ldm_memory.specs.Laws.{law_one_each, law_counts_each, law_lengths, law_may_stay};
    ghost use Rattle.ldm_memory.specs.Laws.{law_same_length, law_left_bytes, law_bytes_since};
    ghost use Rattle.ldm_memory.specs.Laws.{law_counts_now, law_only_now};

    ghost seen = { memory_seen };

    ghost tells_disks = { ⊤ };

    ghost tells_talk = { ⊤ };

    ghost ending = { EndsCall };

    ghost tells_both = { λ both. both };

    ghost one_each = { λ tells m. law_one_each m };

    ghost counts_each = { λ m. law_counts_each m };

    ghost lengths = { λ tells m disk lt. law_lengths m disk };

    ghost may_stay = { λ tells m disk lt. law_may_stay m disk };

    ghost same_length = { λ m disk c left. law_same_length m disk c left };

    ghost left_bytes = { λ m disk c left. law_left_bytes m disk c left };

    ghost bytes_since = { λ m t images said left disk lt. law_bytes_since m t images said left disk };

    ghost counts_now = { λ m t images le left. law_counts_now m t images le left };

    ghost only_now = { λ m images said left. law_only_now m images said left };

    fn disks(&self) -> usize {
        self.held.len()
    }

    fn sectors(&self, disk: usize) -> u64 {
        (self.held[disk].len() / 512) as u64
    }

    fn read_at(&mut self, disk: usize, at: u64, buf: &mut [u8]) -> Result<(), Failed> {
        let outcome = next_outcome(&self.chosen, self.stop, &mut self.number);
        let length = buf.len();
        let range = DiskRange { disk, at, length };
        let fails = is_read_to_fail(outcome, &self.bad, range);
        let done = end_read(
            &mut self.failed,
            range,
            fails,
            &mut self.disk_faults,
            &mut self.dry,
        );
        read_in(&self.held, done.is_ok(), disk, at as usize, buf);
        done
    }

    fn write_at(&mut self, disk: usize, at: u64, bytes: &[u8]) -> Result<(), Failed> {
        let outcome = next_outcome(&self.chosen, self.stop, &mut self.number);
        hand(&mut self.handed, disk, bytes.len());
        let found = write_part(
            &mut self.calls,
            &mut self.held,
            self.alloc,
            outcome,
            disk,
            at as usize,
            bytes,
        );
        end_call(outcome, found, &mut self.disk_faults, &mut self.dry)
    }

    fn sync(&mut self, disk: usize) -> Result<(), Failed> {
        let outcome = next_outcome(&self.chosen, self.stop, &mut self.number);
        let found = sync_part(&mut self.calls, outcome, disk);
        end_call(outcome, found, &mut self.disk_faults, &mut self.dry)
    }

    fn hear(&mut self, buf: &mut [u8]) -> Result<usize, Failed> {
        let outcome = next_outcome(&self.chosen, self.stop, &mut self.number);
        let heard = hear_part(&mut self.calls, &mut self.heard, &self.script, outcome, buf);
        end_call(outcome, heard.is_ok(), &mut self.talk_faults, &mut self.dry).and(heard)
    }

    fn say(&mut self, bytes: &[u8]) -> Result<(), Failed> {
        let outcome = next_outcome(&self.chosen, self.stop, &mut self.number);
        let found = say_part(&mut self.calls, &mut self.said, self.alloc, outcome, bytes);
        end_call(outcome, found, &mut self.talk_faults, &mut self.dry)
    }
}

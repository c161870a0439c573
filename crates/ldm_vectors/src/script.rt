//! The sample script: lines that are drawn from a seed.
ghost use Rattle.std.specs.Prelude.{◌≡◌, ◌≢◌, ◌/◌, ◌^◌, ◌≤◌, IfOk, length, string_bytes};
ghost use Rattle.ldm_vectors.specs.Script.{advanced, span_line, mirror_line, extend_line};
ghost use Rattle.ldm_vectors.specs.Script.{delete_line, sample_line, script_of};

use ldm_bytes::NoMemory;
use std::alloc::Global;

/// How many lines the sample script has.
const LINES: u64 = 200;

/// The state of the generator.
#[derive(Drop)]
struct Draws {
    state: u64,
}

impl Draws {
    // The next draw: the upper 31 bits of the next state.
    fn next(&mut self) -> u64
        ensures state { self.new.state ≡ advanced self.old.state }
        ensures is { result ≡ self.new.state / 2 ^ 33 }
    {
        self.state = self
            .state
            .wrapping_mul(6_364_136_223_846_793_005)
            .wrapping_add(1_442_695_040_888_963_407);
        self.state >> 33
    }
}

fn span_line(alloc: Global, line: u64, value: u64) -> Result<String, NoMemory>
    ensures { IfOk result (λ text. string_bytes text ≡ span_line line value) }
{
    let disk = 1 + value % 3;
    let size = 1 + value / 3 % 64;
    Ok(format!(in alloc;
        "create V{line} eeeeeeee-eeee-eeee-eeee-eeeeeeeeeeee span Disk{disk}={size}\n"
    )?)
}

fn mirror_line(alloc: Global, line: u64, value: u64) -> Result<String, NoMemory>
    ensures { IfOk result (λ text. string_bytes text ≡ mirror_line line value) }
{
    let size = 1 + value % 64;
    Ok(format!(in alloc;
        "create V{line} eeeeeeee-eeee-eeee-eeee-eeeeeeeeeeee mirror {size} Disk1 Disk2\n"
    )?)
}

fn extend_line(alloc: Global, line: u64, value: u64) -> Result<String, NoMemory>
    requires { line ≢ 0 }
    ensures { IfOk result (λ text. string_bytes text ≡ extend_line line value) }
{
    let volume = 1 + value % line;
    let disk = 1 + value / 512 % 3;
    let size = 1 + value % 64;
    Ok(format!(in alloc; "extend V{volume} Disk{disk}={size}\n")?)
}

fn delete_line(alloc: Global, line: u64, value: u64) -> Result<String, NoMemory>
    requires { line ≢ 0 }
    ensures { IfOk result (λ text. string_bytes text ≡ delete_line line value) }
{
    let volume = 1 + value % line;
    Ok(format!(in alloc; "delete V{volume}\n")?)
}

// The line of this number, from 1 on, by two draws.
fn line_of(alloc: Global, line: u64, kind: u64, value: u64) -> Result<String, NoMemory>
    requires { line ≢ 0 }
    ensures { IfOk result (λ text. string_bytes text ≡ sample_line line kind value) }
{
    match kind % 4 {
        0 => span_line(alloc, line, value),
        1 => mirror_line(alloc, line, value),
        2 => extend_line(alloc, line, value),
        _ => delete_line(alloc, line, value),
    }
}

/// The sample script of a seed: 200 lines that create, extend and delete volumes of the group of
/// three sample images.
pub fn sample_script(alloc: Global, seed: u64) -> Result<Vec<u8>, NoMemory>
    ensures is { IfOk result (λ script. script.items ≡ script_of seed) }
    ensures short { IfOk result (λ script. length script.items ≤ 20000) }
{
    let mut draws = Draws { state: seed };
    let mut script = Vec::new(alloc);
    for line in 0..LINES {
        let kind = draws.next();
        let value = draws.next();
        let text = line_of(alloc, line + 1, kind, value)?;
        script.extend_from_slice(text.as_bytes())?;
    }
    Ok(script)
}

//! Looks at the disks of a Windows dynamic disk group, and edits its volumes:
//! `ldm JOB on IMAGE...`.
//!
//! The jobs are those of `run`, whose contract is the theorem of the program, and `repair` and
//! `dump --rescue` have contracts of their own; `main` and the `FileHost` that it makes are the
//! trusted edge.
#![tactic(auto)]

ghost use Rattle.std.specs.Prelude.{◌≡◌, ◌<◌, ◌≤◌, IfOk, IfSome, length, true, vec_len};
ghost use Rattle.ldm_look.specs.Runs.{HasImages};
ghost use Rattle.ldm_explain.specs.Sights.{IsSight};
ghost use Rattle.ldm_words.specs.Jobs.{texts, job_of, KeepsLimits};
ghost use Rattle.ldm_past.specs.PastWords.{reads_past, is_read_as};

mod kept;
mod over;
mod rescue;
mod scan;

use kept::Kept;
use ldm_bytes::NoMemory;
use ldm_console::{Counted, JobHelp, Meter, Tally, UsageError, tell, usage_error};
use ldm_damage::Damage;
use ldm_edge::{
    HELP, Stop, VERSION, Written, ending, exit_code, open_images, stop_unopened, words_of,
};
use ldm_explain::{Sight, behind_text, damage_text, explain, repair_text, untabled_text};
use ldm_files::{Access, Failure, FileHost, ImageFile, take_closed_streams};
use ldm_host::Host;
use ldm_locks::{System, hold};
use ldm_past::{past_words, run_past};
use ldm_repair::{Ran, repair, repair_images};
use ldm_rescue::rescue_words;
use ldm_run::run;
use ldm_words::{Job, Status, WordsError, read_words};
use over::{group_of, has_option, opens_past};
use rescue::rescue_files;
use scan::scan_files;
use std::alloc::Global;
use std::io;
use std::io::{IsTerminal, Read, Write};
use std::process::ExitCode;

// What is told without a job.
#[derive(Clone, Copy)]
enum Told {
    Text(&'static str),
    Help(JobHelp),
}

// What the words ask to be told, if they do. No job has such words.
fn asked_for(words: &[String]) -> Option<Told> {
    match words {
        [word] => match word.as_str() {
            "help" | "--help" | "-h" => Some(Told::Text(HELP)),
            "--version" => Some(Told::Text(VERSION)),
            _ => None,
        },
        [word, job] if word.as_str() == "help" => JobHelp::of(job.as_str()).map(Told::Help),
        [job, word] if word.as_str() == "--help" || word.as_str() == "-h" => {
            JobHelp::of(job.as_str()).map(Told::Help)
        }
        _ => None,
    }
}

// What a job asks of the outside before it begins: how it opens its images, what it may have written
// where it doesn't come to its end, beside lines that were answered, whether it hears a script, and
// which of its bytes tell how far it has come.
#[derive(Clone, Copy)]
struct Needs {
    access: Access,
    writes: Option<Written>,
    script: bool,
    counted: Option<Counted>,
}

const REPAIR: Needs = Needs {
    access: Access::Edit,
    writes: Some(Written::Copies),
    script: false,
    counted: None,
};

const RESCUE: Needs = Needs {
    access: Access::Read,
    writes: None,
    script: false,
    counted: Some(Counted::Said),
};

// Which of the standard streams are terminals.
#[derive(Clone, Copy)]
struct Terminals {
    input: bool,
    error: bool,
}

fn needs_of(job: &Job) -> Needs {
    Needs {
        access: if job.edits() {
            Access::Edit
        } else {
            Access::Read
        },
        writes: match job {
            Job::Init { .. } => Some(Written::NewGroup),
            _ => None,
        },
        script: matches!(job, Job::Try(_) | Job::Edit(_)),
        counted: match job {
            Job::Dump { .. } => Some(Counted::Said),
            Job::Scrub { .. } => Some(Counted::Read),
            _ => None,
        },
    }
}

// A job that writes needs an output that takes its replies, before it writes. To write nothing
// there fails where it is closed, open for reading alone, or a device that is always full.
fn try_output<O: Write>(needs: Needs, output: &mut O) -> io::Result<()> {
    if needs.access == Access::Edit {
        output.write(b"")?;
    }
    Ok(())
}

// What is counted of a job: the lines of one that writes, and the bytes of a long one where they
// are told on a terminal.
fn tally_of<'a>(rt: &'a HostRuntime, needs: Needs, terminals: Terminals) -> Tally<'a> {
    match needs {
        Needs {
            access: Access::Edit,
            ..
        } => Tally::Lines(0),
        Needs {
            counted: Some(counted),
            ..
        } if terminals.error => match Meter::start(rt, counted) {
            Ok(meter) => Tally::Bytes(meter),
            // Without a clock the job goes on untold.
            Err(_) => Tally::Nothing,
        },
        _ => Tally::Nothing,
    }
}

// What a job has written by its end: whether it handed a byte to a disk, and the lines that it said,
// where they are counted.
fn written_by(needs: Needs, has_written: bool, lines: Option<u64>) -> Written {
    match lines {
        _ if needs.access == Access::Read => Written::Never,
        _ if !has_written => Written::Nothing,
        lines => needs.writes.unwrap_or(Written::Lines(lines.unwrap_or(0))),
    }
}

// Holds the images of these names for a job that writes, in their order.
fn hold_images<'a>(
    rt: &HostRuntime,
    images: &[ImageFile],
    names: &'a [String],
) -> Result<(), Stop<'a, UsageError<'a>>> {
    let system = System::of_machine();
    for (i, image) in images.iter().enumerate() {
        if let Err(error) = hold(rt, &system, image, &images[..i]) {
            let name = names.get(i).map_or("", |name| name.as_str());
            return Err(stop_unopened(i, name, error));
        }
    }
    Ok(())
}

// Opens the images of these names, and holds them for a job that writes.
fn open_held<'a>(
    rt: &HostRuntime,
    names: &'a [String],
    needs: Needs,
) -> Result<Vec<ImageFile>, Stop<'a, UsageError<'a>>>
    ensures { IfOk result (λ images. vec_len images ≡ length names.now) }
{
    let images = open_images::<UsageError<'a>>(rt.alloc(), rt, names, needs.access)?;
    if needs.access == Access::Edit {
        hold_images(rt, images.as_slice(), names)?;
    }
    Ok(images)
}

// When it is seen what the images hold, by which a refusal is explained.
#[derive(Clone, Copy, PartialEq, Eq)]
enum Seen {
    Before,
    After,
    Never,
}

// Before an edit of more lines than one, since those that are done change the group. A refusal is
// explained where one sits at a terminal, but that of a job past damage, which isn't of the images
// as they stand.
fn seen_when(job: &Job, past: bool, terminals: Terminals) -> Seen {
    match job {
        _ if past || !terminals.error => Seen::Never,
        Job::Sample(_) => Seen::Never,
        Job::Edit(_) => Seen::Before,
        _ => Seen::After,
    }
}

// Runs the words over a host, past damage or not.
fn run_asked<H: Host>(alloc: Global, words: &[String], past: bool, host: H) -> Ran<H>
    requires images { HasImages (job_of (texts words.now)) (H.seen host) }
    requires reads { past ≡ true → is_read_as reads_past (job_of (texts words.now)) ≡ true }
{
    if past {
        return run_past(alloc, words, host);
    }
    let mut host = host;
    let status = run(alloc, words, &mut host);
    Ran {
        host,
        status,
        damages: None,
    }
}

// Runs the words, which ask for this job, over a host. What the images hold is seen where a refusal
// is to be explained by it.
#[tactic(auto, using(crate::proofs::ImageLaws::images_stay))]
fn run_over<H: Host>(
    alloc: Global,
    words: &[String],
    past: bool,
    names: &[String],
    job: &Job,
    seen: Seen,
    host: H,
) -> (Ran<H>, Option<Sight>)
    requires images { HasImages (job_of (texts words.now)) (H.seen host) }
    requires reads { past ≡ true → is_read_as reads_past (job_of (texts words.now)) ≡ true }
    ensures { IfSome result.1 IsSight }
{
    let mut host = host;
    match seen {
        Seen::Before => {
            let sight = Sight::of(alloc, &mut host, names, job);
            (run_asked(alloc, words, past, host), sight)
        }
        Seen::After => {
            let mut ran = run_asked(alloc, words, past, host);
            if ran.status != Status::Refused {
                return (ran, None);
            }
            let sight = Sight::of(alloc, &mut ran.host, names, job);
            (ran, sight)
        }
        Seen::Never => (run_asked(alloc, words, past, host), None),
    }
}

// Tells what was damaged, unless the answer says it.
fn tell_damage(
    rt: &HostRuntime,
    names: &[String],
    job: &Job,
    status: Status,
    damages: Option<Vec<Damage>>,
) {
    if matches!(job, Job::Check(_)) && status == Status::Done {
        return;
    }
    if let Some(damages) = damages
        && let Ok(text) = damage_text(rt.alloc(), names, &damages)
    {
        let _ = rt.stderr().write_all(text.as_slice());
    }
}

// Explains a refusal by what was seen of the images, and heard of the script.
fn explain_end(rt: &HostRuntime, job: &Job, script: &[u8], status: Status, sight: Option<Sight>)
    requires limits { KeepsLimits job.now }
    requires sound { IfSome sight IsSight }
{
    if status != Status::Refused {
        return;
    }
    if let Some(sight) = sight
        && let Ok(text) = explain(rt.alloc(), sight, job, script)
    {
        let _ = rt.stderr().write_all(text.as_slice());
    }
}

// Tells what is damaged on images that were repaired, or that were left as they were.
fn tell_repair(rt: &HostRuntime, names: &[String], status: Status, damages: Option<Vec<Damage>>) {
    if let Some(damages) = damages
        && let Ok(text) = repair_text(rt.alloc(), names, &damages, status == Status::Done)
    {
        let _ = rt.stderr().write_all(text.as_slice());
    }
}

// Whether a job says what the disks of volumes hold, or where: then old data would be taken for new.
fn reads_volumes(job: &Job) -> bool {
    matches!(
        job,
        Job::Show(_) | Job::Dump { .. } | Job::Scrub { .. } | Job::Table { .. } | Job::Tables { .. }
    )
}

// Tells which images are behind, where a job on volumes was answered at a terminal. The host comes
// back.
fn tell_behind<H: Host>(rt: &HostRuntime, names: &[String], past: bool, told: bool, host: H) -> H {
    if !told {
        return host;
    }
    let (host, found) = group_of(rt.alloc(), host, past);
    if let Some(found) = found
        && let Ok(text) = behind_text(rt.alloc(), names, &found)
    {
        let _ = rt.stderr().write_all(text.as_slice());
    }
    host
}

// Tells which volumes the text of all tables leaves out, once it was said, and why. The host comes
// back.
fn tell_untabled<H: Host>(rt: &HostRuntime, job: &Job, past: bool, status: Status, host: H) -> H {
    let images = match job {
        Job::Tables { images } if status == Status::Done => images,
        _ => return host,
    };
    let (host, found) = group_of(rt.alloc(), host, past);
    if let Some(found) = found
        && let Ok(text) = untabled_text(rt.alloc(), &host, &found, images)
    {
        let _ = rt.stderr().write_all(text.as_slice());
    } else {
        let _ = eprint!(rt;
            "ldm: it isn't known which volumes have no table: the images weren't read again\n"
        );
    }
    host
}

// Whether a job changes a group that is there.
fn changes_group(job: &Job) -> bool {
    matches!(job, Job::Edit(_) | Job::One { .. })
}

// Whether a job refused images which hold a group past what is damaged on them, when it would read
// on with the option or could be done behind a repair.
fn refused_damage<H: Host + Drop>(
    alloc: Global,
    words: &[String],
    job: &Job,
    refused: bool,
    host: H,
) -> bool {
    if !refused || !(changes_group(job) || has_option(alloc, words)) {
        return false;
    }
    let (_, opens) = opens_past(alloc, host);
    opens
}

// Tells what to do about damage that a job refused.
fn tell_way_on(rt: &HostRuntime, words: &[String], job: &Job) {
    if changes_group(job) {
        let _ = eprint!(rt;
            "ldm: ldm check --past-damage says what is damaged, and ldm repair makes damaged \
             copies of the database anew\n"
        );
    } else if let [job, ..] = words {
        let _ = eprint!(rt; "ldm: to read on past this damage: ldm {job} --past-damage ...\n");
    }
}

// Tells that a script is waited for, where one sits at a terminal.
fn tell_waiting(rt: &HostRuntime, needs: Needs, terminals: Terminals) {
    if terminals.input && needs.script {
        let _ = eprint!(rt;
            "ldm: waiting for the lines of a script on the terminal; Ctrl-D ends them\n"
        );
    }
}

// Opens the images that the command line names, and runs the words, which are those of the command
// line or of its job that is to read past damage, over them and these streams. All images are open,
// and locked where the job writes, before the first of its calls; `scan` goes on without those that
// don't open.
fn run_job<'a, I, O>(
    rt: &HostRuntime,
    line: &'a [String],
    words: &[String],
    past: bool,
    input: I,
    mut output: O,
    terminals: Terminals,
) -> Result<Status, Stop<'a, UsageError<'a>>>
where
    I: Read + Drop,
    O: Write + Drop,
    requires shorter { length words.now ≤ length line.now }
    requires reads { past ≡ true → is_read_as reads_past (job_of (texts words.now)) ≡ true }
{
    let alloc = rt.alloc();
    let (job, count) = match read_words(alloc, words) {
        Err(WordsError::Usage) => return Err(Stop::Usage(usage_error(alloc, line))),
        Err(WordsError::NoMemory) => return Err(Stop::NoMemory(Written::Never)),
        Ok(read) => read,
    };
    let names = &line[line.len() - count..];
    if let Job::Scan(format) = &job {
        return scan_files(rt, names, format, input, output);
    }
    let needs = needs_of(&job);
    let unwritten = written_by(needs, false, None);
    let images = open_held(rt, names, needs)?;
    if let Err(error) = try_output(needs, &mut output) {
        let failure = Some(Failure::Output(error));
        return ending(Status::TalkFault, names, failure, unwritten);
    }
    tell_waiting(rt, needs, terminals);
    let tally = tally_of(rt, needs, terminals);
    let mut input = Kept::new(alloc, input, terminals.error && needs.script);
    let host = match FileHost::new(alloc, images, &mut input, output, tally) {
        Ok(host) => host,
        Err(NoMemory) => return Err(Stop::NoMemory(unwritten)),
    };
    let seen = seen_when(&job, past, terminals);
    let (ran, sight) = run_over(alloc, words, past, names, &job, seen, host);
    let Ran {
        host,
        status,
        damages,
    } = ran;
    host.watch().end();
    let written = written_by(needs, host.has_written(), host.watch().lines());
    let ended = ending(status, names, host.failure(), written);
    let told = terminals.error && ended.is_ok() && reads_volumes(&job);
    let host = tell_behind(rt, names, past, told, host);
    let host = tell_untabled(rt, &job, past, status, host);
    let refused = terminals.error && !past && status == Status::Refused;
    let damaged = refused_damage(alloc, words, &job, refused, host);
    tell_damage(rt, names, &job, status, damages);
    explain_end(rt, &job, input.kept(), status, sight);
    if damaged {
        tell_way_on(rt, words, &job);
    }
    ended
}

// Opens so many images at the end of the words, and repairs them. All are open and locked before the
// first call of one.
fn run_repair<'a, I, O>(
    rt: &HostRuntime,
    words: &'a [String],
    count: usize,
    input: I,
    mut output: O,
) -> Result<Status, Stop<'a, UsageError<'a>>>
where
    I: Read + Drop,
    O: Write + Drop,
    requires some { 0 < count }
    requires within { count ≤ length words.now }
{
    let alloc = rt.alloc();
    let names = &words[words.len() - count..];
    let unwritten = written_by(REPAIR, false, None);
    let images = open_held(rt, names, REPAIR)?;
    if let Err(error) = try_output(REPAIR, &mut output) {
        let failure = Some(Failure::Output(error));
        return ending(Status::TalkFault, names, failure, unwritten);
    }
    let host = match FileHost::new(alloc, images, input, output, Tally::Nothing) {
        Ok(host) => host,
        Err(NoMemory) => return Err(Stop::NoMemory(unwritten)),
    };
    let Ran {
        host,
        status,
        damages,
    } = repair(alloc, host);
    let written = written_by(REPAIR, host.has_written(), None);
    let ended = ending(status, names, host.failure(), written);
    drop(host);
    tell_repair(rt, names, status, damages);
    ended
}

// Runs words without an option over these streams: those of a repair or of a job.
fn run_plain<'a, I, O>(
    rt: &HostRuntime,
    words: &'a [String],
    input: I,
    output: O,
    terminals: Terminals,
) -> Result<Status, Stop<'a, UsageError<'a>>>
where
    I: Read + Drop,
    O: Write + Drop,
{
    match repair_images(rt.alloc(), words) {
        Err(NoMemory) => Err(Stop::NoMemory(Written::Never)),
        Ok(Some(count)) => run_repair(rt, words, count, input, output),
        Ok(None) => run_job(rt, words, words, false, input, output, terminals),
    }
}

// Runs words that are none of a rescue over these streams: past damage or not.
fn run_unrescued<'a, I, O>(
    rt: &HostRuntime,
    words: &'a [String],
    input: I,
    output: O,
    terminals: Terminals,
) -> Result<Status, Stop<'a, UsageError<'a>>>
where
    I: Read + Drop,
    O: Write + Drop,
{
    match past_words(rt.alloc(), words) {
        Err(NoMemory) => Err(Stop::NoMemory(Written::Never)),
        Ok(Some(rest)) => run_job(rt, words, &rest, true, input, output, terminals),
        Ok(None) => run_plain(rt, words, input, output, terminals),
    }
}

// Runs the words of the command line over these streams.
fn run_words<'a, I, O>(
    rt: &HostRuntime,
    words: &'a [String],
    input: I,
    output: O,
    terminals: Terminals,
) -> Result<Status, Stop<'a, UsageError<'a>>>
where
    I: Read + Drop,
    O: Write + Drop,
{
    match rescue_words(rt.alloc(), words) {
        Err(NoMemory) => Err(Stop::NoMemory(Written::Never)),
        Ok(Some(asked)) => rescue_files(rt, words, asked, input, output, terminals),
        Ok(None) => run_unrescued(rt, words, input, output, terminals),
    }
}

// Says the help of a job.
fn tell_help<'a>(rt: &HostRuntime, help: JobHelp) -> Result<Status, Stop<'a, UsageError<'a>>> {
    match format!(in rt.alloc(); "{help}") {
        Ok(text) => tell(rt.stdout(), text.as_str()),
        Err(_) => Err(Stop::NoMemory(Written::Never)),
    }
}

// Does what the words of the command line ask.
fn do_words<'a>(rt: &HostRuntime, words: &'a [String]) -> Result<Status, Stop<'a, UsageError<'a>>> {
    match asked_for(words) {
        Some(Told::Text(text)) => tell(rt.stdout(), text),
        Some(Told::Help(help)) => tell_help(rt, help),
        None => {
            let input = rt.stdin();
            let terminals = Terminals {
                input: input.is_terminal(),
                error: rt.stderr().is_terminal(),
            };
            run_words(rt, words, input, rt.stdout(), terminals)
        }
    }
}

fn main(rt: HostRuntime) -> ExitCode {
    // Where it fails, an image that gets the descriptor of a closed stream is refused.
    let _ = take_closed_streams(&rt);
    match words_of::<UsageError<'_>>(rt.alloc(), &rt) {
        Ok(words) => exit_code(&rt, do_words(&rt, &words)),
        Err(stop) => exit_code(&rt, Err(stop)),
    }
}

#[cfg(test)]
mod rescue_tests;
#[cfg(test)]
mod tests;

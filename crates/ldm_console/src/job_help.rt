//! The help of one job: its forms and what it does, by the help, and more of it.
use crate::usage::UsageError;
use ldm_edge::{FormError, HELP, form_in, told_in, word_of};
use std::fmt;

// What is said of a job or a command beside its lines of the help.
const JOBS: [(&str, &str); 21] = [
    (
        "disk",
        "The image may be that of a disk whose group is incomplete. What is wrong with a label is explained in\ndocs/FORMAT.md. With --json behind disk it is one JSON value.",
    ),
    (
        "scan",
        "The images may be of any groups, or of none. Each has a line of its own, and none is refused for another. With\n--json behind scan it is one JSON value.",
    ),
    (
        "records",
        "Each line is a record: its type, id and name, and how long its own spelling is. With --json behind records it is\none JSON value, which has the fields of each record.",
    ),
    (
        "show",
        "Images of one group may come in any order, and some may be missing. The names that it says are what the other\njobs take. With --json behind show it is one JSON value. With --past-damage there it reads on\npast damaged labels and copies of the database.",
    ),
    (
        "check",
        "It says the sequence of each copy, and the first reason why the group may not be edited, if there is one.\nWith --json behind check it is one JSON value. With --past-damage there it reads on past damaged labels and copies of\nthe database, and says first what is damaged.",
    ),
    (
        "map",
        "FIRST is a sector of the volume, from 0 on. Each line names the disk, the sector of its data area, and that of\nits image. With --json behind map it is one JSON value. With --past-damage there it reads on past damaged labels and\ncopies of the database.\n\nexample: ldm map 'Volume1' 0 1 on disk1.img disk2.img",
    ),
    (
        "dump",
        "Standard output has the sectors of the volume and nothing else; they are all that were asked for where the status is\n0. FIRST is a sector of the volume, from 0 on. Where a dump ended early, the sectors from FIRST on are still to come,\nwhich is the length of what it said by 512. With --past-damage behind dump it reads on past damaged labels and copies\nof the database.\nWith --rescue there it goes on where a sector can't be read from any of its disks, or lies on disks that are absent: it\nsays zeros for what is lost, and tells on standard error which sectors those are and why, with status 1.\n\nexample: ldm dump 'Volume1' on disk1.img disk2.img > volume1\nexample: ldm dump --rescue 'Volume1' on disk1.img disk2.img > volume1 2> lost",
    ),
    (
        "scrub",
        "It needs all disks of the volume, and writes nothing. The status is 1 where a place is bad. With --json behind scrub\neach line is a JSON value. With --past-damage there it reads on past damaged labels and copies of the database.",
    ),
    (
        "table",
        "Each image is named in the table by its word here, so an image that is a file needs a loop device first.\nWithout VOLUME all volumes that have a table are made by one text, and each other is named on standard error. With\n--past-damage behind table it reads on past damaged labels and copies of the database.\n\nexample: dmsetup create --concise \"$(ldm table 'Volume1' on /dev/loop0 /dev/loop1)\"",
    ),
    (
        "try",
        "It writes nothing. Each line has one reply: ok and the sequence of the group then, held, or refused and why.\nWith --json behind try each reply is a JSON value.\n\nexample: ldm try on disk1.img disk2.img < script",
    ),
    ("sample", "It reads no image and writes to none."),
    (
        "edit",
        "All images of the group are named. Each line has one reply, when it is done on all disks; one that is refused\nchanges nothing. Whatever a stop leaves is the group after the lines that were answered, or one more.\nWith --json behind edit each reply is a JSON value.\n\nexample: ldm try on disk1.img disk2.img < script && ldm edit on disk1.img disk2.img < script",
    ),
    (
        "repair",
        "All images of the group are named. A copy of the database that is damaged, closed or of a lower sequence is made anew\nof the group that check --past-damage says; that can't be undone, so look at it first. A damaged label is refused.\nThe answer is ok, the sequence of the group, and how many copies were damaged. Whatever a stop leaves is that group\nwhere it is read with --past-damage.\n\nexample: ldm check --past-damage on disk1.img disk2.img && ldm repair on disk1.img disk2.img",
    ),
    (
        "init",
        "It writes sector 0, sector 6 and the last 2048 sectors of each disk, whose first 63 and last 2048 sectors have to\nbe zero. NAME has 1 to 30 bytes.",
    ),
    (
        "create",
        "NAME has 1 to 63 bytes, and GUID is the volume's own, as uuidgen makes one. Each partition lies at the first free\nsectors of its disk that are enough. What the sectors held stays.",
    ),
    (
        "extend",
        "A mirror gets one piece for each of its copies, in the order of show and all of one length.",
    ),
    (
        "delete",
        "The volume, its components and their partitions go. Its sectors stay as they are.",
    ),
    (
        "begin",
        "A command in a batch sees what those before it make. One that is refused leaves the batch open, without it.",
    ),
    (
        "commit",
        "Whatever a stop leaves has all commands of the batch or none.",
    ),
    ("cancel", "The end of a script cancels a batch too."),
    ("help", "ldm help alone says all jobs."),
];

// The forms of a command before its images, where the help has more than one.
const CREATE: &str = "create NAME GUID span|stripe|mirror|raid5 .. on IMAGE...";

/// The help of a job, a command or a word of a batch.
#[derive(Clone, Copy)]
pub struct JobHelp {
    name: &'static str,
    more: &'static str,
}

impl JobHelp {
    /// The help of the job of this name, if there is one.
    pub fn of(name: &str) -> Option<JobHelp> {
        for (job, more) in JOBS {
            if job == name {
                return Some(JobHelp { name: job, more });
            }
        }
        None
    }
}

// What stands behind the form of a line of the help where it is the words of a job.
fn images_behind(form: &str) -> &'static str {
    match word_of(form) {
        "create" | "extend" | "delete" => " on IMAGE...",
        _ => "",
    }
}

// A line of the help, of a form.
fn write_form<W: fmt::Write>(
    form: &str,
    told: Option<&str>,
    f: &mut fmt::Formatter<W>,
) -> fmt::Result {
    match form {
        "begin" | "commit" | "cancel" => write!(f, "a line of a script: {form}\n")?,
        _ => write!(f, "usage: ldm {form}{}\n", images_behind(form))?,
    }
    match told {
        Some(told) => write!(f, "  {told}\n"),
        None => Ok(()),
    }
}

impl fmt::Display for JobHelp {
    fn fmt<W: fmt::Write>(&self, f: &mut fmt::Formatter<W>) -> fmt::Result {
        if self.name == "help" {
            write!(f, "usage: ldm help JOB\n")?;
        }
        for line in HELP.lines() {
            if let Some(form) = form_in(line) {
                if word_of(form) == self.name {
                    write_form(form, told_in(line), f)?;
                }
            }
        }
        write!(f, "\n{}\n", self.more)
    }
}

// The form of a job, and what it does, by the first line of the help that says both.
fn form_and_told(name: &str) -> Option<(&'static str, &'static str)> {
    match name {
        "create" => return Some((CREATE, "a new volume")),
        "delete" => return Some(("delete NAME on IMAGE...", "the volume goes")),
        "extend" => {
            return Some((
                "extend NAME DISK=SECTORS... on IMAGE...",
                "more pieces at the end of a span or a mirror",
            ));
        }
        _ => {}
    }
    for line in HELP.lines() {
        if let Some(form) = form_in(line) {
            if word_of(form) == name {
                return Some((form, told_in(line)?));
            }
        }
    }
    None
}

/// Why a job that stands alone has no reading, with its form.
pub fn alone<'a>(why: FormError<'a>, word: &'a str) -> UsageError<'a> {
    match form_and_told(word) {
        Some((form, told)) => UsageError::Alone {
            why,
            job: word,
            form,
            told,
        },
        None => UsageError::Form(why),
    }
}

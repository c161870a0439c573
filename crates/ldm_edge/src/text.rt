//! The help and the version. The script `ldm` takes the help from here too, from its first line to
//! the one that ends it.

/// What `--version` says. The version stands here, and the manual page says the same.
pub const VERSION: &str = "ldm 1.0.0\n";

/// What `--help` says.
pub const HELP: &str = "\
usage: ldm JOB on IMAGE...

An image is a raw image of a whole disk, or a block device. Those of a group may come in any order.

These jobs read:

  disk on IMAGE                          the private header and the table of contents of a disk
  records on IMAGE                       the records of the copy of the database on a disk
  scan on IMAGE...                       the group and the disk that each image is of, each image alone
  show on IMAGE...                       the disks, volumes, components and partitions of a group
  check on IMAGE...                      what each image holds, and whether the group may be edited
  map VOLUME FIRST COUNT on IMAGE...     where sectors of a volume lie, 4096 at most
  dump VOLUME on IMAGE...                the bytes of a volume, also where a disk is absent that isn't needed
  dump VOLUME FIRST COUNT on IMAGE...    those of COUNT sectors of it, from FIRST on
  scrub VOLUME on IMAGE...               where the copies of a mirror, or the parity of a RAID-5, disagree
  table VOLUME on IMAGE...               what dmsetup create --concise takes, to mount a volume where it lies, read-only
  table on IMAGE...                      the same of all volumes of the group that have such a table
  try on IMAGE...                        what the lines of a script on standard input would make of a group
  sample SEED                            an edit of 200 lines that a number draws, of a group in memory

With --json behind its name, disk, records, scan, show, check or map says one JSON value: ldm show --json on IMAGE...
With it scrub, try, edit or a COMMAND says a JSON value for each line: ldm edit --json on IMAGE...
With --past-damage there, show, check, map, dump, scrub or table reads on past damaged labels and copies of the database.
With --rescue there, dump goes on where sectors are lost: it says zeros for them, and tells which on standard error.

These write, to all images of the group. No other program may write to them meanwhile:

  edit on IMAGE...                        does the lines of a script on standard input
  repair on IMAGE...                      makes copies of the database anew that are damaged or behind the others
  COMMAND on IMAGE...                     does one line, whose words these are
  init NAME GUID DISKGUID... on IMAGE...  makes a new group of empty disks, 2 to 64: a DISKGUID for each image

A line of a script is a COMMAND, or a word of a batch:

  create NAME GUID span DISK=SECTORS...                   1 to 64 pieces, one after another
  create NAME GUID stripe CHUNK SECTORS DISK DISK...      SECTORS on each of 2 to 64 disks
  create NAME GUID mirror SECTORS DISK DISK...            SECTORS on each of 2 to 64 disks
  create NAME GUID raid5 CHUNK SECTORS DISK DISK DISK...  SECTORS on each of 3 to 64 disks
  extend NAME DISK=SECTORS...                             more pieces at the end of a span or a mirror
  delete NAME
  begin                                                   the commands from here on are held
  commit                                                  they are done as one change, all or none
  cancel                                                  they are given up

SECTORS and CHUNK are counted in sectors of 512 bytes. NAME and DISK are written as show says them. Each new
volume, group and disk has a GUID of its own: uuidgen makes one.

  ldm help, ldm --help, ldm -h   this text
  ldm help JOB                   what a job or a COMMAND takes and does, as ldm JOB --help says too
  ldm --version                  the version

The exit status:

  0 answered                     3 an image doesn't open, or can't be read or written
  1 refused                      4 no memory
  2 the words have no reading    5 standard input or output failed

example: ldm map 'Volume1' 0 1 on disk1.img disk2.img
";

//! The lines of bad places, written in memory that was taken before.
ghost use Rattle.std.specs.Prelude.{◌≡◌, ◌++◌, ◌+◌, ◌*◌, ◌/◌, ◌%◌, ◌<◌, ◌≤◌, ◌^◌, ℕ, Bool, List};
ghost use Rattle.std.specs.Prelude.{[], length, take, slice_index, flat_map, count_by, decimal};
ghost use Rattle.std.specs.Prelude.{if◌then◌else◌};
ghost use Rattle.std.specs.List.{range_with_len};
ghost use Rattle.ldm_places.specs.declared.shape.Shape.TheVariants.{Raid5};
ghost use Rattle.ldm_scrub.specs.Compare.{mark};
ghost use Rattle.ldm_json.specs.Values.{line_of_json};
ghost use Rattle.ldm_words.specs.declared.job.Format.TheVariants as formats;
ghost use Rattle.ldm_scrub.specs.ScrubJson.{differing_json, failing_json};
ghost use Rattle.ldm_scrub.specs.Lines.{text_of_differing, text_of_failing, differing_line};
ghost use Rattle.ldm_scrub.specs.Lines.{failing_line, bad_line, counts_line};

use itoa::Buffer;
use ldm_layout::{Plan, Shape};
use ldm_words::Format;

/// The most bytes of a line.
pub const LINE: usize = 100;

// Puts a text behind so many bytes of the page, and answers where it ends.
fn push(page: &mut [u8], used: usize, text: &[u8]) -> usize
    requires { used + length text.now ≤ length page.old }
    ensures end { result ≡ used + length text.now }
    ensures is { take result page.new ≡ take used page.old ++ text.now }
{
    let end = used + text.len();
    page[used..end].copy_from_slice(text);
    end
}

// Puts a number there.
fn push_number(page: &mut [u8], used: usize, number: u64) -> usize
    requires { used + 20 ≤ length page.old }
    ensures end { result ≤ used + 20 }
    ensures is { take result page.new ≡ take used page.old ++ decimal number }
{
    let mut buffer = Buffer::new();
    push(page, used, buffer.format(number).as_bytes())
}

// Puts the words of a sector whose copies differ there.
fn push_sector(page: &mut [u8], used: usize, sector: u64) -> usize
    requires { used + LINE ≤ length page.old }
    ensures end { result ≤ used + LINE }
    ensures is { take result page.new ≡ take used page.old ++ text_of_differing sector }
{
    let at = push(page, used, b"sector ");
    let at = push_number(page, at, sector);
    push(page, at, b" differs\n")
}

// Puts the JSON of such a sector there.
fn push_sector_json(page: &mut [u8], used: usize, sector: u64) -> usize
    requires { used + LINE ≤ length page.old }
    ensures end { result ≤ used + LINE }
    ensures is { take result page.new
        ≡ take used page.old ++ line_of_json (differing_json sector) }
{
    let at = push(page, used, b"{\"sector\":");
    let at = push_number(page, at, sector);
    push(
        page,
        at,
        b",\"row\":null,\"offset\":null,\"fault\":\"differs\"}\n",
    )
}

// Puts the line of such a sector there.
fn push_differing(page: &mut [u8], used: usize, format: &Format, sector: u64) -> usize
    requires { used + LINE ≤ length page.old }
    ensures end { result ≤ used + LINE }
    ensures is { take result page.new ≡ take used page.old ++ differing_line format.now sector }
{
    match format {
        Format::Lines => push_sector(page, used, sector),
        Format::Json(_) => push_sector_json(page, used, sector),
    }
}

// Puts the words of a row whose parity fails at an offset there.
fn push_row(page: &mut [u8], used: usize, row: u64, offset: u64) -> usize
    requires { used + LINE ≤ length page.old }
    ensures end { result ≤ used + LINE }
    ensures is { take result page.new ≡ take used page.old ++ text_of_failing row offset }
{
    let at = push(page, used, b"row ");
    let at = push_number(page, at, row);
    let at = push(page, at, b" offset ");
    let at = push_number(page, at, offset);
    push(page, at, b" parity fails\n")
}

// Puts the JSON of such a row there.
fn push_row_json(page: &mut [u8], used: usize, row: u64, offset: u64) -> usize
    requires { used + LINE ≤ length page.old }
    ensures end { result ≤ used + LINE }
    ensures is { take result page.new
        ≡ take used page.old ++ line_of_json (failing_json row offset) }
{
    let at = push(page, used, b"{\"sector\":null,\"row\":");
    let at = push_number(page, at, row);
    let at = push(page, at, b",\"offset\":");
    let at = push_number(page, at, offset);
    push(page, at, b",\"fault\":\"parity fails\"}\n")
}

// Puts the line of such a row there.
fn push_failing(page: &mut [u8], used: usize, format: &Format, row: u64, offset: u64) -> usize
    requires { used + LINE ≤ length page.old }
    ensures end { result ≤ used + LINE }
    ensures is { take result page.new ≡ take used page.old ++ failing_line format.now row offset }
{
    match format {
        Format::Lines => push_row(page, used, row, offset),
        Format::Json(_) => push_row_json(page, used, row, offset),
    }
}

// Puts the line of a bad place there.
fn push_line(page: &mut [u8], used: usize, format: &Format, plan: &Plan, place: u64) -> usize
    requires { used + LINE ≤ length page.old }
    ensures end { result ≤ used + LINE }
    ensures is { take result page.new ≡ take used page.old ++ bad_line format.now plan.now place }
{
    match plan.shape() {
        Shape::Raid5 => {
            let chunk = plan.chunk();
            push_failing(page, used, format, place / chunk, place % chunk)
        }
        _ => push_differing(page, used, format, place),
    }
}

// Puts the line of a place there, where it is marked.
fn push_marked(
    page: &mut [u8],
    used: usize,
    format: &Format,
    plan: &Plan,
    place: u64,
    m: u8,
) -> usize
    requires { used + LINE ≤ length page.old }
    ensures end { result ≤ used + LINE }
    ensures is { (bad : Bool) → m ≡ mark bad
        → take result page.new ≡ take used page.old ++ (if bad then bad_line
        format.now plan.now place else []) }
{
    if m == 1 {
        push_line(page, used, format, plan, place)
    } else {
        used
    }
}

/// Puts the lines of the marked places from this one on at the front of the page, and answers where
/// they end.
pub fn push_lines(page: &mut [u8], format: &Format, plan: &Plan, place: u64, marks: &[u8]) -> usize
    requires room { LINE * length marks.now ≤ length page.old }
    requires within { place + length marks.now < 2 ^ 64 }
    ensures end { result ≤ length page.old }
    ensures is { (bad : ℕ → Bool) → ((i : ℕ) → i < length marks.now
        → slice_index marks.now i ≡ mark (bad (place + i)))
        → take result page.new ≡ flat_map (λ p. if bad p then bad_line format.now plan.now p else [])
        (range_with_len place (length marks.now)) }
{
    let mut used = 0;
    'marks: for i in 0..marks.len() {
        used = push_marked(page, used, format, plan, place + i as u64, marks[i]);
    }
    used
}

// 1 for a mark of a bad place, and 0 for another.
fn one_if(m: u8) -> u64
    ensures few { result ≤ 1 }
    ensures is { (bad : Bool) → m ≡ mark bad → result ≡ (if bad then 1 else 0) }
{
    u64::from(m == 1)
}

/// How many places from this one on are marked.
pub fn count_marks(marks: &[u8]) -> u64
    ensures few { result ≤ length marks.now }
    ensures is { (place : ℕ) (bad : ℕ → Bool)
        → ((i : ℕ) → i < length marks.now → slice_index marks.now i ≡ mark (bad (place + i)))
        → result ≡ count_by bad (range_with_len place (length marks.now)) }
{
    let mut count = 0;
    'marks: for i in 0..marks.len() {
        let one = one_if(marks[i]);
        count += one;
    }
    count
}

// Puts the words of the last line at the front of the page, and answers where it ends.
fn push_end_text(page: &mut [u8], front: &[u8], checked: u64, bad: u64) -> usize
    requires { length front.now + LINE ≤ length page.old }
    ensures end { result ≤ length page.old }
    ensures is { take result page.new ≡ counts_line formats.Lines front.now checked bad }
{
    let at = push(page, 0, front);
    let at = push(page, at, b" checked ");
    let at = push_number(page, at, checked);
    let at = push(page, at, b" bad ");
    let at = push_number(page, at, bad);
    push(page, at, b"\n")
}

// Puts the JSON of the last line there.
fn push_end_json(page: &mut [u8], front: &[u8], checked: u64, bad: u64) -> usize
    requires { length front.now + LINE ≤ length page.old }
    ensures end { result ≤ length page.old }
    ensures is { (paths : List (List ℕ)) → take result page.new
        ≡ counts_line (formats.Json paths) front.now checked bad }
{
    let at = push(page, 0, front);
    let at = push(page, at, b",\"checked\":");
    let at = push_number(page, at, checked);
    let at = push(page, at, b",\"bad\":");
    let at = push_number(page, at, bad);
    push(page, at, b"}\n")
}

/// Puts the last line, which begins so, at the front of the page, and answers where it ends.
pub fn push_end(page: &mut [u8], format: &Format, front: &[u8], checked: u64, bad: u64) -> usize
    requires { length front.now + LINE ≤ length page.old }
    ensures end { result ≤ length page.old }
    ensures is { take result page.new ≡ counts_line format.now front.now checked bad }
{
    match format {
        Format::Lines => push_end_text(page, front, checked, bad),
        Format::Json(_) => push_end_json(page, front, checked, bad),
    }
}

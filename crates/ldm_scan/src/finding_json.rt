//! The JSON of what was found of images.
ghost use Rattle.std.specs.Prelude.{◌≡◌, ◌++◌, OnOk, IfOk, flat_map, codes};
ghost use Rattle.std.specs.Option.{option_map};
ghost use Rattle.json.specs.Tree.{json_tokens};
ghost use Rattle.ldm_json.specs.Values.{json_array, line_of_json};
ghost use Rattle.ldm_scan.specs.Findings.{unknown_json, finding_json, finding_jsons};

use crate::finding::Finding;
use ldm_bytes::{Bytes, NoMemory};
use ldm_json::{Json, Scalar};
use ldm_look::push_scanned_json;
use ldm_words::Paths;
use std::alloc::Global;

// The object of an image of which nothing is known, and why.
fn push_unknown<'a>(
    json: &mut Json,
    paths: &'a Paths,
    image: usize,
    state: &'a str,
    reason: &'a [u8],
) -> Result<(), NoMemory>
    ensures { OnOk result (json.new ≡ json.old
        ++ json_tokens (unknown_json paths.now image state.now reason.now)) }
{
    let fields = [
        ("image", Scalar::Number(image as u64)),
        ("path", Scalar::MaybeWord(paths.get(image))),
        ("state", Scalar::Word(state)),
        ("group", Scalar::Null),
        ("group_guid", Scalar::Null),
        ("disk", Scalar::Null),
        ("disk_guid", Scalar::Null),
        ("sequence", Scalar::Null),
        ("reason", Scalar::Said(reason)),
        ("format", Scalar::Null),
        ("partition_style", Scalar::Null),
    ];
    json.object(&fields)
}

// The object of an image.
fn push_finding_json(
    alloc: Global,
    json: &mut Json,
    paths: &Paths,
    image: usize,
    finding: &Finding,
) -> Result<(), NoMemory>
    ensures { OnOk result (json.new
        ≡ json.old ++ json_tokens (finding_json paths.now (image, finding.now))) }
{
    match finding {
        Finding::Unopened(cause) => push_unknown(json, paths, image, "unopened", cause.as_slice()),
        Finding::Unread => push_unknown(json, paths, image, "unread", b"a read failed"),
        Finding::Known(scanned) => push_scanned_json(alloc, json, paths, image, scanned),
    }
}

// The objects of all images.
fn push_all(
    alloc: Global,
    json: &mut Json,
    paths: &Paths,
    findings: &[Finding],
) -> Result<(), NoMemory>
    ensures { OnOk result (json.new
        ≡ json.old ++ flat_map json_tokens (finding_jsons paths.now findings.now)) }
{
    for (image, finding) in findings.iter().enumerate() {
        push_finding_json(alloc, json, paths, image, finding)?;
    }
    Ok(())
}

/// An array with an object for each image, on a line.
pub(crate) fn findings_line(
    alloc: Global,
    paths: &Paths,
    findings: &[Finding],
) -> Result<Bytes, NoMemory>
    ensures { IfOk result (λ text. text
        ≡ line_of_json (json_array (finding_jsons paths.now findings.now))) }
{
    let mut json = Json::new(alloc);
    json.begin_array()?;
    push_all(alloc, &mut json, paths, findings)?;
    json.end_array()?;
    json.into_line()
}

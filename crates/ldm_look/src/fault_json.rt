//! The JSON of a fault.
ghost use Rattle.std.specs.Prelude.{◌≡◌, ◌++◌, OnOk, IfOk, None};
ghost use Rattle.json.specs.Tree.{json_tokens};
ghost use Rattle.ldm_json.specs.Values.{line_of_json};
ghost use Rattle.ldm_look.specs.FaultJson.{kind_of_fault, naming, fault_names, named_json, fault_json};
ghost use Rattle.ldm_look.specs.FaultJson.{unnamed_json, refusal_json};

use crate::opening::fault_text;
use crate::paths::{image_number, path_of};
use ldm_bytes::{Bytes, NoMemory};
use ldm_copy::OpenFault;
use ldm_json::{Json, Scalar};
use ldm_words::Paths;
use std::alloc::Global;

/// What a fault names: images, a rule, and the id of a disk or another object.
#[derive(Clone, Copy)]
pub(crate) struct Named {
    pub(crate) image: Option<usize>,
    pub(crate) other: Option<usize>,
    pub(crate) rule: Option<u64>,
    pub(crate) id: Option<u64>,
}

/// The word of a kind of faults.
pub(crate) fn kind_word(fault: &OpenFault) -> &'static str
    ensures { result.now ≡ kind_of_fault fault.now }
{
    match fault {
        OpenFault::Label(_, _) => "label",
        OpenFault::SameDisk(_, _) => "same disk",
        OpenFault::Copy(_, _) => "copy",
        OpenFault::NoCopy => "no copy",
        OpenFault::Split(_, _) => "split",
        OpenFault::Stranger(_) => "stranger",
        OpenFault::Rule(_) => "rule",
        OpenFault::Absent(_) => "absent",
        OpenFault::FewDisks => "few disks",
        OpenFault::AreaSmall(_) => "area small",
        OpenFault::AreaClash(_) => "area clash",
    }
}

// The images of a fault, and nothing else.
fn of_images(image: Option<usize>, other: Option<usize>) -> Named
    ensures { result ≡ naming image other None None }
{
    Named {
        image,
        other,
        rule: None,
        id: None,
    }
}

// A rule and an id, and nothing else.
fn of_object(rule: Option<u64>, id: Option<u64>) -> Named
    ensures { result ≡ naming None None rule id }
{
    Named {
        image: None,
        other: None,
        rule,
        id,
    }
}

fn fault_names(fault: &OpenFault) -> Named
    ensures { result ≡ fault_names fault.now }
{
    match *fault {
        OpenFault::Label(image, _)
        | OpenFault::Copy(image, _)
        | OpenFault::Stranger(image)
        | OpenFault::AreaSmall(image)
        | OpenFault::AreaClash(image) => of_images(Some(image), None),
        OpenFault::SameDisk(image, other) | OpenFault::Split(image, other) => {
            of_images(Some(image), Some(other))
        }
        OpenFault::Rule(fault) => of_object(Some(u64::from(fault.rule)), Some(fault.id)),
        OpenFault::Absent(id) => of_object(None, Some(id)),
        OpenFault::NoCopy | OpenFault::FewDisks => of_images(None, None),
    }
}

// What refuses for a fault of this kind, which names these and has this text.
fn push_refusal<'a>(
    json: &mut Json,
    paths: &'a Paths,
    kind: &'a str,
    named: Named,
    text: &'a [u8],
) -> Result<(), NoMemory>
    ensures { OnOk result (json.new ≡ json.old ++ json_tokens (refusal_json
        (named_json paths.now kind.now named text.now))) }
{
    let fields = [
        ("kind", Scalar::Word(kind)),
        ("image", Scalar::Maybe(image_number(named.image))),
        ("path", Scalar::MaybeWord(path_of(paths, named.image))),
        ("other_image", Scalar::Maybe(image_number(named.other))),
        ("other_path", Scalar::MaybeWord(path_of(paths, named.other))),
        ("rule", Scalar::Maybe(named.rule)),
        ("id", Scalar::Maybe(named.id)),
        ("reason", Scalar::Said(text)),
    ];
    json.object_in("refused", &fields)
}

/// The JSON that refuses for a fault, on a line.
pub(crate) fn refusal_line(
    alloc: Global,
    paths: &Paths,
    fault: &OpenFault,
) -> Result<Bytes, NoMemory>
    ensures { IfOk result (λ text. text
        ≡ line_of_json (refusal_json (fault_json paths.now fault.now))) }
{
    let text = fault_text(alloc, fault)?;
    let mut json = Json::new(alloc);
    let kind = kind_word(fault);
    push_refusal(&mut json, paths, kind, fault_names(fault), text.as_slice())?;
    json.into_line()
}

/// The JSON that refuses for a reason which names nothing, and which is its kind too, on a line.
pub(crate) fn reason_line(alloc: Global, paths: &Paths, reason: &str) -> Result<Bytes, NoMemory>
    ensures { IfOk result (λ text. text
        ≡ line_of_json (refusal_json (unnamed_json reason.now reason.now))) }
{
    let mut json = Json::new(alloc);
    let named = of_images(None, None);
    push_refusal(&mut json, paths, reason, named, reason.as_bytes())?;
    json.into_line()
}

/// The JSON that refuses for a reason of this kind, which names an object at most, on a line.
pub(crate) fn named_line(
    alloc: Global,
    paths: &Paths,
    kind: &str,
    id: Option<u64>,
    reason: &[u8],
) -> Result<Bytes, NoMemory>
    ensures { IfOk result (λ text. text ≡ line_of_json (refusal_json
        (named_json paths.now kind.now (naming None None None id) reason.now))) }
{
    let mut json = Json::new(alloc);
    push_refusal(&mut json, paths, kind, of_object(None, id), reason)?;
    json.into_line()
}

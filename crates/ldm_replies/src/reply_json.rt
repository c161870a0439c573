//! The JSON of replies.
ghost use Rattle.std.specs.Prelude.{◌≡◌, IfOk};
ghost use Rattle.ldm_json.specs.Values.{json_of, line_of_json};
ghost use Rattle.ldm_replies.specs.ReplyJson.{reply_word, reply_reason, reply_sequence, reply_json};

use crate::reason_text;
use ldm_bytes::{Bytes, NoMemory};
use ldm_edits::Reply;
use ldm_json::{Json, Scalar};
use std::alloc::Global;

fn reply_word(reply: &Reply) -> &'static str
    ensures { result.now ≡ reply_word reply.now }
{
    match reply {
        Reply::Done(_) => "ok",
        Reply::Held => "held",
        Reply::Dropped => "dropped",
        Reply::Refused(_) => "refused",
    }
}

fn reply_sequence(reply: &Reply) -> Option<u64>
    ensures { result ≡ reply_sequence reply.now }
{
    match reply {
        Reply::Done(seq) => Some(*seq),
        _ => None,
    }
}

// The JSON of a reply, where this says why the line is refused.
fn line_with<'a>(
    alloc: Global,
    line: u64,
    reply: &Reply,
    reason: Scalar<'a>,
) -> Result<Bytes, NoMemory>
    requires { json_of reason ≡ reply_reason reply.now }
    ensures { IfOk result (λ text. text ≡ line_of_json (reply_json (line, reply.now))) }
{
    let fields = [
        ("line", Scalar::Number(line)),
        ("result", Scalar::Word(reply_word(reply))),
        ("reason", reason),
        ("sequence", Scalar::Maybe(reply_sequence(reply))),
    ];
    let mut json = Json::new(alloc);
    json.object(&fields)?;
    json.into_line()
}

/// The JSON of the reply to the line of this number, on a line.
pub(crate) fn reply_line(alloc: Global, line: u64, reply: &Reply) -> Result<Bytes, NoMemory>
    ensures { IfOk result (λ text. text ≡ line_of_json (reply_json (line, reply.now))) }
{
    match reply {
        Reply::Refused(refusal) => {
            let text = reason_text(alloc, refusal)?;
            line_with(alloc, line, reply, Scalar::Said(text.as_slice()))
        }
        _ => line_with(alloc, line, reply, Scalar::Null),
    }
}

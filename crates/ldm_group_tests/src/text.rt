//! The text of each fault of a label.
use ldm_label::LabelFault;
use ldm_text::label_fault_text;
use std::test::Fail;

const TEXTS: [(LabelFault, &str); 21] = [
    (LabelFault::Short, "too short"),
    (LabelFault::NoSignature, "no signature"),
    (LabelFault::NoLdmEntry, "no 0x42 entry"),
    (LabelFault::NoGpt, "no GPT header"),
    (LabelFault::GptSize, "GPT header size"),
    (LabelFault::GptChecksum, "GPT header checksum"),
    (LabelFault::GptEntries, "GPT entries"),
    (LabelFault::GptRange, "GPT range"),
    (LabelFault::EntriesChecksum, "GPT entries checksum"),
    (LabelFault::NoMetadata, "no LDM metadata partition"),
    (LabelFault::MetadataSize, "LDM metadata partition size"),
    (LabelFault::MetadataRange, "LDM metadata partition range"),
    (LabelFault::NoPrivhead, "no PRIVHEAD"),
    (LabelFault::Version, "PRIVHEAD version"),
    (LabelFault::DatabaseSize, "database size"),
    (LabelFault::Range, "range"),
    (LabelFault::Guid, "disk GUID"),
    (LabelFault::PrivheadsDiffer(3), "PRIVHEAD 3 differs"),
    (LabelFault::NoToc, "no TOCBLOCK"),
    (LabelFault::TocsDiffer, "TOCBLOCKs differ"),
    (LabelFault::TocRange, "TOCBLOCK range"),
];

#[test]
fn says_each_fault_of_a_label(rt: HostRuntime) -> Result<(), Fail> {
    for (fault, want) in &TEXTS {
        let text = label_fault_text(rt.alloc(), *fault)?;
        assert!(rt; text.as_slice() == want.as_bytes(), "{want}");
    }
    Ok(())
}

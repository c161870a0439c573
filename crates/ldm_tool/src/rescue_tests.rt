//! What is told of a rescue.
use crate::rescue::{LastLines, LossLine};
use ldm_rescue::{Cause, Loss, Totals};
use std::io;
use std::test::Fail;

// What is told of ranges that are lost for these causes, over images of the names `a` and `b`.
const LOST: [(Cause, Option<i32>, &str); 4] = [
    (
        Cause::Absent(1030),
        None,
        "ldm: lost 96256+7: disk 1030 is absent\n",
    ),
    (
        Cause::Unread(1),
        Some(5),
        "ldm: lost 96256+7: image 1 (b): Input/output error (os error 5)\n",
    ),
    (
        Cause::Unread(0),
        None,
        "ldm: lost 96256+7: image 0 (a) can't be read\n",
    ),
    (
        Cause::Unread(2),
        None,
        "ldm: lost 96256+7: image 2 () can't be read\n",
    ),
];

#[test]
fn tells_ranges_that_are_lost(rt: HostRuntime) -> Result<(), Fail> {
    let alloc = rt.alloc();
    let mut names = Vec::new(alloc);
    for name in ["a", "b"] {
        names.push(String::from_str(alloc, name)?)?;
    }
    for (cause, number, text) in LOST {
        let loss = Loss {
            first: 96256,
            count: 7,
            cause,
        };
        let line = LossLine {
            loss,
            names: &names,
            error: number.map(io::Error::from_raw_os_error),
        };
        assert_eq!(rt; format!(in alloc; "{line}")?.as_str(), text);
    }
    Ok(())
}

#[test]
fn tells_how_much_was_rescued(rt: HostRuntime) -> Result<(), Fail> {
    let totals = |sectors, lost| Some(Totals { sectors, lost });
    for (more, totals, text) in [
        (0, None, ""),
        (
            0,
            totals(192_512, 96_256),
            "ldm: 192512 sectors: 96256 said, 96256 lost\n",
        ),
        (1, None, "ldm: 1 more range is lost\n"),
        (
            23,
            totals(400, 0),
            "ldm: 23 more ranges are lost\nldm: 400 sectors: 400 said, 0 lost\n",
        ),
    ] {
        let lines = LastLines { more, totals };
        assert_eq!(rt; format!(in rt.alloc(); "{lines}")?.as_str(), text);
    }
    Ok(())
}

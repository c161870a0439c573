//! Jobs that read past damage: what they say of the sample group, an image of which is damaged.
use crate::edit::play;
use std::test::Fail;

// A copy of the database has a block that is none: it refuses the group, and past damage it counts as
// closed.
const COPY: &str = "\
$ create Data bbbbbbbb-bbbb-bbbb-bbbb-bbbbbbbbbbbb span Disk1=2048 Disk2=10 on A B C
1 ok 8
= 0 ABC
! 1.copy+200=57
$ check on A B C
refused: image 1: block 4: no VBLK
= 1
$ check --past-damage on A B C
image 1 passed over: block 4: no VBLK
image 0 sequence 8
image 1 closed
image 2 sequence 8
ok: editable
= 0
$ check --past-damage --json on A B C
{\"editable\":true,\"kind\":null,\"reason\":null,\"images\":[{\"image\":0,\"path\":\"A\",\"sequence\":8,\"headers\":3,\"tables\":4},{\"image\":1,\"path\":\"B\",\"sequence\":null,\"headers\":3,\"tables\":4},{\"image\":2,\"path\":\"C\",\"sequence\":8,\"headers\":3,\"tables\":4}],\"absent\":[],\"damaged\":[{\"image\":1,\"path\":\"B\",\"mended\":null,\"passed_over\":\"block 4: no VBLK\"}]}
= 0
$ map Data 2048 1 on A B C
refused: image 1: block 4: no VBLK
= 1
$ map --past-damage Data 2048 1 on A B C
2048 copy 0 Disk2 0 at 63
= 0
$ map --json --past-damage Data 2048 1 on B A
[{\"sector\":2048,\"copy\":0,\"parity\":false,\"disk\":\"Disk2\",\"image\":0,\"path\":\"B\",\"start\":0,\"image_start\":63}]
= 0
$ dump --past-damage Data 0 0 on A B C
refused: bad range
= 1
$ dump --past-damage Data on B C
refused: sector 0 is lost
= 1
$ show --past-damage on B
refused: no open copy
= 1
$ edit --past-damage on A B C
= 2
$ disk --past-damage on A
= 2";

// A label is mended by the last sector, and then isn't, since no copy of the private header is good.
const LABEL: &str = "\
! 1.zero+0=
! 1.zero+6=
$ show on A B
refused: image 1: no signature
= 1
$ check --past-damage on A B
image 1 mended: no signature
image 0 sequence 7
image 1 sequence 7
ok: not editable: disk 4 is absent
= 0
! 1.copy+200=57
$ check --past-damage on A B C
image 1 mended: no signature
image 1 passed over: block 4: no VBLK
image 0 sequence 7
image 1 closed
image 2 sequence 7
ok: editable
= 0
$ check --json --past-damage on C B A
{\"editable\":true,\"kind\":null,\"reason\":null,\"images\":[{\"image\":0,\"path\":\"C\",\"sequence\":7,\"headers\":3,\"tables\":4},{\"image\":1,\"path\":\"B\",\"sequence\":null,\"headers\":3,\"tables\":4},{\"image\":2,\"path\":\"A\",\"sequence\":7,\"headers\":3,\"tables\":4}],\"absent\":[],\"damaged\":[{\"image\":1,\"path\":\"B\",\"mended\":\"no signature\",\"passed_over\":\"block 4: no VBLK\"}]}
= 0
! 1.zero+1f40=
! 1.zero+1fff=
$ show --past-damage on A B C
refused: image 1: no signature
= 1";

// The one image that holds the next sequence, as after a stop in the middle of a command, is
// damaged: past damage the group is the one before.
const LOWER: &str = "\
! 1.copy+7c=08
$ check on A B C
image 0 sequence 7
image 1 sequence 8
image 2 sequence 7
ok: editable
= 0
! 1.copy+200=57
$ check --past-damage on A B C
image 1 passed over: block 4: no VBLK
image 0 sequence 7
image 1 closed
image 2 sequence 7
ok: editable
= 0";

#[test]
fn reads_past_damage(rt: HostRuntime) -> Result<(), Fail> {
    for text in [COPY, LABEL, LOWER] {
        play(rt.alloc(), &rt, 3, 64, text)?;
    }
    Ok(())
}
